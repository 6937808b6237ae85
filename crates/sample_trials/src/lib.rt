// Tests of the label kinds, the stack and the sinks, by tables and by small second computations.
#![tactic(auto)]

#[cfg(test)]
mod label_tests;
#[cfg(test)]
mod sink_tests;
#[cfg(test)]
mod stack_tests;
