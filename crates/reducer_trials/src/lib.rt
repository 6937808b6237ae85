// Tests of the reducer on small drawings and on a ladder of cuts.
#![tactic(auto)]

#[cfg(test)]
mod ladder;
#[cfg(test)]
mod tensor_against_par;
#[cfg(test)]
mod two_wires;
