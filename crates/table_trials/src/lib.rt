// Tests of the table: the ends of each range, each refusal, which of two answers, and formulas as deep as fit.
#![tactic(auto)]

#[cfg(test)]
mod calls;
#[cfg(test)]
mod deep;
