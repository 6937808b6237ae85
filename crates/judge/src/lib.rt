// The judge: every verdict comes with its ground, a sequent proof or a switching that is bad.
#![tactic(auto)]

pub mod judge;
pub mod verdict;
