// Unification: tokens travel from the axioms down the links until no link passes, and the marks that they leave hold a
// proof, or show why there is none.
#![tactic(auto)]

pub mod marking;
pub mod passing;
pub mod ready;
pub mod settle;
pub mod start;
pub mod unify;
