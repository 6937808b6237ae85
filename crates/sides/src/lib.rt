// The sides that a refused structure is shown by: from the tokens that unification left, one side for each par.
#![tactic(auto)]

pub mod sides;
pub mod tokens;
