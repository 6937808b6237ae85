// Links, formulas read off them, and the structure facts: the definitions under everything else.
// Mathematics and two plain enums; the table that keeps the facts is a crate above.
#![tactic(auto)]

pub mod claims;
pub mod link;
pub mod rule;
