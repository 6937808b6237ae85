// The table of links that keeps the structure facts in its type: placements, withdrawals, the duality test and the
// list of conclusions. No tickets and no labels here; those are the bench's.
#![tactic(auto)]

pub mod duals;
pub mod ends;
pub mod leaves;
pub mod lists;
pub mod numbers;
pub mod places;
pub mod reads;
pub mod slots;
pub mod table;
