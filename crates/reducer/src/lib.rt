// Cut steps on the table and the board, and the run-down. The table keeps its facts, so no call asks anything.
#![tactic(auto)]

pub mod count;
pub mod found;
pub mod link_steps;
pub mod reduce;
pub mod reduction;
pub mod run_down;
