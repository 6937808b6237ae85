// A survey of one switching: is its graph a tree, and if not, where is a cycle or a gap.
#![tactic(auto)]

pub mod classes;
pub mod flaw;
pub mod labels;
pub mod survey;
