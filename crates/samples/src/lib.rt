// Small uses of the label kinds, the stack and the sinks. What comes out of each stands in its contract.
#![tactic(auto)]

pub mod label_uses;
pub mod sink_uses;
pub mod stack_uses;
