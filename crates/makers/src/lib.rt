// Which link concludes each occurrence, gathered in one walk over the slots, so that later reads cost one step.
#![tactic(auto)]

pub mod index;
