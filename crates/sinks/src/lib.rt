// Steps of a sequent proof, and the sinks that take them. `step` has rules and steps, `sink` the one trait of sinks,
// `spelling` how steps are written as bytes, `written` the sinks over lent bytes, for any spelling, and `writer` writes
// a list of steps into any sink. The spellings that are built are crates of their own.
#![tactic(auto)]

pub mod sink;
pub mod spelling;
pub mod step;
pub mod writer;
pub mod written;
