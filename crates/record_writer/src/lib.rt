// The way back from records to the bytes of a drawing file. Start at `write`.
// `reread` shows that writing and reading undo each other.
#![tactic(auto)]

pub use back::reread;
pub use bytes::write;

mod back;
mod bytes;
