// The records of a drawing file: what they hold, the bytes they are, and how a file is read record by record.
// Start at `Reader`, which walks a file and answers each record or the first fault.
#![tactic(auto)]

pub use fault::Fault;
pub use kind::Kind;
pub use reader::Reader;
pub use record::Record;

mod body;
pub mod fault;
pub mod kind;
pub mod reader;
pub mod record;
