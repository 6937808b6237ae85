ghost use Rattle.std.specs.Prelude.{codes, Some};

use std::error::Error;
use std::fmt;

// What is to be added has no room.
#[derive(Clone, Copy, PartialEq, Eq, Debug)]
pub struct Full;

impl fmt::Display for Full {
    ghost output = { λ full. Some (codes "no room") };

    fn fmt<W: fmt::Write>(&self, f: &mut fmt::Formatter<W>) -> fmt::Result {
        write!(f, "no room")
    }
}

impl Error for Full {}
