// The kinds of records, by the number that a header has for each.
ghost use Rattle.std.specs.Prelude.{◌≡◌};
ghost use Rattle.records.specs.Kinds.{code_of, Names};

use crate::fault::Fault;

/// What a record places, with the number by which a header tells it.
// An enum beside the rules of `links`: its numbers are its own, and only a type of this crate can be read by TryFrom.
#[derive(Clone, Copy, PartialEq, Eq, Debug)]
pub enum Kind {
    Axiom = 1,
    Tensor = 2,
    Par = 3,
    Cut = 4,
}

impl Kind {
    /// The number by which a header tells it.
    pub fn number(self) -> u8
        ensures { result ≡ code_of self }
    {
        self as u8
    }
}

impl TryFrom<u16> for Kind {
    type Error = Fault;

    ghost try_from_gives = { Names };

    fn try_from(number: u16) -> Result<Kind, Fault> {
        match number {
            1 => Ok(Kind::Axiom),
            2 => Ok(Kind::Tensor),
            3 => Ok(Kind::Par),
            4 => Ok(Kind::Cut),
            _ => Err(Fault::KindUnknown),
        }
    }
}
