// A record of a drawing file: one link to be placed.
ghost use Rattle.std.specs.Prelude.{◌≡◌, length};
ghost use Rattle.records.specs.Format.{kind_of, bytes_of};
ghost use Rattle.records.specs.Kinds.{code_of};

use crate::kind::Kind;

#[derive(Clone, Copy, PartialEq, Eq, Debug)]
pub enum Record {
    Axiom {
        link: u16,
        positive: u16,
        negative: u16,
        atom: u16,
        delay: u32,
    },
    Tensor {
        link: u16,
        left: u16,
        right: u16,
        conclusion: u16,
    },
    Par {
        link: u16,
        left: u16,
        right: u16,
        conclusion: u16,
    },
    Cut {
        link: u16,
        left: u16,
        right: u16,
    },
}

impl Record {
    /// The kind that its header tells.
    pub fn kind(self) -> Kind
        ensures { code_of result ≡ kind_of self }
    {
        match self {
            Record::Axiom { .. } => Kind::Axiom,
            Record::Tensor { .. } => Kind::Tensor,
            Record::Par { .. } => Kind::Par,
            Record::Cut { .. } => Kind::Cut,
        }
    }

    // How many bytes the record takes in a file, its header among them.
    #[tactic(auto, unfolding(crate::specs::Format::bytes_of))]
    pub(crate) fn size(self) -> usize
        ensures { result ≡ length (bytes_of self) }
    {
        match self {
            Record::Axiom { .. } => 16,
            Record::Tensor { .. } | Record::Par { .. } => 12,
            Record::Cut { .. } => 10,
        }
    }
}
