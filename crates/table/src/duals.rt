ghost use Rattle.std.specs.Prelude.{◌≡◌, ◌<◌, true, Decides};
ghost use Rattle.links.specs.Formulas.{Formula, Reads, Dual, dual_of};
ghost use Rattle.table.specs.Duality.{HeadIs, meeting_of, height};

use crate::table::Table;
use links::link::Link;

/// The outermost sign of an occurrence's formula, with the occurrences of its parts.
#[derive(Clone, Copy, PartialEq, Eq, Debug)]
pub enum Head {
    Atom(u16),
    CoAtom(u16),
    Tensor(u16, u16),
    Par(u16, u16),
}

/// What two heads say of the duality of their formulas.
// Kept as a type: with the heads matched in place the proofs name the arms, and an edit of one is refused for its name alone.
#[derive(Clone, Copy, PartialEq, Eq, Debug)]
pub enum Meeting {
    /// They are not dual.
    Clash,
    /// They are dual.
    Match,
    /// They are dual where the left parts are and the right parts are.
    Parts {
        left: u16,
        left_dual: u16,
        right: u16,
        right_dual: u16,
    },
}

impl Head {
    fn meet(self, other: Head) -> Meeting
        ensures { result ≡ meeting_of self other }
    {
        match (self, other) {
            (Head::Atom(x), Head::CoAtom(y)) | (Head::CoAtom(x), Head::Atom(y)) if x == y => {
                Meeting::Match
            }
            (Head::Tensor(left, right), Head::Par(left_dual, right_dual))
            | (Head::Par(left, right), Head::Tensor(left_dual, right_dual)) => Meeting::Parts {
                left,
                left_dual,
                right,
                right_dual,
            },
            _ => Meeting::Clash,
        }
    }
}

impl Table {
    fn head(&self, o: u16) -> Option<Head>
        ensures answer { HeadIs self.now.slots.at o result }
    {
        match self.link(self.concluder(o)?) {
            Link::Axiom { positive, atom, .. } if positive == o => Some(Head::Atom(atom)),
            Link::Axiom { atom, .. } => Some(Head::CoAtom(atom)),
            Link::Tensor { left, right, .. } => Some(Head::Tensor(left, right)),
            Link::Par { left, right, .. } => Some(Head::Par(left, right)),
            Link::Empty | Link::Cut { .. } => None,
        }
    }

    // The fuel bounds how far up the formulas are read.
    fn dual_within(&self, a: u16, b: u16, fuel: u16) -> bool
        ensures only { result ≡ true → Dual self.now.slots.at a b }
        ensures all { (F : Formula) → Reads self.now.slots.at a F → Reads self.now.slots.at b (dual_of F) → height F < fuel → result ≡ true }
    {
        if fuel == 0 {
            return false;
        }
        let Some(head) = self.head(a) else {
            return false;
        };
        let Some(other) = self.head(b) else {
            return false;
        };
        match head.meet(other) {
            Meeting::Clash => false,
            Meeting::Match => true,
            Meeting::Parts {
                left,
                left_dual,
                right,
                right_dual,
            } => {
                self.dual_within(left, left_dual, fuel - 1)
                    && self.dual_within(right, right_dual, fuel - 1)
            }
        }
    }

    /// Whether both occurrences stand and their formulas are dual.
    pub fn dual(&self, a: u16, b: u16) -> bool
        ensures value { Decides result (Dual self.now.slots.at a b) }
    {
        // No formula is higher than there are slots.
        self.dual_within(a, b, 257)
    }
}
