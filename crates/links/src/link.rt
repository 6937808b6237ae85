/// What stands at one link number: nothing, or a link with its occurrences.
#[derive(Clone, Copy, PartialEq, Eq, Debug)]
pub enum Link {
    /// No link. A case and no Option: whoever reads a number gets a link, and this one concludes and uses nothing.
    Empty,
    /// An axiom, or wire, concludes a positive end, with formula the atom, and a negative end, with its dual.
    Axiom {
        positive: u16,
        negative: u16,
        atom: u16,
    },
    /// Its conclusion has the formula left ⊗ right.
    Tensor {
        left: u16,
        right: u16,
        conclusion: u16,
    },
    /// Its conclusion has the formula left ⅋ right.
    Par {
        left: u16,
        right: u16,
        conclusion: u16,
    },
    /// Two dual premises, and no conclusion.
    Cut {
        left: u16,
        right: u16,
    },
}
