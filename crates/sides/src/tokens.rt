//! Reading the tokens: a row with an entry for each link, its token, or 0 where it has not passed.
ghost use Rattle.std.specs.Prelude.{◌≡◌, ℕ, Decides};
ghost use Rattle.sides.specs.Rule.{token_of, token_on_lem, Waiting, Avoidable};

use links::link::Link;
use makers::index::Indexed;

/// A structure with the tokens on its links.
#[derive(Clone, Copy, PartialEq, Eq, Debug)]
pub(crate) struct Marked<'a> {
    pub(crate) index: Indexed<'a>,
    pub(crate) tokens: &'a [u16],
}

impl<'a> Marked<'a> {
    /// The token of a link; 0 past the row's end.
    // A number with 0 for none, as the row has it.
    pub(crate) fn token(&self, n: u16) -> u16
        ensures value { result ≡ token_of self.now.tokens.now n }
    {
        self.tokens.get(n as usize).copied().unwrap_or(0)
    }

    /// The token on an occurrence is that of the link that concludes it.
    pub(crate) fn token_on(&self, o: u16) -> u16
        ensures value { result ≡ token_on_lem self.now.index.table.now.slots.at self.now.tokens.now o }
    {
        self.token(self.index.maker(o))
    }

    // Whether link n is a tensor or a cut that has not passed, and has the token t on a premise.
    fn waits_at(&self, t: u16, n: u16) -> bool
        ensures value { Decides result (Waiting self.now.index.table.now.slots.at self.now.tokens.now t n) }
    {
        // The token first: of a link that has passed it alone tells.
        if self.token(n) != 0 {
            return false;
        }
        match self.index.link(n) {
            Link::Tensor { left, right, .. } | Link::Cut { left, right } => {
                self.token_on(left) == t || self.token_on(right) == t
            }
            Link::Empty | Link::Axiom { .. } | Link::Par { .. } => false,
        }
    }

    // Whether the token t is on some tensor or cut that has not passed.
    fn waits(&self, t: u16) -> bool
        ensures value { Decides result ((n : ℕ) × Waiting self.now.index.table.now.slots.at self.now.tokens.now t n) }
    {
        (0..257u16).any(|n| self.waits_at(t, n))
    }

    /// A token that is on no tensor or cut that has not passed; none where every token is on one.
    // Up to entry 256: what a longer row has past it is no link's token.
    pub(crate) fn free_token(&self) -> Option<u16>
        ensures value { Avoidable self.now.index.table.now.slots.at self.now.tokens.now result }
    {
        self.tokens
            .iter()
            .take(257)
            .find(|t| **t != 0 && !self.waits(**t))
            .copied()
    }
}
