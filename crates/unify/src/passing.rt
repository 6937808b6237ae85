ghost use Rattle.std.specs.Prelude.{◌≡◌, ◌≤◌};
ghost use Rattle.unify.specs.Markings.{token_of, Means};
ghost use Rattle.unify.specs.Turns.{Quiet, AllQuiet, Turned};

use crate::marking::{Marking, Tangled};
use links::link::Link;
use makers::index::Indexed;

// `Means` stands in the contracts and in no ghost field: a sequent proof is read off it, and a ghost field keeps
// only that a fact holds. The index stays a parameter, since the marks are handed on without it.
impl Marking {
    // Whether link n passes, now that it is tried.
    pub(crate) fn pass(&mut self, index: &Indexed, n: u16) -> Result<bool, Tangled>
        requires marks { Means index.now.table.now.slots.at self.old }
        ensures marks { let ls = index.now.table.now.slots.at in Turned ls self.old (token_of self.old n ≡ 0 → Quiet ls self.old n) result self.new }
    {
        if self.token.get(n as usize).copied().unwrap_or(0) != 0 {
            return Ok(false);
        }
        match index.link(n) {
            Link::Par { left, right, .. } => {
                let s = self.token_on(index, left);
                if s == 0 || self.token_on(index, right) != s {
                    return Ok(false);
                }
                self.settle(n, s, s);
                Ok(true)
            }
            Link::Tensor { left, right, .. } | Link::Cut { left, right } => {
                let s = self.token_on(index, left);
                let t = self.token_on(index, right);
                if s == 0 || t == 0 {
                    return Ok(false);
                }
                if s == t {
                    return Err(Tangled);
                }
                self.settle(n, s, t);
                Ok(true)
            }
            Link::Empty | Link::Axiom { .. } => Ok(false),
        }
    }

    // Tries every link in turn, until one passes. Whether one did.
    pub(crate) fn sweep(&mut self, index: &Indexed) -> Result<bool, Tangled>
        requires marks { Means index.now.table.now.slots.at self.old }
        ensures marks { let ls = index.now.table.now.slots.at in Turned ls self.old (AllQuiet ls self.old) result self.new }
    {
        for n in 0..257u16 {
            if self.pass(index, n)? {
                return Ok(true);
            }
        }
        Ok(false)
    }
}
