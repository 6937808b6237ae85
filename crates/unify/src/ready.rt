ghost use Rattle.unify.specs.Markings.{Means};
ghost use Rattle.unify.specs.Turns.{Drained};

use crate::marking::{Marking, Tangled};
use links::link::Link;
use makers::index::Indexed;
use stack::Stack;

// Places for every link once, and for one more each time that a link passes.
const PLACES: usize = 512;

// The link that uses the conclusion of a tensor or a par: it may have become ready. Only speed hangs on the answer,
// since a sweep shows in the end that nothing is ready.
fn user_of(index: &Indexed, n: u16) -> Option<u16> {
    let (Link::Tensor { conclusion, .. } | Link::Par { conclusion, .. }) = index.link(n) else {
        return None;
    };
    index.table.user(conclusion)
}

impl Marking {
    // Links pass as they come off the stack of those that may be ready.
    pub(crate) fn drain(&mut self, index: &Indexed) -> Result<(), Tangled>
        requires marks { Means index.now.table.now.slots.at self.old }
        ensures marks { Drained index.now.table.now.slots.at result self.new }
    {
        let mut places = [0u16; PLACES];
        let mut ready = Stack::new(&mut places);
        for n in (0..257u16).rev() {
            let _ = ready.push(n); // the lowest on top
        }
        'work: while let Some(n) = ready.pop() {
            if self.pass(index, n)?
                && let Some(user) = user_of(index, n)
            {
                let _ = ready.push(user);
            }
        }
        Ok(())
    }
}
