ghost use Rattle.unify.specs.Markings.{Means};
ghost use Rattle.unify.specs.Turns.{Ended, Unified};

use crate::marking::{Marking, Tangled};
use makers::index::Indexed;
use table::table::Table;

/// The marks that unification left, and how it ended: with nothing that may pass, or tangled.
// The ending stands beside the marks and not around them: the judge goes on from the marks in both cases.
#[derive(Clone, Copy, PartialEq, Eq, Debug)]
pub struct Unification {
    pub marking: Marking,
    pub ended: Result<(), Tangled>,
}

impl Marking {
    // Sweeps until nothing passes.
    fn finish(&mut self, index: &Indexed) -> Result<(), Tangled>
        requires marks { Means index.now.table.now.slots.at self.old }
        ensures marks { Ended index.now.table.now.slots.at result self.new }
    {
        'sweeps: while self.sweep(index)? {}
        Ok(())
    }

    // Links pass until none may.
    fn run(&mut self, index: &Indexed) -> Result<(), Tangled>
        requires marks { Means index.now.table.now.slots.at self.old }
        ensures marks { Ended index.now.table.now.slots.at result self.new }
    {
        self.drain(index)?;
        self.finish(index)
    }
}

/// Links pass until none may.
pub fn unify(table: &Table) -> Unification
    ensures answer { Unified table.now.slots.at result }
{
    let index = Indexed::new(table);
    let mut marking = Marking::begin(&index);
    let ended = marking.run(&index);
    Unification { marking, ended }
}
