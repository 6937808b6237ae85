ghost use Rattle.std.specs.Prelude.{ℕ, Decides};
ghost use Rattle.links.specs.Links.{Concludes, Premise};
ghost use Rattle.refusals.specs.Reasons.{Checks};
ghost use Rattle.table.specs.Answers.{Withdraws};
ghost use Rattle.table.specs.Refusing.{leaves, withdrawal_reasons};

use crate::numbers::check_link;
use crate::table::Table;
use links::link::Link;
use refusals::refusal::Refusal;

impl Table {
    /// Withdraws a link with its conclusions, or answers the first reason against it and changes nothing.
    pub fn withdraw(&mut self, n: u16) -> Result<(), Refusal>
        ensures links { Withdraws (withdrawal_reasons self.old.slots.at n) n self.old.slots.at self.new.slots.at result }
    {
        check_link(n)?;
        self.check_leave(n)?;
        self.slots.put(n, Link::Empty);
        Ok(())
    }

    fn check_leave(&self, n: u16) -> Result<(), Refusal>
        ensures answer { Checks (leaves self.now.slots.at n) result }
    {
        let link = self.link(n);
        if link == Link::Empty {
            return Err(Refusal::NoSuchLink);
        }
        if self.concludes_premise(link) {
            return Err(Refusal::ConclusionUsed);
        }
        Ok(())
    }

    // Whether some conclusion of the link is used.
    fn concludes_premise(&self, link: Link) -> bool
        ensures value { Decides result ((o : ℕ) × Concludes link o × Premise self.now.slots.at o) }
    {
        match link {
            Link::Axiom {
                positive,
                negative,
                ..
            } => self.is_premise(positive) || self.is_premise(negative),
            Link::Tensor { conclusion, .. } | Link::Par { conclusion, .. } => {
                self.is_premise(conclusion)
            }
            Link::Empty | Link::Cut { .. } => false,
        }
    }
}
