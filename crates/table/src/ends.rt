ghost use Rattle.refusals.specs.Reasons.{Checks};
ghost use Rattle.table.specs.ByLink.{places_of, ends_of};
ghost use Rattle.table.specs.Refusing.{premise_places};

use crate::table::Table;
use links::link::Link;
use refusals::refusal::Refusal;

// Whether a link whose numbers are in range may join the structure.
impl Table {
    // Inlined as `place` is, and for its reason.
    #[inline(always)]
    pub(crate) fn check_place(&self, n: u16, link: Link) -> Result<(), Refusal>
        ensures answer { Checks (places_of self.now.slots.at n link) result }
    {
        if self.link(n) != Link::Empty {
            return Err(Refusal::LinkStands);
        }
        self.check_ends(link)
    }

    fn check_ends(&self, link: Link) -> Result<(), Refusal>
        ensures answer { Checks (ends_of self.now.slots.at link) result }
    {
        match link {
            Link::Empty => Ok(()),
            Link::Axiom {
                positive,
                negative,
                ..
            } => {
                if self.stands(positive) || self.stands(negative) {
                    return Err(Refusal::OccurrenceStands);
                }
                Ok(())
            }
            Link::Tensor {
                left,
                right,
                conclusion,
            }
            | Link::Par {
                left,
                right,
                conclusion,
            } => {
                if self.stands(conclusion) {
                    return Err(Refusal::OccurrenceStands);
                }
                self.check_premises(left, right)
            }
            Link::Cut { left, right } => {
                self.check_premises(left, right)?;
                if !self.dual(left, right) {
                    return Err(Refusal::NotDual);
                }
                Ok(())
            }
        }
    }

    fn check_premises(&self, left: u16, right: u16) -> Result<(), Refusal>
        ensures answer { Checks (premise_places self.now.slots.at left right) result }
    {
        if !self.stands(left) || !self.stands(right) {
            return Err(Refusal::PremiseMissing);
        }
        if self.is_premise(left) || self.is_premise(right) {
            return Err(Refusal::PremiseUsed);
        }
        Ok(())
    }
}
