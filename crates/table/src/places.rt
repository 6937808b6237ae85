ghost use Rattle.table.specs.Answers.{Places};
ghost use Rattle.table.specs.ByLink.{reasons_of};
ghost use Rattle.table.specs.Refusing.{axiom_reasons, join_reasons, cut_reasons};

use crate::numbers::check_numbers;
use crate::table::Table;
use links::link::Link;
use refusals::refusal::Refusal;

// Each call places a link, or answers the first reason against it and changes nothing. A call takes its numbers one by
// one, as a record of a drawing has them.
impl Table {
    pub fn place_axiom(
        &mut self,
        n: u16,
        positive: u16,
        negative: u16,
        atom: u16,
    ) -> Result<(), Refusal>
        ensures links { Places (axiom_reasons self.old.slots.at n positive negative atom) n (Link.Axiom positive negative atom) self.old.slots.at self.new.slots.at result }
    {
        self.place(
            n,
            Link::Axiom {
                positive,
                negative,
                atom,
            },
        )
    }

    pub fn place_tensor(
        &mut self,
        n: u16,
        left: u16,
        right: u16,
        conclusion: u16,
    ) -> Result<(), Refusal>
        ensures links { Places (join_reasons self.old.slots.at n left right conclusion) n (Link.Tensor left right conclusion) self.old.slots.at self.new.slots.at result }
    {
        self.place(
            n,
            Link::Tensor {
                left,
                right,
                conclusion,
            },
        )
    }

    pub fn place_par(
        &mut self,
        n: u16,
        left: u16,
        right: u16,
        conclusion: u16,
    ) -> Result<(), Refusal>
        ensures links { Places (join_reasons self.old.slots.at n left right conclusion) n (Link.Par left right conclusion) self.old.slots.at self.new.slots.at result }
    {
        self.place(
            n,
            Link::Par {
                left,
                right,
                conclusion,
            },
        )
    }

    pub fn place_cut(&mut self, n: u16, left: u16, right: u16) -> Result<(), Refusal>
        ensures links { Places (cut_reasons self.old.slots.at n left right) n (Link.Cut left right) self.old.slots.at self.new.slots.at result }
    {
        self.place(n, Link::Cut { left, right })
    }

    // One text for the four kinds of link. It is inlined into each of the four calls, where the kind is known: otherwise a
    // refusal pays for building the link and for asking its kind again, several times what the comparisons cost.
    #[inline(always)]
    fn place(&mut self, n: u16, link: Link) -> Result<(), Refusal>
        ensures links { Places (reasons_of self.old.slots.at n link) n link self.old.slots.at self.new.slots.at result }
    {
        check_numbers(n, link)?;
        self.check_place(n, link)?;
        self.slots.put(n, link);
        Ok(())
    }
}
