ghost use Rattle.std.specs.Prelude.{◌≡◌, length, replicate, Decides};
ghost use Rattle.links.specs.Links.{Conclusion, link_count};
ghost use Rattle.table.specs.Answers.{Lists};

use crate::numbers::OCCURRENCES;
use crate::slots::{SLOTS, Slots};
use crate::table::Table;
use links::link::Link;
use refusals::refusal::Refusal;

/// The shortest row that holds every list of conclusions.
pub const ROW: usize = 512;

impl Table {
    /// No link stands.
    pub fn empty() -> Table
        ensures links { result.slots.at ≡ replicate 257 Link.Empty }
    {
        Table {
            slots: Slots {
                at: [Link::Empty; SLOTS],
            },
        }
    }

    /// How many links stand.
    #[tactic(auto, using(crate::proofs::Counting::counted_one, crate::proofs::Counting::counted_none))]
    pub fn count(&self) -> u16
        ensures value { result ≡ link_count self.now.slots.at }
    {
        let mut count = 0;
        // A loop and no chain: with `filter` and `count` the same takes four times the instructions, since no slots are
        // looked at side by side.
        for link in &self.slots.at {
            if *link != Link::Empty {
                count += 1;
            }
        }
        count
    }

    /// Whether the occurrence stands and is no premise.
    pub fn is_conclusion(&self, o: u16) -> bool
        ensures value { Decides result (Conclusion self.now.slots.at o) }
    {
        self.stands(o) && !self.is_premise(o)
    }

    /// Writes the conclusions, rising, from the start of the row, and answers how many there are; entries past them stay.
    /// A row below 512 entries is refused and stays as it was.
    pub fn conclusions(&self, row: &mut [u16]) -> Result<u16, Refusal>
        ensures row { Lists self.now.slots.at row.old row.new result }
    {
        if row.len() < ROW {
            return Err(Refusal::TooShort);
        }
        let mut count = 0;
        // By index: with `iter_mut` beside the numbers the proof of what then stands in the row stayed open.
        for o in 1..=OCCURRENCES {
            if self.is_conclusion(o) {
                row[count as usize] = o;
                count += 1;
            }
        }
        Ok(count)
    }
}
