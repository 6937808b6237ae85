ghost use Rattle.std.specs.Prelude.{◌≡◌};
ghost use Rattle.reducer.specs.Reductions.{with_positive, ReducesLinks};

use crate::found::{Found, look};
use crate::reduction::Reduction;
use links::link::Link;
use refusals::refusal::Refusal;
use table::numbers::check_link;
use table::table::Table;

/// The links' part of a cut step.
pub trait ReduceLinks {
    fn reduce_links(&mut self, n: u16) -> Result<Reduction, Refusal>;
}

// The wire goes on to another positive end.
fn extend(wire: &mut Link, end: u16)
    ensures { wire.new ≡ with_positive wire.old end }
{
    if let Link::Axiom { positive, .. } = wire {
        *positive = end;
    }
}

impl ReduceLinks for Table {
    /// Reduces cut n, or answers the first reason against it and changes nothing.
    ///
    /// At a cut of two wires the first wire's record is lent out of the slots and changed in place; the table is
    /// whole again once the second wire and the cut are gone too.
    fn reduce_links(&mut self, n: u16) -> Result<Reduction, Refusal>
        ensures links { ReducesLinks n self.old.slots.at self.new.slots.at result }
    {
        check_link(n)?;
        let (left, right) = match self.link(n) {
            Link::Empty => return Err(Refusal::NoSuchLink),
            Link::Cut { left, right } => (left, right),
            _ => return Err(Refusal::NotACut),
        };
        match look(self, n, left, right) {
            Found::Compound {
                tensor,
                par,
                left,
                right,
                left_dual,
                right_dual,
            } => {
                self.slots.at[n as usize] = Link::Empty;
                self.slots.at[tensor as usize] = Link::Cut {
                    left,
                    right: left_dual,
                };
                self.slots.at[par as usize] = Link::Cut {
                    left: right,
                    right: right_dual,
                };
                Ok(Reduction::Parted)
            }
            Found::Wires { first, second, end } => {
                self.slots.at[n as usize] = Link::Empty;
                self.slots.at[second as usize] = Link::Empty;
                extend(&mut self.slots.at[first as usize], end);
                Ok(Reduction::Joined { first, second })
            }
            Found::OneWire => Ok(Reduction::SelfCut),
        }
    }
}
