ghost use Rattle.std.specs.Prelude.{◌≡◌, ℕ, ◌≤◌, length};
ghost use Rattle.reducer.specs.Descents.{Descends, LowestIs, RunsDown};

use crate::count::{count_cuts, is_cut};
use crate::reduce::{BOARD, reduce};
use crate::reduction::Reduction;
use labels::label::Label;
use refusals::refusal::Refusal;
use table::table::Table;

/// What a run-down did: the steps made and the cuts left.
#[derive(Clone, Copy, PartialEq, Eq, Debug)]
pub struct Ran {
    pub made: u16,
    pub left: u16,
}

/// The lowest-numbered cut.
// A chain of its own: the table's search asks that its test may be called, and no public call asks anything.
pub fn lowest_cut(table: &Table) -> Option<u16>
    ensures answer { LowestIs table.now.slots.at result }
{
    table.slots.at.iter().position(is_cut).map(|n| n as u16)
}

// Reduces the lowest-numbered cut again and again, and answers how many steps were made.
fn descend<L: Label + Copy>(table: &mut Table, board: &mut [L], budget: u16) -> u16
    requires long { 256 ≤ length board.old }
    ensures steps { (d : L) → Descends L.Label.op d budget result table.old.slots.at board.old table.new.slots.at board.new }
{
    for made in 0..budget {
        let Some(cut) = lowest_cut(table) else {
            return made;
        };
        let Ok(did) = reduce(table, board, cut) else {
            unreachable!()
        };
        if did == Reduction::SelfCut {
            return made;
        }
    }
    budget
}

/// Each step reduces the lowest-numbered cut, until the budget or the cuts run out. A board below 256 entries is refused,
/// and nothing changes.
pub fn run_down<L: Label + Copy>(
    table: &mut Table,
    board: &mut [L],
    budget: u16,
) -> Result<Ran, Refusal>
    ensures steps { RunsDown L.Label.op budget table.old.slots.at board.old table.new.slots.at board.new result }
{
    if board.len() < BOARD {
        return Err(Refusal::TooShort);
    }
    let made = descend(table, board, budget);
    let left = count_cuts(table);
    Ok(Ran { made, left })
}
