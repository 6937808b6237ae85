ghost use Rattle.std.specs.Prelude.{◌≡◌, ◌≤◌, length};
ghost use Rattle.links.specs.Facts.{Within};
ghost use Rattle.cuts.specs.Steps.{composed};
ghost use Rattle.reducer.specs.Reductions.{Reduces};

use crate::link_steps::ReduceLinks;
use crate::reduction::Reduction;
use labels::label::Label;
use refusals::refusal::Refusal;
use table::numbers::check_link;
use table::table::Table;

/// The shortest board: one label for each wire number.
pub const BOARD: usize = 256;

// The label of the first wire goes on through that of the second.
fn compose_labels<L: Label + Copy>(board: &mut [L], first: u16, second: u16)
    requires long { 256 ≤ length board.old }
    requires first { Within 256 first }
    requires second { Within 256 second }
    ensures board { (d : L) → board.new ≡ composed L.Label.op d board.old first second }
{
    let at = first as usize - 1;
    board[at] = board[at].compose(board[second as usize - 1]);
}

// Table and board stay two parameters: a board is lent to one call, and the table outlives it.

/// Reduces cut n on the table and the board. At a cut of two wires the label of first becomes first composed with
/// second, and no other entry of the board changes. A refusal changes nothing.
pub fn reduce<L: Label + Copy>(
    table: &mut Table,
    board: &mut [L],
    n: u16,
) -> Result<Reduction, Refusal>
    ensures step { Reduces L.Label.op n table.old.slots.at board.old table.new.slots.at board.new result }
{
    check_link(n)?;
    if board.len() < BOARD {
        return Err(Refusal::TooShort);
    }
    let did = table.reduce_links(n)?;
    if let Reduction::Joined { first, second } = did {
        compose_labels(board, first, second);
    }
    Ok(did)
}
