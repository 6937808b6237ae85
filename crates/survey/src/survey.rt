ghost use Rattle.std.specs.Prelude.{◌≡◌};
ghost use Rattle.switchings.specs.Rows.{entry as entry_of, sides_of};
ghost use Rattle.survey.specs.Findings.{Finds};

use crate::classes::Classes;
use crate::flaw::Flaw;
use makers::index::Indexed;
use table::table::Table;

// Entry n of a row, counted from 1; 0 past its end.
fn entry(sides: &[u8], n: u16) -> u8
    ensures value { result ≡ entry_of sides.now n }
{
    sides
        .get((n as usize).saturating_sub(1))
        .copied()
        .unwrap_or(0)
}

/// Surveys the switching that the row means: entry n, counted from 1, is 2 where par n picks its right premise. It is a
/// tree, or has the flaw.
pub fn survey(table: &Table, sides: &[u8]) -> Result<(), Flaw>
    ensures answer { Finds table.now.slots.at (sides_of sides.now) result }
{
    let index = Indexed::new(table);
    let mut classes = Classes::apart();
    for n in 0..257u16 {
        classes.add(&index, n, entry(sides, n))?;
    }
    classes.check_one(&index)
}
