ghost use Rattle.std.specs.Prelude.{◌≡◌, ℕ, ◌<◌, ◌≤◌, length, Decides};
ghost use Rattle.links.specs.Links.{link_at};
ghost use Rattle.refusals.specs.Reasons.{Checks, Says};
ghost use Rattle.judge.specs.Verdicts.{judge_reasons, Copied, Judged, Exact};

use crate::verdict::Verdict;
use links::link::Link;
use refusals::refusal::Refusal;
use sides::sides::choose_sides;
use survey::flaw::Flaw;
use survey::survey::survey;
use table::table::Table;
use unify::unify::unify;

/// One side for each link number.
const SIDES: usize = 256;

fn nothing_stands(table: &Table) -> bool
    ensures value { Decides result ((n : ℕ) → link_at table.now.slots.at n ≡ Link.Empty) }
{
    table.count() == 0
}

fn check(table: &Table, sides: &[u8]) -> Result<(), Refusal>
    ensures answer { Checks (judge_reasons table.now.slots.at sides.now) result }
{
    if sides.len() < SIDES {
        return Err(Refusal::TooShort);
    }
    if nothing_stands(table) {
        return Err(Refusal::NothingStands);
    }
    Ok(())
}

// Puts the sides into the lent row, whose entries past them stay.
fn show(row: &mut [u8], sides: &[u8; SIDES])
    requires row { 256 ≤ length row.old }
    ensures row { Copied sides.now row.old row.new }
{
    row[..SIDES].copy_from_slice(sides);
}

/// Judges the structure. Unless it is accepted, the row comes to show a bad switching: entry n, counted from 1, is 1 for
/// left or 2 for right where link n is a par, and 0 for every other n from 1 to 256.
///
/// Refused where the row is shorter than 256 entries, or no link stands; the row is then left alone, as it is by an
/// acceptance.
pub fn judge(table: &Table, row: &mut [u8]) -> Result<Verdict, Refusal>
    ensures answer { Says (judge_reasons table.now.slots.at row.old) (λ verdict. Judged table.now.slots.at row.old row.new verdict) (row.new ≡ row.old) result }
    ensures law { Exact table.now.slots.at result }
{
    check(table, row)?;
    // However unification ended, the sides chosen from its tokens make a tree just where the structure is correct.
    let unification = unify(table);
    let sides = choose_sides(table, &unification.marking.token);
    let Err(flaw) = survey(table, &sides) else {
        return Ok(Verdict::Accepted);
    };
    show(row, &sides);
    Ok(match flaw {
        Flaw::Round(n) => Verdict::Cyclic(n),
        Flaw::Split(m, n) => Verdict::Apart(m, n),
    })
}
