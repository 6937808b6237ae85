ghost use Rattle.refusals.specs.Reasons.{Checks, Outside};
ghost use Rattle.std.specs.List.{Any};
ghost use Rattle.table.specs.ByLink.{numbers_of, occurrence_numbers, TwoEqual};
ghost use Rattle.table.specs.Refusing.{axiom_numbers, join_numbers, cut_numbers, link_number};
ghost use Rattle.links.specs.Facts.{Within};
ghost use Rattle.std.specs.Prelude.{Decides};

use links::link::Link;
use refusals::refusal::Refusal;

/// The highest link, occurrence and atom; each counts from 1.
pub const LINKS: u16 = 256;

pub const OCCURRENCES: u16 = 512;

pub const ATOMS: u16 = 1000;

fn is_link(n: u16) -> bool
    ensures value { Decides result (Within 256 n) }
{
    (1..=LINKS).contains(&n)
}

/// Whether the number is a link's.
pub fn check_link(n: u16) -> Result<(), Refusal>
    ensures answer { Checks (link_number n) result }
{
    if !is_link(n) {
        return Err(Refusal::LinkRange);
    }
    Ok(())
}

/// Whether the numbers of an axiom are in range, and its ends different.
pub fn check_axiom(n: u16, positive: u16, negative: u16, atom: u16) -> Result<(), Refusal>
    ensures answer { Checks (axiom_numbers n positive negative atom) result }
{
    check_occurrences(n, &[positive, negative])?;
    if !(1..=ATOMS).contains(&atom) {
        return Err(Refusal::AtomRange);
    }
    Ok(())
}

/// Whether the numbers of a tensor or a par are in range, and its occurrences different.
pub fn check_join(n: u16, left: u16, right: u16, conclusion: u16) -> Result<(), Refusal>
    ensures answer { Checks (join_numbers n left right conclusion) result }
{
    check_occurrences(n, &[left, right, conclusion])
}

/// Whether the numbers of a cut are in range, and its premises different.
pub fn check_cut(n: u16, left: u16, right: u16) -> Result<(), Refusal>
    ensures answer { Checks (cut_numbers n left right) result }
{
    check_occurrences(n, &[left, right])
}

/// The same, by the link that is to be placed.
pub(crate) fn check_numbers(n: u16, link: Link) -> Result<(), Refusal>
    ensures answer { Checks (numbers_of n link) result }
{
    match link {
        Link::Empty => check_link(n),
        Link::Axiom {
            positive,
            negative,
            atom,
        } => check_axiom(n, positive, negative, atom),
        Link::Tensor {
            left,
            right,
            conclusion,
        }
        | Link::Par {
            left,
            right,
            conclusion,
        } => check_join(n, left, right, conclusion),
        Link::Cut { left, right } => check_cut(n, left, right),
    }
}

// Whether a call's link number and occurrence numbers are in range, and the occurrences different.
fn check_occurrences(n: u16, occurrences: &[u16]) -> Result<(), Refusal>
    ensures answer { Checks (occurrence_numbers n occurrences.now) result }
{
    if !is_link(n) {
        return Err(Refusal::LinkRange);
    }
    if any_outside(occurrences) {
        return Err(Refusal::OccurrenceRange);
    }
    if two_equal(occurrences) {
        return Err(Refusal::EqualOccurrences);
    }
    Ok(())
}

fn any_outside(occurrences: &[u16]) -> bool
    ensures value { Decides result (Any (Outside 512) occurrences.now) }
{
    occurrences.iter().any(|o| !(1..=OCCURRENCES).contains(o))
}

fn two_equal(occurrences: &[u16]) -> bool
    ensures value { Decides result (TwoEqual occurrences.now) }
{
    occurrences
        .iter()
        .enumerate()
        .any(|(i, o)| occurrences[..i].contains(o))
}
