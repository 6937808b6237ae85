ghost use Rattle.std.specs.Prelude.{◌≡◌, ℕ, Decides};
ghost use Rattle.links.specs.Links.{cut_count};

use links::link::Link;
use table::table::Table;

pub(crate) fn is_cut(link: &Link) -> bool
    ensures value { Decides result ((l : ℕ) × (r : ℕ) × (link.now ≡ Link.Cut l r)) }
{
    matches!(link, Link::Cut { .. })
}

/// How many cuts stand.
#[tactic(auto, using(crate::proofs::Cuts::counted_cut, crate::proofs::Cuts::counted_other))]
pub fn count_cuts(table: &Table) -> u16
    ensures value { result ≡ cut_count table.now.slots.at }
{
    let mut count = 0;
    // A loop as in `Table::count`, and for its reason.
    for link in &table.slots.at {
        if is_cut(link) {
            count += 1;
        }
    }
    count
}
