ghost use Rattle.std.specs.Prelude.{◌≡◌, if◌then◌else◌};
ghost use Rattle.switchings.specs.Edges.{is_axiom_lem};
ghost use Rattle.unify.specs.Markings.{Means};

use crate::marking::Marking;
use links::link::Link;
use makers::index::Indexed;
use std::array;

// The token of link n before any link has passed: an axiom's is its own.
fn first_token(link: Link, n: u16) -> u16
    ensures value { result ≡ (if is_axiom_lem link then n else 0) }
{
    match link {
        Link::Axiom { .. } => n,
        _ => 0,
    }
}

impl Marking {
    // At the start each axiom has passed, with a token of its own.
    pub(crate) fn begin(index: &Indexed) -> Marking
        ensures marks { Means index.now.table.now.slots.at result }
    {
        let token = array::from_fn(|n| first_token(index.link(n as u16), n as u16));
        Marking {
            token,
            last: token,
            first: [0; 257],
            second: [0; 257],
            passes: 0,
        }
    }
}
