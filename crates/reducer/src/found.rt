ghost use Rattle.std.specs.Prelude.{◌≡◌};
ghost use Rattle.links.specs.Links.{link_at, Concludes};
ghost use Rattle.reducer.specs.Finding.{FoundAt, CutAt};

use links::link::Link;
use table::table::Table;

/// What stands above a cut.
#[derive(Clone, Copy, PartialEq, Eq, Debug)]
pub enum Found {
    /// A tensor and a par with their premises.
    Compound {
        tensor: u16,
        par: u16,
        left: u16,
        right: u16,
        left_dual: u16,
        right_dual: u16,
    },
    /// Two wires: the positive end of first is cut, and the negative end of second, whose positive end comes last.
    Wires {
        first: u16,
        second: u16,
        end: u16,
    },
    /// One wire, cut against itself.
    OneWire,
}

// What concludes the two premises of a cut: by their duality a tensor and a par, or wires.
pub(crate) fn look(table: &Table, cut: u16, left: u16, right: u16) -> Found
    requires cut { CutAt table.now.slots.at cut left right }
    ensures answer { FoundAt table.now.slots.at cut result }
{
    let Some(m) = table.concluder(left) else {
        unreachable!()
    };
    let Some(n) = table.concluder(right) else {
        unreachable!()
    };
    match (table.link(m), table.link(n)) {
        (
            Link::Tensor { left, right, .. },
            Link::Par {
                left: left_dual,
                right: right_dual,
                ..
            },
        ) => Found::Compound {
            tensor: m,
            par: n,
            left,
            right,
            left_dual,
            right_dual,
        },
        (
            Link::Par {
                left: left_dual,
                right: right_dual,
                ..
            },
            Link::Tensor { left, right, .. },
        ) => Found::Compound {
            tensor: n,
            par: m,
            left,
            right,
            left_dual,
            right_dual,
        },
        (Link::Axiom { positive: p, .. }, Link::Axiom { positive: q, .. }) => {
            if m == n {
                Found::OneWire
            } else if p == left {
                Found::Wires {
                    first: m,
                    second: n,
                    end: q,
                }
            } else {
                Found::Wires {
                    first: n,
                    second: m,
                    end: p,
                }
            }
        }
        _ => unreachable!(),
    }
}
