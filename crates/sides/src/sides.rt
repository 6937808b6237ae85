ghost use Rattle.std.specs.Prelude.{◌≡◌, Decides};
ghost use Rattle.sides.specs.Rule.{Clear, SideAt, Chooses};

use crate::tokens::Marked;
use links::link::Link;
use makers::index::Indexed;
use table::table::Table;

// The entries of the row of sides are the format that the judge's callers see, and so numbers.

/// No side: the link is no par.
const NO_SIDE: u8 = 0;

const LEFT: u8 = 1;

const RIGHT: u8 = 2;

impl<'a> Marked<'a> {
    // Whether par n keeps clear of its left premise: it has not passed, and the token to avoid is there, or, where no
    // token is avoided, only the right premise is without one.
    fn is_clear(&self, avoided: Option<u16>, n: u16, left: u16, right: u16) -> bool
        ensures value { Decides result (Clear self.now.index.table.now.slots.at self.now.tokens.now avoided n left right) }
    {
        if self.token(n) != 0 {
            return false;
        }
        match avoided {
            Some(t) => self.token_on(left) == t,
            None => self.token_on(left) != 0 && self.token_on(right) == 0,
        }
    }

    // The side of link n.
    fn side_of(&self, avoided: Option<u16>, n: u16) -> u8
        ensures value { SideAt self.now.index.table.now.slots.at self.now.tokens.now avoided n result }
    {
        match self.index.link(n) {
            Link::Par { left, right, .. } if self.is_clear(avoided, n, left, right) => RIGHT,
            Link::Par { .. } => LEFT,
            _ => NO_SIDE,
        }
    }
}

/// The sides for the tokens that unification left. Entry n, counted from 1, is 1 for left or 2 for right where link n is
/// a par, and 0 elsewhere. Pars that are free to choose pick left.
pub fn choose_sides(table: &Table, tokens: &[u16]) -> [u8; 256]
    ensures row { Chooses table.now.slots.at tokens.now result }
{
    let index = Indexed::new(table);
    let marked = Marked { index, tokens };
    let avoided = marked.free_token();
    let mut row = [NO_SIDE; 256];
    // Through `iter_mut`: what `array::from_fn` makes over two captures stayed open.
    for (i, side) in row.iter_mut().enumerate() {
        *side = marked.side_of(avoided, i as u16 + 1);
    }
    row
}
