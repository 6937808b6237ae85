ghost use Rattle.std.specs.Prelude.{◌≡◌, length};
ghost use Rattle.links.specs.Facts.{Facts};

use crate::slots::Slots;

/// A structure of links. No value of this type breaks a structure fact.
///
/// The slots are public so that a layer above may change a link in place; whoever does owes the facts.
#[derive(Clone, Copy, PartialEq, Eq, Debug)]
pub struct Table {
    pub slots: Slots,
    ghost long: { length slots.at ≡ 257 },
    ghost facts: { ∥ Facts slots.at ∥₁ },
}
