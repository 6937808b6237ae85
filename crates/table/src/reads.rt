ghost use Rattle.std.specs.Prelude.{◌≡◌, ℕ, ◌≤◌, Decides};
ghost use Rattle.std.specs.Fn.{FnReturnsAt};
ghost use Rattle.links.specs.Links.{link_at, Concludes, Uses, Stands, Premise};
ghost use Rattle.table.specs.Answers.{Concluder, User};
ghost use Rattle.table.specs.ByLink.{LowestWhere};

use crate::table::Table;
use links::link::Link;

fn concludes(link: Link, o: u16) -> bool
    ensures { Decides result (Concludes link o) }
{
    match link {
        Link::Axiom {
            positive,
            negative,
            ..
        } => positive == o || negative == o,
        Link::Tensor { conclusion, .. } | Link::Par { conclusion, .. } => conclusion == o,
        Link::Empty | Link::Cut { .. } => false,
    }
}

fn uses(link: Link, o: u16) -> bool
    ensures { Decides result (Uses link o) }
{
    match link {
        Link::Tensor { left, right, .. }
        | Link::Par { left, right, .. }
        | Link::Cut { left, right } => left == o || right == o,
        Link::Empty | Link::Axiom { .. } => false,
    }
}

impl Table {
    /// What stands at the number; nothing where there is no such number.
    pub fn link(&self, n: u16) -> Link
        ensures value { result ≡ link_at self.now.slots.at n }
    {
        self.slots.get(n)
    }

    /// The lowest number at which the test passes.
    fn lowest<F: Fn(&Link) -> bool>(&self, passes: F) -> Option<u16>
        requires callable { F.IsAlwaysCallable passes }
        ensures answer { LowestWhere (FnReturnsAt F.Fn passes) self.now.slots.at result }
    {
        self.slots.at.iter().position(passes).map(|n| n as u16)
    }

    /// The link that concludes the occurrence.
    pub fn concluder(&self, o: u16) -> Option<u16>
        ensures answer { Concluder self.now.slots.at o result }
    {
        self.lowest(|link| concludes(*link, o))
    }

    /// The link that uses the occurrence.
    pub fn user(&self, o: u16) -> Option<u16>
        ensures answer { User self.now.slots.at o result }
    {
        self.lowest(|link| uses(*link, o))
    }

    /// Whether the occurrence stands.
    pub fn stands(&self, o: u16) -> bool
        ensures value { Decides result (Stands self.now.slots.at o) }
    {
        self.concluder(o).is_some()
    }

    /// Whether some link uses the occurrence.
    pub fn is_premise(&self, o: u16) -> bool
        ensures value { Decides result (Premise self.now.slots.at o) }
    {
        self.user(o).is_some()
    }
}
