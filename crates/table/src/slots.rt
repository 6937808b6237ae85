ghost use Rattle.std.specs.Prelude.{◌≡◌, ℕ, ◌≤◌, length, slice_set};
ghost use Rattle.links.specs.Links.{link_at};

use links::link::Link;

/// How many slots there are: links 1 to 256, and slot 0, which stays empty.
pub const SLOTS: usize = 257;

/// The links, plainly and in fixed memory: slot n holds link n.
#[derive(Clone, Copy, PartialEq, Eq, Debug)]
pub struct Slots {
    pub at: [Link; SLOTS],
}

impl Slots {
    /// What stands at the number; nothing where there is no such number.
    pub(crate) fn get(&self, n: u16) -> Link
        ensures value { result ≡ link_at self.now.at n }
    {
        self.at.get(n as usize).copied().unwrap_or(Link::Empty)
    }

    /// The one way in which a link comes or goes.
    // A number of a link is a plain number: definitions and rows count by it, and a type of its own would be taken apart
    // at each step.
    pub(crate) fn put(&mut self, n: u16, link: Link)
        requires long { length self.old.at ≡ 257 }
        requires number { n ≤ 256 }
        ensures links { self.new.at ≡ slice_set self.old.at n link }
    {
        self.at[n as usize] = link;
    }
}
