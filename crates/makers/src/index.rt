ghost use Rattle.std.specs.Prelude.{◌≡◌, ◌≤◌, length};
ghost use Rattle.links.specs.Links.{link_at};
ghost use Rattle.switchings.specs.Edges.{maker};
ghost use Rattle.makers.specs.Makers.{Makes};

use links::link::Link;
use table::table::Table;

/// Occurrences 0 to 512, of which 0 is never concluded.
const OCCURRENCES: usize = 513;

/// A table together with the link that concludes each occurrence, in fixed memory.
#[derive(Clone, Copy, PartialEq, Eq, Debug)]
pub struct Indexed<'a> {
    pub table: &'a Table,
    by: [u16; OCCURRENCES],
    ghost long: { length by ≡ 513 },
    ghost made: { Makes table.now.slots.at by },
}

impl<'a> Indexed<'a> {
    /// Gathers the makers of the structure.
    pub fn new(table: &'a Table) -> Indexed<'a>
        ensures table { result.table.now ≡ table.now }
    {
        let mut by = [0; OCCURRENCES];
        for (n, link) in table.slots.at.iter().enumerate() {
            match *link {
                Link::Axiom {
                    positive,
                    negative,
                    ..
                } => {
                    by[positive as usize] = n as u16;
                    by[negative as usize] = n as u16;
                }
                Link::Tensor { conclusion, .. } | Link::Par { conclusion, .. } => {
                    by[conclusion as usize] = n as u16;
                }
                Link::Empty | Link::Cut { .. } => {}
            }
        }
        Indexed { table, by }
    }

    /// What stands at the number; nothing where there is no such number.
    pub fn link(&self, n: u16) -> Link
        ensures value { result ≡ link_at self.now.table.now.slots.at n }
    {
        self.table.link(n)
    }

    /// The link that concludes the occurrence, 0 where none does.
    // A number and no Option: the theory's maker is one, and wherever it is read the facts rule 0 out.
    pub fn maker(&self, o: u16) -> u16
        ensures low { result ≤ 256 }
        ensures value { result ≡ maker self.now.table.now.slots.at o }
    {
        self.by.get(o as usize).copied().unwrap_or(0)
    }
}
