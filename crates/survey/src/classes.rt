//! The classes of a graph as labels: links have one label exactly when the edges taken so far join them.
ghost use Rattle.std.specs.Prelude.{◌≡◌, ℕ, ◌≤◌, List, [], ◌∷◌, length};
ghost use Rattle.graphs.specs.Walks.{Edge};
ghost use Rattle.switchings.specs.Edges.{edge};
ghost use Rattle.survey.specs.Labels.{OwnLabels, Labels, Merged, AddedTo, Added, Parted};

use crate::flaw::Flaw;
use crate::labels::relabel;
use links::link::Link;
use makers::index::Indexed;
use std::array;

/// A label for each link number, in fixed memory.
// The index stays a parameter of what reads it: the classes alone change. Links are plain numbers, as the labels are.
#[derive(Drop)]
pub(crate) struct Classes {
    labels: [u16; 257],
    ghost long: { length labels ≡ 257 },
}

impl Classes {
    /// Each link is a class of its own.
    pub(crate) fn apart() -> Classes
        ensures items { OwnLabels result.labels }
    {
        Classes {
            labels: array::from_fn(|n| n as u16),
        }
    }

    // Makes the classes of both links one; false where they are one already, which is no fault before an edge is named.
    fn merge(&mut self, one: u16, other: u16) -> bool
        requires one { one ≤ 256 }
        requires other { other ≤ 256 }
        ensures items { (E : List Edge) (e : Edge) → e.from ≡ one → e.to ≡ other → Labels self.old.labels E → Merged E e result self.new.labels }
    {
        let kept = self.labels[one as usize];
        let gone = self.labels[other as usize];
        if kept == gone {
            return false;
        }
        relabel(&mut self.labels, kept, gone);
        true
    }

    // Adds the edge of a premise of link n. Where it joins what is joined, the link that it comes from is on a cycle.
    fn join(&mut self, index: &Indexed, n: u16, premise: u16) -> Result<(), Flaw>
        requires low { n ≤ 256 }
        ensures items { (E : List Edge) → Labels self.old.labels E → AddedTo (edge index.now.table.now.slots.at n premise ∷ []) E result self.new.labels }
    {
        let maker = index.maker(premise);
        if self.merge(maker, n) {
            Ok(())
        } else {
            Err(Flaw::Round(maker))
        }
    }

    /// Adds the edges into link n, that of the right premise first. A side is an entry of the row, 2 for right.
    pub(crate) fn add(&mut self, index: &Indexed, n: u16, side: u8) -> Result<(), Flaw>
        requires low { n ≤ 256 }
        ensures items { (E : List Edge) → Labels self.old.labels E → Added index.now.table.now.slots.at n side E result self.new.labels }
    {
        match index.link(n) {
            Link::Tensor { left, right, .. } | Link::Cut { left, right } => {
                self.join(index, n, right)?;
                self.join(index, n, left)
            }
            Link::Par { left, right, .. } => {
                let picked = if side == 2 { right } else { left };
                self.join(index, n, picked)
            }
            Link::Empty | Link::Axiom { .. } => Ok(()),
        }
    }

    /// Whether the standing links are one class; else two of them with different labels.
    pub(crate) fn check_one(&self, index: &Indexed) -> Result<(), Flaw>
        ensures answer { Parted index.now.table.now.slots.at self.now.labels result }
    {
        let Some(first) = (0..257u16).find(|n| index.link(*n) != Link::Empty) else {
            return Ok(());
        };
        let other = (0..257u16).find(|n| {
            index.link(*n) != Link::Empty && self.labels[*n as usize] != self.labels[first as usize]
        });
        match other {
            Some(n) => Err(Flaw::Split(first, n)),
            None => Ok(()),
        }
    }
}
