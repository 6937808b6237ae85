/// What is wrong with a switching's graph.
#[derive(Clone, Copy, PartialEq, Eq, Debug)]
pub enum Flaw {
    /// The link is on a cycle.
    Round(u16),
    /// No walk joins the two links.
    Split(u16, u16),
}
