/// What a step at a cut did.
#[derive(Clone, Copy, PartialEq, Eq, Debug)]
pub enum Reduction {
    /// A tensor against a par: two cuts of their parts took their numbers.
    Parted,
    /// Two wires: first keeps its number and goes on to second's positive end.
    Joined { first: u16, second: u16 },
    /// A wire cut against itself has no step. In a correct structure this does not occur.
    SelfCut,
}
