ghost use Rattle.std.specs.Prelude.{◌≡◌, ℕ, ◌+◌, ◌<◌, ◌≤◌, ◌↔◌, List, [], ◌∷◌, ◌++◌, IsOk, OnOk, OnErr};
ghost use Rattle.sinks.specs.LentBytes.{Extends};
ghost use Rattle.sinks.specs.declared.step.Step.{Step as Entry};

use crate::step::Step;
pub use line::Full;

// Of the bytes that are lent to it a sink uses at most the first 4,096.
pub const MOST: usize = 4096;

// A sink takes the steps of a proof, one after the other, as long as it has room.
pub trait Sink {
    // The steps that it holds, which is what it means.
    ghost steps: { Self → List Entry };

    // Its room: how many more steps it surely takes.
    ghost room: { Self → ℕ };

    // The bytes that are lent to it, in the order in which it writes on them.
    ghost row: { Self → List ℕ };

    // How many of them it has written on.
    ghost used: { Self → ℕ };

    // Whose bytes they are.
    ghost lender: { Self → ℕ };

    // Tells the room, and changes nothing.
    fn room(&self) -> usize
        ensures answer { result ≡ room self.now };

    // Takes a step at the end of its list. Where the room is 0, and only there, it refuses the step and changes nothing.
    fn step(&mut self, step: Step) -> Result<(), Full>
        ensures answer { IsOk result ↔ (0 < room self.old) }
        ensures items { OnOk result (steps self.new ≡ steps self.old ++ step ∷ []) }
        ensures room { (room self.new ≤ room self.old) × (room self.old ≤ room self.new + 1) }
        ensures row { Extends (used self.old) (row self.old) (used self.new) (row self.new) }
        ensures lender { lender self.new ≡ lender self.old }
        ensures refused { OnErr result (self.new ≡ self.old) };
}
