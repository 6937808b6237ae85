ghost use Rattle.std.specs.Prelude.{◌≡◌, ℕ};
ghost use Rattle.std.proofs.Common.{ap};
ghost use Rattle.labels.specs.Delays.{in_turn, longest};
ghost use Rattle.labels.specs.CappedSums.{capped_sum_assoc};

use crate::label::Label;

// A delay in nanoseconds.
#[derive(Clone, Copy, PartialEq, Eq, Debug)]
pub struct Delay {
    pub nanos: u32,
}

impl Label for Delay {
    ghost op = { in_turn };

    ghost assoc = { λ x y z. ap (λ (n : ℕ). record { nanos = n }) (capped_sum_assoc longest x.nanos y.nanos z.nanos) };

    // A sum past the longest delay is held at it.
    fn compose(self, next: Delay) -> Delay {
        Delay {
            nanos: self.nanos.saturating_add(next.nanos),
        }
    }
}
