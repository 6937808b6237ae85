ghost use Rattle.std.specs.Prelude.{◌≡◌};

// A kind of label: a composition of two labels into one, that it is associative, and the call that computes it.
// A kind has nothing else to show.
pub trait Label: Sized {
    // First, and after it second.
    ghost op: { Self → Self → Self };

    fn compose(self, next: Self) -> Self
        ensures value { result ≡ op self next };

    ghost assoc: { (x y z : Self) → op (op x y) z ≡ op x (op y z) };
}
