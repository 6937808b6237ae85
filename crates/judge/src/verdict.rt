ghost use Rattle.std.specs.Prelude.{◌≡◌};
ghost use Rattle.judge.specs.Verdicts.{number_of};

/// What a judgement says of a structure.
#[derive(Clone, Copy, PartialEq, Eq, Debug)]
pub enum Verdict {
    /// It is correct: a proof net.
    Accepted,
    /// In the switching that the row shows the link is on a cycle.
    Cyclic(u16),
    /// In the switching that the row shows no walk joins the two links.
    Apart(u16, u16),
}

impl Verdict {
    /// The number by which programs tell its kind.
    // By a match, since two kinds carry links.
    pub fn number(self) -> u8
        ensures value { result ≡ number_of self }
    {
        match self {
            Verdict::Accepted => 1,
            Verdict::Cyclic(_) => 2,
            Verdict::Apart(_, _) => 3,
        }
    }
}
