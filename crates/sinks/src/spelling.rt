ghost use Rattle.std.specs.Prelude.{◌≡◌, ℕ, ◌<◌, ◌≤◌, List, length};
ghost use Rattle.line.specs.Lines.{text_of};
ghost use Rattle.sinks.specs.Spellings.{ReadBack};
ghost use Rattle.sinks.specs.declared.step.Step.{Step as Entry};

use crate::step::Step;
use line::Line;

// How the steps of a proof are written as bytes, each in eight at most.
pub trait Spelling: Drop {
    // The code of a step.
    ghost code: { Entry → List ℕ };

    // The steps that any bytes say.
    ghost reads: { List ℕ → List Entry };

    // How many bytes the longest code has.
    ghost WIDTH: { ℕ };

    const WIDTH: usize;

    // The code of a step, as a line.
    fn spell(step: Step) -> Line<8>
        ensures { text_of result ≡ code step };

    // A code is read back as its step, whatever follows it.
    ghost read_back: { ReadBack code reads };

    // No code is longer than the width.
    ghost short: { (s : Entry) → length (code s) ≤ WIDTH };

    // The longest code has some byte.
    ghost wide: { 0 < WIDTH };
}
