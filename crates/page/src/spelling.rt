ghost use Rattle.std.specs.Prelude.{◌≡◌, [], ◌∷◌, ◌++◌};
ghost use Rattle.std.proofs.Common.{lit<};
ghost use Rattle.line.specs.Lines.{text_of};
ghost use Rattle.page.specs.Lines.{name_of, line_of, page_steps};
ghost use Rattle.page.specs.Reading.{page_read_back, line_short};

use line::Line;
use sinks::spelling::Spelling;
use sinks::step::{Rule, Step};

// Each step is a line: its rule's name, a space and its link in decimal.
#[derive(Clone, Copy, PartialEq, Eq, Debug)]
pub struct Lines;

impl Spelling for Lines {
    ghost code = { line_of };

    ghost reads = { page_steps };

    ghost WIDTH = { 8 };

    // The longest line, as `ten 256` with its newline, has eight bytes.
    const WIDTH: usize = 8;

    #[tactic(auto, using(crate::specs::Reading::link_short), unfolding(crate::specs::Lines::line_of))]
    fn spell(step: Step) -> Line<8> {
        let mut line = begun(step.rule);
        line.number(step.link as u64).unwrap();
        line.word(b"\n").unwrap();
        line
    }

    ghost read_back = { page_read_back };

    ghost short = { line_short };

    ghost wide = { lit< tt };
}

// A line that begins with the rule's name and a space. Each arm adds a word of its own, whose length is known when the
// program is built: a copy of as many bytes is a store, and one of any length a call.
fn begun(rule: Rule) -> Line<8>
    ensures { text_of result ≡ name_of rule ++ 32 ∷ [] }
{
    let mut line = Line::new();
    match rule {
        Rule::Axiom => line.word(b"ax ").unwrap(),
        Rule::Tensor => line.word(b"ten ").unwrap(),
        Rule::Par => line.word(b"par ").unwrap(),
        Rule::Cut => line.word(b"cut ").unwrap(),
    }
    line
}
