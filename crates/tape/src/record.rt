ghost use Rattle.std.specs.Prelude.{◌≡◌};
ghost use Rattle.std.proofs.Common.{lit<};
ghost use Rattle.tape.specs.Records.{kind_of, record_of_lem, tape_steps};
ghost use Rattle.tape.specs.Reading.{tape_read_back, record_short};

use line::Line;
use sinks::spelling::Spelling;
use sinks::step::{Rule, Step};

// Each step is a record of six bytes.
#[derive(Clone, Copy, PartialEq, Eq, Debug)]
pub struct Records;

impl Spelling for Records {
    ghost code = { record_of_lem };

    ghost reads = { tape_steps };

    ghost WIDTH = { 6 };

    const WIDTH: usize = 6;

    fn spell(step: Step) -> Line<8> {
        let mut line = Line::new();
        line.word(&record_of(step)).unwrap();
        line
    }

    ghost read_back = { tape_read_back };

    ghost short = { record_short };

    ghost wide = { lit< tt };
}

// The number that the format has for the kind of the records that name a rule. By a match: the rules are those of
// `links`, and these numbers the tape's own.
pub fn kind(rule: Rule) -> u8
    ensures { result ≡ kind_of rule }
{
    match rule {
        Rule::Axiom => 17,
        Rule::Tensor => 18,
        Rule::Par => 19,
        Rule::Cut => 20,
    }
}

// The record that a tape has for a step.
pub fn record_of(step: Step) -> [u8; 6]
    ensures { result ≡ record_of_lem step }
{
    let [low, high] = step.link.to_le_bytes();
    [2, 0, kind(step.rule), 0, low, high]
}
