// The lines in which a drawing file is shown: one for each record, and a last one.
#![tactic(auto)]

ghost use Rattle.std.specs.Prelude.{◌≡◌, ◌+◌, ◌≤◌, ◌∷◌, ◌++◌, length, decimal};
ghost use Rattle.line.specs.Lines.{text_of};
ghost use Rattle.dumplines.specs.Shown.{record_line_lem, count_line_lem, fault_line_lem, name_of, ending};

use line::Line;
use records::Record;

// How many bytes a line may have: the longest, an axiom's, has 62.
pub const MOST: usize = 64;

// A record and the byte offset at which it begins.
#[tactic(auto, using(crate::proofs::Sizes::sizes))]
pub fn record_line(at: usize, given: Record) -> Line<MOST>
    ensures { text_of result ≡ record_line_lem at given }
{
    let line = begun(at, name(given));
    match given {
        Record::Axiom {
            link,
            positive,
            negative,
            atom,
            delay,
        } => ended(
            line,
            &[
                link as u64,
                positive as u64,
                negative as u64,
                atom as u64,
                delay as u64,
            ],
        ),
        Record::Tensor {
            link,
            left,
            right,
            conclusion,
        }
        | Record::Par {
            link,
            left,
            right,
            conclusion,
        } => ended(
            line,
            &[link as u64, left as u64, right as u64, conclusion as u64],
        ),
        Record::Cut { link, left, right } => {
            ended(line, &[link as u64, left as u64, right as u64])
        }
    }
}

// How many records were read, at the end of a file without a fault.
#[tactic(auto, using(crate::proofs::Sizes::sizes))]
pub fn count_line(count: usize) -> Line<MOST>
    ensures { text_of result ≡ count_line_lem count }
{
    let mut line = Line::new();
    line.word(b"records").unwrap();
    ended(line, &[count as u64])
}

// Where a fault is, and its number.
#[tactic(auto, using(crate::proofs::Sizes::sizes))]
pub fn fault_line(place: usize, number: u8) -> Line<MOST>
    ensures { text_of result ≡ fault_line_lem place number }
{
    let mut line = Line::new();
    line.word(b"fault").unwrap();
    ended(line, &[place as u64, number as u64])
}

// The name of a record's kind.
fn name(given: Record) -> &'static [u8]
    ensures row { result.now ≡ name_of given }
    ensures long { length result.now ≤ 6 }
{
    match given {
        Record::Axiom { .. } => b"axiom",
        Record::Tensor { .. } => b"tensor",
        Record::Par { .. } => b"par",
        Record::Cut { .. } => b"cut",
    }
}

// A line that begins with an offset and a name.
#[tactic(auto, using(crate::proofs::Sizes::sizes))]
fn begun(at: usize, name: &[u8]) -> Line<MOST>
    requires { length name.now ≤ 6 }
    ensures text { text_of result ≡ decimal at ++ (32 ∷ name.now) }
    ensures long { length (text_of result) ≤ 27 }
{
    let mut line = Line::new();
    line.number(at as u64).unwrap();
    line.word(b" ").unwrap();
    line.word(name).unwrap();
    line
}

// The line with these numbers and a newline at its end, for which it has room.
fn ended(mut line: Line<MOST>, numbers: &[u64]) -> Line<MOST>
    requires { length (text_of line) + length (ending numbers.now) ≤ 64 }
    ensures { text_of result ≡ text_of line ++ ending numbers.now }
{
    for number in numbers {
        line.field(*number).unwrap();
    }
    line.word(b"\n").unwrap();
    line
}
