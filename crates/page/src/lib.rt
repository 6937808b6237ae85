// The page: a sink over lent bytes, on which a proof is a text with one line for each step, as `ten 7`. `spelling`
// makes the lines.
#![tactic(auto)]

ghost use Rattle.std.specs.Prelude.{◌≡◌};
ghost use Rattle.std.specs.List.{flat_map};
ghost use Rattle.sinks.specs.Meaning.{bytes_on, steps_on};
ghost use Rattle.page.specs.Lines.{line_of};

use sinks::written::Written;
use spelling::Lines;

pub mod spelling;

// A sink whose bytes are the lines of its steps.
pub type Page<'a> = Written<'a, Lines>;

// The text of a page, which is the lines of its steps: a page's own name for what it has written.
pub fn text<'a>(page: &'a Page<'_>) -> &'a [u8]
    ensures row { result.now ≡ bytes_on page.now }
    ensures items { result.now ≡ flat_map line_of (steps_on page.now) }
{
    page.bytes()
}
