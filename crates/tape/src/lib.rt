// The tape: a sink over lent bytes, on which a proof is one record of six bytes for each step. `record` makes the
// records.
#![tactic(auto)]

ghost use Rattle.std.specs.Prelude.{◌≡◌};
ghost use Rattle.std.specs.List.{flat_map};
ghost use Rattle.sinks.specs.Meaning.{bytes_on, steps_on};
ghost use Rattle.tape.specs.Records.{record_of_lem};

use record::Records;
use sinks::written::Written;

pub mod record;

// A sink whose bytes are the records of its steps.
pub type Tape<'a> = Written<'a, Records>;

// The bytes of a tape, which are the records of its steps: a tape's own name for what it has written.
pub fn records<'a>(tape: &'a Tape<'_>) -> &'a [u8]
    ensures row { result.now ≡ bytes_on tape.now }
    ensures items { result.now ≡ flat_map record_of_lem (steps_on tape.now) }
{
    tape.bytes()
}
