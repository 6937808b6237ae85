ghost use Rattle.std.specs.Prelude.{◌≡◌, ◌+◌, ◌<◌, ◌≤◌, min, ◌++◌, length, take};
ghost use Rattle.sinks.specs.LentBytes.{Extends};

use crate::sink::{Full, Sink};
use crate::step::Step;

// Writes the steps until the sink refuses one, and says how many it took.
pub fn write_all<S: Sink>(sink: &mut S, list: &[Step]) -> usize
    ensures items { S.steps sink.new ≡ S.steps sink.old ++ take result list.now }
    ensures answer { (min (length list.now) (S.room sink.old) ≤ result) × (result ≤ length list.now) }
    ensures room { (S.room sink.new ≤ S.room sink.old) × (S.room sink.old ≤ S.room sink.new + result) }
    ensures refused { result < length list.now → S.room sink.new ≡ 0 }
    ensures row { Extends (S.used sink.old) (S.Sink.row sink.old) (S.used sink.new) (S.Sink.row sink.new) }
    ensures lender { S.lender sink.new ≡ S.lender sink.old }
{
    for (taken, step) in list.iter().enumerate() {
        if let Err(Full) = sink.step(*step) {
            return taken;
        }
    }
    list.len()
}
