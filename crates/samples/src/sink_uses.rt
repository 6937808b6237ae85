ghost use Rattle.std.specs.Prelude.{◌≡◌, ◌/◌, ◌≤◌, min, length, take};
ghost use Rattle.std.specs.List.{flat_map};
ghost use Rattle.sinks.specs.LentBytes.{most, over};
ghost use Rattle.page.specs.Lines.{line_of};
ghost use Rattle.tape.specs.Records.{record_of_lem};

use page::spelling::Lines;
use sinks::spelling::Spelling;
use sinks::step::Step;
use sinks::writer::write_all;
use sinks::written::Written;
use tape::record::Records;

// Writes a list of steps on a page over these bytes, and says how many it took. Their lines stand at the front, and
// all other bytes are as they were.
pub fn on_page(bytes: &mut [u8], list: &[Step]) -> usize
    ensures answer { (min (length list.now) (min (length bytes.old) 4096 / 8) ≤ result) × (result ≤ length list.now) }
    ensures row { bytes.new ≡ over (flat_map line_of (take result list.now)) bytes.old }
{
    write_over::<Lines>(bytes, list)
}

// The same on a tape, with the records of the steps.
pub fn on_tape(bytes: &mut [u8], list: &[Step]) -> usize
    ensures answer { (min (length list.now) (min (length bytes.old) 4096 / 6) ≤ result) × (result ≤ length list.now) }
    ensures row { bytes.new ≡ over (flat_map record_of_lem (take result list.now)) bytes.old }
{
    write_over::<Records>(bytes, list)
}

// The same in any spelling.
fn write_over<S: Spelling>(bytes: &mut [u8], list: &[Step]) -> usize
    ensures answer { (min (length list.now) (min (length bytes.old) most / S.WIDTH) ≤ result) × (result ≤ length list.now) }
    ensures row { bytes.new ≡ over (flat_map S.code (take result list.now)) bytes.old }
{
    let mut sink = Written::<S>::new(bytes);
    write_all(&mut sink, list)
}
