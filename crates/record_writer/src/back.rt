// Writing and reading undo each other.
ghost use Rattle.std.specs.Prelude.{◌≡◌};
ghost use Rattle.records.specs.Laws.{ReadOneWay};

use crate::bytes::write;
use records::{Reader, Record};

// Writes the record and reads it back: the same record, since its bytes are those of no other.
#[tactic(auto, using(crate::proofs::Backs::room_means_put, crate::proofs::Sizes::most_bytes, records::proofs::Unique::read_one_way))]
pub fn reread(given: Record) -> Record
    ensures value { result ≡ given }
    ensures law { ReadOneWay }
{
    let mut page = [0u8; 16];
    write(given, &mut page).unwrap();
    let mut reader = Reader::new(&page).unwrap();
    reader.next().unwrap().unwrap()
}
