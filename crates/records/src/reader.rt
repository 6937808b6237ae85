// Reads a drawing file record by record.
ghost use Rattle.std.specs.Prelude.{◌≡◌, ◌≤◌, length, drop, MatchResult};
ghost use Rattle.records.specs.Fronts.{ReadsFront};
ghost use Rattle.records.specs.Laws.{Finds};
ghost use Rattle.records.specs.Reading.{Opens, TooLong, Reads, Walks};

use crate::body::{number, with_body};
use crate::fault::Fault;
use crate::kind::Kind;
use crate::record::Record;

// No drawing file is longer than this.
const MOST_BYTES: usize = 16384;

// A place in a file, from which the next record is read. The offset stands beside the file since it is what faults are
// told by.
#[derive(Drop)]
pub struct Reader<'a> {
    file: &'a [u8],
    at: usize,
    ghost short: { length file.now ≤ 16384 },
}

impl<'a> Reader<'a> {
    // A reader at the start of the file.
    pub fn new(file: &'a [u8]) -> Result<Reader<'a>, Fault>
        ensures { MatchResult result (λ reader. Opens file.now reader.file.now reader.at) (λ fault. TooLong file.now fault) }
    {
        if file.len() > MOST_BYTES {
            return Err(Fault::FileTooLong);
        }
        Ok(Reader { file, at: 0 })
    }

    // The byte offset at which the next record begins.
    pub fn place(&self) -> usize
        ensures { result ≡ self.now.at }
    {
        self.at
    }

    // The next record, or none at the end of the file. At a fault the reader stays where it is.
    pub fn next(&mut self) -> Result<Option<Record>, Fault>
        ensures answer { Reads self.old.file.now self.old.at result self.new.at }
        ensures same { self.new.file.now ≡ self.old.file.now }
        ensures items { Walks self.old.file.now self.old.at result self.new.at }
        ensures law { Finds (drop self.old.at self.old.file.now) result }
    {
        let Reader { file, at } = self;
        if *at >= file.len() {
            return Ok(None);
        }
        let record = read(&file[*at..])?;
        *at += record.size();
        Ok(Some(record))
    }
}

// The record at the front of the bytes.
fn read(bytes: &[u8]) -> Result<Record, Fault>
    ensures { ReadsFront bytes.now result }
{
    let [len_lo, len_hi, kind_lo, kind_hi, rest @ ..] = bytes else {
        return Err(Fault::CutOff);
    };
    let len = number(*len_lo, *len_hi) as usize;
    if rest.len() < len {
        return Err(Fault::CutOff);
    }
    let kind = Kind::try_from(number(*kind_lo, *kind_hi))?;
    with_body(kind, &rest[..len])
}
