// Shows the drawing file on standard input, one line for each record, and a last line with their count or the fault.
#![tactic(auto)]

use dumplines::{count_line, fault_line, record_line};
use records::{Fault, Reader};
use std::io;
use std::io::{Read, Write};

// One byte more than a drawing file may have is enough to know that it is too long.
const ENOUGH: u64 = 16385;

// Where a file that is too long is at fault: the first byte too many.
const TOO_LONG_AT: usize = 16384;

fn main(rt: HostRuntime) -> anyhow::Result<()> {
    run(&rt)
}

fn run(rt: &HostRuntime) -> anyhow::Result<()> {
    let mut file = Vec::new(rt.alloc());
    rt.stdin().take(ENOUGH).read_to_end(&mut file)?;
    show(&mut rt.stdout(), file.as_slice())?;
    Ok(())
}

fn show<W: Write>(out: &mut W, file: &[u8]) -> io::Result<()> {
    match Reader::new(file) {
        Ok(reader) => show_records(out, reader),
        Err(fault) => show_fault(out, TOO_LONG_AT, fault),
    }
}

fn show_records<W: Write>(out: &mut W, mut reader: Reader<'_>) -> io::Result<()> {
    let mut count = 0;
    // Counted by hand: a reader is no iterator, since after a fault it answers that fault again.
    'records: loop {
        let at = reader.place();
        match reader.next() {
            Ok(Some(record)) => out.write_all(record_line(at, record).text())?,
            Ok(None) => return out.write_all(count_line(count).text()),
            Err(fault) => return show_fault(out, at, fault),
        }
        count += 1;
    }
}

fn show_fault<W: Write>(out: &mut W, place: usize, fault: Fault) -> io::Result<()> {
    out.write_all(fault_line(place, fault.number()).text())
}
