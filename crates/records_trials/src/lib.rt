// Tests of reading and writing records, on files at the edges of the format.
#![tactic(auto)]

#[cfg(test)]
mod tests {
    use record_writer::{reread, write};
    use records::{Reader, Record};
    use std::test::Fail;

    // What comes first in the file: 0 its end, 1 to 4 a record's kind, and else a fault's number, so that a case is a line.
    fn first(file: &[u8]) -> u8 {
        let mut reader = match Reader::new(file) {
            Ok(reader) => reader,
            Err(fault) => return fault.number(),
        };
        match reader.next() {
            Ok(None) => 0,
            Ok(Some(record)) => record.kind().number(),
            Err(fault) => fault.number(),
        }
    }

    #[test]
    fn whole_records(rt: HostRuntime) {
        assert_eq!(rt; first(&[]), 0, "an empty file");
        assert_eq!(rt;
            first(&[12, 0, 1, 0, 1, 0, 1, 0, 2, 0, 1, 0, 5, 0, 0, 0]),
            1
        );
        assert_eq!(rt; first(&[8, 0, 2, 0, 1, 0, 1, 0, 2, 0, 3, 0]), 2);
        assert_eq!(rt;
            first(&[8, 0, 3, 0, 1, 0, 1, 0, 2, 0, 3, 0, 9]),
            3,
            "a byte follows"
        );
        assert_eq!(rt; first(&[6, 0, 4, 0, 3, 0, 1, 0, 4, 0]), 4);
    }

    #[test]
    fn cut_off(rt: HostRuntime) {
        assert_eq!(rt; first(&[12]), 6, "one byte");
        assert_eq!(rt; first(&[12, 0, 1]), 6, "three header bytes");
        assert_eq!(rt;
            first(&[12, 0, 1, 0, 1, 0, 1, 0, 2, 0, 1, 0, 5, 0, 0]),
            6,
            "a body one byte short"
        );
        assert_eq!(rt; first(&[6, 0, 4, 0]), 6, "no body");
        assert_eq!(rt; first(&[255, 255, 1, 0, 1, 0]), 6, "length 65535");
        assert_eq!(rt; first(&[1, 0, 9, 0]), 6, "before the kind is looked at");
    }

    #[test]
    fn unknown_kinds(rt: HostRuntime) {
        assert_eq!(rt; first(&[0, 0, 0, 0]), 7);
        assert_eq!(rt; first(&[0, 0, 5, 0]), 7);
        assert_eq!(rt; first(&[0, 0, 1, 1]), 7, "kind 257");
        assert_eq!(rt; first(&[6, 0, 17, 0, 3, 0, 1, 0, 4, 0]), 7);
    }

    #[test]
    fn wrong_lengths(rt: HostRuntime) {
        assert_eq!(rt; first(&[0, 0, 1, 0]), 8);
        assert_eq!(rt; first(&[8, 0, 1, 0, 1, 0, 1, 0, 2, 0, 1, 0]), 8);
        assert_eq!(rt; first(&[6, 0, 2, 0, 1, 0, 1, 0, 2, 0]), 8);
        assert_eq!(rt; first(&[9, 0, 3, 0, 1, 0, 1, 0, 2, 0, 3, 0, 0]), 8);
        assert_eq!(rt; first(&[8, 0, 4, 0, 3, 0, 1, 0, 4, 0, 0, 0]), 8);
    }

    #[test]
    fn longest_file(rt: HostRuntime) {
        let bytes = [0u8; 16385];
        assert_eq!(rt; first(&bytes[0..16384]), 7, "16,384 bytes are read");
        assert_eq!(rt; first(&bytes), 9, "16,385 are too many");
    }

    #[test]
    fn places(rt: HostRuntime) -> Result<(), Fail> {
        let file = [6, 0, 4, 0, 3, 0, 1, 0, 4, 0, 0, 0, 5, 0];
        let mut reader = Reader::new(&file)?;
        assert!(rt; reader.next().is_ok());
        assert_eq!(rt; reader.place(), 10);
        assert!(rt; reader.next().is_err());
        assert_eq!(rt; reader.place(), 10, "a fault does not move the reader");
        Ok(())
    }

    #[test]
    fn written_bytes(rt: HostRuntime) {
        let cut = Record::Cut {
            link: 258,
            left: 1,
            right: 512,
        };
        let mut bytes = [7u8; 11];
        assert_eq!(rt; write(cut, &mut bytes), Some(10));
        assert_eq!(rt; bytes, [6, 0, 4, 0, 2, 1, 1, 0, 0, 2, 7]);
        let mut short = [7u8; 9];
        assert_eq!(rt; write(cut, &mut short), None);
        assert_eq!(rt; short, [7; 9], "no room: nothing is written");
    }

    #[test]
    fn read_back(rt: HostRuntime) {
        let axiom = Record::Axiom {
            link: 65535,
            positive: 256,
            negative: 255,
            atom: 1,
            delay: 4294967295,
        };
        assert_eq!(rt; reread(axiom), axiom);
    }
}
