// What can be wrong with a drawing file as bytes, before any link is placed.
ghost use Rattle.std.specs.Prelude.{◌≡◌};
ghost use Rattle.records.specs.Faults.{number_of};

/// A fault, with the number by which it is told.
#[derive(Clone, Copy, PartialEq, Eq, Debug)]
pub enum Fault {
    // Fewer than four header bytes are left, or fewer body bytes than the header says.
    CutOff = 6,
    // No record has this kind.
    KindUnknown = 7,
    // The records of this kind have another length.
    WrongLength = 8,
    // The file has more than 16,384 bytes.
    FileTooLong = 9,
}

impl Fault {
    // The number by which the fault is told.
    pub fn number(self) -> u8
        ensures { result ≡ number_of self }
    {
        self as u8
    }
}
