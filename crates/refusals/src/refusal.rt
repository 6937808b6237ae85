ghost use Rattle.std.specs.Prelude.{◌≡◌};
ghost use Rattle.refusals.specs.Numbers.{number_of};

/// Why a call is turned down. Of several reasons that fit, the one with the lowest number is answered.
#[derive(Clone, Copy, PartialEq, Eq, Debug)]
pub enum Refusal {
    /// A link number is not 1 to 256.
    LinkRange = 1,
    /// An occurrence number is not 1 to 512.
    OccurrenceRange = 2,
    /// Two occurrence numbers of the call are equal.
    EqualOccurrences = 3,
    /// An atom is not 1 to 1000.
    AtomRange = 4,
    /// The board or the row is too short.
    TooShort = 5,
    /// The ticket is not the bench's own.
    NotOwn = 11,
    /// The link to be placed stands already.
    LinkStands = 12,
    /// An occurrence to be concluded stands already.
    OccurrenceStands = 13,
    /// A premise does not stand.
    PremiseMissing = 14,
    /// A premise is used by another link.
    PremiseUsed = 15,
    /// The premises of a cut are not dual.
    NotDual = 16,
    /// No link of this number stands.
    NoSuchLink = 17,
    /// A conclusion of the link is a premise.
    ConclusionUsed = 18,
    /// The link is no cut.
    NotACut = 19,
    /// No link stands.
    NothingStands = 20,
    /// The sink's room is below the number of standing links.
    NoRoom = 21,
    /// The serial is at its last, 65,535.
    LastSerial = 22,
}

impl Refusal {
    /// The number by which programs and files tell it.
    pub fn number(self) -> u8
        ensures value { result ≡ number_of self }
    {
        self as u8
    }
}
