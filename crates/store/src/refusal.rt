// The refusals of all calls, of the crates above too: docs/RULES.md has one list of them.
ghost use Rattle.std.specs.Prelude.{◌≡◌};
ghost use Rattle.store.specs.Refusals.{number_of};

/// Why a call was refused. No call gives 33, which 38 replaces.
#[derive(Clone, Copy, Debug, PartialEq, Eq, Hash)]
pub enum Refusal {
    /// A table, or a list of requests, has the wrong length.
    WrongLength = 21,
    /// A table breaks a rule.
    BrokenRule = 22,
    /// The session's mark is wrong or missing.
    NoMark = 23,
    /// A record is cut short, or has no byte.
    CutShort = 24,
    /// A record's map has a bit that is no field's.
    UnknownField = 25,
    /// No kind of step has this number.
    UnknownKind = 26,
    /// The kind is missing, or the fields are not the kind's.
    WrongFields = 27,
    /// A player, a range, an entry or a serial is out of range.
    OutOfRange = 28,
    /// The player does not own every entry.
    NotOwner = 29,
    /// The player has no live guard.
    NoLiveGuard = 30,
    /// A pending guard request of the player shares an entry.
    AlreadyRequested = 31,
    /// No request is one that the step fits.
    NoSuchRequest = 32,
    /// The last serial was issued.
    NoSerialLeft = 34,
    /// A split at a boundary, or a merge where none is.
    WrongBoundary = 35,
    /// A buffer is shorter than what is to be written.
    BufferShort = 36,
    /// A session has too many bytes.
    TooLong = 37,
    /// No place is left for a request of the player, or of the loader.
    NoPlaceLeft = 38,
    /// The player has no answered read.
    NoAnsweredRead = 39,
}

impl From<Refusal> for u32 {
    ghost from_gives = { λ r n. n ≡ number_of r };

    fn from(refusal: Refusal) -> u32 {
        refusal as u32
    }
}
