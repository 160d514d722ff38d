//! A session: its mark and its records, and the text of a listing.
#![tactic(auto)]

mod buffer;
pub mod kinds;
mod layout;
pub mod listing;
pub mod mark;
mod reader;
pub mod records;
pub mod sizes;
mod text;
mod writer;

ghost use Rattle.std.specs.Prelude.{◌≡◌};
ghost use Rattle.session.specs.Reports.{why_of};

pub use kinds::Kind;
pub use records::Record;
use store::Refusal;

/// A step by its fields, those that its kind lacks 0.
#[derive(Clone, Copy, Debug, Default, PartialEq, Eq, Hash)]
pub struct Fields {
    /// A number and no `Kind`: C may hand in any byte.
    pub kind: u8,
    pub player: u8,
    pub entry: u8,
    pub high: u16,
    pub value: u32,
    pub serial: u32,
}

/// Why a run stopped.
#[derive(Clone, Copy, Debug, PartialEq, Eq, Hash)]
pub enum Stop {
    /// At the session's end.
    AtEnd,
    /// The budget or the list's places are spent.
    Spent,
    /// A record is refused, or the whole run.
    Refused(Refusal),
}

impl From<Stop> for u32 {
    ghost from_gives = { λ s n. n ≡ why_of s };

    fn from(stop: Stop) -> u32 {
        match stop {
            Stop::AtEnd => 0,
            Stop::Spent => 9,
            Stop::Refused(refusal) => refusal.into(),
        }
    }
}

/// What a run reports: why it stopped, the number of records taken, and the byte place just after them.
#[derive(Clone, Copy, Debug, PartialEq, Eq, Hash)]
pub struct Report {
    pub why: Stop,
    pub records: u32,
    pub place: u32,
}
