//! The requests in flight between the players and the store: 64 places of 12 words, as specs/Region.antt lays them out.
#![tactic(auto)]

pub mod kinds;
pub mod layout;
pub mod lent;
mod places;
pub mod region;
mod rules;
pub mod shares;
pub mod tests;

/// A request in flight (document: row). Fields that its kind lacks are 0, and so is the outcome before delivery.
#[derive(Clone, Copy, Debug, PartialEq, Eq)]
pub struct Request {
    pub serial: u32,
    pub player: u8,
    /// 3 guard request, 4 read, 5 write. It stays a number: a place may hold any word here, and gives it back.
    pub kind: u8,
    /// The entry of a read or write, the first entry of a guard request.
    pub low: u8,
    pub high: u16,
    pub value: u32,
    /// The guard carried.
    pub guard: u32,
    pub overlapped: bool,
    /// Document: arrived.
    pub delivered: bool,
    /// Document: given up.
    pub abandoned: bool,
    /// The outcome: 1 or 2 and 0, for a read the version and value. They stay numbers for the same reason as the kind.
    pub first: u32,
    pub second: u32,
}

/// One place of the lent list, laid out as C does: a request, where the serial is not 0. A mark stands where its number is not 0.
#[repr(C)]
#[derive(Clone, Copy, Debug, PartialEq, Eq)]
pub struct LentRequest {
    pub serial: u32,
    pub player: u8,
    pub kind: u8,
    pub low: u8,
    pub high: u16,
    pub value: u32,
    pub guard: u32,
    pub overlapped: u8,
    pub delivered: u8,
    pub abandoned: u8,
    pub first: u32,
    pub second: u32,
}

/// Which requests a step that names one fits.
#[derive(Clone, Copy, Debug, PartialEq, Eq)]
pub enum Fit {
    /// Step 6 (document: not arrived).
    Undelivered,
    /// Step 7: delivered and pending (document: arrived and waiting).
    Answerable,
    /// Step 8 (document: waiting).
    Pending,
    /// Step 9 (document: given up).
    Abandoned,
}

/// The request that a search gives, and its place.
#[derive(Clone, Copy, Debug, PartialEq, Eq)]
pub struct Found {
    pub place: usize,
    pub request: Request,
}

/// What a pass over the requests tells.
#[derive(Clone, Copy, Debug, PartialEq, Eq)]
pub struct Scan {
    /// How many there are.
    pub used: usize,
    /// Whether one is of those that are looked for.
    pub hit: bool,
    /// How many each player, and the loader, has.
    pub counts: [u8; layout::SENDERS],
}
