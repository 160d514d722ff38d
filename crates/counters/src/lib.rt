//! The read counters (document: tallies): of each player the answered reads and those of them answered from memory, as specs/Region.antt lays
//! them out.
#![tactic(auto)]

mod counting;
pub mod layout;
pub mod region;

/// The counts of one player (document: tally).
#[derive(Clone, Copy, Debug, PartialEq, Eq)]
pub struct Counts {
    pub answered: u32,
    /// Those of them answered from memory.
    pub hits: u32,
}

/// How many thousandths of the answered reads came from memory, and what is left over.
#[derive(Clone, Copy, Debug, PartialEq, Eq)]
pub struct Share {
    pub thousandths: u32,
    pub rest: u32,
}
