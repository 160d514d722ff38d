//! The counters: two words for each player, one for each count.

pub const PLAYERS: usize = 8;

pub const SIZE: usize = 2;

pub const WORDS: usize = PLAYERS * SIZE;

/// The reads from memory, after the answered reads.
pub const HITS: usize = 1;

/// The largest count.
pub const MOST: u32 = 4_000_000_000;
