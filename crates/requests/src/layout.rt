//! The requests: places of twelve words, one word for each field.

pub const PLACES: usize = 64;

pub const SIZE: usize = 12;

pub const WORDS: usize = PLACES * SIZE;

// The fields, after the serial.
pub const PLAYER: usize = 1;

pub const KIND: usize = 2;

pub const LOW: usize = 3;

pub const HIGH: usize = 4;

pub const VALUE: usize = 5;

pub const GUARD: usize = 6;

pub const OVERLAPPED: usize = 7;

pub const DELIVERED: usize = 8;

pub const ABANDONED: usize = 9;

pub const FIRST: usize = 10;

pub const SECOND: usize = 11;

/// The player of a load.
pub const LOADER: u8 = 8;

/// Those that send requests: the eight players, and the loader.
pub const SENDERS: usize = 9;

/// The places that each player has of its own.
pub const OWN_PLACES: u8 = 6;

/// Those that are common to the players and the loader.
pub const COMMON_PLACES: u32 = 16;
