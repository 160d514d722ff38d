//! The codes of replies that are no refusals: `Refusal` has the numbers of those. They are numbers, as C and a run's list for replies take them; what a
//! step gives by name is `steps::Given`.

pub const DONE: u32 = 0;

pub const ISSUED: u32 = 1;

pub const CACHE_READ: u32 = 2;

pub const STORE_READ: u32 = 3;

pub const COMMITTED: u32 = 4;

pub const REJECTED: u32 = 5;

pub const GRANTED: u32 = 6;

pub const NOT_HELD: u32 = 7;

pub const LAYOUT_CHANGED: u32 = 8;

pub const INTERVAL: u32 = 9;
