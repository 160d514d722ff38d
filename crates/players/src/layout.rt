// The players' table: where each region begins, and how many words there are.
pub const ENTRIES: usize = store::layout::ENTRIES;

pub const SERIALS: u32 = store::layout::SERIALS;

pub const LAST: usize = 0;

pub const OWNERS: usize = 1;

pub const EPOCHS: usize = OWNERS + ENTRIES;

pub const HELD: usize = EPOCHS + ENTRIES;

pub const CACHED_GUARDS: usize = HELD + CELLS;

pub const CACHED_VERSIONS: usize = CACHED_GUARDS + CELLS;

pub const CACHED_VALUES: usize = CACHED_VERSIONS + CELLS;

pub const REQUESTS: usize = CACHED_VALUES + CELLS;

pub const REQUESTS_END: usize = REQUESTS + requests::layout::WORDS;

pub const COUNTERS: usize = REQUESTS_END;

pub const COUNTERS_END: usize = COUNTERS + counters::layout::WORDS;

pub const WORDS: usize = COUNTERS_END;

// The words of a region with one for each player and entry.
pub const CELLS: usize = 2048;

// The last player, and the owner that is none.
pub const LAST_PLAYER: u8 = 7;

pub const NOBODY: u8 = 8;

// The largest word of an owner.
pub const LAST_OWNER: u32 = NOBODY as u32;
