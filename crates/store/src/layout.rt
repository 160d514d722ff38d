// The store's table: five columns, each with a word for each entry.
pub const ENTRIES: usize = 256;

pub const BOUNDARIES: usize = 0;

pub const STARTS: usize = BOUNDARIES + ENTRIES;

pub const GUARDS: usize = STARTS + ENTRIES;

pub const VERSIONS: usize = GUARDS + ENTRIES;

pub const VALUES: usize = VERSIONS + ENTRIES;

pub const WORDS: usize = VALUES + ENTRIES;

// The last entry.
pub const LAST_ENTRY: u32 = 255;

// The last serial.
pub const SERIALS: u32 = 4_000_000;

// The guard of an entry before its first one, and what a load carries.
pub const OPEN: u32 = 0;

// The guard of a tablet that was restarted: nothing that a write carries matches it.
pub const BARRED: u32 = 4_294_967_295;
