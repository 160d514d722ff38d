// The longest session, in bytes.
pub const LONGEST: usize = 16384;

// The words of a reply in the list for replies.
pub const REPLY: usize = 3;

// The records that a preview of a run takes at most.
pub const PREVIEW_RECORDS: u32 = 16;
