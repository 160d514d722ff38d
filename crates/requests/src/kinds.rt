//! The kinds of requests: the numbers of the steps that send them. A load is sent by step 15 and is a write. They stay numbers beside any other that
//! a place may hold.

pub const GUARD_REQUEST: u8 = 3;

pub const READ: u8 = 4;

pub const WRITE: u8 = 5;
