//! What a step answers.
ghost use Rattle.steps.specs.Answers.{given};

use store::{Outcome, Refusal, Reply, codes, done};

/// What a step gives where it is not refused.
#[derive(Clone, Copy, Debug, PartialEq, Eq, Hash)]
pub enum Given {
    /// Done, with no more to say.
    Done,
    /// A serial is issued.
    Issued { serial: u32 },
    /// A read from memory.
    CacheRead { version: u32, value: u32 },
    /// A read from the store.
    StoreRead { version: u32, value: u32 },
    /// A write is committed.
    Committed { serial: u32, value: u32 },
    /// A write is rejected (document: turned back).
    Rejected { serial: u32 },
    /// A guard is granted.
    Granted { serial: u32 },
    /// A guard is not granted: the entries are no longer held.
    NotHeld { serial: u32 },
    /// A guard is not granted: the tablets have changed.
    LayoutChanged { serial: u32 },
    /// The first and the last entry of a guard interval.
    Interval { first: u32, last: u32 },
}

/// What a step gives, or why it is refused.
pub type Answer = Result<Given, Refusal>;

impl Outcome for Given {
    ghost replied = { given };

    #[inline(always)]
    fn reply(self) -> Reply {
        let (code, a, b) = match self {
            Given::Done => return done(),
            Given::Issued { serial } => (codes::ISSUED, serial, 0),
            Given::CacheRead { version, value } => (codes::CACHE_READ, version, value),
            Given::StoreRead { version, value } => (codes::STORE_READ, version, value),
            Given::Committed { serial, value } => (codes::COMMITTED, serial, value),
            Given::Rejected { serial } => (codes::REJECTED, serial, 0),
            Given::Granted { serial } => (codes::GRANTED, serial, 0),
            Given::NotHeld { serial } => (codes::NOT_HELD, serial, 0),
            Given::LayoutChanged { serial } => (codes::LAYOUT_CHANGED, serial, 0),
            Given::Interval { first, last } => (codes::INTERVAL, first, last),
        };
        Reply { code, a, b }
    }
}
