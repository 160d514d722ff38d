// A range of entries that keeps its rule.
ghost use Rattle.std.specs.Prelude.{◌≡◌, ◌<◌, ◌≤◌};

use crate::{Range, Refusal, layout};
use std::marker::Model;

/// Entries from one up to, not including, another: some, and none past the last.
#[derive(Clone, Copy, Debug, PartialEq, Eq)]
pub struct Entries {
    low: usize,
    high: usize,
}

impl Model for Entries {
    ghost use Rattle.std.specs.Prelude.{ℕ, ◌<◌, ◌≤◌};
    ghost use Rattle.store.specs.declared.Range.{Range};

    ghost Value = { Range };

    ghost view = { λ e. record { low = e.low; high = e.high } };

    ghost invariant = { λ e. (e.low < e.high) × (e.high ≤ 256) };

    ghost inverse = { λ r. record { low = r.low; high = r.high } };
}

impl TryFrom<Range> for Entries {
    ghost use Rattle.store.specs.Answers.{entries_of};

    type Error = Refusal;

    ghost try_from_gives = { λ r e. e ≡ entries_of r };

    fn try_from(range: Range) -> Result<Entries, Refusal> {
        let low = usize::from(range.low);
        let high = usize::from(range.high);
        if low < high && high <= layout::ENTRIES {
            Ok(Entries { low, high })
        } else {
            Err(Refusal::OutOfRange)
        }
    }
}

impl Entries {
    /// The entries from `low` up to, not including, `high`.
    pub(crate) fn new(low: usize, high: usize) -> Entries
        requires some { low < high }
        requires within { high ≤ 256 }
        ensures low { result.low ≡ low }
        ensures high { result.high ≡ high }
    {
        Entries { low, high }
    }

    /// All entries.
    pub fn all() -> Entries
        ensures low { result.low ≡ 0 }
        ensures high { result.high ≡ 256 }
    {
        Entries {
            low: 0,
            high: layout::ENTRIES,
        }
    }

    /// The first of them.
    pub fn low(self) -> usize
        ensures low { result ≡ self.low }
        ensures some { result < self.high }
    {
        self.low
    }

    /// The entry past the last of them.
    pub fn high(self) -> usize
        ensures high { result ≡ self.high }
        ensures within { result ≤ 256 }
    {
        self.high
    }
}
