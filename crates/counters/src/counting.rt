//! The counts of one player: how a read is counted, their rule, and the share.

use crate::{Counts, Share, layout};
use store::{Outcome, Refusal, Reply, codes};

impl Counts {
    ghost use Rattle.std.specs.Prelude.{◌≡◌, ◌≤◌};
    ghost use Rattle.counters.specs.Model.{counted, counted_by, sound, share, of_share};
    ghost use Rattle.store.specs.Answers.{as_reply};

    /// One more answered read, from memory or not; where a count would be above the largest, both stay as they are.
    #[tactic(auto, unfolding(crate::specs::Model::counted))]
    fn counted(self, hit: bool) -> Counts
        ensures { result ≡ counted self hit }
    {
        let more = Counts {
            answered: self.answered.saturating_add(1),
            hits: self.hits.saturating_add(hit.into()),
        };
        if more.answered <= layout::MOST && more.hits <= layout::MOST {
            more
        } else {
            self
        }
    }

    /// Brings the counts up to date by the code of a reply to their player (document: "one tally is lent to each step and brought up to date
    /// there"). A number, as the clause speaks of any code.
    #[tactic(auto, unfolding(crate::specs::Model::counted_by))]
    pub fn count(&mut self, code: u32)
        ensures { self.new ≡ counted_by self.old code }
    {
        match code {
            codes::CACHE_READ => *self = self.counted(true),
            codes::STORE_READ => *self = self.counted(false),
            _ => {}
        }
    }

    /// Whether there are no more reads from memory than answered reads, and no count is above the largest.
    pub(crate) fn is_sound(self) -> bool
        ensures { result ≡ sound self }
    {
        self.hits <= self.answered && self.answered <= layout::MOST
    }

    /// The share of reads from memory.
    #[tactic(auto, unfolding(crate::specs::Model::share))]
    pub(crate) fn share(self) -> Result<Share, Refusal>
        requires { self.hits ≤ self.answered }
        ensures { as_reply of_share result ≡ share self }
    {
        if self.answered == 0 {
            return Err(Refusal::NoAnsweredRead);
        }
        let answered = u64::from(self.answered);
        let thousandths = 1000 * u64::from(self.hits);
        Ok(Share {
            thousandths: (thousandths / answered) as u32,
            rest: (thousandths % answered) as u32,
        })
    }
}

impl Outcome for Share {
    ghost use Rattle.counters.specs.Model.{of_share};

    ghost replied = { of_share };

    fn reply(self) -> Reply {
        Reply {
            code: codes::DONE,
            a: self.thousandths,
            b: self.rest,
        }
    }
}
