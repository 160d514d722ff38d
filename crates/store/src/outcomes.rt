// What the calls give where they are not refused, and the replies by number.
ghost use Rattle.std.specs.Prelude.{◌≡◌};
ghost use Rattle.store.specs.Calls.{reply};
ghost use Rattle.store.specs.Answers.{nothing, of_count, of_installed, of_written, of_stored, as_reply};

use crate::{Refusal, Reply, codes};

/// What became of a guard.
#[derive(Clone, Copy, Debug, PartialEq, Eq, Hash)]
pub enum Installed {
    /// It is set over its range.
    Set = 1,
    /// Its range does not lie in one tablet, and nothing is set.
    LayoutChanged = 2,
}

/// What became of a write.
#[derive(Clone, Copy, Debug, PartialEq, Eq, Hash)]
pub enum Written {
    /// It is the entry's version and value.
    Committed = 1,
    /// It carried another guard than the entry's, and nothing is written.
    Rejected = 2,
}

/// What an entry holds.
#[derive(Clone, Copy, Debug, PartialEq, Eq, Hash)]
pub struct Stored {
    pub version: u32,
    pub value: u32,
}

/// What a call gives, as a reply.
pub trait Outcome: Sized {
    ghost use Rattle.store.specs.declared.Reply.{Reply as Numbers};

    ghost replied: { Self → Numbers };

    fn reply(self) -> Reply
        ensures { result ≡ replied self };
}

/// Done, with these two numbers.
fn done_with(a: u32, b: u32) -> Reply
    ensures { result ≡ reply 0 a b }
{
    Reply {
        code: codes::DONE,
        a,
        b,
    }
}

impl Outcome for () {
    ghost replied = { nothing };

    fn reply(self) -> Reply {
        done_with(0, 0)
    }
}

impl Outcome for u32 {
    ghost replied = { of_count };

    fn reply(self) -> Reply {
        done_with(self, 0)
    }
}

impl Outcome for Installed {
    ghost replied = { of_installed };

    fn reply(self) -> Reply {
        done_with(self as u32, 0)
    }
}

impl Outcome for Written {
    ghost replied = { of_written };

    fn reply(self) -> Reply {
        done_with(self as u32, 0)
    }
}

impl Outcome for Stored {
    ghost replied = { of_stored };

    fn reply(self) -> Reply {
        done_with(self.version, self.value)
    }
}

impl<T: Outcome> From<Result<T, Refusal>> for Reply {
    ghost from_gives = { λ r n. n ≡ as_reply T.replied r };

    fn from(answer: Result<T, Refusal>) -> Reply {
        match answer {
            Ok(outcome) => outcome.reply(),
            Err(refusal) => crate::refuse(u32::from(refusal)),
        }
    }
}
