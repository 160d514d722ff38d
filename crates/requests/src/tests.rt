//! Tests of one request.

use crate::{Fit, Request, kinds};
use store::Range;

/// A test of a request.
pub trait Test {
    ghost use Rattle.std.specs.Prelude.{◌≡◌, Bool};
    ghost use Rattle.requests.specs.declared.Request.{Request as Row};

    ghost holds: { Self → Row → Bool };

    fn holds(&self, request: &Request) -> bool
        ensures { result ≡ holds self.now request.now };
}

/// A pending guard request of the player that shares an entry with the range.
#[derive(Clone, Copy, Debug, PartialEq, Eq)]
pub struct Requesting {
    pub player: u8,
    pub range: Range,
}

impl Test for Requesting {
    ghost use Rattle.requests.specs.Model.{requesting};

    ghost holds = { λ t r. requesting t.player t.range r };

    fn holds(&self, request: &Request) -> bool {
        !request.abandoned
            && request.kind == kinds::GUARD_REQUEST
            && request.player == self.player
            && u16::from(request.low) < self.range.high
            && u16::from(self.range.low) < request.high
    }
}

/// A pending write of the player on the entry.
#[derive(Clone, Copy, Debug, PartialEq, Eq)]
pub struct Writing {
    pub player: u8,
    pub entry: u8,
}

impl Test for Writing {
    ghost use Rattle.requests.specs.Model.{writing};

    ghost holds = { λ t r. writing t.player t.entry r };

    fn holds(&self, request: &Request) -> bool {
        !request.abandoned
            && request.kind == kinds::WRITE
            && request.player == self.player
            && request.low == self.entry
    }
}

/// A pending read or write of the player on the entry.
#[derive(Clone, Copy, Debug, PartialEq, Eq)]
pub struct UsingEntry {
    pub player: u8,
    pub entry: u8,
}

impl Test for UsingEntry {
    ghost use Rattle.requests.specs.Model.{using_entry};

    ghost holds = { λ t r. using_entry t.player t.entry r };

    fn holds(&self, request: &Request) -> bool {
        !request.abandoned
            && request.kind != kinds::GUARD_REQUEST
            && request.player == self.player
            && request.low == self.entry
    }
}

impl Test for Fit {
    ghost use Rattle.requests.specs.Model.{fits};

    ghost holds = { fits };

    fn holds(&self, request: &Request) -> bool {
        match *self {
            Fit::Undelivered => !request.delivered,
            Fit::Answerable => request.delivered && !request.abandoned,
            Fit::Pending => !request.abandoned,
            Fit::Abandoned => request.abandoned,
        }
    }
}

impl Request {
    ghost use Rattle.std.specs.Prelude.{◌≡◌};
    ghost use Rattle.requests.specs.Calls.{remains};

    /// Whether it remains when the player restarts: all but those of its pending ones that are delivered.
    pub(crate) fn remains(&self, player: u8) -> bool
        ensures { result ≡ remains player self.now }
    {
        !(self.player == player && !self.abandoned && self.delivered)
    }
}
