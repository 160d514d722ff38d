// The calls for programs in C or Rust (include/famdrize.h), which the crate famdrize_c exports: numbers, lent slices of numbers, and structs of numbers laid
// out as C does.
#![tactic(auto)]

pub mod alone;
pub mod lent;
pub mod previews;
pub mod records;
pub mod running;
mod step_fields;
pub mod tables;

ghost use Rattle.std.specs.Prelude.{◌≡◌};
ghost use Rattle.store.specs.Answers.{as_reply};
ghost use Rattle.store.specs.Refusals.{number_of};
ghost use Rattle.players.specs.Replies.{refusal as refused};
ghost use Rattle.session.specs.Reports.{reported};
ghost use Rattle.famdrize.specs.Calls.{reply_of, report_of};

use session::Report;
use store::{Outcome, Refusal, Reply};

// A reply: a code and two numbers.
#[repr(C)]
#[derive(Clone, Copy, Debug, PartialEq, Eq)]
pub struct Answer {
    pub code: u32,
    pub a: u32,
    pub b: u32,
}

// A guard, and the first and the last entry of its interval: code 0, or the code of a refusal and zeros.
#[repr(C)]
#[derive(Clone, Copy, Debug, Default, PartialEq, Eq)]
pub struct GuardInterval {
    pub code: u32,
    pub guard: u32,
    pub first: u32,
    pub last: u32,
}

// What stands at a place of a session: code 0, the record's length and the step by its fields, or the code of a refusal and zeros.
#[repr(C)]
#[derive(Clone, Copy, Debug, Default, PartialEq, Eq)]
pub struct RecordFields {
    pub code: u32,
    pub length: u32,
    pub kind: u32,
    pub player: u32,
    pub entry: u32,
    pub high: u32,
    pub value: u32,
    pub serial: u32,
}

// What a run reports: why it stopped, the number of records taken, and the byte place just after them.
#[repr(C)]
#[derive(Clone, Copy, Debug, PartialEq, Eq)]
pub struct Ended {
    pub why: u32,
    pub records: u32,
    pub place: u32,
}

impl From<Report> for Ended {
    ghost from_gives = { λ r e. report_of e ≡ reported r };

    fn from(r: Report) -> Ended {
        Ended {
            why: r.why.into(),
            records: r.records,
            place: r.place,
        }
    }
}

impl From<Reply> for Answer {
    ghost from_gives = { λ r a. reply_of a ≡ r };

    fn from(r: Reply) -> Answer {
        Answer {
            code: r.code,
            a: r.a,
            b: r.b,
        }
    }
}

// What a call answers, as it is handed out.
fn given<T: Outcome>(answer: Result<T, Refusal>) -> Answer
    ensures { reply_of result ≡ as_reply T.replied answer }
{
    Answer::from(Reply::from(answer))
}

// A refusal.
fn refuse(refusal: Refusal) -> Answer
    ensures { reply_of result ≡ refused (number_of refusal) }
{
    Answer::from(store::refuse(refusal.into()))
}
