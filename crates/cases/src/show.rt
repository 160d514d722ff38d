// Text that is printed, in the documents' words.
use players::Step;
use session::Report;
use std::io::{self, Write};
use store::Reply;

// A step: its kind, and that kind's fields.
pub(crate) fn step<W: Write>(out: &mut W, next: Step) -> io::Result<()> {
    match next {
        Step::Assign { player, range } => {
            write!(out, "assign {player} {} {}", range.low, range.high)
        }
        Step::Release { range } => write!(out, "release {} {}", range.low, range.high),
        Step::RequestGuard { player, range } => {
            write!(out, "ask {player} {} {}", range.low, range.high)
        }
        Step::Read { player, entry } => write!(out, "read {player} {entry}"),
        Step::Write {
            player,
            entry,
            value,
        } => write!(out, "write {player} {entry} {value}"),
        Step::Deliver { serial } => write!(out, "arrive {serial}"),
        Step::Respond { serial } => write!(out, "answer {serial}"),
        Step::Abandon { serial } => write!(out, "give up {serial}"),
        Step::Lose { serial } => write!(out, "lose {serial}"),
        Step::Split { entry } => write!(out, "split {entry}"),
        Step::Merge { entry } => write!(out, "merge {entry}"),
        Step::RestartTablet { entry } => write!(out, "restart tablet {entry}"),
        Step::RestartPlayer { player } => write!(out, "restart player {player}"),
        Step::FindInterval { entry } => write!(out, "find stretch {entry}"),
        Step::Load { entry, value } => write!(out, "load {entry} {value}"),
    }
}

// A reply: its code and two numbers.
pub(crate) fn reply<W: Write>(out: &mut W, r: Reply) -> io::Result<()> {
    write!(out, ": {} {} {}", r.code, r.a, r.b)
}

// A report: why a run stopped, the records taken and the place after them.
pub(crate) fn report<W: Write>(out: &mut W, r: Report) -> io::Result<()> {
    let why = u32::from(r.why);
    write!(out, ": {why} {} {}", r.records, r.place)
}

// Says whether a table is word for word what it was.
pub(crate) fn same<W: Write>(out: &mut W, now: &[u32], before: &[u32]) -> io::Result<()> {
    out.write_all(if now == before { b" same" } else { b" changed" })
}
