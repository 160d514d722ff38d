// A run over a session, on lent tables.
ghost use Rattle.std.specs.Prelude.{◌≡◌, [], ◌∷◌, ◌+◌, ◌≤◌, length, drop};
ghost use Rattle.std.proofs.lemmas.List.Edits.{sets};
ghost use Rattle.players.specs.Table.{state_of};
ghost use Rattle.store.specs.Refusals.{number_of};
ghost use Rattle.session.specs.Mark.{mark};
ghost use Rattle.session.specs.Reports.{why_of, reported};
ghost use Rattle.session.specs.Runs.{report, allowed, run_from, reply_words};
ghost use Rattle.steps.specs.RunCalls.{finished, encoded, ran};
ghost use Rattle.steps.specs.InnerRun.{Ready};

use session::{Record, Report, Stop, mark, sizes};
use store::{Refusal, Reply};

// Puts a reply into three places of the list.
fn put_reply(list: &mut [u32], at: usize, reply: Reply)
    requires { at + reply_words ≤ length list.old }
    ensures { list.new ≡ sets list.old at (reply.code ∷ reply.a ∷ reply.b ∷ []) }
{
    list[at] = reply.code;
    list[at + 1] = reply.a;
    list[at + 2] = reply.b;
}

// As many records as the budget and the list's whole places allow.
fn allowed(budget: u32, places: usize) -> usize
    ensures { result ≡ allowed budget places }
{
    places.min(budget as usize)
}

// Why a run stopped, the records it took, and the place after them.
fn stopped(why: Stop, taken: usize, place: usize) -> Report
    requires { (taken ≤ 4294967295) × (place ≤ 4294967295) }
    ensures { reported result ≡ report (why_of why) taken place }
{
    Report {
        why,
        records: taken as u32,
        place: place as u32,
    }
}

// Takes at most `left` records, from the byte after the mark on. A `while`: each record tells where the next begins, and that place is reported.
fn take_records(
    store: &mut [u32],
    players: &mut [u32],
    session: &[u8],
    left: usize,
    replies: &mut [u32],
) -> Report
    requires { Ready store.old players.old session.now left replies.old }
    ensures { finished (reported result) replies.new store.new players.new ≡ encoded replies.old (run_from left (state_of store.old players.old) (length mark) (drop (length mark) session.now)) }
{
    let mut place: usize = mark::LENGTH;
    let mut taken: usize = 0;
    while place != session.len() {
        if left <= taken {
            return stopped(Stop::Spent, taken, place);
        }
        match session::records::decode(&session[place..]) {
            Ok(Record { step, length }) => {
                let reply = Reply::from(crate::apply(store, players, step));
                put_reply(replies, sizes::REPLY * taken, reply);
                place += length;
                taken += 1;
            }
            Err(refusal) => {
                return stopped(Stop::Refused(refusal), taken, place);
            }
        }
    }
    stopped(Stop::AtEnd, taken, place)
}

// A run that is refused.
pub(crate) fn refused(refusal: Refusal) -> Report
    ensures { reported result ≡ report (number_of refusal) 0 0 }
{
    stopped(Stop::Refused(refusal), 0, 0)
}

// A run: tables, session, a budget of records and a list for replies, of three numbers each.
pub fn run(
    store: &mut [u32],
    players: &mut [u32],
    session: &[u8],
    budget: u32,
    replies: &mut [u32],
) -> Report
    ensures { finished (reported result) replies.new store.new players.new ≡ ran store.old players.old session.now budget replies.old }
{
    if let Err(refusal) = players::check(store, players) {
        return refused(refusal);
    }
    if sizes::LONGEST < session.len() {
        return refused(Refusal::TooLong);
    }
    if !mark::marked(session) {
        return refused(Refusal::NoMark);
    }
    let left = allowed(budget, replies.len() / sizes::REPLY);
    take_records(store, players, session, left, replies)
}
