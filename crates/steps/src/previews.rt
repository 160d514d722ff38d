// A step or a run tried first. The tables are lent for reading only: the step, or the run, is taken on copies of them, which stand on the
// stack while the call lasts.
ghost use Rattle.std.specs.Prelude.{◌≡◌};
ghost use Rattle.session.specs.Reports.{reported};
ghost use Rattle.session.specs.Runs.{preview_budget};
ghost use Rattle.steps.specs.Answers.{answered};
ghost use Rattle.steps.specs.Previews.{previewed, run_preview, previewed_run};

use crate::{Answer, running};
use players::{Step, Table, layout};
use session::{Report, sizes};
use store::Refusal;

// The records that a preview of a run with this budget may take.
fn counted(budget: u32) -> u32
    ensures { result ≡ preview_budget budget }
{
    budget.min(sizes::PREVIEW_RECORDS)
}

// The step on copies of the tables.
fn try_step(store: &store::Table, players: &Table, next: Step) -> Answer
    ensures { answered result ≡ previewed next store.now players.now }
{
    let mut first = *store;
    let mut second = *players;
    crate::step(&mut first, &mut second, next)
}

// The run on copies of the tables, of as many records as a preview may take. (One function for this and `try_step` would be no plainer: they call, lend
// and answer different things.)
fn try_run(
    store: &store::Table,
    players: &Table,
    session: &[u8],
    budget: u32,
    replies: &mut [u32],
) -> Report
    ensures { run_preview (reported result) replies.new ≡ previewed_run store.now players.now session.now budget replies.old }
{
    let mut first = *store;
    let mut second = *players;
    running::run(&mut first, &mut second, session, counted(budget), replies)
}

// The reply that the step would get.
pub fn preview(store: &[u32], players: &[u32], next: Step) -> Answer
    ensures { answered result ≡ previewed next store.now players.now }
{
    match (
        store.as_array::<{ store::layout::WORDS }>(),
        players.as_array::<{ layout::WORDS }>(),
    ) {
        (Some(store), Some(players)) => try_step(store, players, next),
        _ => Err(Refusal::WrongLength),
    }
}

// The report and the replies that a run would give, where a budget above 16 counts as 16.
pub fn preview_run(
    store: &[u32],
    players: &[u32],
    session: &[u8],
    budget: u32,
    replies: &mut [u32],
) -> Report
    ensures { run_preview (reported result) replies.new ≡ previewed_run store.now players.now session.now budget replies.old }
{
    match (
        store.as_array::<{ store::layout::WORDS }>(),
        players.as_array::<{ layout::WORDS }>(),
    ) {
        (Some(store), Some(players)) => try_run(store, players, session, budget, replies),
        _ => running::refused(Refusal::WrongLength),
    }
}
