// A step or a run tried first. The tables are lent for reading only.
ghost use Rattle.std.specs.Prelude.{◌≡◌};
ghost use Rattle.session.specs.Fields.{six};
ghost use Rattle.steps.specs.Previews.{run_preview, previewed_run};
ghost use Rattle.famdrize.specs.Calls.{reply_of, report_of, stepped_preview};

use crate::{Answer, Ended, given, refuse, step_fields};

// The reply that the step of this kind with these fields would get.
pub fn famdrize_preview(
    store: &[u32],
    players: &[u32],
    kind: u8,
    player: u8,
    entry: u8,
    high: u16,
    value: u32,
    serial: u32,
) -> Answer
    ensures { reply_of result ≡ stepped_preview (six kind player entry high value serial) store.now players.now }
{
    match step_fields::step_of(kind, player, entry, high, value, serial) {
        Ok(next) => given(steps::previews::preview(store, players, next)),
        Err(refusal) => refuse(refusal),
    }
}

// The report and the replies that a run over the session would give, where a budget above 16 counts as 16.
pub fn famdrize_preview_run(
    store: &[u32],
    players: &[u32],
    session: &[u8],
    budget: u32,
    replies: &mut [u32],
) -> Ended
    ensures { run_preview (report_of result) replies.new ≡ previewed_run store.now players.now session.now budget replies.old }
{
    let r = steps::previews::preview_run(store, players, session, budget, replies);
    Ended::from(r)
}
