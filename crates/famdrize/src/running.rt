// A run over a session.
ghost use Rattle.std.specs.Prelude.{◌≡◌};
ghost use Rattle.steps.specs.RunCalls.{finished, ran};
ghost use Rattle.famdrize.specs.Calls.{report_of};

use crate::Ended;

// Takes the steps of a session's records: at most `budget`, and at most as many as the list has whole places for their replies.
pub fn famdrize_run(
    store: &mut [u32],
    players: &mut [u32],
    session: &[u8],
    budget: u32,
    replies: &mut [u32],
) -> Ended
    ensures { finished (report_of result) replies.new store.new players.new ≡ ran store.old players.old session.now budget replies.old }
{
    let r = steps::running::run(store, players, session, budget, replies);
    Ended::from(r)
}
