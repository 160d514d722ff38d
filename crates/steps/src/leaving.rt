// Steps 8, 9 and 13: requests that are given up, or lost. The rules of the players' table are not tested.
ghost use Rattle.std.specs.Prelude.{◌≡◌};
ghost use Rattle.players.specs.declared.Step.TheVariants.{Abandon, Lose, RestartPlayer};
ghost use Rattle.players.specs.Rules.{step};
ghost use Rattle.steps.specs.Answers.{answered};
ghost use Rattle.steps.specs.InnerWords.{Moves, giving_up};

use crate::named::requested;
use crate::{Answer, Given, cells};
use players::{Player, Table, layout};
use requests::{Fit, Found, kinds, region};
use store::Entries;

// The request of place `k` leaves if it is delivered, and is abandoned if not.
fn give_up(players: &mut Table, k: usize, delivered: bool)
    ensures { players.new ≡ giving_up k delivered players.old }
{
    if delivered {
        region::remove(&mut players[layout::REQUESTS..layout::REQUESTS_END], k);
        return;
    }
    region::abandon(&mut players[layout::REQUESTS..layout::REQUESTS_END], k);
}

// Step 8: a delivered request leaves, another is marked; the guard that a player's write carries is dropped.
pub(crate) fn abandon(players: &mut Table, serial: u32) -> Answer
    ensures { Moves (λ s. step s (Abandon serial)) players.old (answered result) players.new }
{
    let Found { place, request } = requested(players, serial, Fit::Pending)?;
    give_up(players, place, request.delivered);
    if request.kind != kinds::WRITE {
        return Ok(Given::Done);
    }
    let Ok(writer) = Player::try_from(request.player) else {
        return Ok(Given::Done);
    };
    cells::drop_guard(players, writer, request.guard);
    Ok(Given::Done)
}

// Step 9: an abandoned request leaves.
pub(crate) fn lose(players: &mut Table, serial: u32) -> Answer
    ensures { Moves (λ s. step s (Lose serial)) players.old (answered result) players.new }
{
    let place = requested(players, serial, Fit::Abandoned)?.place;
    region::remove(&mut players[layout::REQUESTS..layout::REQUESTS_END], place);
    Ok(Given::Done)
}

// Step 13: the player's guards are cleared, each with what is cached under it, and its pending requests are given up.
pub(crate) fn restart_player(players: &mut Table, player: u8) -> Answer
    ensures { Moves (λ s. step s (RestartPlayer player)) players.old (answered result) players.new }
{
    let restarted = Player::try_from(player)?;
    cells::clear(players, restarted, Entries::all());
    region::restart(&mut players[layout::REQUESTS..layout::REQUESTS_END], player);
    Ok(Given::Done)
}
