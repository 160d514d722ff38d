// What steps take of the players' table: the next serial, and the request that a step names.
ghost use Rattle.std.specs.Prelude.{◌≡◌};
ghost use Rattle.steps.specs.InnerWords.{next_serial, next_request, requested};

use players::{Table, layout};
use requests::{Fit, Found, region, shares};
use store::Refusal;

// The serial that comes next. It is written where it is taken, once nothing can refuse the step.
pub(crate) fn next_serial(players: &Table) -> Result<u32, Refusal>
    ensures { result ≡ next_serial players.now }
{
    let last = players[layout::LAST];
    if last >= layout::SERIALS {
        return Err(Refusal::NoSerialLeft);
    }
    Ok(last + 1)
}

// The serial of one more request of the player, where these are the counts of the requests in flight.
pub(crate) fn next_request(
    players: &Table,
    counts: &shares::Counts,
    player: u8,
) -> Result<u32, Refusal>
    ensures { result ≡ next_request counts.now player players.now }
{
    if shares::has_no_place(counts, player) {
        return Err(Refusal::NoPlaceLeft);
    }
    next_serial(players)
}

// The first request with the serial, if it fits, and its place.
pub(crate) fn requested(players: &Table, serial: u32, fit: Fit) -> Result<Found, Refusal>
    ensures { result ≡ requested fit serial players.now }
{
    let found = region::find(
        &players[layout::REQUESTS..layout::REQUESTS_END],
        serial,
        fit,
    );
    found.ok_or(Refusal::NoSuchRequest)
}
