// Steps 3, 4 and 5: requests that are issued. The rules of the players' table are not tested.
ghost use Rattle.std.specs.Prelude.{◌≡◌, false};
ghost use Rattle.requests.specs.Model.{new_request};
ghost use Rattle.requests.specs.Calls.{crossing};
ghost use Rattle.players.specs.declared.Step.TheVariants.{Read, RequestGuard, Write};
ghost use Rattle.players.specs.Rules.{step};
ghost use Rattle.steps.specs.Answers.{answered};
ghost use Rattle.steps.specs.InnerWords.{Moves, added, crossed_table};

use crate::named::next_request;
use crate::{Answer, Given, cells, counting};
use players::{Player, Table, layout};
use requests::tests::{Requesting, UsingEntry, Writing};
use requests::{Request, kinds, region};
use store::{Entries, Range, Refusal, codes};

// Adds a request at place `k`, the first that is not used; its serial is the last one issued.
pub(crate) fn add(players: &mut Table, k: usize, r: Request)
    ensures { players.new ≡ added k r players.old }
{
    players[layout::LAST] = r.serial;
    region::put(&mut players[layout::REQUESTS..layout::REQUESTS_END], k, r);
}

// A request for a guard.
fn for_guard(serial: u32, player: u8, range: Range) -> Request
    ensures { result ≡ new_request serial player 3 range.low range.high 0 0 false }
{
    Request {
        serial,
        player,
        kind: kinds::GUARD_REQUEST,
        low: range.low,
        high: range.high,
        value: 0,
        guard: 0,
        overlapped: false,
        delivered: false,
        abandoned: false,
        first: 0,
        second: 0,
    }
}

// A read (kind 4) or a write (kind 5) of an entry.
pub(crate) fn for_entry(
    serial: u32,
    player: u8,
    kind: u8,
    entry: u8,
    value: u32,
    guard: u32,
    overlapped: bool,
) -> Request
    ensures { result ≡ new_request serial player kind entry 0 value guard overlapped }
{
    Request {
        serial,
        player,
        kind,
        low: entry,
        high: 0,
        value,
        guard,
        overlapped,
        delivered: false,
        abandoned: false,
        first: 0,
        second: 0,
    }
}

// Step 3: the player must own every entry of the range, and its guards there are cleared.
pub(crate) fn request_guard(players: &mut Table, player: u8, range: Range) -> Answer
    ensures { Moves (λ s. step s (RequestGuard player range)) players.old (answered result) players.new }
{
    let asker = Player::try_from(player)?;
    let entries = Entries::try_from(range)?;
    if !cells::owns_all(players, asker, entries) {
        return Err(Refusal::NotOwner);
    }
    let scan = region::scan_for(
        &players[layout::REQUESTS..layout::REQUESTS_END],
        &Requesting { player, range },
    );
    if scan.hit {
        return Err(Refusal::AlreadyRequested);
    }
    let serial = next_request(players, &scan.counts, player)?;
    cells::clear(players, asker, entries);
    add(players, scan.used, for_guard(serial, player, range));
    Ok(Given::Issued { serial })
}

// Step 4: from the cache if it holds a live value, and then it is counted; else a request.
pub(crate) fn read(players: &mut Table, player: u8, entry: u8) -> Answer
    ensures { Moves (λ s. step s (Read player entry)) players.old (answered result) players.new }
{
    let reader = Player::try_from(player)?;
    if cells::is_hit(players, reader, entry) {
        let i = reader.cell(entry);
        let version = players[layout::CACHED_VERSIONS + i];
        let value = players[layout::CACHED_VALUES + i];
        counting::count(players, reader, codes::CACHE_READ);
        return Ok(Given::CacheRead { version, value });
    }
    let scan = region::scan_for(
        &players[layout::REQUESTS..layout::REQUESTS_END],
        &Writing { player, entry },
    );
    let serial = next_request(players, &scan.counts, player)?;
    let guard = cells::live_guard(players, reader, entry);
    add(
        players,
        scan.used,
        for_entry(serial, player, kinds::READ, entry, 0, guard, scan.hit),
    );
    Ok(Given::Issued { serial })
}

// Marks the player's pending reads and writes on the entry as overlapped, where `any` tells that there are some; whether a write is among them.
fn cross(players: &mut Table, any: bool, player: u8, entry: u8) -> bool
    ensures { crossing result players.new ≡ crossed_table any player entry players.old }
{
    if !any {
        return false;
    }
    region::cross(
        &mut players[layout::REQUESTS..layout::REQUESTS_END],
        player,
        entry,
    )
}

// Step 5: needs ownership and a live guard, which the request carries.
pub(crate) fn write(players: &mut Table, player: u8, entry: u8, value: u32) -> Answer
    ensures { Moves (λ s. step s (Write player entry value)) players.old (answered result) players.new }
{
    let writer = Player::try_from(player)?;
    if players[layout::OWNERS + usize::from(entry)] != u32::from(player) {
        return Err(Refusal::NotOwner);
    }
    let guard = cells::live_guard(players, writer, entry);
    if guard == 0 {
        return Err(Refusal::NoLiveGuard);
    }
    let scan = region::scan_for(
        &players[layout::REQUESTS..layout::REQUESTS_END],
        &UsingEntry { player, entry },
    );
    let serial = next_request(players, &scan.counts, player)?;
    cells::cache(players, writer.cell(entry), 0, 0, 0);
    let overlapped = cross(players, scan.hit, player, entry);
    add(
        players,
        scan.used,
        for_entry(
            serial,
            player,
            kinds::WRITE,
            entry,
            value,
            guard,
            overlapped,
        ),
    );
    Ok(Given::Issued { serial })
}
