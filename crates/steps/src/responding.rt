// Step 7: responses that reach the player. The rules of the players' table are not tested. Kind and outcome of a request stay the numbers that a place
// holds; an outcome `first` of 1 says that what was asked took effect.
ghost use Rattle.std.specs.Prelude.{◌≡◌, ◌+◌, ◌-◌, ◌*◌, ◌<◌};
ghost use Rattle.players.specs.declared.Step.TheVariants.{Respond};
ghost use Rattle.players.specs.Rules.{respond, respond_guard_request, respond_read, respond_write, step};
ghost use Rattle.steps.specs.Answers.{given, answered};
ghost use Rattle.steps.specs.InnerWords.{Moves, filled};
ghost use Rattle.steps.specs.InnerRespond.{Responds, owning, remembering, write_reply};
ghost use Rattle.players.specs.Table.{held_at};

use crate::named::requested;
use crate::{Answer, Given, cells, counting};
use players::{Player, Table, layout};
use requests::{Fit, Found, Request, kinds, region};
use store::{Entries, Range, codes, words};

// A request of a player, which the loader is not.
#[derive(Clone, Copy)]
struct Asked {
    player: Player,
    request: Request,
    ghost theirs: { request.player ≡ player },
    ghost known: { request.player < 8 },
}

// Whether the player owns each of the entries with an epoch below the serial.
fn still_owned(players: &Table, player: Player, entries: Entries, serial: u32) -> bool
    ensures { result ≡ owning player serial entries.low (entries.high - entries.low) players.now }
{
    for e in entries.low()..entries.high() {
        if players[layout::OWNERS + e] != u32::from(player) {
            return false;
        }
        if players[layout::EPOCHS + e] >= serial {
            return false;
        }
    }
    true
}

// The player's guards of the entries become `guard`.
fn grant(players: &mut Table, player: Player, entries: Entries, guard: u32)
    ensures { players.new ≡ filled held_at (player * 256 + entries.low) (player * 256 + entries.high) guard players.old }
{
    let low = player.row() + entries.low();
    let high = player.row() + entries.high();
    words::fill(&mut players[layout::HELD + low..layout::HELD + high], guard);
}

// Caches a value for the entry if the guard carried is the player's live one, and no write crossed it.
fn remember(
    players: &mut Table,
    player: Player,
    entry: u8,
    guard: u32,
    overlapped: bool,
    version: u32,
    value: u32,
)
    ensures { players.new ≡ remembering player entry guard overlapped version value players.old }
{
    if guard == 0 {
        return;
    }
    if overlapped {
        return;
    }
    if cells::live_guard(players, player, entry) != guard {
        return;
    }
    cells::cache(players, player.cell(entry), guard, version, value);
}

// A guard request: granted, or the layout changed, or no longer held.
fn respond_guard_request(players: &mut Table, asked: Asked) -> Given
    requires { asked.request.kind ≡ 3 }
    ensures { Responds respond_guard_request asked.request players.old (given result) players.new }
{
    let r = asked.request;
    let range = Range {
        low: r.low,
        high: r.high,
    };
    let Ok(entries) = Entries::try_from(range) else {
        return Given::NotHeld { serial: r.serial };
    };
    if !still_owned(players, asked.player, entries, r.serial) {
        return Given::NotHeld { serial: r.serial };
    }
    if r.first != 1 {
        return Given::LayoutChanged { serial: r.serial };
    }
    grant(players, asked.player, entries, r.serial);
    Given::Granted { serial: r.serial }
}

// A read: its outcome, cached if it may be, and counted for its player.
fn respond_read(players: &mut Table, asked: Asked) -> Given
    ensures { Responds respond_read asked.request players.old (given result) players.new }
{
    let r = asked.request;
    remember(
        players,
        asked.player,
        r.low,
        r.guard,
        r.overlapped,
        r.first,
        r.second,
    );
    counting::count(players, asked.player, codes::STORE_READ);
    Given::StoreRead {
        version: r.first,
        value: r.second,
    }
}

// The reply to a write.
fn write_reply(r: Request) -> Given
    ensures { given result ≡ write_reply r }
{
    if r.first != 1 {
        return Given::Rejected { serial: r.serial };
    }
    Given::Committed {
        serial: r.serial,
        value: r.value,
    }
}

// A player's write: committed, and cached if it may be; or rejected, and the guard carried is dropped.
fn respond_write(players: &mut Table, asked: Asked) -> Given
    ensures { Responds respond_write asked.request players.old (given result) players.new }
{
    let r = asked.request;
    if r.first != 1 {
        cells::drop_guard(players, asked.player, r.guard);
        return write_reply(r);
    }
    remember(
        players,
        asked.player,
        r.low,
        r.guard,
        r.overlapped,
        r.serial,
        r.value,
    );
    write_reply(r)
}

// By kind, once the request has left; nothing follows from a load.
fn respond_to(players: &mut Table, r: Request) -> Given
    ensures { Responds respond r players.old (given result) players.new }
{
    let Ok(player) = Player::try_from(r.player) else {
        return write_reply(r);
    };
    let asked = Asked { player, request: r };
    if r.kind == kinds::GUARD_REQUEST {
        return respond_guard_request(players, asked);
    }
    if r.kind == kinds::READ {
        return respond_read(players, asked);
    }
    respond_write(players, asked)
}

// Step 7: the request leaves, and its outcome takes effect at the player.
pub(crate) fn respond(players: &mut Table, serial: u32) -> Answer
    ensures { Moves (λ s. step s (Respond serial)) players.old (answered result) players.new }
{
    let Found { place, request } = requested(players, serial, Fit::Answerable)?;
    region::remove(&mut players[layout::REQUESTS..layout::REQUESTS_END], place);
    Ok(respond_to(players, request))
}
