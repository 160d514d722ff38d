// What the players have for each entry, in the players' table: the guards that they hold, and the values that they have cached.
ghost use Rattle.std.specs.Prelude.{◌≡◌, ◌+◌, ◌-◌, ◌*◌, ◌≤◌, ◌<◌};
ghost use Rattle.steps.specs.InnerWords.{live_guard, hit, all_are, caching, cleared, dropped};
ghost use Rattle.players.specs.Table.{owners_at};

use players::{Player, Table, layout};
use store::{Entries, words};

// The guard that the player holds for the entry if it is live, else 0.
#[tactic(auto, unfolding(crate::specs::InnerWords::live_guard))]
pub(crate) fn live_guard(players: &Table, player: Player, entry: u8) -> u32
    ensures { result ≡ live_guard players.now player entry }
{
    let e = usize::from(entry);
    let guard = players[layout::HELD + player.cell(entry)];
    let is_live = guard != 0
        && players[layout::OWNERS + e] == u32::from(player)
        && players[layout::EPOCHS + e] < guard;
    if is_live { guard } else { 0 }
}

// Whether what the player has cached for the entry may be read.
#[tactic(auto, unfolding(crate::specs::InnerWords::hit))]
pub(crate) fn is_hit(players: &Table, player: Player, entry: u8) -> bool
    ensures { result ≡ hit players.now player entry }
{
    let guard = players[layout::CACHED_GUARDS + player.cell(entry)];
    guard != 0 && live_guard(players, player, entry) == guard
}

// Whether the player owns all of the entries.
pub(crate) fn owns_all(players: &Table, player: Player, entries: Entries) -> bool
    ensures { result ≡ all_are player (owners_at + entries.low) (entries.high - entries.low) players.now }
{
    for e in entries.low()..entries.high() {
        if players[layout::OWNERS + e] != u32::from(player) {
            return false;
        }
    }
    true
}

// Caches a value in cell `i`, or empties it.
pub(crate) fn cache(players: &mut Table, i: usize, guard: u32, version: u32, value: u32)
    requires { i < 2048 }
    ensures { players.new ≡ caching i guard version value players.old }
{
    players[layout::CACHED_GUARDS + i] = guard;
    players[layout::CACHED_VERSIONS + i] = version;
    players[layout::CACHED_VALUES + i] = value;
}

// Clears the player's guards of the entries, each with what is cached under it.
pub(crate) fn clear(players: &mut Table, player: Player, entries: Entries)
    ensures { players.new ≡ cleared (player * 256 + entries.low) (player * 256 + entries.high) players.old }
{
    let low = player.row() + entries.low();
    let high = player.row() + entries.high();
    words::fill(&mut players[layout::HELD + low..layout::HELD + high], 0);
    words::fill(
        &mut players[layout::CACHED_GUARDS + low..layout::CACHED_GUARDS + high],
        0,
    );
    words::fill(
        &mut players[layout::CACHED_VERSIONS + low..layout::CACHED_VERSIONS + high],
        0,
    );
    words::fill(
        &mut players[layout::CACHED_VALUES + low..layout::CACHED_VALUES + high],
        0,
    );
}

// Clears the guard of cell `i` if it is `guard`, with what is cached under it.
fn drop_at(players: &mut Table, i: usize, guard: u32)
    requires { i < 2048 }
    ensures { players.new ≡ dropped guard i 1 players.old }
{
    if players[layout::HELD + i] != guard {
        return;
    }
    players[layout::HELD + i] = 0;
    cache(players, i, 0, 0, 0);
}

// Clears those of the four guards from cell `i` on that are `guard`, each with what is cached under it.
fn drop_four(players: &mut Table, i: usize, guard: u32)
    requires { i + 4 ≤ 2048 }
    ensures { players.new ≡ dropped guard i 4 players.old }
{
    drop_at(players, i, guard);
    drop_at(players, i + 1, guard);
    drop_at(players, i + 2, guard);
    drop_at(players, i + 3, guard);
}

// Clears each guard of the player that is `guard`, four cells at a time.
pub(crate) fn drop_guard(players: &mut Table, player: Player, guard: u32)
    ensures { players.new ≡ dropped guard (player * 256) 256 players.old }
{
    let low = player.row();
    for k in 0..64 {
        drop_four(players, low + k * 4, guard);
    }
}
