//! The rules of the players' table, tested.
ghost use Rattle.std.specs.Prelude.{◌≡◌, ◌<◌, cond, eqb, get_or, take, drop};
ghost use Rattle.players.specs.Table.{StandsFor, cached_holds, cached_at, cached_all, valid_players, cell_count, guards_at, versions_at, values_at};

use crate::{Table, layout};
use store::words;

/// The bits that stand beside a guard of 0, where none may stand.
fn unguarded(guard: u32, bits: u32) -> u32
    ensures { result ≡ cond (eqb guard 0) bits 0 }
{
    if guard == 0 { bits } else { 0 }
}

/// No bits where a cached value keeps the rules, else some. Bits and not a `bool`, for speed: with a `bool` the test of the cached values takes an
/// eighth longer.
fn flaw(last: u32, guard: u32, version: u32, value: u32) -> u32
    ensures { eqb result 0 ≡ cached_holds last guard version value }
{
    words::above(guard, last) | words::above(version, last) | unguarded(guard, version | value)
}

/// No bits where the value that the player has cached for the entry keeps the rules, else some. That is promised of player and entry; the words
/// are read at the running number `i`, which stands for the two.
fn cell_flaw(players: &Table, player: usize, entry: usize, i: usize) -> u32
    requires { (i < cell_count) × StandsFor i player entry }
    ensures { eqb result 0 ≡ cached_at players.now player entry }
{
    flaw(
        players[layout::LAST],
        players[layout::CACHED_GUARDS + i],
        players[layout::CACHED_VERSIONS + i],
        players[layout::CACHED_VALUES + i],
    )
}

/// Whether each cached value keeps the rules. Its player and its entry are carried along with the running number, and never computed from it. No cell ends
/// the loop early, so that the compiler can test several at once.
fn values_hold(players: &Table) -> bool
    ensures { result ≡ cached_all (get_or players.now 0 0) (take cell_count (drop guards_at players.now)) (take cell_count (drop versions_at players.now)) (take cell_count (drop values_at players.now)) }
{
    let mut flaws = 0;
    let mut player = 0;
    let mut entry = 0;
    for i in 0..layout::CELLS {
        flaws |= cell_flaw(players, player, entry, i);
        entry += 1;
        if entry == layout::ENTRIES {
            entry = 0;
            player += 1;
        }
    }
    flaws == 0
}

/// Whether a players' table keeps the rules. Each test returns at once: the proof of one chain of `&&` did not close.
pub(crate) fn players_hold(players: &Table) -> bool
    ensures { result ≡ valid_players players.now }
{
    let last = players[layout::LAST];
    if last > layout::SERIALS {
        return false;
    }
    if !words::at_most(&players[layout::OWNERS..layout::EPOCHS], layout::LAST_OWNER) {
        return false;
    }
    if !words::at_most(&players[layout::EPOCHS..layout::HELD], last) {
        return false;
    }
    if !words::at_most(&players[layout::HELD..layout::CACHED_GUARDS], last) {
        return false;
    }
    if !values_hold(players) {
        return false;
    }
    if !requests::region::holds(&players[layout::REQUESTS..layout::REQUESTS_END], last) {
        return false;
    }
    counters::region::holds(&players[layout::COUNTERS..layout::COUNTERS_END])
}
