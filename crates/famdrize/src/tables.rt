// The two tables: fresh, their test, a step, and the share of reads from memory.
ghost use Rattle.std.specs.Prelude.{◌≡◌};
ghost use Rattle.players.specs.Calls.{left, checked, made_fresh, shared};
ghost use Rattle.famdrize.specs.Calls.{reply_of, stepped};
ghost use Rattle.session.specs.Fields.{six};

use crate::{Answer, given, refuse, step_fields};

// Makes both tables fresh.
pub fn famdrize_fresh(store: &mut [u32], players: &mut [u32]) -> Answer
    ensures { left (reply_of result) store.new players.new ≡ made_fresh store.old players.old }
{
    given(players::fresh(store, players))
}

// Whether both tables keep the rules.
pub fn famdrize_check(store: &[u32], players: &[u32]) -> Answer
    ensures { reply_of result ≡ checked store.now players.now }
{
    given(players::check(store, players))
}

// Takes the step of this kind with these fields.
pub fn famdrize_step(
    store: &mut [u32],
    players: &mut [u32],
    kind: u8,
    player: u8,
    entry: u8,
    high: u16,
    value: u32,
    serial: u32,
) -> Answer
    ensures { left (reply_of result) store.new players.new ≡ stepped (six kind player entry high value serial) store.old players.old }
{
    match step_fields::step_of(kind, player, entry, high, value, serial) {
        Ok(next) => given(steps::step(store, players, next)),
        Err(refusal) => refuse(refusal),
    }
}

// How many thousandths of the player's answered reads came from memory, and the remainder.
pub fn famdrize_share(store: &[u32], players: &[u32], player: u8) -> Answer
    ensures { reply_of result ≡ shared player store.now players.now }
{
    given(players::share(store, players, player))
}
