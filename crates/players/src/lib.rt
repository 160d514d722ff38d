//! The players: ownership, held guards, cached values, requests in flight and read counters, in one lent table of 9,489 words beside the store's.
//! Each call tests the two tables' lengths (21) and their rules (22) first.
#![tactic(auto)]

mod initial;
pub mod layout;
mod player;
mod rules;

ghost use Rattle.std.specs.Prelude.{◌≡◌};
ghost use Rattle.store.specs.Answers.{nothing, as_reply};
ghost use Rattle.counters.specs.Model.{of_share};
ghost use Rattle.players.specs.Calls.{left, whole, checked, made_fresh, shared};

use counters::Share;
pub use player::Player;
use store::{Range, Refusal};

/// A step: its kind, with that kind's fields. The number of each kind, and the document's word where it has one of its own, stand beside it.
#[derive(Clone, Copy, Debug, PartialEq, Eq, Hash)]
pub enum Step {
    Assign { player: u8, range: Range }, // 1
    Release { range: Range }, // 2
    RequestGuard { player: u8, range: Range }, // 3, ask for a guard
    Read { player: u8, entry: u8 }, // 4
    Write { player: u8, entry: u8, value: u32 }, // 5
    Deliver { serial: u32 }, // 6, arrive
    Respond { serial: u32 }, // 7, answer
    Abandon { serial: u32 }, // 8, give up
    Lose { serial: u32 }, // 9
    Split { entry: u8 }, // 10
    Merge { entry: u8 }, // 11
    RestartTablet { entry: u8 }, // 12
    RestartPlayer { player: u8 }, // 13
    FindInterval { entry: u8 }, // 14, how far the entry's guard reaches
    Load { entry: u8, value: u32 }, // 15
}

/// A whole players' table.
pub type Table = [u32; layout::WORDS];

/// Whether both tables have their lengths.
pub fn whole(store: &[u32], players: &[u32]) -> bool
    ensures { result ≡ whole store.now players.now }
{
    store.len() == store::layout::WORDS && players.len() == layout::WORDS
}

/// Makes both tables fresh.
pub fn fresh(store: &mut [u32], players: &mut [u32]) -> Result<(), Refusal>
    ensures { left (as_reply nothing result) store.new players.new ≡ made_fresh store.old players.old }
{
    let Some(players) = players.as_mut_array::<{ layout::WORDS }>() else {
        return Err(Refusal::WrongLength);
    };
    store::fresh(store)?;
    initial::lay_players(players);
    Ok(())
}

/// Whether both tables keep the rules.
pub fn check(store: &[u32], players: &[u32]) -> Result<(), Refusal>
    ensures { as_reply nothing result ≡ checked store.now players.now }
{
    let Some(players) = players.as_array::<{ layout::WORDS }>() else {
        return Err(Refusal::WrongLength);
    };
    store::check_at(store, players[layout::LAST])?;
    if !rules::players_hold(players) {
        return Err(Refusal::BrokenRule);
    }
    Ok(())
}

/// How many thousandths of the player's answered reads came from memory, and the remainder.
pub fn share(store: &[u32], players: &[u32], player: u8) -> Result<Share, Refusal>
    ensures { as_reply of_share result ≡ shared player store.now players.now }
{
    check(store, players)?;
    counters::region::share(&players[layout::COUNTERS..layout::COUNTERS_END], player)
}
