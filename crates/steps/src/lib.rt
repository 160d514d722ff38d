//! The steps, on the store's table and the players'.
#![tactic(auto)]

mod answers;
mod cells;
mod counting;
mod issuing;
mod leaving;
mod loading;
mod named;
mod ownership;
pub mod previews;
mod responding;
pub mod running;
mod store_steps;

ghost use Rattle.std.specs.Prelude.{◌≡◌};
ghost use Rattle.players.specs.Rules.{step};
ghost use Rattle.steps.specs.Answers.{answered};
ghost use Rattle.players.specs.Calls.{left, called, Refines};

pub use answers::{Answer, Given};
use players::{Step, Table, layout};
use store::Refusal;

/// A step on whole tables. They are lent side by side and not as one struct of two loans: few of the functions that are called take both, and each would
/// have to promise that it gives back the same loans.
#[inline(always)]
fn apply_on(store: &mut store::Table, players: &mut Table, next: Step) -> Answer
    ensures { Refines (λ s. step s next) store.old players.old (answered result) store.new players.new }
{
    match next {
        Step::Assign { player, range } => ownership::assign(players, player, range),
        Step::Release { range } => ownership::release(players, range),
        Step::RequestGuard { player, range } => issuing::request_guard(players, player, range),
        Step::Read { player, entry } => issuing::read(players, player, entry),
        Step::Write {
            player,
            entry,
            value,
        } => issuing::write(players, player, entry, value),
        Step::Deliver { serial } => store_steps::deliver(store, players, serial),
        Step::Respond { serial } => responding::respond(players, serial),
        Step::Abandon { serial } => leaving::abandon(players, serial),
        Step::Lose { serial } => leaving::lose(players, serial),
        Step::Split { entry } => store_steps::split(store, entry),
        Step::Merge { entry } => store_steps::merge(store, entry),
        Step::RestartTablet { entry } => store_steps::restart_tablet(store, entry),
        Step::RestartPlayer { player } => leaving::restart_player(players, player),
        Step::FindInterval { entry } => store_steps::find_interval(store, entry),
        Step::Load { entry, value } => loading::load(players, entry, value),
    }
}

/// A step beside a whole table of the store: the length of the players' is tested.
#[inline(always)]
fn apply_beside(store: &mut store::Table, players: &mut [u32], next: Step) -> Answer
    ensures { Refines (λ s. step s next) store.old players.old (answered result) store.new players.new }
{
    let Some(players) = players.as_mut_array::<{ layout::WORDS }>() else {
        return Err(Refusal::WrongLength);
    };
    apply_on(store, players, next)
}

/// A step on tables that are known to keep the rules: their lengths alone are tested.
#[inline(always)]
pub(crate) fn apply(store: &mut [u32], players: &mut [u32], next: Step) -> Answer
    ensures { Refines (λ s. step s next) store.old players.old (answered result) store.new players.new }
{
    let Some(store) = store.as_mut_array::<{ store::layout::WORDS }>() else {
        return Err(Refusal::WrongLength);
    };
    apply_beside(store, players, next)
}

/// A step: the tables are tested first.
pub fn step(store: &mut [u32], players: &mut [u32], next: Step) -> Answer
    ensures { left (answered result) store.new players.new ≡ called (λ s. step s next) store.old players.old }
{
    players::check(store, players)?;
    apply(store, players, next)
}
