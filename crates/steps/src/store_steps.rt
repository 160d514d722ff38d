// The steps that read or write the store's table. The rules of the tables are not tested.
ghost use Rattle.std.specs.Prelude.{◌≡◌};
ghost use Rattle.store.specs.Calls.{Refines};
ghost use Rattle.players.specs.Rules.{step};
ghost use Rattle.players.specs.declared.Step.TheVariants.{Deliver, Split, Merge, RestartTablet, FindInterval};
ghost use Rattle.steps.specs.Answers.{answered};
ghost use Rattle.steps.specs.InnerStore.{Shifts, Acts, performed, settled_words};

use crate::named::requested;
use crate::{Answer, Given};
use players::{Table, layout};
use requests::{Fit, Found, Request, kinds, region};
use store::{Range, Reply};

// Step 10: a boundary before the entry.
pub(crate) fn split(store: &mut store::Table, entry: u8) -> Answer
    ensures { Shifts (λ s. step s (Split entry)) store.old (answered result) store.new }
{
    store::unchecked::split(store, entry)?;
    Ok(Given::Done)
}

// Step 11: the boundary before the entry removed.
pub(crate) fn merge(store: &mut store::Table, entry: u8) -> Answer
    ensures { Shifts (λ s. step s (Merge entry)) store.old (answered result) store.new }
{
    store::unchecked::merge(store, entry)?;
    Ok(Given::Done)
}

// Step 12: the guards of the tablet that holds the entry become barred.
pub(crate) fn restart_tablet(store: &mut store::Table, entry: u8) -> Answer
    ensures { Shifts (λ s. step s (RestartTablet entry)) store.old (answered result) store.new }
{
    store::unchecked::restart(store, entry)?;
    Ok(Given::Done)
}

// Step 14: the first and the last entry of the guard interval that holds the entry.
pub(crate) fn find_interval(store: &store::Table, entry: u8) -> Answer
    ensures { Shifts (λ s. step s (FindInterval entry)) store.now (answered result) store.now }
{
    let found = store::unchecked::find_interval(store, entry)?;
    Ok(Given::Interval {
        first: found.first,
        last: found.last,
    })
}

// What the store does with a request that is delivered, by its kind, which stays the number that a place holds. The reply's two numbers are the outcome.
fn perform(store: &mut store::Table, r: Request) -> Reply
    ensures { Refines (performed r) store.old result store.new }
{
    if r.kind == kinds::GUARD_REQUEST {
        let range = Range {
            low: r.low,
            high: r.high,
        };
        return Reply::from(store::unchecked::install(store, range, r.serial));
    }
    if r.kind == kinds::READ {
        return Reply::from(store::unchecked::read(store, r.low));
    }
    Reply::from(store::unchecked::commit(store, r.low, r.value, r.serial, r.guard))
}

// The request of place `k` leaves if it is abandoned, else it is delivered with this outcome.
fn settle(players: &mut Table, k: usize, abandoned: bool, first: u32, second: u32)
    ensures { players.new ≡ settled_words k abandoned first second players.old }
{
    if abandoned {
        region::remove(&mut players[layout::REQUESTS..layout::REQUESTS_END], k);
        return;
    }
    region::deliver(
        &mut players[layout::REQUESTS..layout::REQUESTS_END],
        k,
        first,
        second,
    );
}

// Step 6: a request that is not delivered yet reaches the store. If it is abandoned, it leaves.
pub(crate) fn deliver(store: &mut store::Table, players: &mut Table, serial: u32) -> Answer
    ensures { Acts (λ s. step s (Deliver serial)) store.old players.old (answered result) store.new players.new }
{
    let Found { place, request } = requested(players, serial, Fit::Undelivered)?;
    let outcome = perform(store, request);
    settle(players, place, request.abandoned, outcome.a, outcome.b);
    Ok(Given::Done)
}
