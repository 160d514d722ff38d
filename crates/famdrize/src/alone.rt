// The store used alone.
ghost use Rattle.std.specs.Prelude.{◌≡◌};
ghost use Rattle.store.specs.Calls.{done, checked, called, made_fresh, set_guard, read, write, split, merge, restart, found_interval};
ghost use Rattle.players.specs.Cases.{range};
ghost use Rattle.famdrize.specs.Calls.{reply_of, interval_of};
ghost use Rattle.store.specs.Model.{serials};

use crate::{Answer, GuardInterval, given};
use store::Range;

// Makes the table fresh.
pub fn famdrize_store_fresh(store: &mut [u32]) -> Answer
    ensures { done (reply_of result) store.new ≡ made_fresh store.old }
{
    given(store::fresh(store))
}

// Whether the table keeps the rules.
pub fn famdrize_store_check(store: &[u32]) -> Answer
    ensures { reply_of result ≡ checked serials store.now }
{
    given(store::check(store))
}

// The same, where `last` is the last serial issued.
pub fn famdrize_store_check_at(store: &[u32], last: u32) -> Answer
    ensures { reply_of result ≡ checked last store.now }
{
    given(store::check_at(store, last))
}

// Sets a guard, numbered by its serial, over entries low up to high.
pub fn famdrize_store_set_guard(store: &mut [u32], low: u8, high: u16, serial: u32) -> Answer
    ensures { done (reply_of result) store.new ≡ called (set_guard (range low high) serial) store.old }
{
    given(store::set_guard(store, Range { low, high }, serial))
}

// The version and value of an entry.
pub fn famdrize_store_read(store: &[u32], entry: u8) -> Answer
    ensures { done (reply_of result) store.now ≡ called (read entry) store.now }
{
    given(store::read(store, entry))
}

// A write that carries a guard.
pub fn famdrize_store_write(
    store: &mut [u32],
    entry: u8,
    value: u32,
    serial: u32,
    guard: u32,
) -> Answer
    ensures { done (reply_of result) store.new ≡ called (write entry value serial guard) store.old }
{
    given(store::write(store, entry, value, serial, guard))
}

// A boundary before an entry.
pub fn famdrize_store_split(store: &mut [u32], entry: u8) -> Answer
    ensures { done (reply_of result) store.new ≡ called (split entry) store.old }
{
    given(store::split(store, entry))
}

// The boundary before an entry removed.
pub fn famdrize_store_merge(store: &mut [u32], entry: u8) -> Answer
    ensures { done (reply_of result) store.new ≡ called (merge entry) store.old }
{
    given(store::merge(store, entry))
}

// The guards of the tablet that holds an entry become barred.
pub fn famdrize_store_restart(store: &mut [u32], entry: u8) -> Answer
    ensures { done (reply_of result) store.new ≡ called (restart entry) store.old }
{
    given(store::restart(store, entry))
}

// The guard of an entry, and the first and the last entry of its interval. Written out, as nothing else makes such a struct.
pub fn famdrize_store_find_interval(store: &[u32], entry: u8) -> GuardInterval
    ensures { interval_of result ≡ found_interval entry store.now }
{
    match store::find_interval(store, entry) {
        Ok(found) => GuardInterval {
            code: store::codes::DONE,
            guard: found.guard,
            first: found.first,
            last: found.last,
        },
        Err(refusal) => GuardInterval {
            code: u32::from(refusal),
            ..GuardInterval::default()
        },
    }
}
