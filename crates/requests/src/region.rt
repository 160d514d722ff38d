//! The calls on a region. One that is not whole, of 768 words, has no requests and stays as it is.
ghost use Rattle.std.specs.Prelude.{◌≡◌, ◌<◌, ◌≤◌, ◌*◌, ◌&&◌, not, eqb, ltb, length, get_or, take, drop};
ghost use Rattle.requests.specs.Model.{places, any};
ghost use Rattle.requests.specs.Shares.{counted};
ghost use Rattle.requests.specs.Region.{valid, whole, requests_of};
ghost use Rattle.requests.specs.Calls.{Finds, scanned, with_request, with_abandoned, with_delivered, without, crossing, crossed, carried, carry, restarted};

use crate::places::{Place, drop_first, overlap, request_of, requests_in, words_of, write_first};
use crate::shares::Counts;
use crate::tests::{Test, UsingEntry, Writing};
use crate::{Fit, Found, Request, Scan, layout, rules, shares};

/// A whole region.
type Region = [u32; layout::WORDS];

/// Whether a region keeps the rules, where `last` is the last serial issued.
#[tactic(auto, unfolding(crate::specs::Region::valid))]
pub fn holds(region: &[u32], last: u32) -> bool
    ensures { result ≡ valid last region.now }
{
    region.len() == layout::WORDS
        && rules::places_hold(region, 0, last)
        && shares::are_kept(&counts_of(region))
}

// ---- what is found

/// The request with a serial, if it fits, and its place. Of several with that serial, which a region that keeps the rules has not, the first counts.
#[tactic(auto, using(crate::proofs::ScanLaws::finds), unfolding(crate::specs::Calls::found_from))]
pub fn find(region: &[u32], serial: u32, fit: Fit) -> Option<Found>
    ensures { Finds fit serial region.now result }
{
    let mut place = 0;
    for request in requests_in(region) {
        if request.serial == serial {
            return fit.holds(&request).then_some(Found { place, request });
        }
        place += 1;
    }
    None
}

/// How many requests there are, whether the test holds of one, and how many each player, and the loader, has.
pub fn scan_for<T: Test>(region: &[u32], test: &T) -> Scan
    ensures { result ≡ scanned (T.holds test.now) region.now }
{
    let mut used = 0;
    let mut hit = false;
    let mut counts = [0u8; layout::SENDERS];
    for request in requests_in(region) {
        used += 1;
        hit |= test.holds(&request);
        let sender = usize::from(request.player);
        if sender < layout::SENDERS {
            counts[sender] += 1;
        }
    }
    Scan { used, hit, counts }
}

/// How many requests each player, and the loader, has, whatever they are.
fn counts_of(region: &[u32]) -> Counts
    ensures { result ≡ counted (requests_of region.now) }
{
    scan_for(region, &Fit::Pending).counts
}

// ---- one place changed

/// Whether the region is whole, and has a place `k`.
fn has_place(region: &[u32], k: usize) -> bool
    ensures { result ≡ whole region.now && ltb k places }
{
    region.len() == layout::WORDS && k < layout::PLACES
}

/// Makes place `k` hold `r`.
#[tactic(auto, using(crate::proofs::WordLaws::over_out), unfolding(crate::specs::Calls::with_request))]
pub fn put(region: &mut [u32], k: usize, r: Request)
    ensures { region.new ≡ with_request k r region.old }
{
    if has_place(region, k) {
        write_first(&mut region[k * layout::SIZE..], &words_of(&r));
    }
}

/// The request of place `k` is abandoned.
#[tactic(auto, unfolding(crate::specs::Calls::with_abandoned))]
pub fn abandon(region: &mut [u32], k: usize)
    ensures { region.new ≡ with_abandoned k region.old }
{
    if has_place(region, k) {
        region[k * layout::SIZE + layout::ABANDONED] = 1;
    }
}

/// The request of place `k` is delivered, with an outcome.
#[tactic(auto, unfolding(crate::specs::Calls::with_delivered))]
pub fn deliver(region: &mut [u32], k: usize, first: u32, second: u32)
    ensures { region.new ≡ with_delivered k first second region.old }
{
    if has_place(region, k) {
        let b = k * layout::SIZE;
        region[b + layout::DELIVERED] = 1;
        region[b + layout::FIRST] = first;
        region[b + layout::SECOND] = second;
    }
}

/// Takes place `k` out: later places move down by one, and the last becomes unused.
#[tactic(auto, unfolding(crate::specs::Calls::without))]
pub fn remove(region: &mut [u32], k: usize)
    ensures { region.new ≡ without k region.old }
{
    if has_place(region, k) {
        drop_first(&mut region[k * layout::SIZE..]);
    }
}

// ---- all places changed

/// Whether the test holds of one of the requests.
fn has<T: Test>(region: &[u32], test: &T) -> bool
    ensures { result ≡ any (T.holds test.now) (requests_of region.now) }
{
    for request in requests_in(region) {
        if test.holds(&request) {
            return true;
        }
    }
    false
}

/// Marks the player's pending reads and writes on the entry as overlapped; whether a write is among them.
#[tactic(auto, unfolding(crate::specs::Calls::crossed))]
pub fn cross(region: &mut [u32], player: u8, entry: u8) -> bool
    ensures { crossing result region.new ≡ crossed player entry region.old }
{
    let wrote = has(region, &Writing { player, entry });
    if region.len() == layout::WORDS {
        overlap(region, &UsingEntry { player, entry });
    }
    wrote
}

/// Whether there is a place `k`, and it is used.
fn is_used(region: &Region, k: usize) -> bool
    ensures { result ≡ ltb k places && not (eqb (get_or region.now (k * 12) 0) 0) }
{
    k < layout::PLACES && region[k * layout::SIZE] != 0
}

/// The words of place `k`.
fn place_at(region: &Region, k: usize) -> Place
    requires { k < places }
    ensures { result ≡ take 12 (drop (k * 12) region.now) }
{
    *region[k * layout::SIZE..].first_chunk().unwrap()
}

/// Carries the request of place `k` over to place `j` if it remains when the player restarts. The place for the next one. A place that stays as it is
/// is not written, for speed.
fn carry(region: &mut Region, j: usize, k: usize, player: u8) -> usize
    requires { (j ≤ k) × (k < places) }
    ensures { carried result region.new ≡ carry player j k region.old }
{
    let mut place = place_at(region, k);
    let r = request_of(&place);
    if !r.remains(player) {
        return j;
    }
    if r.player == player {
        place[layout::ABANDONED] = 1;
    } else if j == k {
        return j + 1;
    }
    write_first(&mut region[j * layout::SIZE..], &place);
    j + 1
}

/// The restart of a player in a whole region.
fn restart_on(region: &mut Region, player: u8)
    ensures { region.new ≡ restarted player region.old }
{
    let mut j = 0;
    let mut k = 0;
    // A loop over an index: it moves places within the region that it walks, so that no iterator can hold it.
    while is_used(region, k) {
        j = carry(region, j, k, player);
        k += 1;
    }
    region[j * layout::SIZE..k * layout::SIZE].fill(0);
}

/// Gives up the player's pending requests: those delivered leave, the others are abandoned.
#[tactic(auto, unfolding(crate::specs::Calls::restarted))]
pub fn restart(region: &mut [u32], player: u8)
    ensures { region.new ≡ restarted player region.old }
{
    if let Some(region) = region.as_mut_array::<{ layout::WORDS }>() {
        restart_on(region, player);
    }
}
