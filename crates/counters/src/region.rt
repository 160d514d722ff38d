//! The calls on a region. One that is not whole, of 16 words, keeps no rule and stays as it is.
ghost use Rattle.std.specs.Prelude.{◌≡◌, ◌<◌};
ghost use Rattle.store.specs.Answers.{as_reply};
ghost use Rattle.counters.specs.Model.{of_share};
ghost use Rattle.counters.specs.Region.{counts_of, with_counts, all_sound, valid, counted_at, shared, player_count};

use crate::{Counts, Share, layout};
use store::Refusal;

/// A whole region.
type Region = [u32; layout::WORDS];

// That `p` is a player three functions below state: the type for it, `Player`, is of the crate above.

/// The counts of player `p`.
#[tactic(auto, unfolding(crate::specs::Region::counts_of))]
fn counts_at(region: &Region, p: usize) -> Counts
    requires { p < player_count }
    ensures { result ≡ counts_of region.now p }
{
    let b = p * layout::SIZE;
    Counts {
        answered: region[b],
        hits: region[b + layout::HITS],
    }
}

/// Makes the counts of player `p` be `counts`.
fn put_counts(region: &mut Region, p: usize, counts: Counts)
    requires { p < player_count }
    ensures { region.new ≡ with_counts p counts region.old }
{
    let b = p * layout::SIZE;
    region[b] = counts.answered;
    region[b + layout::HITS] = counts.hits;
}

/// Whether the counts of each player keep their rule.
fn all_sound(words: &[u32]) -> bool
    ensures { result ≡ all_sound words.now }
{
    let Some((pair, rest)) = words.split_first_chunk::<{ layout::SIZE }>() else {
        return words.is_empty();
    };
    let counts = Counts {
        answered: pair[0],
        hits: pair[layout::HITS],
    };
    counts.is_sound() && all_sound(rest)
}

/// Whether a region keeps the rules.
#[tactic(auto, unfolding(crate::specs::Region::valid))]
pub fn holds(region: &[u32]) -> bool
    ensures { result ≡ valid region.now }
{
    region.len() == layout::WORDS && all_sound(region)
}

/// Lends the counts of player `p` to be brought up to date, and puts them back.
#[tactic(auto, unfolding(crate::specs::Region::counted_at))]
fn count_on(region: &mut Region, p: usize, code: u32)
    requires { p < player_count }
    ensures { region.new ≡ counted_at p code region.old }
{
    let mut counts = counts_at(region, p);
    counts.count(code);
    put_counts(region, p, counts);
}

/// Brings the counts of the player up to date by the code of a reply to it.
#[tactic(auto, unfolding(crate::specs::Region::counted_at))]
pub fn count(region: &mut [u32], player: u8, code: u32)
    ensures { region.new ≡ counted_at player code region.old }
{
    let p = usize::from(player);
    if p >= layout::PLAYERS {
        return;
    }
    if let Some(region) = region.as_mut_array::<{ layout::WORDS }>() {
        count_on(region, p, code);
    }
}

/// The share of the player's reads that came from memory.
#[tactic(auto, unfolding(crate::specs::Region::shared, crate::specs::Region::valid))]
pub fn share(region: &[u32], player: u8) -> Result<Share, Refusal>
    ensures { as_reply of_share result ≡ shared player region.now }
{
    let Some(region) = region.as_array::<{ layout::WORDS }>() else {
        return Err(Refusal::WrongLength);
    };
    if !all_sound(region) {
        return Err(Refusal::BrokenRule);
    }
    let p = usize::from(player);
    if p >= layout::PLAYERS {
        return Err(Refusal::OutOfRange);
    }
    counts_at(region, p).share()
}
