//! The places that each player has of its own, and those common to all, told by the counts of the requests of each.
ghost use Rattle.std.specs.Prelude.{◌≡◌, ◌≤◌, ◌||◌, not, leb};
ghost use Rattle.requests.specs.Model.{loader};
ghost use Rattle.requests.specs.Shares.{own_places, common_places, common, turned_away, count_in};

use crate::layout;

/// How many requests each player, and the loader, has.
pub type Counts = [u8; layout::SENDERS];

/// The common places in use.
fn common(counts: &Counts) -> u32
    ensures { result ≡ common (count_in counts.now) }
{
    let mut used = u32::from(counts[usize::from(layout::LOADER)]);
    for player in 0..layout::LOADER {
        used += u32::from(counts[usize::from(player)].saturating_sub(layout::OWN_PLACES));
    }
    used
}

/// Whether no more common places are in use than there are.
pub(crate) fn are_kept(counts: &Counts) -> bool
    ensures { result ≡ leb (common (count_in counts.now)) common_places }
{
    common(counts) <= layout::COMMON_PLACES
}

/// Whether it is a player, and has a place of its own left.
fn has_own_place(counts: &Counts, player: u8) -> bool
    ensures { result ≡ not (leb loader player || leb own_places (count_in counts.now player)) }
{
    player < layout::LOADER && counts[usize::from(player)] < layout::OWN_PLACES
}

/// Whether no place is left for one more request of the player, where these are the counts of the requests in flight.
pub fn has_no_place(counts: &Counts, player: u8) -> bool
    ensures { result ≡ turned_away (count_in counts.now) player }
{
    !has_own_place(counts, player) && common(counts) >= layout::COMMON_PLACES
}
