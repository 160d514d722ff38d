//! The requests in flight as a lent list of records, 64 places, and the count of a player's pending ones.
ghost use Rattle.std.specs.Prelude.{◌≡◌};
ghost use Rattle.requests.specs.Lent.{waiting};
ghost use Rattle.store.specs.Answers.{of_count, as_reply};

use crate::{LentRequest, layout};
use store::Refusal;

impl LentRequest {
    ghost use Rattle.std.specs.Prelude.{◌≡◌};
    ghost use Rattle.requests.specs.Lent.{counts};

    /// Whether the place holds a pending request of the player.
    #[tactic(auto, unfolding(crate::specs::Lent::counts))]
    fn counts(&self, player: u8) -> bool
        ensures { result ≡ counts player self.now }
    {
        self.serial != 0 && self.player == player && self.abandoned == 0
    }
}

/// How many pending requests of the player there are in a lent list (document: waiting rows).
pub fn waiting(list: &[LentRequest], player: u8) -> Result<u32, Refusal>
    ensures { as_reply of_count result ≡ waiting player list.now }
{
    if list.len() != layout::PLACES {
        return Err(Refusal::WrongLength);
    }
    if player >= layout::LOADER {
        return Err(Refusal::OutOfRange);
    }
    let count = list.iter().filter(|r| r.counts(player)).count();
    Ok(count as u32)
}
