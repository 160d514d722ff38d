// The requests in flight as a lent list of records.
ghost use Rattle.std.specs.Prelude.{◌≡◌};
ghost use Rattle.requests.specs.Lent.{waiting};
ghost use Rattle.famdrize.specs.Calls.{reply_of};

use crate::{Answer, given};
use requests::LentRequest;

// How many pending requests of the player there are in the list.
pub fn famdrize_waiting(list: &[LentRequest], player: u8) -> Answer
    ensures { reply_of result ≡ waiting player list.now }
{
    given(requests::lent::waiting(list, player))
}
