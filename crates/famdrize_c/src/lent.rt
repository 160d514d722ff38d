// The requests in flight as a lent list of records.
ghost use Rattle.std.specs.Prelude.{◌≡◌};
ghost use Rattle.requests.specs.Lent.{waiting};
ghost use Rattle.famdrize.specs.Calls.{reply_of};

use famdrize::Answer;
use requests::LentRequest;

// How many pending requests of the player there are in the list.
#[unsafe(no_mangle)]
pub extern "C" fn famdrize_waiting(list: &[LentRequest], player: u8) -> Answer
    ensures { reply_of result ≡ waiting player list.now }
{
    famdrize::lent::famdrize_waiting(list, player)
}
