// The read counters of the players' table.
ghost use Rattle.std.specs.Prelude.{◌≡◌};
ghost use Rattle.steps.specs.InnerWords.{counted_table};

use counters::region;
use players::{Player, Table, layout};

// Counts the answer to a read for the player, by the code of its reply.
pub(crate) fn count(players: &mut Table, player: Player, code: u32)
    ensures { players.new ≡ counted_table player code players.old }
{
    region::count(
        &mut players[layout::COUNTERS..layout::COUNTERS_END],
        u8::from(player),
        code,
    );
}
