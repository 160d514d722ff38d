// Steps 1 and 2: who owns the entries. The rules of the players' table are not tested.
ghost use Rattle.std.specs.Prelude.{◌≡◌};
ghost use Rattle.players.specs.declared.Step.TheVariants.{Assign, Release};
ghost use Rattle.players.specs.Rules.{step};
ghost use Rattle.steps.specs.Answers.{answered};
ghost use Rattle.steps.specs.InnerWords.{Moves, own};

use crate::named::next_serial;
use crate::{Answer, Given};
use players::{Player, Table, layout};
use store::{Entries, Range, words};

// A serial is taken; owner (8 for nobody) and epoch are set over the range.
fn set_owner(players: &mut Table, owner: u8, range: Range) -> Answer
    ensures { Moves (own owner range) players.old (answered result) players.new }
{
    let entries = Entries::try_from(range)?;
    let serial = next_serial(players)?;
    let low = entries.low();
    let high = entries.high();
    players[layout::LAST] = serial;
    words::fill(
        &mut players[layout::OWNERS + low..layout::OWNERS + high],
        u32::from(owner),
    );
    words::fill(
        &mut players[layout::EPOCHS + low..layout::EPOCHS + high],
        serial,
    );
    Ok(Given::Issued { serial })
}

// Step 1: the player owns the range.
pub(crate) fn assign(players: &mut Table, player: u8, range: Range) -> Answer
    ensures { Moves (λ s. step s (Assign player range)) players.old (answered result) players.new }
{
    Player::try_from(player)?;
    set_owner(players, player, range)
}

// Step 2: nobody owns the range.
pub(crate) fn release(players: &mut Table, range: Range) -> Answer
    ensures { Moves (λ s. step s (Release range)) players.old (answered result) players.new }
{
    set_owner(players, layout::NOBODY, range)
}
