// Step 15: loads. The rules of the players' table are not tested.
ghost use Rattle.std.specs.Prelude.{◌≡◌};
ghost use Rattle.players.specs.declared.Step.TheVariants.{Load};
ghost use Rattle.players.specs.Rules.{step};
ghost use Rattle.steps.specs.Answers.{answered};
ghost use Rattle.steps.specs.InnerWords.{Moves};

use crate::named::next_request;
use crate::{Answer, Given, issuing};
use players::{Table, layout};
use requests::tests::Writing;
use requests::{kinds, region};
use store::layout::OPEN;

// A write of the loader, which needs no ownership, carries no guard and crosses no request.
pub(crate) fn load(players: &mut Table, entry: u8, value: u32) -> Answer
    ensures { Moves (λ s. step s (Load entry value)) players.old (answered result) players.new }
{
    let player = requests::layout::LOADER;
    let scan = region::scan_for(
        &players[layout::REQUESTS..layout::REQUESTS_END],
        &Writing { player, entry },
    );
    let serial = next_request(players, &scan.counts, player)?;
    issuing::add(
        players,
        scan.used,
        issuing::for_entry(serial, player, kinds::WRITE, entry, value, OPEN, false),
    );
    Ok(Given::Issued { serial })
}
