// A step by its fields.
ghost use Rattle.std.specs.Prelude.{◌≡◌};
ghost use Rattle.session.specs.Fields.{six, numbers};
ghost use Rattle.famdrize.specs.Fields.{agree, stated, stated_of};

use players::Step;
use session::{Fields, records};
use store::Refusal;

// Whether all fields are the same.
#[tactic(auto, unfolding(crate::specs::Fields::agree))]
fn same(f: Fields, g: Fields) -> bool
    ensures { result ≡ agree (numbers f) (numbers g) }
{
    f == g
}

// The step of the kind with these fields. Those that the kind lacks are 0 exactly where the step has the same fields.
pub(crate) fn step_of(
    kind: u8,
    player: u8,
    entry: u8,
    high: u16,
    value: u32,
    serial: u32,
) -> Result<Step, Refusal>
    ensures { stated_of result ≡ stated (six kind player entry high value serial) }
{
    let fields = Fields {
        kind,
        player,
        entry,
        high,
        value,
        serial,
    };
    let step = records::of_fields(fields)?.step;
    if same(fields, Fields::from(step)) {
        Ok(step)
    } else {
        Err(Refusal::WrongFields)
    }
}
