// Records and the session's mark.
ghost use Rattle.std.specs.Prelude.{◌≡◌, ◌∷◌};
ghost use Rattle.session.specs.Mark.{mark, marked};
ghost use Rattle.session.specs.Records.{decode};
ghost use Rattle.session.specs.Written.{wrote, written};
ghost use Rattle.famdrize.specs.Calls.{reply_of, eight, decoded, recorded};
ghost use Rattle.session.specs.Fields.{six, numbers};

use crate::{Answer, RecordFields, given, refuse, step_fields};
use session::Fields;

// A record of this length with these fields. No `From<Record>`: that a record is short is known where it was read, and not of every `Record`.
fn record_with(length: u32, f: Fields) -> RecordFields
    ensures { eight result ≡ 0 ∷ length ∷ numbers f }
{
    RecordFields {
        code: store::codes::DONE,
        length,
        kind: f.kind.into(),
        player: f.player.into(),
        entry: f.entry.into(),
        high: f.high.into(),
        value: f.value,
        serial: f.serial,
    }
}

// The record that stands at the start of the part.
pub fn famdrize_decode(part: &[u8]) -> RecordFields
    ensures { eight result ≡ decoded (decode part.now) }
{
    match session::records::decode(part) {
        Ok(record) => record_with(record.length as u32, Fields::from(record.step)),
        Err(refusal) => RecordFields {
            code: refusal.into(),
            ..RecordFields::default()
        },
    }
}

// Writes the record of the step of this kind with these fields to the start of the buffer.
pub fn famdrize_encode(
    kind: u8,
    player: u8,
    entry: u8,
    high: u16,
    value: u32,
    serial: u32,
    out: &mut [u8],
) -> Answer
    ensures { wrote (reply_of result) out.new ≡ recorded (six kind player entry high value serial) out.old }
{
    match step_fields::step_of(kind, player, entry, high, value, serial) {
        Ok(step) => given(session::records::encode(step, out)),
        Err(refusal) => refuse(refusal),
    }
}

// Writes the mark to the start of the buffer.
pub fn famdrize_put_mark(out: &mut [u8]) -> Answer
    ensures { wrote (reply_of result) out.new ≡ written mark out.old }
{
    given(session::mark::put_mark(out))
}

// Whether the session begins with the mark.
pub fn famdrize_marked(session: &[u8]) -> bool
    ensures { result ≡ marked session.now }
{
    session::mark::marked(session)
}
