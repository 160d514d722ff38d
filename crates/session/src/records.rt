//! Records: a bit map, then only the fields whose bit stands.
ghost use Rattle.std.specs.Prelude.{◌≡◌, ◌∷◌, ◌++◌, ◌+◌, ◌≤◌, length};
ghost use Rattle.session.specs.Layout.{widths, field_bytes};
ghost use Rattle.session.specs.Fields.{standing, numbers};
ghost use Rattle.session.specs.Decoded.{decoded_of};
ghost use Rattle.store.specs.Answers.{of_count, as_reply};
ghost use Rattle.session.specs.Written.{wrote, written};
ghost use Rattle.session.specs.Records.{Decodes, of_numbers, encode};

use crate::kinds::Kind;
use crate::{Fields, buffer, layout, writer};
use players::Step;
use store::Refusal;

/// A step, and the bytes that its record takes.
#[derive(Clone, Copy, Debug, PartialEq, Eq, Hash)]
pub struct Record {
    pub step: Step,
    pub length: usize,
}

/// The record that stands at the start of the part. Inlined, as `Kind::step` and `steps::apply` are, so that a run's steps stay in registers:
/// in memory a step is written in smaller pieces than it is read in, and the run waits for it.
#[inline(always)]
pub fn decode(part: &[u8]) -> Result<Record, Refusal>
    ensures { Decodes part.now (decoded_of result) }
{
    let map = *part.first().ok_or(Refusal::CutShort)?;
    if map >= 64 {
        return Err(Refusal::UnknownField);
    }
    let length = layout::length_of(map);
    if part.len() < length {
        return Err(Refusal::CutShort);
    }
    if map % 2 == 0 {
        return Err(Refusal::WrongFields);
    }
    let kind = Kind::try_from(part[1])?;
    if map != kind.map() {
        return Err(Refusal::WrongFields);
    }
    Ok(Record {
        step: kind.step(part),
        length,
    })
}

/// The step of the kind with these fields, those that it lacks passed over: what its record reads as, or 26.
pub fn of_fields(fields: Fields) -> Result<Record, Refusal>
    ensures { decoded_of result ≡ of_numbers (numbers fields) }
{
    let kind = Kind::try_from(fields.kind)?;
    let record = writer::record_of(kind.map(), fields);
    decode(record.as_slice())
}

/// Writes the record of a step to the start of the buffer, and gives its length; 36 where the buffer is shorter.
pub fn encode(step: Step, out: &mut [u8]) -> Result<u32, Refusal>
    ensures { wrote (as_reply of_count result) out.new ≡ written (encode step) out.old }
{
    let record = writer::record_of(Kind::from(step).map(), Fields::from(step));
    buffer::write(record.as_slice(), out)
}
