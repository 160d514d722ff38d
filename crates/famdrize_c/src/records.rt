// Records and the session's mark.
ghost use Rattle.std.specs.Prelude.{◌≡◌};
ghost use Rattle.session.specs.Mark.{mark, marked};
ghost use Rattle.session.specs.Records.{decode};
ghost use Rattle.session.specs.Written.{wrote, written};
ghost use Rattle.famdrize.specs.Calls.{reply_of, eight, decoded, recorded};
ghost use Rattle.session.specs.Fields.{six};

use famdrize::{Answer, RecordFields};

// The record that stands at the start of the part.
#[unsafe(no_mangle)]
pub extern "C" fn famdrize_decode(part: &[u8]) -> RecordFields
    ensures { eight result ≡ decoded (decode part.now) }
{
    famdrize::records::famdrize_decode(part)
}

// Writes the record of the step of this kind with these fields to the start of the buffer.
#[unsafe(no_mangle)]
pub extern "C" fn famdrize_encode(
    kind: u8,
    player: u8,
    entry: u8,
    high: u16,
    value: u32,
    serial: u32,
    out: &mut [u8],
) -> Answer
    ensures { wrote (reply_of result) out.new ≡ recorded (six kind player entry high value serial) out.old }
{
    famdrize::records::famdrize_encode(kind, player, entry, high, value, serial, out)
}

// Writes the mark to the start of the buffer.
#[unsafe(no_mangle)]
pub extern "C" fn famdrize_put_mark(out: &mut [u8]) -> Answer
    ensures { wrote (reply_of result) out.new ≡ written mark out.old }
{
    famdrize::records::famdrize_put_mark(out)
}

// Whether the session begins with the mark.
#[unsafe(no_mangle)]
pub extern "C" fn famdrize_marked(session: &[u8]) -> bool
    ensures { result ≡ marked session.now }
{
    famdrize::records::famdrize_marked(session)
}
