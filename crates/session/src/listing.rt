//! The lines of a listing, each written to the start of a lent buffer: its length, or 36 where the buffer is shorter.
ghost use Rattle.std.specs.Prelude.{◌≡◌, ◌≤◌};
ghost use Rattle.session.specs.Listing.{header, reply_line, end_line};
ghost use Rattle.session.specs.Runs.{report};
ghost use Rattle.store.specs.Answers.{of_count, as_reply};
ghost use Rattle.session.specs.Written.{wrote, written};

use crate::text::Line;
use crate::{buffer, text, writer};
use store::{Refusal, Reply};

/// The first line.
pub fn header(out: &mut [u8]) -> Result<u32, Refusal>
    ensures { wrote (as_reply of_count result) out.new ≡ written header out.old }
{
    buffer::write(b"step code a b\n", out)
}

/// The line of a step: its ordinal and the reply to it.
pub fn reply_line(ordinal: u32, reply: Reply, out: &mut [u8]) -> Result<u32, Refusal>
    ensures { wrote (as_reply of_count result) out.new ≡ written (reply_line ordinal reply) out.old }
{
    let mut line = Line::new();
    text::decimal(&mut line, ordinal);
    text::three(&mut line, reply.code, reply.a, reply.b);
    buffer::write(line.as_slice(), out)
}

/// The last line: the number of why the run stopped, the records taken, and the place. They are numbers, and not a `Report`, so that the line of any
/// number is promised.
pub fn end_line(why: u32, records: u32, place: u32, out: &mut [u8]) -> Result<u32, Refusal>
    ensures { wrote (as_reply of_count result) out.new ≡ written (end_line (report why records place)) out.old }
{
    let mut line = Line::new();
    writer::append(&mut line, b"end");
    text::three(&mut line, why, records, place);
    buffer::write(line.as_slice(), out)
}
