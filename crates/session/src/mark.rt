//! The session's mark.
ghost use Rattle.std.specs.Prelude.{◌≡◌};
ghost use Rattle.session.specs.Mark.{mark, marked};
ghost use Rattle.store.specs.Answers.{of_count, as_reply};
ghost use Rattle.session.specs.Written.{wrote, written};

use crate::buffer;
use store::Refusal;

/// The length of the mark.
pub const LENGTH: usize = 4;

/// The session's first four bytes.
const MARK: [u8; LENGTH] = *b"RSL1";

/// Whether the session begins with the mark.
pub fn marked(session: &[u8]) -> bool
    ensures { result ≡ marked session.now }
{
    session.starts_with(&MARK)
}

/// Writes the mark to the start of the buffer, and gives its length; 36 where the buffer is shorter.
pub fn put_mark(out: &mut [u8]) -> Result<u32, Refusal>
    ensures { wrote (as_reply of_count result) out.new ≡ written mark out.old }
{
    buffer::write(&MARK, out)
}
