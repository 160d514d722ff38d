//! Writing to a lent buffer.
ghost use Rattle.std.specs.Prelude.{◌≡◌, ◌≤◌, length};
ghost use Rattle.store.specs.Answers.{of_count, as_reply};
ghost use Rattle.session.specs.Written.{wrote, written};

use store::Refusal;

/// Writes the bytes to the start of the buffer, and gives their number; 36 where the buffer is shorter.
pub(crate) fn write(bytes: &[u8], out: &mut [u8]) -> Result<u32, Refusal>
    requires { length bytes.now ≤ 255 }
    ensures { wrote (as_reply of_count result) out.new ≡ written bytes.now out.old }
{
    let n = bytes.len();
    if out.len() < n {
        return Err(Refusal::BufferShort);
    }
    out[..n].copy_from_slice(bytes);
    Ok(n as u32)
}
