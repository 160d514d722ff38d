//! The text of a line, with no heap. Digits are `itoa`'s: `write!` promises nothing of its success, and a line is promised wherever it fits.
ghost use Rattle.std.specs.Prelude.{◌≡◌, ◌++◌, ◌+◌, ◌≤◌, length};
ghost use Rattle.session.specs.Listing.{decimal, three};

use crate::writer;
use arrayvec::ArrayVec;
use itoa::Buffer;

/// A line of a listing: four numbers of ten digits, three spaces and the line's end.
pub(crate) type Line = ArrayVec<u8, 44>;

/// Appends a number in decimal digits.
pub(crate) fn decimal(line: &mut Line, n: u32)
    requires { length line.old.items + 10 ≤ 44 }
    ensures text { line.new.items ≡ line.old.items ++ decimal n }
    ensures room { length line.new.items ≤ length line.old.items + 10 }
{
    let mut digits = Buffer::new();
    writer::append(line, digits.format(n).as_bytes());
}

/// Appends three numbers, each after a space, and the line's end.
pub(crate) fn three(line: &mut Line, a: u32, b: u32, c: u32)
    requires { length line.old.items + 34 ≤ 44 }
    ensures text { line.new.items ≡ line.old.items ++ three a b c }
{
    line.push(b' ');
    decimal(line, a);
    line.push(b' ');
    decimal(line, b);
    line.push(b' ');
    decimal(line, c);
    line.push(b'\n');
}
