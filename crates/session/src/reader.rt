//! The fields of a record, little-endian.
ghost use Rattle.std.specs.Prelude.{◌≡◌, ℕ, List, drop};
ghost use Rattle.session.specs.Layout.{number, bytes};

use std::marker::Model;

/// A number that a record holds.
pub(crate) trait Number {
    ghost width: { ℕ };

    ghost of_number: { ℕ → Self };

    /// How many bytes it takes.
    fn width() -> usize
        ensures { result ≡ width };

    /// The number of the first bytes; a byte past the end is 0.
    fn read(part: &[u8]) -> Self
        ensures { result ≡ of_number (number width part.now 0) };
}

fn byte(part: &[u8], at: usize) -> u8
    ensures { result ≡ number 1 part.now at }
{
    part.get(at).copied().unwrap_or(0)
}

impl Number for u8 {
    ghost width = { 1 };

    ghost of_number = { λ n. n };

    fn width() -> usize {
        1
    }

    fn read(part: &[u8]) -> u8 {
        byte(part, 0)
    }
}

impl Number for u16 {
    ghost width = { 2 };

    ghost of_number = { λ n. n };

    fn width() -> usize {
        2
    }

    fn read(part: &[u8]) -> u16 {
        u16::from_le_bytes([byte(part, 0), byte(part, 1)])
    }
}

impl Number for u32 {
    ghost width = { 4 };

    ghost of_number = { λ n. n };

    fn width() -> usize {
        4
    }

    /// Inlined, for speed, as `take` is.
    #[inline(always)]
    fn read(part: &[u8]) -> u32 {
        u32::from_le_bytes([byte(part, 0), byte(part, 1), byte(part, 2), byte(part, 3)])
    }
}

/// The bytes of a record that are still to be read.
#[derive(Drop)]
pub(crate) struct Reader<'a> {
    rest: &'a [u8],
}

impl<'a> Model for Reader<'a> {
    ghost use Rattle.std.specs.Prelude.{ℕ, List};

    ghost Value = { List ℕ };

    ghost view = { λ r. r.rest.now };
}

impl<'a> Reader<'a> {
    pub(crate) fn new(part: &'a [u8]) -> Reader<'a>
        ensures { result ≡ part.now }
    {
        Reader { rest: part }
    }

    /// The next field.
    #[inline(always)]
    pub(crate) fn take<T: Number>(&mut self) -> T
        ensures value { result ≡ T.of_number (number T.width self.old 0) }
        ensures rest { self.new ≡ drop T.width self.old }
    {
        let value = T::read(self.rest);
        self.rest = self.rest.get(T::width()..).unwrap_or(&[]);
        value
    }
}
