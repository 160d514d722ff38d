//! The bytes of a record, with no heap.
ghost use Rattle.std.specs.Prelude.{◌≡◌, ◌∷◌, ◌++◌, ◌+◌, ◌≤◌, length};
ghost use Rattle.session.specs.Layout.{widths, bytes, field_bytes};
ghost use Rattle.session.specs.Fields.{standing, numbers};
ghost use Rattle.session.specs.Text.{standing_in};

use crate::Fields;
use crate::layout::LONGEST;
use arrayvec::ArrayVec;

/// Appends these bytes.
#[inline(always)]
pub(crate) fn append<const N: usize>(line: &mut ArrayVec<u8, N>, bytes: &[u8])
    requires { length line.old.items + length bytes.now ≤ N }
    ensures { line.new.items ≡ line.old.items ++ bytes.now }
{
    let _ = line.try_extend_from_slice(bytes);
}

/// Appends the bytes of a field where the lowest bit of the map stands.
#[inline(always)]
fn put(line: &mut ArrayVec<u8, LONGEST>, map: u8, field: &[u8])
    requires { length line.old.items + length field.now ≤ 14 }
    ensures { line.new.items ≡ line.old.items ++ standing_in map field.now }
{
    if map % 2 == 1 {
        append(line, field);
    }
}

/// A map, then each field whose bit stands in it. Inlined, for speed: handed back, the bytes would be read in wider pieces than they were written in.
#[inline(always)]
pub(crate) fn record_of(map: u8, fields: Fields) -> ArrayVec<u8, LONGEST>
    ensures { result.items ≡ map ∷ field_bytes widths map (standing map (numbers fields)) }
{
    let mut record = ArrayVec::new();
    record.push(map);
    put(&mut record, map, &[fields.kind]);
    put(&mut record, map / 2, &[fields.player]);
    put(&mut record, map / 4, &[fields.entry]);
    put(&mut record, map / 8, &fields.high.to_le_bytes());
    put(&mut record, map / 16, &fields.value.to_le_bytes());
    put(&mut record, map / 32, &fields.serial.to_le_bytes());
    record
}
