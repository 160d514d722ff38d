// The columns of the store's table that are read whole. Three functions, and not one with the place as a parameter: each has a name and no `requires`.
ghost use Rattle.std.specs.Prelude.{◌≡◌};
ghost use Rattle.store.specs.Table.{part, boundaries_at, starts_at, guards_at};

use crate::{Table, layout};

/// A column: a word for each entry.
pub(crate) type Column = [u32; layout::ENTRIES];

/// Where tablets begin.
#[tactic(auto, unfolding(crate::specs::Table::part))]
pub(crate) fn boundaries(store: &Table) -> &Column
    ensures { result.now ≡ part boundaries_at store.now }
{
    store[layout::BOUNDARIES..layout::STARTS]
        .as_array()
        .unwrap()
}

/// Where the guard intervals begin.
#[tactic(auto, unfolding(crate::specs::Table::part))]
pub(crate) fn starts(store: &Table) -> &Column
    ensures { result.now ≡ part starts_at store.now }
{
    store[layout::STARTS..layout::GUARDS].as_array().unwrap()
}

/// The guards of the guard intervals.
#[tactic(auto, unfolding(crate::specs::Table::part))]
pub(crate) fn guards(store: &Table) -> &Column
    ensures { result.now ≡ part guards_at store.now }
{
    store[layout::GUARDS..layout::VERSIONS].as_array().unwrap()
}
