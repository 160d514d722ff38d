// The table of a fresh store.
ghost use Rattle.std.specs.Prelude.{◌≡◌};
ghost use Rattle.store.specs.Model.{fresh};
ghost use Rattle.store.specs.Table.{table_of};

use crate::{Table, layout, words};

// One tablet, and zeros in all five columns elsewhere: an open guard everywhere is one interval, from entry 0 on.
pub(crate) fn lay_store(store: &mut Table)
    ensures { store.new ≡ table_of fresh }
{
    for column in 0..5 {
        let b = column * layout::ENTRIES;
        words::lay::<{ layout::ENTRIES }>(&mut store[b..b + layout::ENTRIES], 0);
    }
    store[0] = 1;
}
