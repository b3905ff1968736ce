// A caller of `hlc_table`.

ghost use Rattle.std.specs.Prelude.{◌≡◌, IfOk, Some};
ghost use Rattle.hlc_stamp.specs.Order.{IsOutranked};
ghost use Rattle.hlc_table.specs.Rows.{entry_at};

use hlc_table::{Entry, Table};
use std::alloc::{AllocError, Global};

/// A replica learns two writes of a key, and the one of lesser rank arrives last. The table shows the one of greater rank.
pub fn learn_late_write(
    alloc: Global,
    key: &[u8],
    greater: Entry,
    late: Entry,
) -> Result<Table, AllocError>
    requires outranked { IsOutranked late.rank greater.rank }
    ensures shown { IfOk result (λ table. entry_at table key.now ≡ Some greater) }
{
    let mut table = Table::new(alloc);
    table.learn(key, greater.write, greater.rank)?;
    table.learn(key, late.write, late.rank)?;
    Ok(table)
}
