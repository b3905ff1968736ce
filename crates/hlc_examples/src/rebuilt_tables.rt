// A caller of the walks of `hlc_table`.

ghost use Rattle.std.specs.Prelude.{◌≡◌, IfOk};
ghost use Rattle.hlc_arena.specs.ClockRule.{HasLeastStamps};
ghost use Rattle.hlc_table.specs.Tables.{table_rows};

use hlc_arena::Arena;
use hlc_arena::laws::rows_grow;
use hlc_stamp::NodeId;
use hlc_table::{NodeWalk, Table};
use std::alloc::{AllocError, Global};

/// Makes the table of a node again, from the history alone: the table that the node has after its last event.
pub fn rebuild_table(alloc: Global, history: &Arena, node: NodeId) -> Result<Table, AllocError>
    requires { HasLeastStamps history.now.events }
    ensures { IfOk result (λ table. table ≡ table_rows history.now.events node.0) }
{
    let mut walk = NodeWalk::new(alloc, history, node);
    while walk.next_event().is_some() {
        walk.pass(history)?;
    }
    rows_grow();
    Ok(walk.into_known())
}
