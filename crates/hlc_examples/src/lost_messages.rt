// A caller of `hlc_pool`.

ghost use Rattle.std.specs.Prelude.{◌≡◌, ◌∷◌, [], IfOk};
ghost use Rattle.hlc_pool.specs.Messages.{sends_addressed_to};

use hlc_pool::Pool;
use hlc_stamp::{EventId, NodeId};
use std::alloc::Global;

/// Events 2 and 4 each send a message to node 1, and the first message is lost. The second one is left in the inbox.
pub fn lose_first_message(alloc: Global) -> anyhow::Result<Pool>
    ensures { IfOk result (λ pool. sends_addressed_to pool.messages 1 ≡ 4 ∷ []) }
{
    let reader = NodeId(1);
    let (first, second) = (EventId(2), EventId(4));
    let mut pool = Pool::new(alloc, 2)?;
    pool.reserve(first)?;
    pool.post(first, reader);
    pool.reserve(second)?;
    pool.post(second, reader);
    pool.lose(first)?;
    Ok(pool)
}
