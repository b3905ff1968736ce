// Vectors worked out by hand.

ghost use Rattle.std.specs.Prelude.{◌≡◌, ◌∷◌, [], IfOk, None, Some, length};

use hlc_execution::Execution;
use hlc_explain::{Vectors, vectors};
use hlc_stamp::{EventId, NodeId, Stamp};
use std::alloc::{AllocError, Global};

const STAMP: Stamp = Stamp { l: 10, c: 0 };

// Node 0 sends a message and goes on; node 1 does something of its own, and takes the message.
fn one_message(alloc: Global) -> Result<Execution, AllocError>
    ensures events { IfOk result (λ execution. execution.events ≡ record { node = 0; reading = 10; send = None }
        ∷ record { node = 1; reading = 10; send = None } ∷ record { node = 0; reading = 10; send = None }
        ∷ record { node = 1; reading = 10; send = Some 0 } ∷ []) }
    ensures nodes { IfOk result (λ execution. execution.nodes ≡ 2) }
{
    let mut execution = Execution::new(alloc, 2)?;
    execution.reserve()?;
    let sent = execution.push(NodeId(0), 10, STAMP, None);
    execution.reserve()?;
    execution.push(NodeId(1), 10, STAMP, None);
    execution.reserve()?;
    execution.push(NodeId(0), 10, STAMP, None);
    execution.reserve()?;
    execution.push(NodeId(1), 10, STAMP, Some(sent));
    Ok(execution)
}

fn counted(alloc: Global) -> Result<Vectors, AllocError>
    ensures { IfOk result (λ counted. length counted ≡ 4) }
{
    let execution = one_message(alloc)?;
    let counted = vectors(alloc, &execution)?;
    Ok(counted)
}

#[test]
fn counts_the_past(rt: HostRuntime) {
    let vectors = counted(rt.alloc()).expect(&rt, "vectors");
    assert!(rt; vectors.vector(EventId(0)) == [1, 0].as_slice());
    assert!(rt; vectors.vector(EventId(1)) == [0, 1].as_slice());
    assert!(rt; vectors.vector(EventId(2)) == [2, 0].as_slice());
    assert!(rt; vectors.vector(EventId(3)) == [1, 2].as_slice());
}
