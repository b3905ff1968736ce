// The history and the logs that a lock gives back.

ghost use Rattle.std.specs.Prelude.{◌≡◌, IfErr, OnOk, length};
ghost use Rattle.hlc_arena.specs.ClockRule.{HasLeastStamps};
ghost use Rattle.hlc_held.specs.Agreement.{Agrees};
ghost use Rattle.hlc_held.specs.LogEntry.{log_of};
ghost use Rattle.hlc_held.specs.Seats.{log_at};
ghost use Rattle.hlc_shared.specs.Close.{EachAgrees, IsFaultOfLog, IsFaultOfLogs};

use crate::log_fault::LogFault;
use hlc_arena::Arena;
use hlc_held::{Logged, agrees};
use hlc_stamp::NodeId;
use std::alloc::Global;

/// What is left when all is done: the history, and what each node was asked and answered.
#[derive(Drop)]
pub struct Closed {
    /// The history.
    pub history: Arena,
    /// The logs by node. Each agrees with the history.
    pub logs: Vec<Vec<Logged>>,
}

/// Compares a node's log with a history.
pub(crate) fn compare_log(
    alloc: Global,
    history: &Arena,
    node: NodeId,
    log: &[Logged],
) -> Result<(), LogFault>
    requires least { HasLeastStamps history.now.events }
    ensures agrees { OnOk result (Agrees history.now.events node.0 (log_of log.now)) }
    ensures refused { IfErr result (IsFaultOfLog history.now.events node.0 (log_of log.now)) }
{
    if agrees(alloc, history, node, log)? {
        Ok(())
    } else {
        Err(LogFault::Mismatch(node))
    }
}

/// Compares each node's log with a history, and stops at the first that doesn't agree.
pub(crate) fn compare_logs(
    alloc: Global,
    history: &Arena,
    logs: &[Vec<Logged>],
) -> Result<(), LogFault>
    requires one_each { length logs.now ≡ history.now.nodes }
    requires least { HasLeastStamps history.now.events }
    ensures agree { OnOk result (EachAgrees history.now.events history.now.nodes (log_at logs.now)) }
    ensures refused { IfErr result (λ fault. IsFaultOfLogs history.now.events history.now.nodes (log_at logs.now) fault) }
{
    for node in 0..history.nodes() {
        compare_log(alloc, history, NodeId(node), logs[node as usize].as_slice())?;
    }
    Ok(())
}
