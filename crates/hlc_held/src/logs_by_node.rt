// Logs by node.

ghost use Rattle.std.specs.Prelude.{◌≡◌, ◌==◌, ℕ, ◌+◌, ◌<◌, [], IfOk, OnOk, if◌then◌else◌, sum_by, vec_len};
ghost use Rattle.hlc_held.specs.LogEntry.{log_of};
ghost use Rattle.hlc_held.specs.Seats.{act_count, log_at, log_of_node};

use crate::group::Group;
use crate::logged::Logged;
use crate::seat::Seat;
use hlc_stamp::NodeId;
use std::alloc::{AllocError, Global};
use std::sync::ledger::Share;

/// The logs of some seats by node; the log of a node whose seat is missing is empty. The shares of the seats are added to
/// one that has no part.
pub(crate) fn logs_of<L: Group>(
    alloc: Global,
    nodes: u16,
    seats: Vec<Seat<L>>,
    shares: &mut Share<L>,
) -> Result<Vec<Vec<Logged>>, AllocError>
    requires nodes { nodes ≡ L.nodes }
    requires no_part { shares.old.parts ≡ 0 }
    requires nothing_counted { shares.old.amount ≡ 0 }
    ensures one_each { IfOk result (λ logs. vec_len logs ≡ nodes) }
    ensures logs { IfOk result (λ logs. (node : ℕ) → log_at logs.items node ≡ log_of_node seats.items node) }
    ensures parts { OnOk result (shares.new.parts ≡ vec_len seats) }
    ensures counted { OnOk result (shares.new.amount ≡ sum_by (λ seat. act_count seat.log) seats.items) }
{
    let mut logs = empty_logs(alloc, nodes)?;
    for seat in seats {
        take_in(seat, &mut logs, shares);
    }
    Ok(logs)
}

// As many empty logs as there are nodes.
fn empty_logs(alloc: Global, nodes: u16) -> Result<Vec<Vec<Logged>>, AllocError>
    ensures one_each { IfOk result (λ logs. vec_len logs ≡ nodes) }
    ensures empty { IfOk result (λ logs. (node : ℕ) → log_at logs.items node ≡ []) }
{
    let mut logs = Vec::with_capacity(alloc, nodes as usize)?;
    for node in 0..nodes {
        logs.push_reserved(Vec::new(alloc));
    }
    Ok(logs)
}

// Puts a seat's log at its node's place, and adds its share to others.
fn take_in<L: Group>(seat: Seat<L>, logs: &mut Vec<Vec<Logged>>, shares: &mut Share<L>)
    requires { vec_len logs.old ≡ L.nodes }
    ensures one_each { vec_len logs.new ≡ vec_len logs.old }
    ensures put { (node : ℕ) → log_at logs.new.items node ≡ (if seat.node == node then seat.log else log_at logs.old.items node) }
    ensures parts { shares.new.parts ≡ shares.old.parts + 1 }
    ensures counted { shares.new.amount ≡ shares.old.amount + act_count seat.log }
{
    let Seat { node, log, share } = seat;
    shares.merge(share);
    put_log(logs, node, log);
}

// Puts a log at its node's place.
fn put_log(logs: &mut Vec<Vec<Logged>>, node: NodeId, log: Vec<Logged>)
    requires { node.0 < vec_len logs.old }
    ensures one_each { vec_len logs.new ≡ vec_len logs.old }
    ensures put { (other : ℕ) → log_at logs.new.items other ≡ (if node.0 == other then log_of log.items else log_at logs.old.items other) }
{
    logs[node.0 as usize] = log;
}
