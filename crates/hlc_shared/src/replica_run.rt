// All replicas of a cluster.

ghost use Rattle.std.specs.Prelude.{◌≡◌, ℕ, IfErr, IfOk, OnOk, map, vec_len};
ghost use Rattle.hlc_arena.specs.Arena.{history_of};
ghost use Rattle.hlc_arena.specs.ClockRule.{HasLeastStamps};
ghost use Rattle.hlc_core.specs.Lawful.{IsLawful};
ghost use Rattle.hlc_core.specs.Limit.{AreWithinLimit};
ghost use Rattle.hlc_core.specs.Timed.{requests_in};
ghost use Rattle.hlc_held.specs.Seats.{AreInOrder, log_at};
ghost use Rattle.hlc_shared.specs.Close.{EachAgrees};
ghost use Rattle.hlc_shared.specs.Replicas.{EachHasFollowed};
ghost use Rattle.hlc_shared.specs.Runs.{IsFaultOfRun, LetsAllIn};

use crate::closed::Closed;
use crate::gate::Gate;
use crate::jobs::run_jobs;
use crate::replicas::{Job, Replicas};
use crate::shared::Shared;
use crate::shared_fault::SharedFault;
use hlc_core::Step;
use hlc_held::{Group, Seat};
use std::alloc::{AllocError, Global};
use std::sync::Wait;
use std::thread::Threads;

/// Runs a replica for each seat, in a thread of its own, the caller's among them, and closes the cluster when all have
/// ended. A replica asks the steps of its node's list in order, if the gate lets it in.
///
/// A step that is refused for a reason other than memory is skipped. A replica ends if it runs out of memory, or if no
/// thread can be started for it. The answer is `Memory` if any replica ended so, else `GateShut` of the least node that was
/// shut out, else that of `close`.
pub fn run_replicas<L: Group + Sync, R: Threads + Wait + Sync, G: Gate + Sync>(
    rt: &R,
    alloc: Global,
    shared: Shared<L>,
    seats: Vec<Seat<L>>,
    lists: Vec<Vec<Step>>,
    gate: &G,
) -> Result<Closed, SharedFault>
    requires all_in_order { AreInOrder L.nodes seats.items }
    requires one_list_each { vec_len lists ≡ vec_len seats }
    ensures lawful { IfOk result (λ closed. IsLawful (history_of closed.history)) }
    ensures least { IfOk result (λ closed. HasLeastStamps closed.history.events) }
    ensures nodes { IfOk result (λ closed. closed.history.nodes ≡ L.nodes) }
    ensures capacity { IfOk result (λ closed. closed.history.capacity ≡ L.capacity) }
    ensures within { IfOk result (λ closed. AreWithinLimit L.limit closed.history.events) }
    ensures one_each { IfOk result (λ closed. vec_len closed.logs ≡ L.nodes) }
    ensures agree { IfOk result (λ closed. EachAgrees closed.history.events L.nodes (log_at closed.logs.items)) }
    ensures followed { IfOk result (λ closed. EachHasFollowed (requests_in lists.items) seats.items (log_at closed.logs.items)) }
    ensures let_in { OnOk result (LetsAllIn (G.may_answer gate.now) L.nodes) }
    ensures refused { IfErr result (λ fault. IsFaultOfRun (G.may_answer gate.now) L.nodes L.capacity L.limit (requests_in lists.items) seats.items fault) }
{
    let jobs = pair(alloc, seats, lists)?;
    let replicas = Replicas {
        shared: &shared,
        gate,
    };
    let seats = run_jobs(rt, alloc, &replicas, jobs)?;
    Ok(shared.close(alloc, seats)?)
}

// Each seat with the steps of its node.
fn pair<L: Group>(
    alloc: Global,
    seats: Vec<Seat<L>>,
    lists: Vec<Vec<Step>>,
) -> Result<Vec<Job<L>>, AllocError>
    requires { vec_len lists ≡ vec_len seats }
    ensures seats { IfOk result (λ jobs. map (λ job. job.seat) jobs.items ≡ seats.items) }
    ensures lists { IfOk result (λ jobs. map (λ job. job.steps) jobs.items ≡ lists.items) }
{
    let mut jobs = Vec::with_capacity(alloc, seats.len())?;
    for (seat, steps) in seats.into_iter().zip(lists) {
        jobs.push_reserved(Job { seat, steps });
    }
    Ok(jobs)
}
