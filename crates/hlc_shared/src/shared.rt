ghost use Rattle.std.specs.Prelude.{◌≡◌, ℕ, IfErr, IfOk, None, OnErr, OnOk, Some, option_map, vec_len};
ghost use Rattle.hlc_core.specs.Request.{request_of};
ghost use Rattle.hlc_core.specs.State.{IsFaultOfNew, new_refusal};
ghost use Rattle.hlc_core.specs.Step.{first_refusal};
ghost use Rattle.hlc_held.specs.StatelessRefusals.{IsDue, stateless_refusals};
ghost use Rattle.hlc_held.specs.Agreement.{Agrees};
ghost use Rattle.hlc_held.specs.Kept.{IsSoundHistory};
ghost use Rattle.hlc_held.specs.LogEntry.{DidAct, DidLook, sight_of};
ghost use Rattle.hlc_held.specs.Seats.{fresh_seats, log_at, log_of_node, with_entry};
ghost use Rattle.hlc_shared.specs.Close.{EachAgrees, IsFaultOfClose, IsKeptHistory};
ghost use Rattle.hlc_shared.specs.Freeze.{IsFaultOfFreeze};
ghost use Rattle.hlc_arena.specs.Arena.{history_of};

use crate::closed::{Closed, compare_log, compare_logs};
use crate::log_fault::LogFault;
use hlc_core::{Accepted, Action, Cluster, ClusterFault, NoMessage, Refusal};
use hlc_held::{Frozen, Group, Held, Seat, Seen};
use hlc_stamp::{EventId, Settings};
use std::alloc::{AllocError, Global};
use std::sync::ledger::Blank;
use std::sync::{Mutex, Wait};

/// A cluster that threads share: each call is carried out whole under the one lock.
///
/// A thread asks through a seat, which keeps a log of what was asked and answered. When all is done, `close` gives the
/// history and the logs, which agree with it. The calls that wait may wait for the lock, and for nothing else.
#[derive(Drop)]
pub struct Shared<L: Group> {
    lock: Mutex<Held<L>>,
}

// Compares a seat's log with a copy of the history.
fn compare_seat<L: Group>(alloc: Global, frozen: &Frozen<L>, seat: &Seat<L>) -> Result<(), LogFault>
    ensures agrees { OnOk result (Agrees frozen.now.events seat.now.node seat.now.log) }
    ensures refused { IfErr result (IsFaultOfFreeze L.nodes L.capacity L.limit seat.now) }
{
    compare_log(alloc, frozen.history(), seat.node(), seat.log())
}

impl<L: Group> Shared<L> {
    /// A cluster of so many nodes, whose history has no event and may get as many as `capacity`, and a seat for each
    /// node, in order, with an empty log. It has no drift limit.
    pub fn new(
        alloc: Global,
        blank: Blank,
        nodes: u16,
        capacity: u32,
    ) -> Result<(Shared<L>, Vec<Seat<L>>), ClusterFault>
        requires ledger { blank.name ≡ L.name }
        requires parts { blank.parts ≡ L.parts }
        requires one_number { L.parts ≡ L.nodes }
        requires nodes { nodes ≡ L.nodes }
        requires capacity { capacity ≡ L.capacity }
        requires limit { L.limit ≡ None }
        ensures settings { OnOk result (new_refusal nodes capacity ≡ None) }
        ensures seats { IfOk result (λ r. r.1.items ≡ fresh_seats nodes) }
        ensures refused { IfErr result (IsFaultOfNew nodes capacity) }
    {
        Shared::with_settings(
            alloc,
            blank,
            Settings {
                nodes,
                capacity,
                limit: None,
            },
        )
    }

    /// A cluster as `new` makes it, that refuses what would be ahead of its reading by more than `limit`.
    pub fn with_limit(
        alloc: Global,
        blank: Blank,
        nodes: u16,
        capacity: u32,
        limit: u64,
    ) -> Result<(Shared<L>, Vec<Seat<L>>), ClusterFault>
        requires ledger { blank.name ≡ L.name }
        requires parts { blank.parts ≡ L.parts }
        requires one_number { L.parts ≡ L.nodes }
        requires nodes { nodes ≡ L.nodes }
        requires capacity { capacity ≡ L.capacity }
        requires limit { L.limit ≡ Some limit }
        ensures settings { OnOk result (new_refusal nodes capacity ≡ None) }
        ensures seats { IfOk result (λ r. r.1.items ≡ fresh_seats nodes) }
        ensures refused { IfErr result (IsFaultOfNew nodes capacity) }
    {
        Shared::with_settings(
            alloc,
            blank,
            Settings {
                nodes,
                capacity,
                limit: Some(limit),
            },
        )
    }

    /// A cluster of these settings, with a limit or without one, and its seats as `new` gives them.
    pub fn with_settings(
        alloc: Global,
        blank: Blank,
        settings: Settings,
    ) -> Result<(Shared<L>, Vec<Seat<L>>), ClusterFault>
        requires ledger { blank.name ≡ L.name }
        requires parts { blank.parts ≡ L.parts }
        requires one_number { L.parts ≡ L.nodes }
        requires nodes { settings.nodes ≡ L.nodes }
        requires capacity { settings.capacity ≡ L.capacity }
        requires limit { settings.limit ≡ L.limit }
        ensures settings { OnOk result (new_refusal settings.nodes settings.capacity ≡ None) }
        ensures seats { IfOk result (λ r. r.1.items ≡ fresh_seats settings.nodes) }
        ensures refused { IfErr result (IsFaultOfNew settings.nodes settings.capacity) }
    {
        let cluster = Cluster::with_settings(alloc, settings)?;
        let (held, seats) = Held::<L>::new(alloc, blank, cluster)?;
        Ok((
            Shared {
                lock: Mutex::new(held),
            },
            seats,
        ))
    }

    /// Asks the seat's node, whose clock reads `reading`, to act, and adds what was asked and answered to the seat's log.
    ///
    /// This is one request of the cluster under the lock. `Memory` for the log is answered before every other
    /// refusal; the others come in the cluster's order.
    pub fn act<R: Wait>(
        &self,
        rt: &R,
        seat: &mut Seat<L>,
        reading: u64,
        action: Action,
    ) -> Result<Accepted, Refusal>
        ensures logged { IfOk result (λ a. seat.new ≡ with_entry seat.old (DidAct reading (request_of action) a.event.0 a.stamp)) }
        ensures unchanged { OnErr result (seat.new ≡ seat.old) }

        // None of the conditions that need no state holds of an accepted request. A refusal for one of them comes only if it is
        // the first that holds, and one for the state only if none of them that comes before it holds. `NoNode` never comes.
        ensures none_holds { OnOk result (first_refusal (stateless_refusals L.nodes seat.old.node reading (request_of action)) ≡ None) }
        ensures due { IfErr result (λ e. IsDue L.nodes L.limit seat.old.node reading (request_of action) e) }
    {
        self.lock.lock(rt).act(seat, reading, action)
    }

    /// The entry of a key at the seat's node with the value of its write, or `None` if the node knows no write of the
    /// key. What was asked and answered is added to the seat's log.
    pub fn read<R: Wait>(
        &self,
        rt: &R,
        alloc: Global,
        seat: &mut Seat<L>,
        key: &[u8],
    ) -> Result<Option<Seen>, AllocError>
        ensures logged { IfOk result (λ seen. seat.new ≡ with_entry seat.old (DidLook key.now (option_map sight_of seen))) }
        ensures unchanged { OnErr result (seat.new ≡ seat.old) }
    {
        self.lock.lock(rt).read(alloc, seat, key)
    }

    /// Ends a live message, so that it can't be delivered any more. `NoMessage` says that it isn't live.
    ///
    /// Any seat may lose any message, and its log says nothing of it.
    pub fn lose<R: Wait>(&self, rt: &R, seat: &mut Seat<L>, sent: EventId) -> Result<(), NoMessage>
        ensures { seat.new ≡ seat.old }
    {
        self.lock.lock(rt).lose(sent)
    }

    /// A copy of the history that the lock keeps at one moment, with which the seat's log agrees. What is asked later leaves
    /// it as it is.
    ///
    /// The copy is made under the lock, and compared with the log once the lock is given back. `Mismatch` names the seat's
    /// node, whose log doesn't agree with some history that the lock may have kept. That right calls end in `Ok` is tested.
    pub fn freeze<R: Wait>(
        &self,
        rt: &R,
        alloc: Global,
        seat: &Seat<L>,
    ) -> Result<Frozen<L>, LogFault>
        ensures sound { IfOk result (λ frozen. IsSoundHistory L.nodes L.capacity L.limit frozen) }
        ensures agrees { IfOk result (λ frozen. Agrees frozen.events seat.now.node seat.now.log) }
        ensures refused { IfErr result (λ fault. IsFaultOfFreeze L.nodes L.capacity L.limit seat.now fault) }
    {
        let frozen = self.frozen(rt, alloc)?;
        match compare_seat(alloc, &frozen, seat) {
            Ok(()) => Ok(frozen),
            Err(fault) => {
                // A history has many parts. To drop one is a function already, since a lock is dropped by one.
                drop(frozen);
                Err(fault)
            }
        }
    }

    // A copy of the history, for which the lock is held.
    fn frozen<R: Wait>(&self, rt: &R, alloc: Global) -> Result<Frozen<L>, AllocError> {
        self.lock.lock(rt).frozen(alloc)
    }

    /// Ends it all: gives back the history, and the logs by node, with which it was compared. The log of a node whose seat
    /// is missing counts as empty. On a refusal everything is dropped.
    ///
    /// `Mismatch` names the first node whose log doesn't agree with some history that the lock may have kept. That it is the
    /// one that was kept is tested, with the seats of two nodes missing.
    pub fn close(self, alloc: Global, seats: Vec<Seat<L>>) -> Result<Closed, LogFault>
        ensures history { IfOk result (λ closed. IsKeptHistory L.nodes L.capacity L.limit seats.items (history_of closed.history)) }
        ensures one_each { IfOk result (λ closed. vec_len closed.logs ≡ L.nodes) }
        ensures logs { IfOk result (λ closed. (node : ℕ) → log_at closed.logs.items node ≡ log_of_node seats.items node) }
        ensures agree { IfOk result (λ closed. EachAgrees closed.history.events L.nodes (log_of_node seats.items)) }
        ensures refused { IfErr result (λ fault. IsFaultOfClose L.nodes L.capacity L.limit seats.items fault) }
    {
        let Shared { lock } = self;
        let (history, logs) = lock.into_inner().gather(alloc, seats)?;
        let closed = Closed { history, logs };
        match compare_logs(alloc, &closed.history, &closed.logs) {
            Ok(()) => Ok(closed),
            Err(fault) => {
                drop(closed);
                Err(fault)
            }
        }
    }
}
