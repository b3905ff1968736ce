ghost use Rattle.std.specs.Prelude.{◌≡◌, ◌⊎◌, ℕ, ◌+◌, ◌<◌, [], ◌∷◌, ◌++◌, true, false, IfErr, IfOk, None, OnErr, OnOk, Some, length, option_map, sum_by, vec_len};
ghost use Rattle.hlc_arena.specs.Arena.{history_of};
ghost use Rattle.hlc_arena.specs.Known.{everywhere};
ghost use Rattle.hlc_core.specs.Request.{request_of, request_of_ref};
ghost use Rattle.hlc_core.specs.Sound.{IsSound};
ghost use Rattle.hlc_core.specs.State.{is_live};
ghost use Rattle.hlc_core.specs.Step.{Accepts, Refuses, first_refusal, refusal_of, with_lost};
ghost use Rattle.hlc_held.specs.StatelessRefusals.{IsDue, stateless_refusals};
ghost use Rattle.hlc_held.specs.LogEntry.{DidAct, DidLook, log_of, sight_of};
ghost use Rattle.hlc_held.specs.Seats.{act_count, fresh_seats, log_at, log_of_node, with_entry};
ghost use Rattle.hlc_held.specs.Sights.{sight_of_key};

use crate::frozen::Frozen;
use crate::group::Group;
use crate::logged::Logged;
use crate::logs_by_node::logs_of;
use crate::seat::{Seat, seats_for};
use crate::seen::Seen;
use hlc_arena::Arena;
use hlc_core::{Accepted, Action, ActionRef, Cluster, NoMessage, Refusal};
use hlc_stamp::{EventId, NodeId};
use std::alloc::{AllocError, Global};
use std::marker::{Model, PhantomData};
use std::sync::ledger::{Blank, Book, Share};

/// What a lock over a cluster keeps: the cluster, and the ledger's book, whose total is the number of events.
///
/// Contracts see the cluster's state.
#[derive(Drop)]
pub struct Held<L: Group> {
    cluster: Cluster,
    book: Book<L>,
    // No part of the ledger, to which the shares of the seats are added when they are gathered.
    rest: Share<L>,
}

impl<L: Group> Model for Held<L> {
    ghost use Rattle.hlc_core.specs.State.{State};

    ghost Value = { State };

    ghost use Rattle.std.specs.Prelude.{◌≡◌};
    ghost use Rattle.hlc_held.specs.Kept.{IsKept};

    ghost view = { λ h. h.cluster };

    ghost invariant = { λ h. IsKept L.nodes L.capacity L.limit h.cluster h.book.total
        × (L.nodes ≡ L.parts) × (h.rest.parts ≡ 0) × (h.rest.amount ≡ 0) };
}

// Adds a look at a key and its answer to a log.
fn log_look(
    alloc: Global,
    log: &mut Vec<Logged>,
    key: &[u8],
    answer: &Option<Seen>,
) -> Result<(), AllocError>
    ensures logged { OnOk result (log_of log.new.items ≡ log_of log.old.items ++ DidLook key.now (option_map sight_of answer.now) ∷ []) }
    ensures unchanged { OnErr result (log.new.items ≡ log.old.items) }
{
    log.reserve(1)?;
    let key = key.to_vec(alloc)?;
    let kept = match answer {
        Some(seen) => Some(seen.copy(alloc)?),
        None => None,
    };
    log.push_reserved(Logged::Looked { key, answer: kept });
    Ok(())
}

impl<L: Group> Held<L> {
    /// What is kept of a cluster that has no event yet, and a seat for each of its nodes, in order, with an empty log.
    pub fn new(
        alloc: Global,
        blank: Blank,
        cluster: Cluster,
    ) -> Result<(Held<L>, Vec<Seat<L>>), AllocError>
        requires ledger { blank.name ≡ L.name }
        requires parts { blank.parts ≡ L.parts }
        requires one_number { L.parts ≡ L.nodes }
        requires nodes { cluster.history.nodes ≡ L.nodes }
        requires capacity { cluster.history.capacity ≡ L.capacity }
        requires limit { cluster.limit ≡ L.limit }
        requires no_event { cluster.history.events ≡ [] }
        ensures held { IfOk result (λ r. r.0 ≡ cluster) }
        ensures seats { IfOk result (λ r. r.1.items ≡ fresh_seats L.nodes) }
    {
        cluster.keeps_a_sound_history();
        let nodes = cluster.nodes();
        let (book, mut rest) = blank.open::<L>();
        let seats = seats_for(alloc, nodes, &mut rest)?;
        Ok((
            Held {
                cluster,
                book,
                rest,
            },
            seats,
        ))
    }

    /// What is true of every value under the lock, whatever was asked through it: the history is lawful with least stamps,
    /// the live messages are sends of it, and its nodes, its capacity and its limit are those that the group names. It does
    /// nothing.
    pub fn keeps_a_sound_history(&self)
        ensures sound { IsSound self.now }
        ensures nodes { self.now.history.nodes ≡ L.nodes }
        ensures capacity { self.now.history.capacity ≡ L.capacity }
        ensures limit { self.now.limit ≡ L.limit }
    {
        let _kept = &self.book;
    }

    /// Asks the seat's node, whose clock reads `reading`, to act, and adds what was asked and answered to the seat's log.
    ///
    /// This is one request of the cluster. `Memory` for the log is answered before every other refusal; the others
    /// come in the cluster's order.
    pub fn act(
        &mut self,
        seat: &mut Seat<L>,
        reading: u64,
        action: Action,
    ) -> Result<Accepted, Refusal>
        ensures accepted { IfOk result (λ a. Accepts self.old seat.old.node reading (request_of action) a self.new) }
        ensures logged { IfOk result (λ a. seat.new ≡ with_entry seat.old (DidAct reading (request_of action) a.event.0 a.stamp)) }
        ensures refused { IfErr result (λ e. (refusal_of self.old seat.old.node reading (request_of action) ≡ Some e) ⊎ (e ≡ Refusal.Memory)) }
        ensures unchanged { OnErr result ((self.new ≡ self.old) × (seat.new ≡ seat.old)) }

        // None of the conditions that need no state holds of an accepted request. A refusal for one of them comes only if it is
        // the first that holds, and one for the state only if none of them that comes before it holds. `NoNode` never comes.
        ensures none_holds { OnOk result (first_refusal (stateless_refusals L.nodes seat.old.node reading (request_of action)) ≡ None) }
        ensures due { IfErr result (λ e. IsDue L.nodes L.limit seat.old.node reading (request_of action) e) }
    {
        seat.log.reserve(1)?;
        let accepted = self.ask(seat.node, reading, action.as_ref(), &mut seat.share)?;
        seat.log.push_reserved(Logged::Acted {
            reading,
            action,
            event: accepted.event,
            stamp: accepted.stamp,
        });
        Ok(accepted)
    }

    // Asks a node, and counts the event of an accepted request in the book and in a share.
    fn ask(
        &mut self,
        node: NodeId,
        reading: u64,
        action: ActionRef<'_>,
        share: &mut Share<L>,
    ) -> Result<Accepted, Refusal>
        requires exists { node.0 < L.nodes }
        requires some_part { 0 < share.old.parts }
        ensures accepted { IfOk result (λ a. Accepts self.old node.0 reading (request_of_ref action.entry) a self.new) }
        ensures counted { OnOk result ((share.new.amount ≡ share.old.amount + 1) × (share.new.parts ≡ share.old.parts)) }
        ensures refused { IfErr result (λ e. Refuses self.old node.0 reading (request_of_ref action.entry) e) }
        ensures unchanged { OnErr result ((self.new ≡ self.old) × (share.new ≡ share.old)) }
        ensures none_holds { OnOk result (first_refusal (stateless_refusals L.nodes node.0 reading (request_of_ref action.entry)) ≡ None) }
        ensures due { IfErr result (λ e. IsDue L.nodes L.limit node.0 reading (request_of_ref action.entry) e) }
    {
        let accepted = self.cluster.ask(node, reading, action)?;
        self.book.add(share, 1);
        Ok(accepted)
    }

    /// The entry of a key at the seat's node with the value of its write, or `None` if the node knows no write of the
    /// key. What was asked and answered is added to the seat's log.
    pub fn read(
        &self,
        alloc: Global,
        seat: &mut Seat<L>,
        key: &[u8],
    ) -> Result<Option<Seen>, AllocError>
        ensures answer { IfOk result (λ seen. option_map sight_of seen ≡ sight_of_key self.now.history.events everywhere seat.old.node key.now) }
        ensures logged { IfOk result (λ seen. seat.new ≡ with_entry seat.old (DidLook key.now (option_map sight_of seen))) }
        ensures unchanged { OnErr result (seat.new ≡ seat.old) }
    {
        let answer = self.look(alloc, seat.node, key)?;
        log_look(alloc, &mut seat.log, key, &answer)?;
        Ok(answer)
    }

    /// Ends a live message, so that it can't be delivered any more.
    pub fn lose(&mut self, sent: EventId) -> Result<(), NoMessage>
        ensures lost { OnOk result ((is_live self.old sent.0 ≡ true) × (self.new ≡ with_lost self.old sent.0)) }
        ensures refused { OnErr result (is_live self.old sent.0 ≡ false) }
        ensures unchanged { OnErr result (self.new ≡ self.old) }
    {
        self.cluster.lose(sent)
    }

    /// A copy of the history as it is now. What is asked later leaves it as it is.
    pub fn frozen(&self, alloc: Global) -> Result<Frozen<L>, AllocError>
        ensures { IfOk result (λ frozen. frozen ≡ self.now.history) }
    {
        Ok(Frozen {
            history: self.cluster.copy_history(alloc)?,
            group: PhantomData,
        })
    }

    /// The history, and the logs of the seats by node. The log of a node whose seat is missing is empty.
    pub fn gather(
        self,
        alloc: Global,
        seats: Vec<Seat<L>>,
    ) -> Result<(Arena, Vec<Vec<Logged>>), AllocError>
        ensures history { IfOk result (λ r. history_of r.0 ≡ self.history) }
        ensures sound { IsSound self }
        ensures nodes { self.history.nodes ≡ L.nodes }
        ensures capacity { self.history.capacity ≡ L.capacity }
        ensures limit { self.limit ≡ L.limit }
        ensures one_each { IfOk result (λ r. vec_len r.1 ≡ self.history.nodes) }
        ensures logs { IfOk result (λ r. (node : ℕ) → log_at r.1.items node ≡ log_of_node seats.items node) }

        // If no seat is missing, the history has as many events as the logs name.
        ensures counted { IfOk result (λ r. vec_len seats ≡ self.history.nodes →
            length self.history.events ≡ sum_by (λ seat. act_count seat.log) seats.items) }
    {
        let Held {
            cluster,
            mut book,
            rest: mut all,
        } = self;
        let history = cluster.into_history();
        let logs = logs_of(alloc, history.nodes(), seats, &mut all)?;
        book.audit(&mut all);
        Ok((history, logs))
    }

    // What a look at a key at a node shows.
    fn look(&self, alloc: Global, node: NodeId, key: &[u8]) -> Result<Option<Seen>, AllocError>
        requires { node.0 < L.nodes }
        ensures { IfOk result (λ seen. option_map sight_of seen ≡ sight_of_key self.now.history.events everywhere node.0 key.now) }
    {
        let table = self.cluster.table(node).unwrap();
        match table.get(key) {
            Some(entry) => Ok(Some(Seen::of(alloc, self.cluster.history(), entry)?)),
            None => Ok(None),
        }
    }
}
