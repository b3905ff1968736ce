// Events that get their places in a causal order, round after round over the nodes that can go on.

ghost use Rattle.std.specs.Prelude.{◌≡◌, ℕ, ◌<◌, ◌≤◌, ◌↔◌, ◌⊎◌, All, IfOk, IsTrue, MatchBool, OnOk, Some, false, length, vec_capacity};
ghost use Rattle.hlc_log.specs.Events.{IsNumbered};
ghost use Rattle.hlc_log.specs.Messages.{Receives, SendsTo};
ghost use Rattle.hlc_log.specs.Placing.{AreAllBlocked, AreNodesBelow, AreNodesLinked, AreTurns, AreTurnsBeside, IsBlocked, IsNodeBlocked, IsPassed, IsPlacing, IsReady, IsWoken, LinksToFirstFront, first_of, node_at};
ghost use Rattle.hlc_log.specs.ReceiveLinks.{AreReceivesLinked};
ghost use Rattle.hlc_log.specs.SendLinks.{AreSendLinks, link_at};
ghost use Rattle.hlc_log.specs.Standing.{SeqsRise};
ghost use Rattle.hlc_log.specs.Turns.{HasTurn};

use crate::log::Log;
use crate::log_event::{LogKind, MAX_LOG_NODES};
use crate::message_id::MessageId;
use crate::receive_links::ReceiveLinks;
use crate::turns::Turns;
use hlc_pages::Link;
use hlc_stamp::{EventId, NodeId};
use std::alloc::{AllocError, Global};

// The order so far, the event at which each node goes on, and the nodes that are to go on.
#[derive(Drop)]
pub(crate) struct Placing {
    // Of each event, the next of its node.
    next: Vec<Link>,
    // Of each node, the first event that has no place yet.
    fronts: Vec<Option<EventId>>,
    turns: Turns,
    // With room for all events.
    order: Vec<EventId>,
}

impl Placing {
    // No event has its place, and each node goes on with its first.
    pub(crate) fn new(alloc: Global, log: &Log) -> Result<Placing, AllocError>
        requires nodes { All (λ event. event.node.0 < MAX_LOG_NODES) log.now.events }
        requires rise { SeqsRise log.now.events }
        ensures placing { IfOk result (IsPlacing log.now.events) }
        ensures turns { IfOk result (λ placing. AreTurns log.now.events placing.fronts.items placing.turns) }
        ensures room { IfOk result (λ placing. length log.now.events ≤ vec_capacity placing.order) }
    {
        let nodes = nodes_of(log);
        let mut placing = Placing {
            next: vec![in alloc; Link::none(); log.len() as usize]?,
            fronts: vec![in alloc; None; nodes as usize]?,
            turns: Turns::new(alloc, nodes)?,
            order: Vec::with_capacity(alloc, log.len() as usize)?,
        };
        placing.link_all(log);
        Ok(placing)
    }

    // Links each event to the next of its node, and each node to its first, where none is linked yet.
    fn link_all(&mut self, log: &Log)
        requires { AreNodesLinked log.now.events (length log.now.events) self.old.next.items self.old.fronts.items }
        ensures linked { AreNodesLinked log.now.events 0 self.new.next.items self.new.fronts.items }
        ensures nodes { length self.new.fronts.items ≡ length self.old.fronts.items }
        ensures turns { self.new.turns ≡ self.old.turns }
        ensures order { self.new.order ≡ self.old.order }
    {
        for place in (0..log.len()).rev() {
            let event = EventId(place);
            let node = log.node_at(event).0 as usize;
            self.next[place as usize] = Link::to_any(self.fronts[node]);
            self.fronts[node] = Some(event);
        }
    }

    // Places events until no node can go on.
    pub(crate) fn place_all(
        &mut self,
        log: &Log,
        sends: &[Link],
        receives: &ReceiveLinks,
    ) -> Result<(), AllocError>
        requires numbered { All (IsNumbered (length sends.now)) log.now.events }
        requires links { AreSendLinks log.now.events (length log.now.events) sends.now }
        requires messages { length receives.now.firsts.items ≡ length sends.now }
        requires receives { AreReceivesLinked log.now.events 0 receives.now.firsts.items receives.now.next.items }
        requires placing { IsPlacing log.now.events self.old }
        requires turns { AreTurns log.now.events self.old.fronts.items self.old.turns }
        requires room { length log.now.events ≤ vec_capacity self.old.order }
        ensures placing { OnOk result (IsPlacing log.now.events self.new) }
        ensures stuck { OnOk result (AreAllBlocked log.now.events self.new.fronts.items) }
    {
        while self.place_some(log, sends, receives)? {}
        Ok(())
    }

    // Takes turns until an event is placed, and answers whether one was.
    fn place_some(
        &mut self,
        log: &Log,
        sends: &[Link],
        receives: &ReceiveLinks,
    ) -> Result<bool, AllocError>
        requires numbered { All (IsNumbered (length sends.now)) log.now.events }
        requires links { AreSendLinks log.now.events (length log.now.events) sends.now }
        requires messages { length receives.now.firsts.items ≡ length sends.now }
        requires receives { AreReceivesLinked log.now.events 0 receives.now.firsts.items receives.now.next.items }
        requires placing { IsPlacing log.now.events self.old }
        requires turns { AreTurns log.now.events self.old.fronts.items self.old.turns }
        requires room { length log.now.events ≤ vec_capacity self.old.order }
        ensures placing { OnOk result (IsPlacing log.now.events self.new) }
        ensures turns { IfOk result (λ placed. IsTrue placed → AreTurns log.now.events self.new.fronts.items self.new.turns) }
        ensures room { OnOk result (vec_capacity self.new.order ≡ vec_capacity self.old.order) }
        ensures grows { IfOk result (λ placed. IsTrue placed → length self.old.order.items < length self.new.order.items) }
        ensures stuck { IfOk result (λ placed. placed ≡ false → AreAllBlocked log.now.events self.new.fronts.items) }
    {
        let placed = self.order.len();
        while let Some(node) = self.turns.take() {
            self.go_on(log, sends, receives, node)?;
            if self.order.len() > placed {
                return Ok(true);
            }
        }
        Ok(false)
    }

    // Goes on with a node up to an event that receives a message whose send has no place yet.
    fn go_on(
        &mut self,
        log: &Log,
        sends: &[Link],
        receives: &ReceiveLinks,
        node: NodeId,
    ) -> Result<(), AllocError>
        requires numbered { All (IsNumbered (length sends.now)) log.now.events }
        requires links { AreSendLinks log.now.events (length log.now.events) sends.now }
        requires messages { length receives.now.firsts.items ≡ length sends.now }
        requires receives { AreReceivesLinked log.now.events 0 receives.now.firsts.items receives.now.next.items }
        requires placing { IsPlacing log.now.events self.old }
        requires room { length log.now.events ≤ vec_capacity self.old.order }
        requires node { node.0 < length self.old.fronts.items }
        requires others { AreTurnsBeside log.now.events self.old.fronts.items self.old.turns node }
        ensures placing { OnOk result (IsPlacing log.now.events self.new) }
        ensures turns { OnOk result (AreTurns log.now.events self.new.fronts.items self.new.turns) }
        ensures room { OnOk result (vec_capacity self.new.order ≡ vec_capacity self.old.order) }
        ensures grows { OnOk result (length self.old.order.items ≤ length self.new.order.items) }
        ensures stays { OnOk result (length self.new.order.items ≡ length self.old.order.items → self.new.turns ≡ self.old.turns) }
    {
        let front = node.0 as usize;
        while let Some(event) = self.fronts[front] {
            if !is_ready(log, sends, &self.fronts, event) {
                return Ok(());
            }
            wake(&mut self.turns, log, receives, &self.fronts, event)?;
            self.order.push_reserved(event);
            self.fronts[front] = self.next[event.0 as usize].event();
        }
        Ok(())
    }

    // The first of the events that have no place yet.
    pub(crate) fn first_waiting(&self) -> Option<EventId>
        ensures { LinksToFirstFront self.now.fronts.items (length self.now.fronts.items) result }
    {
        let mut first: Option<EventId> = None;
        for front in &self.fronts {
            first = earlier(first, *front);
        }
        first
    }

    // The order.
    pub(crate) fn into_order(self) -> Vec<EventId>
        ensures { result.items ≡ self.order.items }
    {
        let Placing {
            next: _,
            fronts: _,
            turns: _,
            order,
        } = self;
        order
    }
}

// As many nodes as the log names: one more than the greatest number of them.
fn nodes_of(log: &Log) -> u16
    requires { All (λ event. event.node.0 < MAX_LOG_NODES) log.now.events }
    ensures { AreNodesBelow log.now.events result }
{
    let mut nodes = 0;
    for place in 0..log.len() {
        let node = log.node_at(EventId(place));
        nodes = nodes.max(node.0 + 1);
    }
    nodes
}

// Gives a turn to each node that waits for what an event sends, if it sends something.
fn wake(
    turns: &mut Turns,
    log: &Log,
    receives: &ReceiveLinks,
    fronts: &[Option<EventId>],
    send: EventId,
) -> Result<(), AllocError>
    requires exists { send.0 < length log.now.events }
    requires numbered { All (IsNumbered (length receives.now.firsts.items)) log.now.events }
    requires receives { AreReceivesLinked log.now.events 0 receives.now.firsts.items receives.now.next.items }
    requires nodes { AreNodesBelow log.now.events (length fronts.now) }
    ensures woken { OnOk result ((e : ℕ) → SendsTo log.now.events send.0 e → IsWoken log.now.events fronts.now turns.new e) }
    ensures kept { OnOk result ((node : NodeId) → HasTurn turns.old node → HasTurn turns.new node) }
    ensures below { OnOk result ((node : NodeId) → HasTurn turns.new node → HasTurn turns.old node ⊎ (node.0 < length fronts.now)) }
{
    match log.kind_at(send) {
        LogKind::Send(message) => wake_receivers(turns, log, receives, fronts, message),
        _ => Ok(()),
    }
}

// Gives a turn to each node that goes on at an event which receives a message.
fn wake_receivers(
    turns: &mut Turns,
    log: &Log,
    receives: &ReceiveLinks,
    fronts: &[Option<EventId>],
    message: MessageId,
) -> Result<(), AllocError>
    requires message { message.0 < length receives.now.firsts.items }
    requires receives { AreReceivesLinked log.now.events 0 receives.now.firsts.items receives.now.next.items }
    requires nodes { AreNodesBelow log.now.events (length fronts.now) }
    ensures woken { OnOk result ((e : ℕ) → Receives log.now.events e message.0 → IsWoken log.now.events fronts.now turns.new e) }
    ensures kept { OnOk result ((node : NodeId) → HasTurn turns.old node → HasTurn turns.new node) }
    ensures below { OnOk result ((node : NodeId) → HasTurn turns.new node → HasTurn turns.old node ⊎ (node.0 < length fronts.now)) }
{
    let mut link = receives.firsts[message.0 as usize].event();
    while let Some(receive) = link {
        let node = log.node_at(receive);
        if goes_on_at(fronts, node, receive) {
            turns.give(node)?;
        }
        link = receives.next[receive.0 as usize].event();
    }
    Ok(())
}

// Whether a node goes on at an event.
fn goes_on_at(fronts: &[Option<EventId>], node: NodeId, event: EventId) -> bool
    requires { node.0 < length fronts.now }
    ensures { IsTrue result ↔ (link_at fronts.now node.0 ≡ Some event) }
{
    fronts[node.0 as usize] == Some(event)
}

// Whether what an event receives, if anything, has been sent by an event that has its place.
fn is_ready(log: &Log, sends: &[Link], fronts: &[Option<EventId>], event: EventId) -> bool
    requires exists { event.0 < length log.now.events }
    requires numbered { All (IsNumbered (length sends.now)) log.now.events }
    requires links { AreSendLinks log.now.events (length log.now.events) sends.now }
    requires nodes { AreNodesBelow log.now.events (length fronts.now) }
    ensures { MatchBool result (IsReady log.now.events fronts.now event.0) (IsBlocked log.now.events fronts.now event.0) }
{
    match log.kind_at(event) {
        LogKind::Receive(message) => match sends[message.0 as usize].event() {
            Some(send) => is_passed(log, fronts, send),
            None => true,
        },
        _ => true,
    }
}

// Whether an event has its place.
fn is_passed(log: &Log, fronts: &[Option<EventId>], event: EventId) -> bool
    requires exists { event.0 < length log.now.events }
    requires nodes { AreNodesBelow log.now.events (length fronts.now) }
    ensures { MatchBool result (IsPassed log.now.events fronts.now event.0) (¬ IsPassed log.now.events fronts.now event.0) }
{
    match fronts[log.node_at(event).0 as usize] {
        Some(front) => event.0 < front.0,
        None => true,
    }
}

// The earlier of two events, or the one that there is.
fn earlier(a: Option<EventId>, b: Option<EventId>) -> Option<EventId>
    ensures { result ≡ first_of a b }
{
    match (a, b) {
        (Some(a), Some(b)) => Some(if a.0 <= b.0 { a } else { b }),
        (Some(a), None) => Some(a),
        (None, b) => b,
    }
}
