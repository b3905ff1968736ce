ghost use Rattle.std.specs.Prelude.{◌≡◌, ◌<◌, All, IfErr, IfOk, MatchResult, OnOk, length, map};
ghost use Rattle.hlc_stamp.specs.Ids.{places_of};
ghost use Rattle.hlc_log.specs.CausalOrder.{IsCausalOrder, place_at};
ghost use Rattle.hlc_log.specs.Events.{IsNumbered};
ghost use Rattle.hlc_log.specs.Faults.{IsFaultOf};
ghost use Rattle.hlc_log.specs.Messages.{AreMessagesSound};
ghost use Rattle.hlc_log.specs.Parted.{IsGreatestPrefix};

use crate::log::Log;
use crate::order_fault::OrderFault;
use crate::place_order::{place_most, place_order};
use crate::sends::{find_unsent, sends_of};
use crate::standing_order::standing_order;
use hlc_stamp::EventId;
use std::alloc::{AllocError, Global};

/// An order in which the events of a log can have happened: each node's events as they stand, by their seqs and then by their lines, and each
/// send before what receives it. Events are named by their places in the log.
///
/// Messages have numbers below `messages`. It takes 8 bytes of memory for each event and 4 for each message. A log that tells of each
/// send before what receives it keeps its own order. Else it goes round the nodes, in the order of their numbers, and on with each as far as
/// it can: up to a receive whose send has no place yet. Such a node has no turn until the send gets its place; then it has one in
/// this round, unless that is past it, or else in the next. This takes 4 more bytes for each event and each message and some 12 for each node, and time linear
/// in all of them but for the turns, each of which costs the logarithm of their number.
///
/// If the log tells seqs, its events are sorted, and copied in the order in which they stand; then it goes so over the copy. For a while this takes 20 bytes
/// more for each event, and what the copy takes.
pub fn causal_order(alloc: Global, log: &Log, messages: u32) -> Result<Vec<EventId>, OrderFault>
    requires { All (IsNumbered messages) log.now.events }
    ensures order { IfOk result (λ order. IsCausalOrder log.now.events (places_of order.items)) }
    ensures sound { OnOk result (AreMessagesSound log.now.events) }

    // A log of which a fault other than Memory is true has no such order: the law `faults_leave_no_order`.
    ensures fault { IfErr result (IsFaultOf log.now.events) }
{
    if !log.tells_seqs() {
        return place_order(alloc, log, messages);
    }
    check_messages(alloc, log, messages)?;
    order_by_seq(alloc, log, messages)
}

// Such an order of a log that tells seqs, found on a copy of it in the order in which its events stand.
fn order_by_seq(alloc: Global, log: &Log, messages: u32) -> Result<Vec<EventId>, OrderFault>
    requires numbered { All (IsNumbered messages) log.now.events }
    requires sound { AreMessagesSound log.now.events }
    ensures order { IfOk result (λ order. IsCausalOrder log.now.events (places_of order.items)) }
    ensures fault { IfErr result (IsFaultOf log.now.events) }
{
    let _few = log.len();
    let standing = standing_order(alloc, log)?;
    let arranged = log.arranged(alloc, &standing)?;
    match place_order(alloc, &arranged, messages) {
        Ok(order) => Ok(places_in(alloc, &standing, &order)?),
        Err(fault) => match fault {
            OrderFault::Cycle(first) => Err(OrderFault::Cycle(standing[first.0 as usize])),
            _ => Err(fault),
        },
    }
}

// As many of the events of a log as have a place in some causal order, in one.
pub(crate) fn greatest_prefix(
    alloc: Global,
    log: &Log,
    messages: u32,
) -> Result<Vec<EventId>, OrderFault>
    requires numbered { All (IsNumbered messages) log.now.events }
    requires sound { AreMessagesSound log.now.events }
    ensures order { IfOk result (λ order. IsGreatestPrefix log.now.events (places_of order.items)) }
    ensures memory { IfErr result (λ fault. fault ≡ OrderFault.Memory) }
{
    if !log.tells_seqs() {
        return place_most(alloc, log, messages);
    }
    prefix_by_seq(alloc, log, messages)
}

// The same of a log that tells seqs, found on a copy of it in the order in which its events stand.
fn prefix_by_seq(alloc: Global, log: &Log, messages: u32) -> Result<Vec<EventId>, OrderFault>
    requires numbered { All (IsNumbered messages) log.now.events }
    requires sound { AreMessagesSound log.now.events }
    ensures order { IfOk result (λ order. IsGreatestPrefix log.now.events (places_of order.items)) }
    ensures memory { IfErr result (λ fault. fault ≡ OrderFault.Memory) }
{
    let _few = log.len();
    let standing = standing_order(alloc, log)?;
    let arranged = log.arranged(alloc, &standing)?;
    let order = place_most(alloc, &arranged, messages)?;
    Ok(places_in(alloc, &standing, &order)?)
}

// Finds a message that is sent twice, or else one that is received and isn't sent.
fn check_messages(alloc: Global, log: &Log, messages: u32) -> Result<(), OrderFault>
    requires { All (IsNumbered messages) log.now.events }
    ensures { MatchResult result (λ _. AreMessagesSound log.now.events) (IsFaultOf log.now.events) }
{
    let sends = sends_of(alloc, log, messages)?;
    find_unsent(log, &sends)
}

// The places at these positions of a list.
fn places_in(
    alloc: Global,
    standing: &[EventId],
    order: &[EventId],
) -> Result<Vec<EventId>, AllocError>
    requires { All (λ position. position.0 < length standing.now) order.now }
    ensures { IfOk result (λ places. places_of places.items ≡ map (place_at (places_of standing.now)) (places_of order.now)) }
{
    let mut places = Vec::with_capacity(alloc, order.len())?;
    for position in order {
        places.push_reserved(standing[position.0 as usize]);
    }
    Ok(places)
}
