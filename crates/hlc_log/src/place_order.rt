// A causal order of a log whose events stand as it tells of them.

ghost use Rattle.std.specs.Prelude.{◌≡◌, All, IfErr, IfOk, OnOk, length};
ghost use Rattle.hlc_stamp.specs.Ids.{places_of};
ghost use Rattle.hlc_log.specs.CausalOrder.{IsCausalOrder};
ghost use Rattle.hlc_log.specs.Events.{IsNumbered};
ghost use Rattle.hlc_log.specs.Faults.{IsFaultOf};
ghost use Rattle.hlc_log.specs.Messages.{AreMessagesSound};
ghost use Rattle.hlc_log.specs.Parted.{IsGreatestPrefix};
ghost use Rattle.hlc_log.specs.Placing.{AreAllBlocked, IsPlacing};
ghost use Rattle.hlc_log.specs.SendLinks.{AreSendLinks};
ghost use Rattle.hlc_log.specs.Standing.{SeqsRise};

use crate::log::Log;
use crate::logged_order::{logged_order, sends_come_first};
use crate::order_fault::OrderFault;
use crate::placing::Placing;
use crate::receive_links::ReceiveLinks;
use crate::sends::{find_unsent, sends_of};
use hlc_pages::Link;
use hlc_stamp::EventId;
use std::alloc::{AllocError, Global};

// Such an order, as `causal_order` describes it.
pub(crate) fn place_order(
    alloc: Global,
    log: &Log,
    messages: u32,
) -> Result<Vec<EventId>, OrderFault>
    requires numbered { All (IsNumbered messages) log.now.events }
    requires rise { SeqsRise log.now.events }
    ensures order { IfOk result (λ order. IsCausalOrder log.now.events (places_of order.items)) }
    ensures sound { OnOk result (AreMessagesSound log.now.events) }
    ensures fault { IfErr result (IsFaultOf log.now.events) }
{
    let sends = sends_of(alloc, log, messages)?;
    if sends_come_first(log, &sends) {
        return Ok(logged_order(alloc, log.len())?);
    }
    find_unsent(log, &sends)?;
    let placing = placed(alloc, log, &sends, messages)?;
    match placing.first_waiting() {
        None => Ok(placing.into_order()),
        Some(first) => Err(OrderFault::Cycle(first)),
    }
}

// As many of the events as have a place in such an order, in one.
pub(crate) fn place_most(
    alloc: Global,
    log: &Log,
    messages: u32,
) -> Result<Vec<EventId>, OrderFault>
    requires numbered { All (IsNumbered messages) log.now.events }
    requires rise { SeqsRise log.now.events }
    requires sound { AreMessagesSound log.now.events }
    ensures order { IfOk result (λ order. IsGreatestPrefix log.now.events (places_of order.items)) }
    ensures memory { IfErr result (λ fault. fault ≡ OrderFault.Memory) }
{
    let sends = sends_of(alloc, log, messages)?;
    let placing = placed(alloc, log, &sends, messages)?;
    Ok(placing.into_order())
}

// Places events until no node can go on.
fn placed(alloc: Global, log: &Log, sends: &[Link], messages: u32) -> Result<Placing, AllocError>
    requires numbered { All (IsNumbered messages) log.now.events }
    requires rise { SeqsRise log.now.events }
    requires len { length sends.now ≡ messages }
    requires links { AreSendLinks log.now.events (length log.now.events) sends.now }
    ensures placing { IfOk result (IsPlacing log.now.events) }
    ensures stuck { IfOk result (λ placing. AreAllBlocked log.now.events placing.fronts.items) }
{
    let receives = ReceiveLinks::new(alloc, log, messages)?;
    let mut placing = Placing::new(alloc, log)?;
    placing.place_all(log, sends, &receives)?;
    Ok(placing)
}
