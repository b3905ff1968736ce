// Links from messages to their sends.

ghost use Rattle.std.specs.Prelude.{◌≡◌, All, IfErr, IfOk, MatchResult, length};
ghost use Rattle.hlc_log.specs.Events.{IsNumbered};
ghost use Rattle.hlc_log.specs.Faults.{IsFaultOf};
ghost use Rattle.hlc_log.specs.Messages.{AreMessagesSound};
ghost use Rattle.hlc_log.specs.SendLinks.{AreSendLinks};

use crate::log::Log;
use crate::log_event::LogKind;
use crate::order_fault::OrderFault;
use hlc_pages::Link;
use hlc_stamp::EventId;
use std::alloc::Global;

// A link from each message to its send, if no message is sent twice.
pub(crate) fn sends_of(alloc: Global, log: &Log, messages: u32) -> Result<Vec<Link>, OrderFault>
    requires { All (IsNumbered messages) log.now.events }
    ensures len { IfOk result (λ sends. length sends.items ≡ messages) }
    ensures links { IfOk result (λ sends. AreSendLinks log.now.events (length log.now.events) sends.items) }
    ensures fault { IfErr result (IsFaultOf log.now.events) }
    ensures memory { AreMessagesSound log.now.events → IfErr result (λ fault. fault ≡ OrderFault.Memory) }
{
    let mut sends = vec![in alloc; Link::none(); messages as usize]?;
    for place in 0..log.len() {
        let event = EventId(place);
        if let LogKind::Send(message) = log.kind_at(event) {
            let message = message.0 as usize;
            if sends[message].event().is_some() {
                return Err(OrderFault::SentTwice(event));
            }
            sends[message] = Link::to(event);
        }
    }
    Ok(sends)
}

// Finds the first event that receives a message which nobody sends.
pub(crate) fn find_unsent(log: &Log, sends: &[Link]) -> Result<(), OrderFault>
    requires numbered { All (IsNumbered (length sends.now)) log.now.events }
    requires links { AreSendLinks log.now.events (length log.now.events) sends.now }
    ensures { MatchResult result (λ _. AreMessagesSound log.now.events) (IsFaultOf log.now.events) }
{
    for place in 0..log.len() {
        let event = EventId(place);
        if let LogKind::Receive(message) = log.kind_at(event) {
            if sends[message.0 as usize].event().is_none() {
                return Err(OrderFault::Unsent(event));
            }
        }
    }
    Ok(())
}
