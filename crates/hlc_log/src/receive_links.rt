// Links from messages to the events that receive them.

ghost use Rattle.std.specs.Prelude.{◌≡◌, All, IfOk, length};
ghost use Rattle.hlc_log.specs.Events.{IsNumbered};
ghost use Rattle.hlc_log.specs.ReceiveLinks.{AreReceivesLinked};

use crate::log::Log;
use crate::log_event::LogKind;
use hlc_pages::Link;
use hlc_stamp::EventId;
use std::alloc::{AllocError, Global};

// Of each message, the events that receive it, as they stand in the log.
#[derive(Drop)]
pub(crate) struct ReceiveLinks {
    // Of each message, the first of them.
    pub(crate) firsts: Vec<Link>,
    // Of each of them, the next.
    pub(crate) next: Vec<Link>,
}

impl ReceiveLinks {
    // The links from messages with numbers below `messages`.
    pub(crate) fn new(alloc: Global, log: &Log, messages: u32) -> Result<ReceiveLinks, AllocError>
        requires { All (IsNumbered messages) log.now.events }
        ensures messages { IfOk result (λ links. length links.firsts.items ≡ messages) }
        ensures linked { IfOk result (λ links. AreReceivesLinked log.now.events 0 links.firsts.items links.next.items) }
    {
        let firsts = vec![in alloc; Link::none(); messages as usize]?;
        let next = vec![in alloc; Link::none(); log.len() as usize]?;
        let mut links = ReceiveLinks { firsts, next };
        links.link_all(log);
        Ok(links)
    }

    // Links the receives of a log, of which none is linked yet.
    fn link_all(&mut self, log: &Log)
        requires numbered { All (IsNumbered (length self.old.firsts.items)) log.now.events }
        requires none { AreReceivesLinked log.now.events (length log.now.events) self.old.firsts.items self.old.next.items }
        ensures messages { length self.new.firsts.items ≡ length self.old.firsts.items }
        ensures linked { AreReceivesLinked log.now.events 0 self.new.firsts.items self.new.next.items }
    {
        for place in (0..log.len()).rev() {
            let event = EventId(place);
            if let LogKind::Receive(message) = log.kind_at(event) {
                let message = message.0 as usize;
                self.next[place as usize] = self.firsts[message];
                self.firsts[message] = Link::to(event);
            }
        }
    }
}
