ghost use Rattle.std.specs.Prelude.{◌≡◌, ◌<◌, IfOk, OnErr, OnOk};
ghost use Rattle.hlc_watch.specs.Kept.{receive_count};
ghost use Rattle.hlc_watch.specs.Watching.{after_event, after_records, event_of, event_told, no_log, waited_of, waited_told, without_send};

use crate::message_role::MessageRole;
use crate::messages::Messages;
use crate::records::{Claimed, Records};
use crate::ruled_event::RuledEvent;
use hlc_stamp::NodeId;
use std::alloc::{AllocError, Global};
use std::hash::BuildHasher;
use std::marker::Model;

// As many nodes as a `NodeId` can name.
const NODES: usize = 65_536;

/// What is kept of a log whose events come one after another, so that the records which tell an event's causes are there as soon as the last of
/// the three has come.
///
/// The events of a node come in their order; those of different nodes in any, so that a receive may come before its send: then it waits for that.
/// It keeps the last stamp of each node, which takes 2 MB whatever the number of nodes; of so many messages what their sends claim, by their names; and
/// so many receives that wait. So its memory doesn't grow with the log.
#[derive(Drop)]
pub struct Watch<S: BuildHasher> {
    // By the number of a node, what the record of its last event claims.
    last: Vec<Option<Claimed>>,
    messages: Messages<S>,
}

impl<S: BuildHasher> Model for Watch<S> {
    ghost use Rattle.hlc_watch.specs.Watching.{KeptLog};

    ghost Value = { KeptLog };

    ghost view = { λ watch. record { last = watch.last.items; messages = watch.messages } };

    ghost use Rattle.std.specs.Prelude.{◌≡◌, length};

    ghost invariant = { λ watch. length watch.last.items ≡ 65536 };
}

/// The events of which all three records are there, now that one more event has come.
#[derive(Drop)]
pub struct Complete {
    /// The event that came, unless it waits.
    pub event: Option<Records>,
    /// Those which waited for it, in the order in which they came.
    pub waited: Vec<Records>,
}

impl<S: BuildHasher + Drop> Watch<S> {
    /// Nothing has come. So many messages are remembered, the latest, and so many receives may wait. The names of messages are hashed so: where they
    /// come from strangers, by a key that these don't know.
    ///
    /// A message is the later, the later it was sent; one that is sent again, while it is remembered, stays as late as it was. If as many receives wait
    /// as are kept and one more does, then those are forgotten which wait for the message that has been received the longest ago.
    pub fn new(alloc: Global, keep: u32, hash_builder: S) -> Result<Watch<S>, AllocError>
    where
        S: Copy,
        requires { 0 < keep }
        ensures { IfOk result (λ watch. watch ≡ no_log keep) }
    {
        Ok(Watch {
            last: vec![in alloc; None; NODES]?,
            messages: Messages::new(alloc, keep, hash_builder)?,
        })
    }

    /// An event comes, with the name of the message that it sends or receives: if it does neither, that is not looked at. The events that are complete
    /// now take the place of those in `complete`. Where memory is refused, nothing changes but these, and it can come again.
    ///
    /// It takes constant time, but for each receive that waited for it.
    pub fn event(
        &mut self,
        event: &RuledEvent,
        message: &[u8],
        complete: &mut Complete,
    ) -> Result<(), AllocError>
        ensures event { OnOk result (complete.new.event ≡ event_of self.old event.now message.now) }
        ensures waited { OnOk result (complete.new.waited.items ≡ waited_of self.old event.now message.now) }
        ensures kept { OnOk result (self.new ≡ after_event self.old event.now message.now) }
        ensures unchanged { OnErr result (self.new ≡ self.old) }
    {
        let node = event.node.0 as usize;
        let previous = self.last[node];
        take_message(&mut self.messages, event, previous, message, complete)?;
        self.last[node] = Some(event.claimed());
        Ok(())
    }

    /// How many receives wait for their sends.
    pub fn waiting(&self) -> u32
        ensures { result ≡ receive_count self.now.messages.awaited }
    {
        self.messages.waiting()
    }

    /// How many receives waited and were forgotten, so that they have no causes; or the greatest number, if there were more.
    pub fn forgotten(&self) -> u64
        ensures { result ≡ self.now.messages.forgotten }
    {
        self.messages.forgotten()
    }
}

// An event as a receive that waits has it, and each that receives nothing.
fn without_send(event: &RuledEvent, previous: Option<Claimed>) -> Records
    ensures { result ≡ without_send event.now previous }
{
    Records {
        event: *event,
        previous,
        send: None,
    }
}

// Gives the events that are complete, now that one has come.
fn take_message<S: BuildHasher + Drop>(
    messages: &mut Messages<S>,
    event: &RuledEvent,
    previous: Option<Claimed>,
    message: &[u8],
    complete: &mut Complete,
) -> Result<(), AllocError>
    ensures event { OnOk result (complete.new.event ≡ event_told messages.old (without_send event.now previous) event.now.role message.now) }
    ensures waited { OnOk result (complete.new.waited.items ≡ waited_told messages.old (without_send event.now previous) event.now.role message.now) }
    ensures kept { OnOk result (messages.new ≡ after_records messages.old (without_send event.now previous) message.now) }
    ensures unchanged { OnErr result (messages.new ≡ messages.old) }
{
    match event.role {
        MessageRole::Send => {
            complete.waited = messages.send(message, event.claimed())?;
            complete.event = Some(without_send(event, previous));
        }
        MessageRole::Receive => {
            complete.waited.clear();
            match messages.find(message) {
                Some(send) => {
                    complete.event = Some(Records {
                        event: *event,
                        previous,
                        send: Some(send),
                    });
                }
                None => {
                    messages.wait(message, without_send(event, previous))?;
                    complete.event = None;
                }
            }
        }
        MessageRole::Local => {
            complete.waited.clear();
            complete.event = Some(without_send(event, previous));
        }
    }
    Ok(())
}
