// Where a log keeps an event.

ghost use Rattle.std.specs.Prelude.{◌≡◌, false, length, true};
ghost use Rattle.hlc_log.specs.Events.{IsMessageBelow, of_kind, with_stamp};
ghost use Rattle.hlc_log.specs.Slots.{aside_of, kind_by, stored_event, tells_reading, tells_stamp};
ghost use Rattle.hlc_log.specs.Unsent.{is_unmarked};

use crate::asides::Aside;
use crate::log_event::{LogEvent, LogKind};
use crate::message_id::MessageId;
use hlc_stamp::{NodeId, Stamp};

// What an event does with its message.
#[derive(Clone, Copy)]
pub(crate) enum Role {
    // It has none.
    Local,
    Send,
    Receive,
    // It has none either.
    Restart,
    // Nor has it one that the log sends.
    Outside,
}

// What the log tells of an event.
#[derive(Clone, Copy)]
pub(crate) enum Told {
    // What the clock read, and the stamp.
    Both,
    Reading,
    Stamp,
    Neither,
}

impl Told {
    // Of an event whose reading is told or isn't, and so its stamp.
    fn new(has_reading: bool, has_stamp: bool) -> Told
        ensures reading { tells_reading result ≡ has_reading }
        ensures stamp { tells_stamp result ≡ has_stamp }
    {
        match (has_reading, has_stamp) {
            (true, true) => Told::Both,
            (true, false) => Told::Reading,
            (false, true) => Told::Stamp,
            (false, false) => Told::Neither,
        }
    }

    // Whether the reading is told.
    pub(crate) fn has_reading(self) -> bool
        ensures { result ≡ tells_reading self }
    {
        match self {
            Told::Both | Told::Reading => true,
            Told::Stamp | Told::Neither => false,
        }
    }

    // Whether the stamp is told.
    pub(crate) fn has_stamp(self) -> bool
        ensures { result ≡ tells_stamp self }
    {
        match self {
            Told::Both | Told::Stamp => true,
            Told::Reading | Told::Neither => false,
        }
    }
}

// What an event of a kind does with its message, and the message, whatever it is if there is none.
fn stored_kind(kind: LogKind) -> (Role, MessageId)
    ensures { kind_by result.0 result.1 ≡ kind }
{
    match kind {
        LogKind::Local => (Role::Local, MessageId(0)),
        LogKind::Send(message) => (Role::Send, message),
        LogKind::Receive(message) => (Role::Receive, message),
        LogKind::Restart => (Role::Restart, MessageId(0)),
        LogKind::Outside => (Role::Outside, MessageId(0)),
    }
}

// An event in 32 bytes, without what few logs tell, which is kept aside. A `LogEvent` takes 88.
#[derive(Clone, Copy)]
pub(crate) struct Slot {
    pub(crate) reading: u64,
    pub(crate) l: u64,
    pub(crate) c: u32,
    pub(crate) line: u32,
    // Of an event without a message, whatever it is.
    pub(crate) message: MessageId,
    pub(crate) node: NodeId,
    pub(crate) role: Role,
    pub(crate) told: Told,
}

const _: () = prove!(size_of::<Slot>() == 32);

impl Slot {
    // The slot of an event. What its message carried, and its seq, aren't kept in it.
    pub(crate) fn new(event: LogEvent) -> Slot
        ensures { stored_event (aside_of event) result ≡ event }
    {
        let (role, message) = stored_kind(event.kind);
        Slot {
            reading: event.reading,
            l: event.stamp.l,
            c: event.stamp.c,
            line: event.line,
            message,
            node: event.node,
            role,
            told: Told::new(event.has_reading, event.has_stamp),
        }
    }

    // The event, with what is told of it aside.
    #[inline]
    pub(crate) fn event(&self, aside: Aside) -> LogEvent
        ensures { result ≡ stored_event aside self.now }
    {
        LogEvent {
            node: self.node,
            reading: self.reading,
            has_reading: self.told.has_reading(),
            kind: self.kind(),
            stamp: self.stamp(),
            has_stamp: self.told.has_stamp(),
            carried: aside.carried,
            seq: aside.seq,
            line: self.line,
        }
    }

    // What the event is.
    #[inline]
    pub(crate) fn kind(&self) -> LogKind
        ensures { result ≡ kind_by self.now.role self.now.message }
    {
        match self.role {
            Role::Local => LogKind::Local,
            Role::Send => LogKind::Send(self.message),
            Role::Receive => LogKind::Receive(self.message),
            Role::Restart => LogKind::Restart,
            Role::Outside => LogKind::Outside,
        }
    }

    // The stamp that the log claims for the event.
    #[inline]
    pub(crate) fn stamp(&self) -> Stamp
        ensures { result ≡ record { l = self.now.l; c = self.now.c } }
    {
        Stamp {
            l: self.l,
            c: self.c,
        }
    }

    // Gives the event a stamp.
    pub(crate) fn give_stamp(&mut self, stamp: Stamp)
        ensures { (aside : Aside) → stored_event aside self.new ≡ with_stamp stamp (stored_event aside self.old) }
    {
        self.l = stamp.l;
        self.c = stamp.c;
    }

    // Makes it an event of a kind.
    pub(crate) fn take_as(&mut self, kind: LogKind)
        ensures { (aside : Aside) → stored_event aside self.new ≡ of_kind kind (stored_event aside self.old) }
    {
        let (role, message) = stored_kind(kind);
        self.role = role;
        self.message = message;
    }

    // Makes it an event with this role, if it receives a message that has no mark; answers whether it did.
    pub(crate) fn take_unmarked(&mut self, sent: &[bool], role: Role) -> bool
        requires { IsMessageBelow (length sent.now) (kind_by self.old.role self.old.message) }
        ensures value { result ≡ is_unmarked sent.now (kind_by self.old.role self.old.message) }
        ensures taken { result ≡ true → self.new ≡ record self.old { role = role } }
        ensures left { result ≡ false → self.new ≡ self.old }
    {
        match self.role {
            Role::Receive if !sent[self.message.0 as usize] => {
                self.role = role;
                true
            }
            _ => false,
        }
    }
}
