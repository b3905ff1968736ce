// What tests ask.

use hlc_core::Action;
use hlc_stamp::{EventId, NodeId};
use std::alloc::Global;
use std::process::Abort;

// An action, as a table has it.
#[derive(Clone, Copy)]
pub(crate) enum Ask {
    Write(&'static str, &'static str),
    Erase(&'static str),
    Send(u16, &'static str),
    Sync(u16),
    Deliver(u32),
    Pull(&'static str, &'static str),
}

pub(crate) fn action_of(rt: &impl Abort, alloc: Global, ask: Ask) -> Action {
    match ask {
        Ask::Write(key, value) => Action::Write {
            key: bytes(rt, alloc, key),
            value: bytes(rt, alloc, value),
        },
        Ask::Erase(key) => Action::Erase {
            key: bytes(rt, alloc, key),
        },
        Ask::Send(to, key) => Action::Send {
            to: NodeId(to),
            key: bytes(rt, alloc, key),
        },
        Ask::Sync(to) => Action::Sync { to: NodeId(to) },
        Ask::Deliver(sent) => Action::Deliver {
            sent: EventId(sent),
        },
        Ask::Pull(key, value) => Action::DeliverOrWrite {
            key: bytes(rt, alloc, key),
            value: bytes(rt, alloc, value),
        },
    }
}

pub(crate) fn bytes(rt: &impl Abort, alloc: Global, text: &str) -> Vec<u8> {
    text.as_bytes().to_vec(alloc).expect(rt, "bytes")
}
