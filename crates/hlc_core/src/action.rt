ghost use Rattle.std.specs.Prelude.{◌≡◌, IfOk, IsOk};
ghost use Rattle.hlc_core.specs.Request.{NamesNoKey, request_of, request_of_ref};

use hlc_stamp::{EventId, NodeId};
use std::alloc::{AllocError, Global};

/// What a node is asked to do, over keys and values that are bytes of its own unless `B` says otherwise.
#[derive(Debug, Drop)]
pub enum Action<B = Vec<u8>> {
    /// Write a value under a key.
    Write {
        /// The key, 1 to 256 bytes.
        key: B,
        /// The value, at most 4,096 bytes.
        value: B,
    },
    /// Erase a key. Its entry stays, as one without a value.
    Erase {
        /// The key, 1 to 256 bytes.
        key: B,
    },
    /// Send the node's entry of a key to another node, in a message.
    Send {
        /// The target.
        to: NodeId,
        /// The key, 1 to 256 bytes.
        key: B,
    },
    /// Send all entries of the node to another node, in one message: each with the write that it has now.
    Sync {
        /// The target.
        to: NodeId,
    },
    /// Deliver a live message that is addressed to the node. The message stays live.
    Deliver {
        /// The send of the message.
        sent: EventId,
    },
    /// Pull: deliver the oldest live message that is addressed to the node and end it, or write if there is none.
    /// The sizes are checked in either case.
    DeliverOrWrite {
        /// The key, 1 to 256 bytes.
        key: B,
        /// The value, at most 4,096 bytes.
        value: B,
    },
}

// Only what lies elsewhere is copied: an action with a key of its own has `copy`.
impl<B: Copy> Clone for Action<B> {
    fn clone(&self) -> Result<Action<B>, AllocError> {
        Ok(*self)
    }
}

impl<B: Copy> Copy for Action<B> {}

/// What a node is asked to do, over keys and values that lie elsewhere.
pub type ActionRef<'a> = Action<&'a [u8]>;

impl Action {
    /// The same action over this one's key and value.
    pub fn as_ref(&self) -> ActionRef<'_>
        ensures { request_of_ref result ≡ request_of self.now }
    {
        match self {
            Action::Write { key, value } => ActionRef::Write { key, value },
            Action::Erase { key } => ActionRef::Erase { key },
            Action::Send { to, key } => ActionRef::Send { to: *to, key },
            Action::Sync { to } => ActionRef::Sync { to: *to },
            Action::Deliver { sent } => ActionRef::Deliver { sent: *sent },
            Action::DeliverOrWrite { key, value } => ActionRef::DeliverOrWrite { key, value },
        }
    }

    /// The same action with a key and a value of its own. If it has neither, it takes no memory.
    pub fn copy(&self, alloc: Global) -> Result<Action, AllocError>
        ensures ok { IfOk result (λ copy. request_of copy ≡ request_of self.now) }
        ensures no_key { NamesNoKey (request_of self.now) → IsOk result }
    {
        match self {
            Action::Write { key, value } => Ok(Action::Write {
                key: Vec::from_slice(alloc, key)?,
                value: Vec::from_slice(alloc, value)?,
            }),
            Action::Erase { key } => Ok(Action::Erase {
                key: Vec::from_slice(alloc, key)?,
            }),
            Action::Send { to, key } => Ok(Action::Send {
                to: *to,
                key: Vec::from_slice(alloc, key)?,
            }),
            Action::Sync { to } => Ok(Action::Sync { to: *to }),
            Action::Deliver { sent } => Ok(Action::Deliver { sent: *sent }),
            Action::DeliverOrWrite { key, value } => Ok(Action::DeliverOrWrite {
                key: Vec::from_slice(alloc, key)?,
                value: Vec::from_slice(alloc, value)?,
            }),
        }
    }
}
