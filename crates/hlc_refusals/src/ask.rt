use hlc_core::Action;
use hlc_stamp::{EventId, NodeId};
use std::alloc::{AllocError, Global};

/// An action, as a table of calls has it.
#[derive(Clone, Copy, Debug)]
pub(crate) enum Ask {
    Write(&'static str, &'static str),
    Erase(&'static str),
    Send(u16, &'static str),
    Sync(u16),
    Deliver(u32),
    Pull(&'static str, &'static str),
}

fn bytes(alloc: Global, text: &str) -> Result<Vec<u8>, AllocError> {
    text.as_bytes().to_vec(alloc)
}

// A key and a value.
fn pair(alloc: Global, key: &str, value: &str) -> Result<(Vec<u8>, Vec<u8>), AllocError> {
    let key = bytes(alloc, key)?;
    let value = bytes(alloc, value)?;
    Ok((key, value))
}

impl Ask {
    /// The action with a key and a value of its own.
    pub(crate) fn action(self, alloc: Global) -> Result<Action, AllocError> {
        Ok(match self {
            Ask::Write(key, value) => {
                let (key, value) = pair(alloc, key, value)?;
                Action::Write { key, value }
            }
            Ask::Erase(key) => Action::Erase {
                key: bytes(alloc, key)?,
            },
            Ask::Send(to, key) => Action::Send {
                to: NodeId(to),
                key: bytes(alloc, key)?,
            },
            Ask::Sync(to) => Action::Sync { to: NodeId(to) },
            Ask::Deliver(sent) => Action::Deliver {
                sent: EventId(sent),
            },
            Ask::Pull(key, value) => {
                let (key, value) = pair(alloc, key, value)?;
                Action::DeliverOrWrite { key, value }
            }
        })
    }
}
