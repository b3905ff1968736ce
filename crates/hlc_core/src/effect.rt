ghost use Rattle.std.specs.Prelude.{◌≡◌, ℕ, IfOk, IsOk, List};
ghost use Rattle.hlc_arena.specs.History.{delivered_send};
ghost use Rattle.hlc_causality.specs.Neighbours.{place_of};
ghost use Rattle.hlc_arena.specs.Kinds.{next_kind_of};
ghost use Rattle.hlc_core.specs.Effect.{HasNoList, effect_kind, writes_in};

use crate::node_table::NodeTable;
use hlc_arena::{Kind, NextKind};
use hlc_stamp::{EventId, NodeId};
use std::alloc::AllocError;

/// What an accepted request makes happen, over a key and a value that lie elsewhere.
#[derive(Clone, Copy)]
pub(crate) enum Effect<'a> {
    Write { key: &'a [u8], value: &'a [u8] },
    Erase { key: &'a [u8] },
    Send { to: NodeId, write: EventId },
    /// A send of all entries of the node.
    Sync { to: NodeId },
    Deliver { sent: EventId },
    /// A delivery by a pull, which ends its message.
    Pull { sent: EventId },
}

impl<'a> Effect<'a> {
    /// The send of the message that is delivered, if one is.
    pub(crate) fn delivered(self) -> Option<EventId>
        ensures { (entries : List ℕ) → delivered_send (effect_kind entries self.entry) ≡ place_of result }
    {
        match self {
            Effect::Deliver { sent } | Effect::Pull { sent } => Some(sent),
            _ => None,
        }
    }

    /// The kind of the event at the node of this table, with the list of the writes of all entries if it is a sync.
    pub(crate) fn kind(self, table: &mut NodeTable) -> Result<NextKind<'a>, AllocError>
        ensures kind { IfOk result (λ kind. next_kind_of kind ≡ effect_kind (writes_in table.old) self.entry) }
        ensures no_list { HasNoList self.entry → IsOk result }
        ensures unchanged { table.new ≡ table.old }
    {
        match self {
            Effect::Write { key, value } => Ok(Kind::Write { key, value }),
            Effect::Erase { key } => Ok(Kind::Erase { key }),
            Effect::Send { to, write } => Ok(Kind::Send { to, write }),
            Effect::Sync { to } => Ok(Kind::Sync {
                to,
                writes: table.writes()?,
            }),
            Effect::Deliver { sent } | Effect::Pull { sent } => Ok(Kind::Deliver { sent }),
        }
    }
}
