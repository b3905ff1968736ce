// What happened at an event, as an arena keeps it.

ghost use Rattle.std.specs.Prelude.{◌≡◌, ◌+◌, ◌<◌, ◌≤◌, ◌++◌, List, ℕ, length};
ghost use Rattle.hlc_arena.specs.Arena.{IsSized};
ghost use Rattle.hlc_arena.specs.Kinds.{next_kind_of};
ghost use Rattle.hlc_arena.specs.Stored.{IsStored, kind_in, places_in};
ghost use Rattle.hlc_pages.specs.Log.{Extends};

use crate::kind::{Kind, NextKind};
use hlc_pages::{ByteLog, Pages, Span};
use hlc_stamp::{EventId, MAX_CAPACITY, NodeId};
use std::sync::ArcSlice;

// What happened at an event, as it is kept: where its key, its value and its list of writes lie.
#[derive(Clone, Copy)]
pub(crate) enum StoredKind {
    Write(Span),
    Erase(Span),
    Send { to: NodeId, write: EventId },
    Sync { to: NodeId, list: u32 },
    Deliver { sent: EventId },
}

const _: () = prove!(size_of::<StoredKind>() == 16);

// Keeps what happens at an event, for which there is room.
pub(crate) fn store(
    bytes: &mut ByteLog,
    lists: &mut Pages<ArcSlice<EventId>>,
    kind: NextKind<'_>,
) -> StoredKind
    requires bytes { 0 < bytes.old.room }
    requires lists { 0 < lists.old.room }
    requires few { length lists.old.items < MAX_CAPACITY }
    requires sized { IsSized (next_kind_of kind) }
    ensures kind { kind_in bytes.new.pages (places_in lists.new.items) result ≡ next_kind_of kind.entry }
    ensures stored { IsStored bytes.new.pages (places_in lists.new.items) result }
    ensures extends { Extends bytes.old.pages bytes.new.pages }
    ensures more { (more : List (List ℕ)) × (places_in lists.new.items ≡ places_in lists.old.items ++ more) × (length more ≤ 1) }
    ensures bytes_room { bytes.old.room ≤ bytes.new.room + 1 }
    ensures lists_room { lists.old.room ≤ lists.new.room + 1 }
{
    match kind {
        Kind::Write { key, value } => StoredKind::Write(bytes.push_reserved(key, value)),
        Kind::Erase { key } => StoredKind::Erase(bytes.push_reserved(key, &[])),
        Kind::Send { to, write } => StoredKind::Send { to, write },
        Kind::Sync { to, writes } => {
            let list = lists.len() as u32;
            lists.push_reserved(writes);
            StoredKind::Sync { to, list }
        }
        Kind::Deliver { sent } => StoredKind::Deliver { sent },
    }
}
