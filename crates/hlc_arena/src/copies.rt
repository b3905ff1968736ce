// Copies of a history.

ghost use Rattle.std.specs.Prelude.{◌≡◌, IfOk};
ghost use Rattle.hlc_arena.specs.Arena.{history_of};
ghost use Rattle.hlc_arena.specs.Stored.{places_in};

use crate::arena::Arena;
use hlc_pages::Pages;
use hlc_stamp::EventId;
use std::alloc::{AllocError, Global};
use std::sync::ArcSlice;

impl Arena {
    /// An equal history in memory of its own, but for the lists of syncs, which never change and are shared. It takes time linear in
    /// the history and in the bytes of its keys and values.
    pub fn copy(&self, alloc: Global) -> Result<Arena, AllocError>
        ensures { IfOk result (λ copy. history_of copy ≡ history_of self.now) }
    {
        Ok(Arena {
            capacity: self.capacity,
            kinds: self.kinds.copy(alloc)?,
            bytes: self.bytes.copy(alloc)?,
            lists: share(alloc, &self.lists)?,
            // It has the most parts, so it is copied last.
            execution: self.execution.copy(alloc)?,
        })
    }
}

// The same lists, shared, in pages of their own.
fn share(
    alloc: Global,
    lists: &Pages<ArcSlice<EventId>>,
) -> Result<Pages<ArcSlice<EventId>>, AllocError>
    ensures { IfOk result (λ shared. places_in shared.items ≡ places_in lists.now.items) }
{
    let mut shared = Pages::new(alloc);
    for place in 0..lists.len() {
        shared.reserve()?;
        shared.push_reserved(lists.at(place).clone()?);
    }
    Ok(shared)
}
