ghost use Rattle.std.specs.Prelude.{◌≡◌, IfOk, option_map};
ghost use Rattle.hlc_arena.specs.History.{event_at};
ghost use Rattle.hlc_arena.specs.Known.{value_of};
ghost use Rattle.hlc_held.specs.LogEntry.{sight_of};

use hlc_arena::Arena;
use hlc_stamp::EventId;
use hlc_table::Entry;
use std::alloc::{AllocError, Global};

/// What a look at a key shows: its entry, and the value of the write.
#[derive(Debug, Drop)]
pub struct Seen {
    /// The entry: the write and its rank.
    pub entry: Entry,
    /// The value, or `None` if the write erased the key.
    pub value: Option<Vec<u8>>,
}

impl Seen {
    /// What a look at an entry shows.
    pub fn of(alloc: Global, history: &Arena, entry: Entry) -> Result<Seen, AllocError>
        ensures { IfOk result (λ seen.
            sight_of seen ≡ record { entry = entry; value = value_of (event_at history.now.events entry.write.0).kind }) }
    {
        let value = match value_written(history, entry.write) {
            Some(value) => Some(value.to_vec(alloc)?),
            None => None,
        };
        Ok(Seen { entry, value })
    }

    /// The same, with bytes of its own.
    pub fn copy(&self, alloc: Global) -> Result<Seen, AllocError>
        ensures { IfOk result (λ seen. sight_of seen ≡ sight_of self.now) }
    {
        let value = match &self.value {
            Some(value) => Some(value.to_vec(alloc)?),
            None => None,
        };
        Ok(Seen {
            entry: self.entry,
            value,
        })
    }
}

/// The value that an event wrote; an erasure wrote none.
pub(crate) fn value_written(history: &Arena, event: EventId) -> Option<&[u8]>
    ensures { option_map (λ value. value.now) result ≡ value_of (event_at history.now.events event.0).kind }
{
    history.get(event)?.kind.value()
}
