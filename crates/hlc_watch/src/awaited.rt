// Receives whose sends haven't come.

ghost use Rattle.std.specs.Prelude.{◌≡◌, ◌+◌, ◌-◌, ◌^◌, ◌<◌, [], ◌∷◌, ◌++◌, IfOk, IsSome, OnErr, OnOk, bytes_eq, is_some, length, option_map, take};
ghost use Rattle.std.specs.Map.{lookup, remove_entry, set_value};
ghost use Rattle.hlc_watch.specs.Kept.{receive_count, waiting_for, with_receive};
ghost use Rattle.hlc_watch.specs.Lists.{lists_of};

use crate::records::Records;
use hlc_pages::Bytes;
use lru::LruCache;
use std::alloc::{AllocError, Global};
use std::hash::BuildHasher;
use std::marker::Model;

// Records of receives that wait, by the names of their messages; the message of the latest of them comes first.
#[derive(Drop)]
pub(crate) struct Awaited<S: BuildHasher> {
    receives: LruCache<Bytes<'static>, Vec<Records>, S>,
    // How many receives these are.
    count: usize,
    alloc: Global,
}

impl<S: BuildHasher> Model for Awaited<S> {
    ghost use Rattle.std.specs.Prelude.{List, ℕ};
    ghost use Rattle.hlc_watch.specs.declared.records.Records.{Records};

    ghost Value = { List (List ℕ × List Records) };

    ghost use Rattle.hlc_watch.specs.Lists.{AreCounted, lists_of};

    ghost view = { λ awaited. lists_of awaited.receives.entries };

    ghost invariant = { λ awaited. AreCounted awaited.receives awaited.count };
}

impl<S: BuildHasher + Drop> Awaited<S> {
    // None, whose names are to be hashed so.
    pub(crate) fn new(alloc: Global, hash_builder: S) -> Result<Awaited<S>, AllocError>
        ensures { IfOk result (λ awaited. awaited ≡ []) }
    {
        Ok(Awaited {
            receives: LruCache::unbounded_with_hasher(alloc, hash_builder)?,
            count: 0,
            alloc,
        })
    }

    // How many receives wait.
    pub(crate) fn count(&self) -> usize
        ensures { result ≡ receive_count self.now }
    {
        self.count
    }

    // Has a receive wait for a message.
    pub(crate) fn push(
        &mut self,
        message: Bytes<'static>,
        records: Records,
    ) -> Result<(), AllocError>
        requires { receive_count self.old < 2 ^ 64 - 1 }
        ensures waits { OnOk result (self.new ≡ with_receive self.old message.entry records) }
        ensures unchanged { OnErr result (self.new ≡ self.old) }
    {
        add(self.alloc, &mut self.receives, message, records)?;
        self.count += 1;
        Ok(())
    }

    // Whether a receive waits for a message.
    pub(crate) fn contains(&self, message: &Bytes<'static>) -> bool
        ensures { result ≡ is_some (lookup (bytes_eq message.now) self.now) }
    {
        // Where none waits, the name needn't be hashed.
        !self.receives.is_empty() && self.receives.contains(message)
    }

    // Takes the receives that wait for a message.
    pub(crate) fn take(&mut self, message: &Bytes<'static>) -> Option<Vec<Records>>
        ensures taken { option_map (λ waited. waited.items) result ≡ lookup (bytes_eq message.now) self.old }
        ensures others { self.new ≡ remove_entry (bytes_eq message.now) self.old }
    {
        let waited = self.receives.pop(message)?;
        self.count -= waited.len();
        Some(waited)
    }

    // Forgets those of the message for which none has come for the longest time, and answers how many there were.
    pub(crate) fn forget(&mut self) -> usize
        ensures others { self.new ≡ take (length self.old - 1) self.old }
        ensures count { result + receive_count self.new ≡ receive_count self.old }
    {
        match self.receives.pop_lru() {
            Some((_, forgotten)) => {
                self.count -= forgotten.len();
                forgotten.len()
            }
            None => 0,
        }
    }
}

// Adds a receive of a message, and takes the message to the front.
fn add<S: BuildHasher + Drop>(
    alloc: Global,
    receives: &mut LruCache<Bytes<'static>, Vec<Records>, S>,
    message: Bytes<'static>,
    records: Records,
) -> Result<(), AllocError>
    requires { receives.old.cap ≡ 2 ^ 64 - 1 }
    ensures waits { OnOk result (lists_of receives.new.entries ≡ with_receive (lists_of receives.old.entries) message.entry records) }
    ensures cap { receives.new.cap ≡ receives.old.cap }
    ensures unchanged { OnErr result (lists_of receives.new.entries ≡ lists_of receives.old.entries) }
{
    if receives.contains(&message) {
        push_to(receives, &message, records)?;
        receives.promote(&message);
        return Ok(());
    }
    let has_room = receives.len() < usize::MAX;
    prove!(has_room);
    // Most messages have one receive.
    let mut first = Vec::with_capacity(alloc, 1)?;
    first.push(records)?;
    receives.put(message, first)?;
    Ok(())
}

// Adds a receive of a message of which there are some.
fn push_to<S: BuildHasher + Drop>(
    receives: &mut LruCache<Bytes<'static>, Vec<Records>, S>,
    message: &Bytes<'static>,
    records: Records,
) -> Result<(), AllocError>
    requires { IsSome (lookup (bytes_eq message.now) receives.old.entries) }
    ensures waits { let lists = lists_of receives.old.entries in
        OnOk result (lists_of receives.new.entries ≡ set_value (bytes_eq message.now) lists (waiting_for lists message.now ++ records ∷ [])) }
    ensures cap { receives.new.cap ≡ receives.old.cap }
    ensures unchanged { OnErr result (lists_of receives.new.entries ≡ lists_of receives.old.entries) }
{
    receives.peek_mut(message).unwrap().push(records)?;
    Ok(())
}
