ghost use Rattle.std.specs.Prelude.{◌≡◌, ◌≢◌, ◌<◌, ◌↔◌, ℕ, List, [], true, length, option_map, take, Contains, IfOk, IfSome, IsOk, IsSome, IsTrue, OnOk};
ghost use Rattle.hlc_table.specs.Rows.{EachKeyOnce, HoldsAtLeast, IsPlaceOf, entry_at, is_news, keys_in, learn_entry};

use crate::entries::Entries;
use crate::entry::Entry;
use hlc_pages::Bytes;
use hlc_stamp::{EventId, Rank};
use indexmap::IndexMap;
use std::alloc::{AllocError, Global};
use std::marker::Model;

/// The table of a replica: for each key that it learnt a write of, the write of greatest rank.
///
/// Keys stand in the order in which they were first learnt. One of at most 22 bytes lies in the table's own memory. A longer
/// one takes two allocations, one for its bytes and one for the `Vec` that has them. Keys are hashed with a fixed seed, so whoever
/// picks them can make look-ups slow.
#[derive(Drop)]
pub struct Table {
    entries: IndexMap<Bytes<'static>, Entry>,
}

impl Model for Table {
    ghost use Rattle.std.specs.Prelude.{List};
    ghost use Rattle.hlc_table.specs.Rows.{Row};

    ghost Value = { List Row };

    ghost use Rattle.hlc_table.specs.Rows.{rows_of_entries};

    ghost view = { λ table. rows_of_entries table.entries.entries };
}

impl Table {
    /// A table with no entry. It takes no memory.
    pub fn new(alloc: Global) -> Self
        ensures { result ≡ [] }
    {
        Table {
            entries: IndexMap::new(alloc),
        }
    }

    /// Learns a write of a key, and answers whether it is news: the key was new, or its entry had a lesser rank.
    ///
    /// A known key takes no memory and keeps its place. Of a key, two writes of equal rank are one write.
    pub fn learn(&mut self, key: &[u8], write: EventId, rank: Rank) -> Result<bool, AllocError>
        requires one_write_a_rank { IfSome (entry_at self.old key.now) (λ held. held.rank ≡ rank → held.write ≡ write) }
        ensures learnt { OnOk result (self.new ≡ learn_entry self.old key.now (record { write = write; rank = rank })) }
        ensures news { IfOk result (λ news. news ≡ is_news (entry_at self.old key.now) rank) }
        ensures holds { OnOk result (HoldsAtLeast self.new key.now (record { write = write; rank = rank })) }
        ensures known { IsSome (entry_at self.old key.now) → IsOk result }
        ensures unchanged { result ≢ Ok true → self.new ≡ self.old }
    {
        let entry = Entry { write, rank };
        match self.find(key) {
            Some((place, _)) => Ok(self.learn_at(place, entry)),
            None => {
                let key = Bytes::from_slice(self.allocator(), key)?;
                self.entries.insert(key, entry)?;
                Ok(true)
            }
        }
    }

    /// Learns a write of the key that stands at a place, counted from 0, and answers whether it is news. It takes no memory.
    pub fn learn_at(&mut self, place: usize, entry: Entry) -> bool
        requires there { place < length self.old }
        ensures learnt { (key : List ℕ) → IsPlaceOf self.old key place → self.new ≡ learn_entry self.old key entry }
        ensures news { (key : List ℕ) → IsPlaceOf self.old key place → result ≡ is_news (entry_at self.old key) entry.rank }
    {
        let held = &mut self.entries[place];
        let is_news = held.rank < entry.rank;
        if is_news {
            *held = entry;
        }
        is_news
    }

    /// Forgets the keys that were learnt last, but for so many of the first.
    pub fn truncate(&mut self, len: usize)
        ensures { self.new ≡ take len self.old }
    {
        self.entries.truncate(len);
    }

    /// The entry of a key, and the place at which the key stands, counted from 0. It is that of the key until the key is forgotten.
    #[inline]
    pub fn find(&self, key: &[u8]) -> Option<(usize, Entry)>
        ensures entry { option_map (λ found. found.1) result ≡ entry_at self.now key.now }
        ensures place { IfSome result (λ found. IsPlaceOf self.now key.now found.0) }
        ensures there { IfSome result (λ found. found.0 < length self.now) }
    {
        let (place, _, entry) = self.entries.get_full(&Bytes::borrowed(key))?;
        Some((place, *entry))
    }

    /// An equal table in memory of its own. It takes time linear in the table and in its keys.
    #[tactic(auto, using(crate::proofs::Pairs::cloned_rows))]
    pub fn copy(&self) -> Result<Table, AllocError>
        ensures { IfOk result (λ copy. copy ≡ self.now) }
    {
        let entries = self.entries.clone()?;
        Ok(Table { entries })
    }

    /// The entry of a key, or `None` if the table never learnt a write of it, or has forgotten the key.
    #[inline]
    pub fn get(&self, key: &[u8]) -> Option<Entry>
        ensures entry { result ≡ entry_at self.now key.now }
        ensures known { IsSome result ↔ Contains (keys_in self.now) key.now }
    {
        let (_, entry) = self.find(key)?;
        Some(entry)
    }

    /// The allocator from which the table takes its memory. Each contract holds whichever that is, so none is promised.
    pub fn allocator(&self) -> Global {
        *self.entries.allocator()
    }

    /// The number of keys.
    pub fn len(&self) -> usize
        ensures len { result ≡ length self.now }
        ensures once { EachKeyOnce self.now }
    {
        self.entries.len()
    }

    /// Whether the table learnt no write.
    pub fn is_empty(&self) -> bool
        ensures { IsTrue result ↔ (self.now ≡ []) }
    {
        self.len() == 0
    }

    /// The keys with their entries, in the order in which the keys were first learnt.
    pub fn entries(&self) -> Entries<'_>
        ensures all { result ≡ self.now }
        ensures once { EachKeyOnce self.now }
    {
        let rest = self.entries.iter();
        Entries { rest }
    }
}
