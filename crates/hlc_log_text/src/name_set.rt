ghost use Rattle.std.specs.Prelude.{◌≡◌, ◌↔◌, ◌≤◌, [], IfOk, IfSome, IsOk, IsTrue, OnErr, OnOk, Some, is_some, length, option_map, position, slice_get};
ghost use Rattle.std.specs.List.{list_any};
ghost use Rattle.std.specs.Str.{bytes_eq};
ghost use Rattle.hlc_log_text.specs.Names.{EachNameOnce, with_name};

use crate::name_key::NameKey;
use crate::names::Names;
use hlc_pages::{Bytes, INLINE_LEN};
use indexmap::IndexSet;
use std::alloc::{AllocError, Global};
use std::marker::Model;

/// Names that a log mentions while it is read, numbered from 0 in the order of their first mentions; seen as the list of them.
///
/// A name of at most 22 bytes lies in the memory of the set, and a longer one takes an allocation.
#[derive(Drop)]
pub struct NameSet {
    names: IndexSet<Bytes<'static>, NameKey>,
}

impl Model for NameSet {
    ghost use Rattle.std.specs.Prelude.{ℕ, List};
    ghost use Rattle.hlc_log_text.specs.Names.{EachNameOnce};

    ghost Value = { List (List ℕ) };

    ghost view = { λ n. n.names.keys };

    ghost invariant = { λ n. EachNameOnce n.names.keys };
}

impl NameSet {
    /// No names, which are to be hashed by this key. It takes no memory.
    pub fn new(alloc: Global, key: NameKey) -> NameSet
        ensures { result ≡ [] }
    {
        NameSet {
            names: IndexSet::with_hasher(alloc, key),
        }
    }

    /// The number of a name, if it was mentioned. It takes no memory.
    pub fn number(&self, name: &[u8]) -> Option<usize>
        ensures number { result ≡ position (bytes_eq name.now) self.now }
        ensures name { IfSome result (λ number. slice_get self.now number ≡ Some name.now) }
        ensures known { is_some result ≡ list_any (bytes_eq name.now) self.now }
        ensures once { EachNameOnce self.now }
    {
        self.names.get_index_of(&Bytes::borrowed(name))
    }

    /// The name of a number, if there is one.
    pub fn name(&self, number: usize) -> Option<&[u8]>
        ensures { option_map (λ name. name.now) result ≡ slice_get self.now number }
    {
        let name = self.names.get_index(number)?;
        Some(name)
    }

    // Whether this is the number of a name: to see that takes one comparison, where to look for the name takes its hash.
    pub(crate) fn has_number(&self, name: &[u8], number: usize) -> bool
        ensures { IsTrue result ↔ (position (bytes_eq name.now) self.now ≡ Some number) }
    {
        let Some(known) = self.names.get_index(number) else {
            return false;
        };
        **known == *name
    }

    /// How many names there are.
    pub fn len(&self) -> usize
        ensures { result ≡ length self.now }
    {
        self.names.len()
    }

    /// Mentions a name, and answers its number: that which it has, or the next if it is new. A known name takes no memory.
    pub fn mention(&mut self, name: &[u8]) -> Result<usize, AllocError>
        ensures names { OnOk result (self.new ≡ with_name self.old name.now) }
        ensures number { IfOk result (λ number. slice_get self.new number ≡ Some name.now) }
        ensures known { IsTrue (list_any (bytes_eq name.now) self.old) → IsOk result }
        ensures unchanged { OnErr result (self.new ≡ self.old) }
    {
        if name.len() > INLINE_LEN {
            return self.mention_long(name);
        }
        self.put(name)
    }

    // Mentions a name of which a copy takes memory: it is looked up first.
    fn mention_long(&mut self, name: &[u8]) -> Result<usize, AllocError>
        ensures names { OnOk result (self.new ≡ with_name self.old name.now) }
        ensures number { IfOk result (λ number. slice_get self.new number ≡ Some name.now) }
        ensures known { IsTrue (list_any (bytes_eq name.now) self.old) → IsOk result }
        ensures unchanged { OnErr result (self.new ≡ self.old) }
    {
        if let Some(number) = self.number(name) {
            return Ok(number);
        }
        self.put(name)
    }

    // Mentions a name by a copy of it, which a known one does not keep.
    fn put(&mut self, name: &[u8]) -> Result<usize, AllocError>
        ensures names { OnOk result (self.new ≡ with_name self.old name.now) }
        ensures number { IfOk result (λ number. slice_get self.new number ≡ Some name.now) }
        ensures known { length name.now ≤ INLINE_LEN → IsTrue (list_any (bytes_eq name.now) self.old) → IsOk result }
        ensures unchanged { OnErr result (self.new ≡ self.old) }
    {
        let name = Bytes::from_slice(*self.names.allocator(), name)?;
        let (number, _) = self.names.insert_full(name)?;
        Ok(number)
    }

    // The names, as they are numbered.
    pub(crate) fn into_names(self) -> Names
        ensures { result ≡ self }
    {
        Names { names: self.names }
    }
}
