ghost use Rattle.std.specs.Prelude.{◌≡◌, ◌≤◌, [], ◌∷◌, length, IfOk, IsOk};
ghost use Rattle.std.specs.Cmp.{partial_equiv_from_equiv};
ghost use Rattle.std.specs.Cmp.Lexicographic.{bytes_decides, nat_list_eq_equiv};
ghost use Rattle.std.specs.Str.{bytes_eq};
ghost use Rattle.std.proofs.Common.{ap};

use std::alloc::{AllocError, Global};
use std::fmt;
use std::hash::{Hash, Hasher};
use std::marker::Model;
use std::ops::DerefSlice;

/// The most bytes that lie in a `Bytes` itself.
pub const INLINE_LEN: usize = 22;

// In each case 24 bytes, for which a long one's `Vec` is boxed.
#[derive(Drop)]
enum Storage<'a> {
    Inline { len: u8, bytes: [u8; INLINE_LEN] },
    Heap(Box<Vec<u8>>),
    Borrowed(&'a [u8]),
}

/// A string of bytes that never changes, such as a key; seen as the list of them.
///
/// Up to `INLINE_LEN` of them lie in the value itself. More take two allocations, one for the bytes and one for the `Vec` that
/// has them. Or they are borrowed, as for a look-up by a slice in a map whose keys own their bytes.
#[derive(Drop)]
pub struct Bytes<'a> {
    storage: Storage<'a>,
}

const _: () = prove!(size_of::<Bytes>() == 24);

impl<'a> Model for Bytes<'a> {
    ghost use Rattle.std.specs.Prelude.{ℕ, List};

    ghost Value = { List ℕ };

    ghost use Rattle.hlc_pages.specs.Bytes.{IsStored, stored_bytes};

    ghost view = { λ b. stored_bytes b.storage };

    ghost invariant = { λ b. IsStored b.storage };
}

impl Bytes<'static> {
    /// A copy of bytes, which takes memory only for more than `INLINE_LEN`.
    pub fn from_slice(alloc: Global, bytes: &[u8]) -> Result<Bytes<'static>, AllocError>
        ensures ok { IfOk result (λ copy. copy ≡ bytes.now) }
        ensures inline { length bytes.now ≤ INLINE_LEN → IsOk result }
    {
        let len = bytes.len();
        if len > INLINE_LEN {
            let heap = Box::new(alloc, Vec::from_slice(alloc, bytes)?)?;
            return Ok(Bytes {
                storage: Storage::Heap(heap),
            });
        }
        let mut inline = [0; INLINE_LEN];
        inline[..len].copy_from_slice(bytes);
        Ok(Bytes {
            storage: Storage::Inline {
                len: len as u8,
                bytes: inline,
            },
        })
    }
}

impl<'a> Bytes<'a> {
    /// Bytes as they stand with their owner. It takes no memory.
    pub fn borrowed(bytes: &'a [u8]) -> Bytes<'a>
        ensures { result ≡ bytes.now }
    {
        Bytes {
            storage: Storage::Borrowed(bytes),
        }
    }
}

impl<'a> DerefSlice for Bytes<'a> {
    type Elem = u8;

    ghost deref_gives = { λ bytes xs. xs ≡ bytes };

    #[inline]
    fn deref(&self) -> &[u8] {
        match &self.storage {
            Storage::Inline { len, bytes } => &bytes[..*len as usize],
            Storage::Heap(bytes) => bytes,
            Storage::Borrowed(bytes) => bytes,
        }
    }
}

impl<'a> Clone for Bytes<'a> {
    ghost is_clone = { λ bytes copy. copy ≡ bytes };

    fn clone(&self) -> Result<Bytes<'a>, AllocError> {
        let storage = match &self.storage {
            Storage::Inline { len, bytes } => Storage::Inline {
                len: *len,
                bytes: *bytes,
            },
            Storage::Heap(bytes) => return Bytes::from_slice(*bytes.allocator(), bytes),
            Storage::Borrowed(bytes) => Storage::Borrowed(*bytes),
        };
        Ok(Bytes { storage })
    }
}

impl<'a> PartialEq for Bytes<'a> {
    ghost eq = { bytes_eq };

    ghost laws = { partial_equiv_from_equiv nat_list_eq_equiv };

    fn eq(&self, other: &Self) -> bool {
        self[..] == other[..]
    }
}

impl<'a> Eq for Bytes<'a> {
    ghost laws = { nat_list_eq_equiv };
}

impl<'a> Hash for Bytes<'a> {
    ghost hash_input = { λ bytes. bytes ∷ [] };

    ghost respects_eq = { λ a b same. ap (λ bytes. bytes ∷ []) ((bytes_decides a b).0 same) };

    fn hash<H: Hasher>(&self, state: &mut H) {
        state.write(self);
    }
}

impl<'a> fmt::Debug for Bytes<'a> {
    fn fmt<W: fmt::Write>(&self, f: &mut fmt::Formatter<W>) -> fmt::Result {
        f.debug_list().entries(&self[..]).finish()
    }
}
