//! Memory for a history that only grows: lists whose items never move, keys and values one after another, short keys that need
//! no allocation, and small links between events.
//!
//! A store of a million events can't afford to copy its history whenever it grows, nor to allocate for each key. Here a list
//! grows page by page, so growing costs the same however long the list is. Room is made first, and then the append can't
//! fail.
//!
//! - `Pages` is such a list. `reserve` makes room for one more item, and `push_reserved` takes it.
//! - `ByteLog` keeps keys and values one after another, in pages of bytes. `push_reserved` puts a key and its value at the
//!   end and answers their `Span`, by which `key` and `value` find them again.
//! - `Bytes` is a string of bytes that never changes: up to `INLINE_LEN` of them lie in the value itself, and more in
//!   allocations. One that borrows its bytes stands for them in a look-up, and takes no memory.
//! - `Link` is an event, or none, in half of the bytes of an `Option<EventId>`.
//!
//! Nothing is ever taken out of a list or a log. Of events the crate knows the numbers alone: `hlc_execution` keeps them in
//! `Pages`, with a `Link` to each neighbour, `hlc_arena` keeps in `Pages` what happened at each and in a `ByteLog` the keys
//! and values, and the keys of `hlc_table`'s tables are `Bytes`.
//!
//! A first caller, proved in `hlc_examples`: a key goes into a list, or memory is refused and the list stays as it was.
//!
//! ```rust
//! pub fn keep_key(alloc: Global, keys: &mut Pages<Bytes>, key: &[u8]) -> Result<(), AllocError>
//!     requires few { length keys.old.items < 2 ^ 64 - 1 }
//!     ensures kept { OnOk result (keys.new.items ≡ keys.old.items ++ key.now ∷ []) }
//!     ensures unchanged { OnErr result (keys.new.items ≡ keys.old.items) }
//! {
//!     let copy = Bytes::from_slice(alloc, key)?;
//!     keys.reserve()?;
//!     keys.push_reserved(copy);
//!     Ok(())
//! }
//! ```
#![tactic(auto)]

mod byte_log;
mod bytes;
mod copies;
mod growth;
mod link;
mod pages;
mod span;

pub use byte_log::{ByteLog, MAX_ENTRY, PAGE_BYTES};
pub use bytes::{Bytes, INLINE_LEN};
pub use link::Link;
pub use pages::{PAGE_LEN, Pages};
pub use span::Span;
