ghost use Rattle.std.specs.Prelude.{◌≡◌, ◌+◌, ◌<◌, ◌≤◌, ◌↔◌, ◌++◌, [], IfOk, IsTrue, OnErr, OnOk, length, vec_len};
ghost use Rattle.std.specs.Vec.{vec_capacity};
ghost use Rattle.hlc_pages.specs.Log.{Extends, IsWithin, key_in, value_in};

use crate::copies::copy_pages;
use crate::growth::add_page;
use crate::span::Span;
use hlc_stamp::{MAX_KEY_LEN, MAX_VALUE_LEN};
use std::alloc::{AllocError, Global};
use std::marker::Model;

/// How many bytes a page of a `ByteLog` holds.
pub const PAGE_BYTES: usize = 65_536;

/// The greatest size of an entry: a key and a value of the greatest lengths.
pub const MAX_ENTRY: usize = MAX_KEY_LEN + MAX_VALUE_LEN;

// A span counts pages in 32 bits. So many of them would take 2^48 bytes.
const MAX_PAGES: usize = 4_294_967_296;

// Puts bytes at the end of a page that has space for them.
#[inline]
fn append(page: &mut Vec<u8>, bytes: &[u8])
    requires { vec_len page.old + length bytes.now ≤ vec_capacity page.old }
    ensures items { page.new.items ≡ page.old.items ++ bytes.now }
    ensures capacity { vec_capacity page.old ≤ vec_capacity page.new }
{
    let Ok(()) = page.extend_from_slice(bytes) else {
        unreachable!()
    };
}

/// Keys and values in pages of bytes, one after another; seen as the bytes of each page, with its room: how many more
/// entries of `MAX_ENTRY` bytes find a place without memory.
///
/// A page is never made larger, so no byte moves when more come.
#[derive(Drop)]
pub struct ByteLog {
    pages: Vec<Vec<u8>>,
}

impl Model for ByteLog {
    ghost use Rattle.hlc_pages.specs.Log.{AreLogPages, Log, log_of};

    ghost Value = { Log };

    ghost view = { λ a. log_of a.pages.items };

    ghost invariant = { λ a. AreLogPages a.pages.items };
}

impl ByteLog {
    /// No bytes, and no room for any. It takes no memory.
    pub fn new(alloc: Global) -> Self
        ensures pages { result.pages ≡ [] }
        ensures room { result.room ≡ 0 }
    {
        ByteLog {
            pages: Vec::new(alloc),
        }
    }

    /// Whether one more entry of any size finds room without memory.
    #[inline]
    pub fn has_room(&self) -> bool
        ensures { IsTrue result ↔ (0 < self.now.room) }
    {
        match self.pages.last() {
            Some(page) => page.len() <= PAGE_BYTES - MAX_ENTRY,
            None => false,
        }
    }

    /// Makes room for one more entry of any size, if there is none yet: a new page.
    pub fn reserve(&mut self) -> Result<(), AllocError>
        ensures room { OnOk result (0 < self.new.room) }
        ensures full { OnErr result (self.old.room ≡ 0) }

        // Whatever the outcome, each entry stays where it is, and so does room that was there.
        ensures extends { Extends self.old.pages self.new.pages }
        ensures keeps_room { self.old.room ≤ self.new.room }
    {
        if self.has_room() {
            return Ok(());
        }
        if self.pages.len() >= MAX_PAGES {
            return Err(AllocError);
        }
        add_page(&mut self.pages, PAGE_BYTES)
    }

    /// Puts a key and its value at the end, and says where they lie. It takes no memory, but room for one entry at most.
    #[inline]
    pub fn push_reserved(&mut self, key: &[u8], value: &[u8]) -> Span
        requires room { 0 < self.old.room }
        requires key { length key.now ≤ MAX_KEY_LEN }
        requires value { length value.now ≤ MAX_VALUE_LEN }
        ensures extends { Extends self.old.pages self.new.pages }
        ensures within { IsWithin self.new.pages result }
        ensures key { key_in self.new.pages result ≡ key.now }
        ensures value { value_in self.new.pages result ≡ value.now }
        ensures room { self.old.room ≤ self.new.room + 1 }
    {
        let last = self.pages.len() - 1;
        let page = &mut self.pages[last];
        let start = page.len();
        append(page, key);
        append(page, value);
        Span {
            page: last as u32,
            start: start as u16,
            key_len: key.len() as u16,
            value_len: value.len() as u16,
        }
    }

    /// The same bytes, in pages of their own: what lies at a span lies there in the copy too.
    pub fn copy(&self, alloc: Global) -> Result<Self, AllocError>
        ensures { IfOk result (λ copy. copy.pages ≡ self.now.pages) }
    {
        Ok(ByteLog {
            pages: copy_pages(alloc, &self.pages, PAGE_BYTES)?,
        })
    }

    /// The key that lies at a span.
    #[inline]
    pub fn key(&self, span: Span) -> &[u8]
        requires { IsWithin self.now.pages span }
        ensures { result.now ≡ key_in self.now.pages span }
    {
        let page = &self.pages[span.page as usize];
        let start = span.start as usize;
        &page[start..start + span.key_len as usize]
    }

    /// The value that lies at a span.
    #[inline]
    pub fn value(&self, span: Span) -> &[u8]
        requires { IsWithin self.now.pages span }
        ensures { result.now ≡ value_in self.now.pages span }
    {
        let page = &self.pages[span.page as usize];
        let start = span.start as usize + span.key_len as usize;
        &page[start..start + span.value_len as usize]
    }
}
