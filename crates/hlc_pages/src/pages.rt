ghost use Rattle.std.specs.Prelude.{◌≡◌, ◌+◌, ◌-◌, ◌^◌, ◌<◌, ◌≤◌, ◌↔◌, ◌∷◌, ◌++◌, [], IfOk, IfSome, IsNone, IsTrue, OnErr, OnOk, length, slice_index_or};
ghost use Rattle.std.specs.Borrow.{sem};

use crate::copies::copy_pages;
use crate::growth::add_page;
use std::alloc::{AllocError, Global};
use std::marker::Model;

/// How many items a page holds.
pub const PAGE_LEN: usize = 1_024;

/// A list in pages; seen as its items, with its room: how many more items find a place without memory.
///
/// A page is never made larger, so no item moves when more come.
#[derive(Drop)]
pub struct Pages<T> {
    pages: Vec<Vec<T>>,
    // How many items there are in all.
    len: usize,
}

impl<T> Model for Pages<T> {
    ghost use Rattle.hlc_pages.specs.Pages.{ArePages, PagedItems, paged_code, paged_items};

    ghost Value = { PagedItems T };

    ghost coded = { paged_code T.code };

    ghost view = { λ a. paged_items a.pages.items a.len };

    ghost invariant = { λ a. ArePages a.pages.items a.len };
}

impl<T> Pages<T> {
    ghost use Rattle.hlc_pages.specs.Lends.{lends_item};

    /// No items, and no room for any. It takes no memory.
    pub fn new(alloc: Global) -> Self
        ensures items { result.items ≡ [] }
        ensures room { result.room ≡ 0 }
    {
        Pages {
            pages: Vec::new(alloc),
            len: 0,
        }
    }

    /// How many items there are.
    #[inline]
    pub fn len(&self) -> usize
        ensures { result ≡ length self.now.items }
    {
        self.len
    }

    /// Whether one more item finds room without memory.
    pub fn has_room(&self) -> bool
        ensures { IsTrue result ↔ (0 < self.now.room) }
    {
        self.len / PAGE_LEN < self.pages.len()
    }

    /// Makes room for one more item, if there is none yet: a new page.
    pub fn reserve(&mut self) -> Result<(), AllocError>
        ensures room { OnOk result (0 < self.new.room) }
        ensures full { OnErr result (self.old.room ≡ 0) }

        // Whatever the outcome, the items stay, and so does room that was there.
        ensures items { self.new.items ≡ self.old.items }
        ensures keeps_room { self.old.room ≤ self.new.room }
    {
        if self.has_room() {
            return Ok(());
        }
        add_page(&mut self.pages, PAGE_LEN)
    }

    /// Puts an item at the end. It takes no memory, but the room for one item.
    pub fn push_reserved(&mut self, item: T)
        requires room { 0 < self.old.room }
        requires small { length self.old.items < 2 ^ 64 - 1 }
        ensures items { self.new.items ≡ self.old.items ++ item ∷ [] }
        ensures room { self.new.room + 1 ≡ self.old.room }
    {
        let page = &mut self.pages[self.len / PAGE_LEN];
        page.push_reserved(item);
        self.len += 1;
    }

    /// The item at a place, or `None` if there is none.
    #[inline]
    pub fn get(&self, place: usize) -> Option<&T>
        ensures none { IsNone result ↔ (length self.now.items ≤ place) }
        ensures exists { IfSome result (λ _. place < length self.now.items) }
        ensures item { IfSome result (λ item. item.now ≡ slice_index_or self.now.items place item.now) }
    {
        if place < self.len {
            Some(self.at(place))
        } else {
            None
        }
    }

    /// The item at a place.
    #[inline]
    pub fn at(&self, place: usize) -> &T
        requires { place < length self.now.items }
        ensures { result.now ≡ slice_index_or self.now.items place result.now }
    {
        let page = &self.pages[place / PAGE_LEN];
        &page[place % PAGE_LEN]
    }

    /// The item at a place, for writing.
    #[inline]
    pub fn at_mut(&mut self, place: usize) -> &mut T
        requires { place < length self.old.items }
        ensures* writes_back { sem 𝓛 (lends_item T.row self.entry place result) }
        ensures value { result.now ≡ slice_index_or self.old.items place result.now }
    {
        let page = &mut self.pages[place / PAGE_LEN];
        &mut page[place % PAGE_LEN]
    }
}

impl<T: Copy> Pages<T> {
    /// The same items, in pages of their own.
    pub fn copy(&self, alloc: Global) -> Result<Self, AllocError>
        ensures { IfOk result (λ copy. copy.items ≡ self.now.items) }
    {
        Ok(Pages {
            pages: copy_pages(alloc, &self.pages, PAGE_LEN)?,
            len: self.len,
        })
    }
}
