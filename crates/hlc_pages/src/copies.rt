// Copies of pages.

ghost use Rattle.std.specs.Prelude.{◌≡◌, ◌≤◌, IfOk};
ghost use Rattle.std.specs.Vec.{vec_capacity};
ghost use Rattle.hlc_pages.specs.Copies.{AreCopies};

use std::alloc::{AllocError, Global};

// Pages with the same items, in memory of their own, each with space for so many.
pub(crate) fn copy_pages<T: Copy>(
    alloc: Global,
    pages: &[Vec<T>],
    page_len: usize,
) -> Result<Vec<Vec<T>>, AllocError>
    ensures { IfOk result (λ copies. AreCopies page_len pages.now copies.items) }
{
    let mut copies = Vec::with_capacity(alloc, pages.len())?;
    for page in pages {
        copies.push(copy_page(alloc, page, page_len)?)?;
    }
    Ok(copies)
}

// The same items, in a page with space for so many.
fn copy_page<T: Copy>(alloc: Global, page: &[T], page_len: usize) -> Result<Vec<T>, AllocError>
    ensures items { IfOk result (λ copy. copy.items ≡ page.now) }
    ensures space { IfOk result (λ copy. page_len ≤ vec_capacity copy) }
{
    let mut copy = Vec::with_capacity(alloc, page_len)?;
    copy.extend_from_slice(page)?;
    Ok(copy)
}
