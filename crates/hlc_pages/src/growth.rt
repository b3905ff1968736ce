// One more page.

ghost use Rattle.std.specs.Prelude.{◌≡◌, OnErr, OnOk};
ghost use Rattle.hlc_pages.specs.Growth.{HasNewPage};

use std::alloc::AllocError;

// Puts a page without items at the end, with space for so many. If memory is refused, the pages stay as they are.
pub(crate) fn add_page<T>(pages: &mut Vec<Vec<T>>, page_len: usize) -> Result<(), AllocError>
    ensures added { OnOk result (HasNewPage page_len pages.old.items pages.new.items) }
    ensures unchanged { OnErr result (pages.new.items ≡ pages.old.items) }
{
    pages.reserve(1)?;
    let page = Vec::with_capacity(*pages.allocator(), page_len)?;
    pages.push_reserved(page);
    Ok(())
}
