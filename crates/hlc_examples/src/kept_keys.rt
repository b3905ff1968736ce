// A caller of `hlc_pages`.

ghost use Rattle.std.specs.Prelude.{◌≡◌, ◌^◌, ◌-◌, ◌<◌, ◌∷◌, ◌++◌, [], OnErr, OnOk, length};

use hlc_pages::{Bytes, Pages};
use std::alloc::{AllocError, Global};

/// Adds a copy of a key to a list of keys. If memory is refused, the list stays as it was.
pub fn keep_key(alloc: Global, keys: &mut Pages<Bytes>, key: &[u8]) -> Result<(), AllocError>
    requires few { length keys.old.items < 2 ^ 64 - 1 }
    ensures kept { OnOk result (keys.new.items ≡ keys.old.items ++ key.now ∷ []) }
    ensures unchanged { OnErr result (keys.new.items ≡ keys.old.items) }
{
    let copy = Bytes::from_slice(alloc, key)?;
    keys.reserve()?;
    keys.push_reserved(copy);
    Ok(())
}
