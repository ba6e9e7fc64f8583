//! Strings as keys of a map.
ghost use Rattle.std.specs.Prelude.{◌≡◌, IfOk, Some, IsTrue};
ghost use Rattle.wtf8.specs.View.{view_units};

use std::alloc::{AllocError, Global};
use std::collections::HashMap;
use std::hash::{BuildHasher, Hash, Hasher};
use wtf8::{Wtf8, Wtf8Buf, laws};

/// Inserts a value under a key and looks up another key. If that has the same units, it finds the value.
pub fn insert_and_get(
    map: &mut HashMap<Wtf8Buf<Global>, u32>,
    key: Wtf8Buf<Global>,
    same_key: &Wtf8Buf<Global>,
    value: u32,
) -> Result<Option<u32>, AllocError>
    ensures { IfOk result (λ found. key.units ≡ same_key.now.units → found ≡ Some value) }
{
    laws::law_equal_views(key.as_wtf8(), same_key.as_wtf8());
    map.insert(key, value)?;
    Ok(map.get(same_key).copied())
}

/// Whether a buffer and a view have the same hash. They do if their units are the same.
pub fn hashes_agree<H: BuildHasher>(build: &H, buffer: &Wtf8Buf<Global>, view: Wtf8<'_>) -> bool
    ensures { buffer.now.units ≡ view_units view.entry → IsTrue result }
{
    laws::law_equal_views(buffer.as_wtf8(), view);
    let mut first = build.build_hasher();
    let mut second = build.build_hasher();
    buffer.hash(&mut first);
    view.hash(&mut second);
    first.finish() == second.finish()
}
