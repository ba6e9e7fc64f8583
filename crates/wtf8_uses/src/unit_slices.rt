//! A string that is cut at a code unit, also inside a surrogate pair, and joined again.
ghost use Rattle.std.specs.Prelude.{◌≡◌, ◌≤◌, length, IfOk};
ghost use Rattle.wtf8.specs.View.{view_units};

use std::alloc::{AllocError, Allocator};
use wtf8::{Wtf8, Wtf8Buf};

/// Copies `text`, truncates the copy to `n` code units, also inside a surrogate pair, and appends the rest again. The
/// result has the units of `text`.
pub fn cut_at_units_and_joined<A: Allocator>(
    alloc: A,
    text: Wtf8<'_>,
    n: usize,
) -> Result<Wtf8Buf<A>, AllocError>
    requires { n ≤ length (view_units text) }
    ensures { IfOk result (λ whole. whole.units ≡ view_units text.entry) }
{
    let mut whole = Wtf8Buf::new(alloc);
    whole.push_wtf8(text)?;
    whole.truncate_units(n);
    whole.push_unit_slice(text.slice_units(n, text.unit_len()))?;
    Ok(whole)
}
