//! Strings that are joined and cut.
ghost use Rattle.std.specs.Prelude.{◌≡◌, ℕ, List, ◌++◌, ◌+◌, ◌<◌, length, take, drop, slice_index, IfOk};
ghost use Rattle.wtf8.specs.Form.{IsForm};
ghost use Rattle.wtf8.specs.Position.{IsBoundary, IsMiddle};
ghost use Rattle.wtf8.specs.View.{view_units};

use crate::file_names::{cut_at_first, join_with};
use crate::paths;
use std::alloc::{AllocError, Allocator, Global};
use wtf8::{Wtf8, Wtf8Buf, laws};

/// The string of the units of `front` followed by the units of `back`. Its bytes are the form of the joined list: a
/// surrogate pair that is split between the lists becomes one code point.
pub fn joined(alloc: Global, front: &[u16], back: &[u16]) -> Result<Wtf8Buf<Global>, AllocError>
    ensures units { IfOk result (λ s. s.units ≡ front.now ++ back.now) }
    ensures bytes { IfOk result (λ s. (w : List ℕ) → IsForm w (front.now ++ back.now) → s.bytes ≡ w) }
{
    laws::law_equal_strings();
    let whole = paths::join(alloc, front, back)?;
    Ok(whole)
}

/// Cuts a string at a code point boundary and joins the parts. The result has the same units.
pub fn cut_at_boundary_and_joined<A: Allocator>(
    alloc: A,
    text: Wtf8<'_>,
    position: usize,
) -> Result<Wtf8Buf<A>, AllocError>
    requires { IsBoundary (view_units text) position }
    ensures { IfOk result (λ whole. whole.units ≡ view_units text.entry) }
{
    let mut whole = Wtf8Buf::new(alloc);
    whole.push_wtf8(text.slice_to(position))?;
    whole.push_wtf8(text.slice_from(position))?;
    Ok(whole)
}

/// Cuts a path at its first `/` and joins the parts with `/` again. Returns a copy of the whole path.
pub fn cut_at_slash_and_joined(alloc: Global, path: Wtf8<'_>) -> Result<Wtf8Buf<Global>, AllocError>
    ensures { IfOk result (λ whole. whole.units ≡ view_units path.entry) }
{
    match cut_at_first(path, b'/', b'/') {
        Some((front, _, back)) => join_with(alloc, front, '/', back),
        None => copied(alloc, path),
    }
}

/// A copy of a string.
fn copied(alloc: Global, text: Wtf8<'_>) -> Result<Wtf8Buf<Global>, AllocError>
    ensures { IfOk result (λ copy. copy.units ≡ view_units text.entry) }
{
    let mut copy = Wtf8Buf::new(alloc);
    copy.push_wtf8(text)?;
    Ok(copy)
}

/// The `len` bytes from position `begin` on. Both ends must be code point boundaries of the whole string. Cuts twice: a
/// boundary of the whole string at or after `begin` is, less `begin`, a boundary of the rest.
pub fn part_of_len<'a>(text: Wtf8<'a>, begin: usize, len: usize) -> Wtf8<'a>
    requires begin { IsBoundary (view_units text) begin }
    requires end { IsBoundary (view_units text) (begin + len) }
    ensures { result.bytes.now ≡ take len (drop begin text.entry.bytes.now) }
{
    laws::law_positions();
    text.slice_from(begin).slice_to(len)
}

/// The part of a string after the ASCII byte at position `position`. An ASCII byte ends at a code point boundary.
pub fn after_ascii_byte<'a>(text: Wtf8<'a>, position: usize) -> Wtf8<'a>
    requires inside { position < length text.bytes.now }
    requires ascii { slice_index text.bytes.now position < 0x80 }
    ensures { IsMiddle (view_units text.entry) (position + 1) (length text.entry.bytes.now) (view_units result) }
{
    laws::law_boundaries(text);
    text.slice(position + 1, text.len())
}
