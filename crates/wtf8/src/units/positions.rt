// Positions of 16-bit code units: where the first `n` units of a string end, and the unit at an index.
ghost use Rattle.std.specs.Prelude.{◌≡◌, ◌+◌, ◌<◌, ◌≤◌, length, slice_get, Some, IfSome, IfNone};
ghost use Rattle.wtf8.specs.Position.{IsBoundary};
ghost use Rattle.wtf8.specs.private.UnitsInBytes.{IsCursor, IsCursorOfUnit};
ghost use Rattle.wtf8.specs.Surrogates.{AreScalar};
ghost use Rattle.wtf8.specs.View.{view_points, view_units};

use crate::codec::encoding;
use crate::lanes::ascii::is_ascii_block;
use crate::lanes::{BLOCK, VECTOR};
use crate::strings::iters::read_unit;
use crate::strings::view::Wtf8;
use crate::units::counts::{
    HALF_VECTOR, START, UnitCursor, skip_block, skip_summed_blocks, utf16_len_of_byte,
};
use std::simd::prelude::*;

/// If the unit searched for is fewer than this many units ahead, it is probably among the next `BLOCK` bytes, and
/// counting these does not pay: a unit takes at most three bytes. Groups of blocks have `MIN_UNITS_SUMMED`.
const WORTH_BLOCK: usize = BLOCK / 3;

/// The same for `VECTOR` bytes. With 1 in place of 11, `unit_at` of 40 ASCII units takes 102 instructions for 90; with
/// 16, that of a marked text of CJK takes 484 for 419.
const WORTH_VECTOR: usize = 11;

const WORTH_HALF_VECTOR: usize = WORTH_VECTOR / 2;

#[inline(always)]
fn skip_blocks(bytes: &[u8], unit: usize) -> UnitCursor
    ensures { IsCursor bytes.now unit result }
{
    match bytes.len() {
        0..=3 => START,
        4..=7 => skip_ascii::<4>(bytes, unit, START).unwrap_or(START),
        8..=15 => skip_ascii::<HALF_VECTOR>(bytes, unit, START).unwrap_or(START),
        _ => skip_blocks_of_long(bytes, unit),
    }
}

/// `skip_blocks` for a string of 16 bytes or more. Not inlined, so that the short path stays small.
#[inline(never)]
fn skip_blocks_of_long(bytes: &[u8], unit: usize) -> UnitCursor
    ensures { IsCursor bytes.now unit result }
{
    let cursor = skip_summed_blocks(bytes, unit, START);
    let cursor = skip_blocks_while_far::<BLOCK>(bytes, unit, WORTH_BLOCK, cursor);
    let cursor = skip_blocks_while_far::<VECTOR>(bytes, unit, WORTH_VECTOR, cursor);
    let cursor = skip_blocks_while_far::<HALF_VECTOR>(bytes, unit, WORTH_HALF_VECTOR, cursor);
    skip_ascii::<HALF_VECTOR>(bytes, unit, cursor).unwrap_or(cursor)
}

#[inline(always)]
fn skip_blocks_while_far<const N: usize>(
    bytes: &[u8],
    unit: usize,
    least: usize,
    from: UnitCursor,
) -> UnitCursor
    requires lanes { (0 < N) × (N ≤ u64.BITS) }
    requires counted { IsCursor bytes.now unit from }
    ensures { IsCursor bytes.now unit result }
{
    let mut cursor = from;
    while least <= unit - cursor.units {
        let Some(next) = skip_block::<N>(bytes, unit, cursor) else {
            return cursor;
        };
        cursor = next;
    }
    cursor
}

/// Moves `from` to the unit, at most past the next `N` bytes, or returns `None` if fewer are left or not all are ASCII.
#[inline(always)]
fn skip_ascii<const N: usize>(bytes: &[u8], unit: usize, from: UnitCursor) -> Option<UnitCursor>
    requires lanes { N ≤ u64.BITS }
    requires counted { IsCursor bytes.now unit from }
    ensures { IfSome result (λ cursor. IsCursor bytes.now unit cursor) }
{
    if bytes.len() - from.position < N {
        return None;
    }
    if !is_ascii_block(Simd::<u8, N>::from_slice(&bytes[from.position..])) {
        return None;
    }
    let more = (unit - from.units).min(N);
    Some(UnitCursor {
        position: from.position + more,
        units: from.units + more,
    })
}

/// Finds the code point that holds unit `unit`, counted from 0, or the end: byte by byte after `skip_blocks`.
fn find_unit(bytes: &[u8], unit: usize) -> UnitCursor
    ensures { IsCursorOfUnit bytes.now unit result }
{
    let from = skip_blocks(bytes, unit);
    let mut units = from.units;
    for position in from.position..bytes.len() {
        let byte = bytes[position];
        if byte < 0x80 {
            if units == unit {
                return UnitCursor { position, units };
            }
            units += 1;
        } else if 0xC0 <= byte {
            let more = utf16_len_of_byte(byte);
            if unit - units < more {
                return UnitCursor { position, units };
            }
            units += more;
        }
    }
    UnitCursor {
        position: bytes.len(),
        units,
    }
}

/// Where the first `n` units end. If that is inside a surrogate pair, the cursor is before the pair, one unit less.
#[inline(always)]
pub(crate) fn cut_at(view: Wtf8<'_>, n: usize) -> UnitCursor
    requires { n ≤ length (view_units view) }
    ensures cursor { IsCursorOfUnit view.entry.bytes.now n result }
    ensures divided { result.units < n → result.position + 4 ≤ length view.entry.bytes.now }
    ensures boundary { IsBoundary (view_units view.entry) result.position }
{
    find_unit(view.bytes, n)
}

/// Like `cut_at`, but `None` if there are fewer units. Counts nothing if `n` exceeds the length in bytes.
#[inline(always)]
pub(crate) fn find_cut(view: Wtf8<'_>, n: usize) -> Option<UnitCursor>
    ensures some { IfSome result (λ cut. IsCursorOfUnit view.entry.bytes.now n cut) }
    ensures divided { IfSome result (λ cut. cut.units < n → cut.position + 4 ≤ length view.entry.bytes.now) }
    ensures boundary { IfSome result (λ cut. IsBoundary (view_units view.entry) cut.position) }
    ensures none { IfNone result (length (view_units view.entry) < n) }
{
    if view.bytes.len() < n {
        return None;
    }
    let cut = find_unit(view.bytes, n);
    if cut.units < n && cut.position == view.bytes.len() {
        return None;
    }
    Some(cut)
}

/// Counts nothing if `index` is at least the length in bytes. Not inlined, so that the ASCII path stays small.
#[inline(never)]
fn unit_by_count(view: Wtf8<'_>, index: usize) -> Option<u16>
    ensures { result ≡ slice_get (view_units view.entry) index }
{
    if view.bytes.len() <= index {
        return None;
    }
    let cursor = find_unit(view.bytes, index);
    if cursor.position == view.bytes.len() {
        return None;
    }
    if cursor.units != index {
        // The unit is a pair's trail, which the last two bytes of the code point give.
        let (_, rest) = view.bytes.split_at(cursor.position + 2);
        return Some(encoding::read_trail(rest));
    }
    let mut position = cursor.position;
    Some(read_unit(view.bytes, &mut position))
}

#[inline(always)]
fn unit_in_ascii_prefix(view: Wtf8<'_>, index: usize) -> Option<u16>
    ensures { IfSome result (λ unit. slice_get (view_units view.entry) index ≡ Some unit) }
{
    match view.bytes.len() {
        0..=3 => None,
        4..=7 => ascii_unit::<4>(view, index),
        8..=15 => ascii_unit::<8>(view, index),
        _ => ascii_unit::<VECTOR>(view, index),
    }
}

#[inline(always)]
fn ascii_unit<const N: usize>(view: Wtf8<'_>, index: usize) -> Option<u16>
    requires lanes { N ≤ u64.BITS }
    requires room { N ≤ length view.bytes.now }
    ensures { IfSome result (λ unit. slice_get (view_units view.entry) index ≡ Some unit) }
{
    if index < N && is_ascii_block(Simd::<u8, N>::from_slice(view.bytes)) {
        return Some(u16::from(view.bytes[index]));
    }
    None
}

impl<'a> Wtf8<'a> {
    /// The code unit at `index`, or `None` at or past the end. Linear in `index`: units are counted from the front. To
    /// read units one after another use `to_ill_formed_utf16`, and far from the front first a mark (`mark_at`).
    pub fn unit_at(&self, index: usize) -> Option<u16>
        ensures { result ≡ slice_get (view_units self.now) index }
    {
        if let Some(unit) = unit_in_ascii_prefix(*self, index) {
            return Some(unit);
        }
        unit_by_count(*self, index)
    }

    /// The code unit at `index` of an all-ASCII string: one with equal lengths in bytes and in code units. `index` must
    /// be below the length.
    pub fn ascii_unit_at(&self, index: usize) -> u16
        requires ascii { length self.now.bytes.now ≡ length (view_units self.now) }
        requires within { index < length (view_units self.now) }
        ensures { slice_get (view_units self.now) index ≡ Some result }
    {
        u16::from(self.bytes[index])
    }

    /// An all-ASCII string, one with equal lengths in bytes and in code units, as a `&str`. Does not read it.
    pub fn as_ascii_str(&self) -> &'a str
        requires { length self.now.bytes.now ≡ length (view_units self.now) }
        ensures bytes { result.now ≡ self.now.bytes.now }
        ensures scalar { AreScalar (view_points self.now) }
    {
        unsafe { str::from_utf8_unchecked(self.bytes) }
    }
}
