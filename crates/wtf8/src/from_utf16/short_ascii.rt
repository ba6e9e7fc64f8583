// Lists of at least `QUARTER_BLOCK` and fewer than `2 * TWO_BLOCKS` units that are all ASCII, as most names are: tested and
// narrowed as two overlapping blocks.
ghost use Rattle.std.specs.Prelude.{◌≡◌, ◌++◌, ◌+◌, ◌*◌, ◌<◌, ◌≤◌, length, vec_capacity, IfOk, IsTrue};
ghost use Rattle.wtf8.specs.private.EncodedBytes.{BecomesOrKeeps};
ghost use Rattle.wtf8.specs.private.Prefixes.{AreAscii};

use crate::from_utf16::{BLOCK_UNITS, HALF_BLOCK, QUARTER_BLOCK, TWO_BLOCKS};
use crate::lanes::ascii::{is_ascii_block, narrow_saturating};
use std::alloc::{AllocError, Allocator};
use std::simd::prelude::*;

/// Whether `N` to `2 * N` units are all ASCII, by loads of the first and the last `N`, which may overlap.
#[inline(always)]
pub(crate) fn are_ends_ascii<const N: usize>(units: &[u16]) -> bool
    requires lanes { N ≤ u64.BITS }
    requires all { (N ≤ length units.now) × (length units.now ≤ 2 * N) }
    ensures { IsTrue result → AreAscii units.now }
{
    let front = Simd::<u16, N>::from_slice(units);
    let back = Simd::<u16, N>::from_slice(&units[units.len() - N..]);
    is_ascii_block(narrow_saturating(front.simd_max(back)))
}

/// Whether there are at least `QUARTER_BLOCK` units and fewer than `2 * TWO_BLOCKS`, all ASCII.
#[inline(always)]
pub(crate) fn is_short_ascii(units: &[u16]) -> bool
    ensures ascii { IsTrue result → AreAscii units.now }
    ensures len { IsTrue result → (QUARTER_BLOCK ≤ length units.now) × (length units.now < 2 * TWO_BLOCKS) }
{
    // Most other text is told by its first unit.
    if units.len() < QUARTER_BLOCK || 2 * TWO_BLOCKS <= units.len() || 0x80 <= units[0] {
        return false;
    }
    if units.len() < HALF_BLOCK {
        are_ends_ascii::<QUARTER_BLOCK>(units)
    } else if units.len() < BLOCK_UNITS {
        are_ends_ascii::<HALF_BLOCK>(units)
    } else if units.len() < TWO_BLOCKS {
        are_ends_ascii::<BLOCK_UNITS>(units)
    } else {
        are_ends_ascii::<TWO_BLOCKS>(units)
    }
}

/// Appends `N` to `2 * N` ASCII units as their first and their last `N` bytes, which may overlap.
#[inline(always)]
pub(crate) fn push_ends<const N: usize, A: Allocator>(bytes: &mut Vec<u8, A>, units: &[u16])
    requires lanes { N ≤ u64.BITS }
    requires all { (N ≤ length units.now) × (length units.now ≤ 2 * N) }
    requires ascii { AreAscii units.now }
    requires room { length bytes.old.items + length units.now ≤ vec_capacity bytes.old }
    ensures items { bytes.new.items ≡ bytes.old.items ++ units.now }
    ensures capacity { vec_capacity bytes.old ≤ vec_capacity bytes.new }
{
    let last = units.len() - N;
    let end = bytes.len() + last;
    // By `push_block` each byte would be a store of its own.
    let front = narrow_saturating(Simd::<u16, N>::from_slice(units));
    bytes.extend_from_slice(&front.to_array()).unwrap();
    bytes.truncate(end);
    let back = narrow_saturating(Simd::<u16, N>::from_slice(&units[last..]));
    bytes.extend_from_slice(&back.to_array()).unwrap();
}

/// Appends units of which `is_short_ascii` is true.
#[inline(always)]
pub(crate) fn push<A: Allocator>(bytes: &mut Vec<u8, A>, units: &[u16])
    requires len { (QUARTER_BLOCK ≤ length units.now) × (length units.now < 2 * TWO_BLOCKS) }
    requires ascii { AreAscii units.now }
    requires room { length bytes.old.items + length units.now ≤ vec_capacity bytes.old }
    ensures items { bytes.new.items ≡ bytes.old.items ++ units.now }
    ensures capacity { vec_capacity bytes.old ≤ vec_capacity bytes.new }
{
    if units.len() < HALF_BLOCK {
        push_ends::<QUARTER_BLOCK, A>(bytes, units);
    } else if units.len() < BLOCK_UNITS {
        push_ends::<HALF_BLOCK, A>(bytes, units);
    } else if units.len() < TWO_BLOCKS {
        push_ends::<BLOCK_UNITS, A>(bytes, units);
    } else {
        push_ends::<TWO_BLOCKS, A>(bytes, units);
    }
}

/// Makes a vector of the bytes of units of which `is_short_ascii` is true.
#[inline(always)]
pub(crate) fn encode<A: Allocator>(alloc: A, units: &[u16]) -> Result<Vec<u8, A>, AllocError>
    requires len { (QUARTER_BLOCK ≤ length units.now) × (length units.now < 2 * TWO_BLOCKS) }
    requires ascii { AreAscii units.now }
    ensures { IfOk result (λ bytes. bytes.items ≡ units.now) }
{
    let mut bytes = Vec::with_capacity(alloc, units.len())?;
    push(&mut bytes, units);
    Ok(bytes)
}

/// Appends units of which `is_short_ascii` is true, or leaves the bytes as they are if memory is refused.
#[inline(always)]
pub(crate) fn append<A: Allocator>(bytes: &mut Vec<u8, A>, units: &[u16]) -> Result<(), AllocError>
    requires len { (QUARTER_BLOCK ≤ length units.now) × (length units.now < 2 * TWO_BLOCKS) }
    requires ascii { AreAscii units.now }
    ensures { BecomesOrKeeps bytes.old (bytes.old.items ++ units.now) bytes.new result }
{
    bytes.reserve(units.len())?;
    push(bytes, units);
    Ok(())
}
