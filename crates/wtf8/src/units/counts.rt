// Numbers of 16-bit code units: of a string, and of the code points that begin before a byte index.
ghost use Rattle.std.specs.Prelude.{◌≡◌, ◌+◌, ◌-◌, ◌*◌, ◌^◌, ◌<◌, ◌≤◌, length, map, take, drop, IfSome};
ghost use Rattle.wtf8.specs.private.UnitsInBytes.{utf16_len, sum_utf16_len, IsCursor};
ghost use Rattle.wtf8.specs.View.{view_units};

use crate::codec::encoding;
use crate::lanes::ascii::{ascii_front_len, is_ascii_overlapping};
use crate::lanes::padding::padded;
use crate::lanes::{BLOCK, VECTOR};
use crate::strings::view::Wtf8;
use std::simd::prelude::*;

/// Bytes in a block when all units of a string are counted, after the groups of `SUMMED_BLOCKS` blocks: what `padded`
/// returns.
const HALF_BLOCK: usize = BLOCK / 2;

/// Bytes in the smallest block that a counting loop takes.
pub(crate) const HALF_VECTOR: usize = VECTOR / 2;

/// Blocks that are added lane by lane before one horizontal sum: a lane of each is at most 2, so a `u8` lane suffices.
const SUMMED_BLOCKS: usize = 8;

/// The index of no unit: a search for it counts all units, and stops at the end.
const NO_UNIT: usize = usize::MAX;

/// The fewest units that can begin in `SUMMED_BLOCKS` blocks: a unit takes at most three bytes.
const MIN_UNITS_SUMMED: usize = SUMMED_BLOCKS * BLOCK / 3;

/// A byte index, which need not be a boundary, and the number of units of the code points that begin before it.
#[derive(Clone, Copy)]
pub(crate) struct UnitCursor {
    pub(crate) position: usize,
    pub(crate) units: usize,
}

pub(crate) const START: UnitCursor = UnitCursor {
    position: 0,
    units: 0,
};

#[tactic(auto, unfolding(crate::specs::private::UnitsInBytes::utf16_len))]
pub(crate) fn utf16_len_of_byte(byte: u8) -> usize
    ensures { result ≡ utf16_len byte }
{
    usize::from(encoding::begins_code_point(byte)) + usize::from(0xF0 <= byte)
}

#[inline(always)]
fn utf16_len_of_each<const N: usize>(bytes: Simd<u8, N>) -> Simd<u8, N>
    ensures { result ≡ map utf16_len bytes.entry }
{
    let zero = Simd::<u8, N>::splat(0);
    let one = Simd::<u8, N>::splat(1);
    let begins = bytes.simd_lt(Simd::splat(0x80)) | bytes.simd_ge(Simd::splat(0xC0));
    let pairs = bytes.simd_ge(Simd::splat(0xF0));
    begins.select(one, zero).strict_add(pairs.select(one, zero))
}

/// Returns the number of units of the code points that begin in a block: at most 2 per lane, so a `u8` sum suffices.
#[inline(always)]
fn utf16_len_of_block<const N: usize>(bytes: Simd<u8, N>) -> usize
    requires { N ≤ u64.BITS }
    ensures { result ≡ sum_utf16_len bytes.entry }
{
    usize::from(utf16_len_of_each(bytes).strict_reduce_sum())
}

#[inline(always)]
fn utf16_len_of_blocks(bytes: &[u8], position: usize) -> usize
    requires { position + SUMMED_BLOCKS * BLOCK ≤ length bytes.now }
    ensures { result ≡ sum_utf16_len (take (SUMMED_BLOCKS * BLOCK) (drop position bytes.now)) }
{
    let mut lanes = Simd::<u8, BLOCK>::splat(0);
    for block in 0..SUMMED_BLOCKS {
        let bytes = Simd::<u8, BLOCK>::from_slice(&bytes[position + block * BLOCK..]);
        lanes = lanes.strict_add(utf16_len_of_each(bytes));
    }
    usize::from(lanes.cast::<u16>().strict_reduce_sum())
}

/// Moves `from` past `N` bytes, or returns `None` if fewer are left or the unit's code point begins in them.
#[inline(always)]
#[tactic(auto, using(crate::proofs::lemmas::strings::Positions::sum_utf16_len_take_add))]
pub(crate) fn skip_block<const N: usize>(
    bytes: &[u8],
    unit: usize,
    from: UnitCursor,
) -> Option<UnitCursor>
    requires lanes { (0 < N) × (N ≤ u64.BITS) }
    requires counted { IsCursor bytes.now unit from }
    ensures counted { IfSome result (λ cursor. IsCursor bytes.now unit cursor) }
    ensures further { IfSome result (λ cursor. from.position < cursor.position) }
{
    if bytes.len() - from.position < N {
        return None;
    }
    let more = utf16_len_of_block(Simd::<u8, N>::from_slice(&bytes[from.position..]));
    if unit - from.units < more {
        return None;
    }
    Some(UnitCursor {
        position: from.position + N,
        units: from.units + more,
    })
}

/// Skips groups of blocks while the unit is at least `MIN_UNITS_SUMMED` units ahead.
#[inline(always)]
#[tactic(auto, using(crate::proofs::lemmas::strings::Positions::sum_utf16_len_take_add))]
pub(crate) fn skip_summed_blocks(bytes: &[u8], unit: usize, from: UnitCursor) -> UnitCursor
    requires { IsCursor bytes.now unit from }
    ensures { IsCursor bytes.now unit result }
{
    let mut position = from.position;
    let mut units = from.units;
    while SUMMED_BLOCKS * BLOCK <= bytes.len() - position && MIN_UNITS_SUMMED <= unit - units {
        let more = utf16_len_of_blocks(bytes, position);
        if unit - units < more {
            return UnitCursor { position, units };
        }
        units += more;
        position += SUMMED_BLOCKS * BLOCK;
    }
    UnitCursor { position, units }
}

/// Counts fewer than `HALF_BLOCK` bytes as one block, in which each zero after them is a unit.
#[inline(always)]
#[tactic(auto, using(crate::proofs::lemmas::units::CountedParts::sum_utf16_len_padded))]
fn utf16_len_of_few(bytes: &[u8]) -> usize
    requires { length bytes.now < HALF_BLOCK }
    ensures { result ≡ sum_utf16_len bytes.now }
{
    utf16_len_of_block(padded(bytes)) - (HALF_BLOCK - bytes.len())
}

fn count_units(bytes: &[u8]) -> usize
    requires { sum_utf16_len bytes.now < 2 ^ 64 }
    ensures { result ≡ sum_utf16_len bytes.now }
{
    if bytes.len() < HALF_BLOCK {
        return utf16_len_of_few(bytes);
    }
    let cursor = skip_all_blocks(bytes);
    cursor.units + utf16_len_of_few(&bytes[cursor.position..])
}

/// Counts ASCII at the front, a unit a byte, then by `SUMMED_BLOCKS` blocks, then by `HALF_BLOCK` bytes. Not inlined, so
/// that the short path stays small.
#[inline(never)]
fn skip_all_blocks(bytes: &[u8]) -> UnitCursor
    requires { sum_utf16_len bytes.now < 2 ^ 64 }
    ensures counted { IsCursor bytes.now NO_UNIT result }
    ensures few { length bytes.now - result.position < HALF_BLOCK }
{
    let ascii = ascii_front_len(bytes);
    let front = UnitCursor {
        position: ascii,
        units: ascii,
    };
    let from = skip_summed_blocks(bytes, NO_UNIT, front);
    let mut position = from.position;
    let mut units = from.units;
    while HALF_BLOCK <= bytes.len() - position {
        units += utf16_len_of_block(Simd::<u8, HALF_BLOCK>::from_slice(&bytes[position..]));
        position += HALF_BLOCK;
    }
    UnitCursor { position, units }
}

impl<'a> Wtf8<'a> {
    /// The length in 16-bit code units. Linear in the length in bytes.
    pub fn unit_len(&self) -> usize
        ensures { result ≡ length (view_units self.now) }
    {
        match self.len() {
            4..=7 if is_ascii_overlapping::<4>(self.bytes) => self.len(),
            8..=15 if is_ascii_overlapping::<HALF_VECTOR>(self.bytes) => self.len(),
            _ => count_units(self.bytes),
        }
    }
}
