// Writes the code units of a view to a slice, and appends them to a vector.
ghost use Rattle.std.specs.Prelude.{◌≡◌, ℕ, List, [], Bool, ◌++◌, ◌+◌, ◌-◌, ◌*◌, ◌/◌, ◌%◌, ◌^◌, ◌<◌, ◌≤◌, length, take, drop, IsOk, OnOk, OnErr, vec_len, vec_capacity};
ghost use lib.Count.{ones};
ghost use lib.Lanes.{mask_l};
ghost use Rattle.wtf8.specs.private.Prefixes.{AreAscii};
ghost use Rattle.wtf8.specs.private.UnitEnds.{picked, words, joined_words};
ghost use Rattle.wtf8.specs.private.EncodedBytes.{BecomesOrKeeps, BeginsWithUnits, Writes};
ghost use Rattle.wtf8.specs.private.UnitsOut.{Decodes, DecodesBlock, HasRoom, HasRoomFrom, IsBlock};
ghost use Rattle.wtf8.specs.View.{view_units};

use crate::codec::encoding::{read_four, read_three};
use crate::lanes::ascii::{ascii_run_len, is_ascii_block, is_ascii_overlapping};
use crate::lanes::padding::padded;
use crate::strings::view::Wtf8;
use crate::units::blocks::{EncodedLength, FourBytes, ThreeBytes, TwoBytes, widen};
use crate::units::packing_table::packing_row;
use crate::units::unit_ends::{POSITIONS, UnitEnds, end_positions, interleave, unit_ends};
use std::alloc::{AllocError, Allocator};
use std::simd::prelude::*;

/// The last bytes of a string, fewer than this number, are decoded to a scratch buffer, and their units copied from there,
/// so that they need not be counted. A block before them leaves at least three times `POSITIONS` bytes, so `POSITIONS`
/// units, since a unit takes at most three bytes: its stores reach no further.
const END_BYTES: usize = 4 * POSITIONS;

/// There are no more units than bytes, and stores of a block reach at most `POSITIONS` units further.
const SCRATCH_UNITS: usize = END_BYTES + POSITIONS;

/// The same for fewer than `POSITIONS` bytes; below, for fewer than `2 * POSITIONS`: 12 Japanese units take .95 of the time.
const BLOCK_SCRATCH: usize = 2 * POSITIONS;

const TWO_BLOCKS_SCRATCH: usize = 3 * POSITIONS;

/// Where units end in 32 bytes of two-byte code points; below, of three-byte and of four-byte ones.
const ENDS_OF_TWOS: u64 = 0xAAAA_AAAA;

const ENDS_OF_THREES: u64 = 0x2492_4924;

const ENDS_OF_FOURS: u64 = 0xCCCC_CCCC;

/// From this number of ASCII bytes at the front of a block on they are decoded apart: else emoji in words take 1.8 of the time.
const MIN_ASCII_FRONT: usize = 12;

/// The part of a view that is not decoded yet, and the index at which its first unit will be written.
#[derive(Clone, Copy)]
struct Undecoded<'a> {
    view: Wtf8<'a>,
    at: usize,
}

/// Writes `N` units from index `at` on. With the store in `write_front` itself, 12 units take 1.7% more instructions.
#[inline(always)]
fn store_units<const N: usize>(units: &mut [u16], at: usize, block: [u16; N])
    requires lanes { N ≤ u64.BITS }
    requires room { at + N ≤ length units.old }
    ensures front { (n : ℕ) → n ≤ N → take (at + n) units.new ≡ take at units.old ++ take n block.entry }
    ensures later { (n : ℕ) → at + N ≤ n → drop n units.new ≡ drop n units.old }
    ensures len { length units.new ≡ length units.old }
{
    Simd::from_array(block).copy_to_slice(&mut units[at..]);
}

/// Writes the units of an ASCII string of `N` to `2 * N` bytes by its first and its last `N` bytes, which may overlap.
/// Returns their number.
#[inline(always)]
fn write_ascii<const N: usize>(out: &mut [u16], view: Wtf8<'_>) -> usize
    requires lanes { N ≤ u64.BITS }
    requires all { (N ≤ length view.bytes.now) × (length view.bytes.now ≤ 2 * N) }
    requires ascii { AreAscii view.bytes.now }
    requires room { length (view_units view) ≤ length out.old }
    ensures units { take result out.new ≡ view_units view.entry }
    ensures rest { drop result out.new ≡ drop result out.old }
    ensures count { result ≡ length (view_units view.entry) }
    ensures len { length out.new ≡ length out.old }
{
    let bytes = view.bytes;
    let last = bytes.len() - N;
    store_units(out, 0, widen(Simd::<u8, N>::from_slice(bytes)));
    store_units(out, last, widen(Simd::<u8, N>::from_slice(&bytes[last..])));
    bytes.len()
}

/// The units of the block after the first `count` are written too, where later units come, or are never read.
#[inline(always)]
fn write_front<'a, const N: usize>(
    units: &mut [u16],
    left: Undecoded<'a>,
    block: [u16; N],
    count: usize,
    width: usize,
) -> Undecoded<'a>
    requires lanes { N ≤ POSITIONS }
    requires room { left.at + N ≤ length units.old }
    requires within { (count ≤ N) × (width ≤ length left.view.bytes.now) }
    requires begins { BeginsWithUnits left.view.bytes.now (take count block) width }
    ensures written { Decodes units.old left.entry units.new result }
    ensures bytes { result.view.bytes.now ≡ drop width left.entry.view.bytes.now }
{
    store_units(units, left.at, block);
    Undecoded {
        view: left.view.skip_bytes(width),
        at: left.at + count,
    }
}

#[inline(always)]
fn store_packed(units: &mut [u16], at: usize, lanes: u8x16, index: usize) -> usize
    requires index { index < 256 }
    requires room { at + 8 ≤ length units.old }
    ensures count { result ≡ at + ones index }
    ensures len { length units.new ≡ length units.old }
    ensures within { result ≤ at + 8 }
    ensures later { (n : ℕ) → at + 8 ≤ n → drop n units.new ≡ drop n units.old }
    ensures written { (s : List Bool) (rest : List ℕ) → length s ≡ 8 → index ≡ mask_l s
        → Writes units.old at (picked (words lanes) s ++ rest) units.new result rest }
{
    let packed = u16x8::from_le_bytes(lanes.swizzle_dyn(packing_row(index)));
    store_units(units, at, packed.to_array());
    at + index.count_ones() as usize
}

#[inline(always)]
fn store_block(units: &mut [u16], at: usize, block: UnitEnds) -> usize
    requires room { at + ones (block.ends % 0x100) + ones (block.ends / 0x100 % 0x100) + ones (block.ends / 0x1_0000 % 0x100) + 8 ≤ length units.old }
    ensures written { (s : List Bool) (rest : List ℕ) → length s ≡ POSITIONS → block.ends ≡ mask_l s
        → Writes units.old at (picked (joined_words block.low block.high) s ++ rest) units.new result rest }
    ensures later { (n : ℕ) → at + POSITIONS ≤ n → drop n units.new ≡ drop n units.old }
{
    let (front, second, third, last) = interleave(block.low, block.high);
    let ends = block.ends as usize;
    let after = store_packed(units, at, front, ends % 0x100);
    let after = store_packed(units, after, second, ends / 0x100 % 0x100);
    let after = store_packed(units, after, third, ends / 0x1_0000 % 0x100);
    store_packed(units, after, last, ends / 0x100_0000 % 0x100)
}

/// Decodes all whole code points of a block. Its last `padding` bytes are zeros after the string, whose units are left
/// out. It needs room for as many units as it has bytes, since each store writes eight.
#[inline(always)]
fn decode_positions<'a>(
    units: &mut [u16],
    left: Undecoded<'a>,
    bytes: u8x32,
    padding: usize,
) -> Undecoded<'a>
    requires room { left.at + POSITIONS ≤ length units.old }
    requires block { IsBlock left.view.bytes.now bytes padding }
    ensures { DecodesBlock units.old left.entry padding units.new result }
{
    let block = unit_ends(bytes);
    let at = store_block(units, left.at, block) - padding;
    let width = (u64::BITS - block.ends.leading_zeros()) as usize - padding;
    Undecoded {
        view: left.view.skip_bytes(width),
        at,
    }
}

/// Decodes what full blocks leave by one more that ends with the string, whose first units are written again, or returns `rest`
/// if there is none. By positions 17 two-byte letters take 1.3 of the instructions of 32. Inlined, long ASCII takes 1.18.
#[inline(never)]
fn decode_end<
    'a,
    const N: usize,
    const BYTES: usize,
    const WIDTH: usize,
    const UNITS: usize,
    K: EncodedLength<N, BYTES, WIDTH, UNITS>,
>(units: &mut [u16], left: Undecoded<'a>, rest: Undecoded<'a>) -> Undecoded<'a>
    requires lanes { (N ≤ POSITIONS) × (0 < WIDTH) }
    requires few { (length rest.view.bytes.now ≤ BYTES) × (BYTES ≤ length left.view.bytes.now) }
    requires back { rest.view.bytes.now ≡ drop (length left.view.bytes.now - length rest.view.bytes.now) left.view.bytes.now }
    requires room { HasRoom units.old rest }
    requires decoded { (before : List ℕ) × (take rest.at units.old ++ view_units rest.view ≡ before ++ view_units left.view) }
    ensures written { Decodes units.old rest.entry units.new result }
    ensures within { length result.view.bytes.now ≤ length rest.entry.view.bytes.now }
{
    let start = left.view.len() - BYTES;
    let decoded = BYTES - rest.view.len();
    if rest.view.is_empty() || decoded % WIDTH != 0 || !left.view.is_code_point_boundary(start) {
        return rest;
    }
    let view = left.view.slice_from(start);
    let Some(block) = K::read(view.bytes) else {
        return rest;
    };
    let at = rest.at - UNITS * (decoded / WIDTH);
    write_front(units, Undecoded { view, at }, block, N, BYTES)
}

/// Decodes full blocks of code points of one encoded length one after another, while `least` bytes are left; and the rest by
/// `decode_end`, if `least` is a block. With blocks down to the last whole one, 24 CJK units take fewer instructions than 17.
#[inline(always)]
fn decode_full_blocks<
    'a,
    const N: usize,
    const BYTES: usize,
    const WIDTH: usize,
    const UNITS: usize,
    K: EncodedLength<N, BYTES, WIDTH, UNITS>,
>(units: &mut [u16], left: Undecoded<'a>, least: usize) -> Undecoded<'a>
    requires lanes { (N ≤ POSITIONS) × (0 < BYTES) × (BYTES ≤ POSITIONS) × (0 < WIDTH) }
    requires least { (POSITIONS ≤ least) × (least ≤ length left.view.bytes.now) }
    requires room { HasRoom units.old left }
    ensures written { Decodes units.old left.entry units.new result }
    ensures within { length result.view.bytes.now ≤ length left.entry.view.bytes.now }
    ensures kept { least ≤ length result.view.bytes.now + POSITIONS }
{
    let mut rest = left;
    while least <= rest.view.len() {
        let Some(block) = K::read(rest.view.bytes) else {
            return rest;
        };
        rest = write_front(units, rest, block, N, BYTES);
    }
    if least == BYTES {
        return decode_end::<N, BYTES, WIDTH, UNITS, K>(units, left, rest);
    }
    rest
}

/// Decodes the front of a string, which its first 32 bytes choose the way for:
///
/// - 32 ASCII bytes, or `MIN_ASCII_FRONT` or more: widened at once. A code point of three or four bytes after these is read
///   alone: by positions emoji in words take 1.6, Chinese in HTML 1.2 of the time;
/// - two-, three- or four-byte code points alone: full blocks of them, and the 32 bytes after these by positions. All by
///   positions take 1.7 to 1.9, four-byte ones 3.5 of the instructions. To choose again after the full blocks takes
///   Japanese 1.08;
/// - any others: all whole code points, by the positions at which units end.
///
/// Code points of one length are told by these positions alone. Those of other lengths that end units at the same ones
/// have no full block, and go by positions too.
#[inline(always)]
fn decode_next<'a>(units: &mut [u16], left: Undecoded<'a>, least: usize) -> Undecoded<'a>
    requires room { HasRoomFrom units.old left least }
    requires least { (POSITIONS ≤ least) × (least ≤ length left.view.bytes.now) }
    ensures written { Decodes units.old left.entry units.new result }
    ensures shorter { length result.view.bytes.now < length left.entry.view.bytes.now }
    ensures kept { least ≤ length result.view.bytes.now + POSITIONS }
{
    let block = u8x32::from_slice(left.view.bytes);
    let count = ascii_run_len(block);
    if count == POSITIONS {
        return write_front(units, left, widen(block), POSITIONS, POSITIONS);
    }
    if MIN_ASCII_FRONT <= count {
        let rest = write_front(units, left, widen(block), count, count);
        let bytes = rest.view.bytes;
        if bytes.len() < least || bytes[0] < 0xE0 {
            return rest;
        }
        if bytes[0] < 0xF0 {
            return write_front(units, rest, [read_three(bytes) as u16], 1, 3);
        }
        // The lead is 0xD800 + (code point - 0x10000) / 0x400.
        let value = read_four(bytes);
        let lead = (0xD7C0 + value / 0x400) as u16;
        let trail = (0xDC00 + value % 0x400) as u16;
        return write_front(units, rest, [lead, trail], 2, 4);
    }
    let rest = match end_positions(block) {
        ENDS_OF_TWOS => decode_full_blocks::<16, 32, 2, 1, TwoBytes>(units, left, least),
        ENDS_OF_THREES => decode_full_blocks::<8, 24, 3, 1, ThreeBytes>(units, left, least),
        ENDS_OF_FOURS => decode_full_blocks::<16, 32, 4, 2, FourBytes>(units, left, least),
        _ => return decode_positions(units, left, block, 0),
    };
    if rest.view.len() < least {
        return rest;
    }
    decode_positions(units, rest, u8x32::from_slice(rest.view.bytes), 0)
}

/// Decodes blocks while `least` bytes are left. Not inlined, so that all callers share the one loop.
#[inline(never)]
fn decode_blocks<'a>(units: &mut [u16], from: usize, view: Wtf8<'a>, least: usize) -> Undecoded<'a>
    requires room { HasRoomFrom units.old (record { view = view; at = from }) least }
    requires least { POSITIONS ≤ least }
    ensures written { Writes units.old from (view_units view.entry) units.new result.at (view_units result.view) }
    ensures few { length result.view.bytes.now < least }
    ensures rest { END_BYTES ≤ least → (n : ℕ) → from + length (view_units view.entry) ≤ n → drop n units.new ≡ drop n units.old }
{
    let mut left = Undecoded { view, at: from };
    while least <= left.view.len() {
        left = decode_next(units, left, least);
    }
    left
}

/// Decodes the last bytes as a block with zeros after them. One CJK unit takes 1.8 of the instructions of a code point read
/// alone, four as many as read one by one, ten half.
#[inline(always)]
fn decode_last<'a>(units: &mut [u16], left: Undecoded<'a>) -> Undecoded<'a>
    requires room { left.at + POSITIONS ≤ length units.old }
    requires few { length left.view.bytes.now < POSITIONS }
    ensures written { Decodes units.old left.entry units.new result }
    ensures all { view_units result.view ≡ [] }
{
    if left.view.is_empty() {
        return left;
    }
    let len = left.view.len();
    let block = padded(left.view.bytes);
    if is_ascii_block(block) {
        return write_front(units, left, widen(block), len, len);
    }
    decode_positions(units, left, block, POSITIONS - len)
}

/// Decodes a string from the front of a slice on, which has room for `POSITIONS` units after it. Not inlined, so that all
/// callers share it. With a call of `decode_blocks` for fewer bytes than a block too, 12 units take 1.1 of the time.
#[inline(never)]
fn decode_with_room(units: &mut [u16], from: usize, view: Wtf8<'_>) -> usize
    requires room { from + length (view_units view) + POSITIONS ≤ length units.old }
    ensures units { take result units.new ≡ take from units.old ++ view_units view.entry }
    ensures index { result ≡ from + length (view_units view.entry) }
    ensures later { (n : ℕ) → result + POSITIONS ≤ n → drop n units.new ≡ drop n units.old }
    ensures len { length units.new ≡ length units.old }
{
    let mut left = Undecoded { view, at: from };
    if POSITIONS <= view.len() {
        left = decode_blocks(units, from, view, POSITIONS);
    }
    decode_last(units, left).at
}

/// May overwrite up to `POSITIONS` later units.
pub(crate) fn decode_all(units: &mut [u16], from: usize, view: Wtf8<'_>) -> usize
    requires room { from + length (view_units view) ≤ length units.old }
    ensures units { take result units.new ≡ take from units.old ++ view_units view.entry }
    ensures index { result ≡ from + length (view_units view.entry) }
    ensures later { (n : ℕ) → result + POSITIONS ≤ n → drop n units.new ≡ drop n units.old }
    ensures len { length units.new ≡ length units.old }
{
    // There are no more units than bytes.
    prove!(view.len() <= usize::MAX / 2);
    if view.len() + POSITIONS <= units.len() - from {
        return decode_with_room(units, from, view);
    }
    write_all(units, from, view)
}

/// Not inlined, since a caller would pay for the buffer on the stack at each entry.
#[inline(never)]
fn append_short<B: Allocator>(units: &mut Vec<u16, B>, view: Wtf8<'_>) -> Result<(), AllocError>
    requires { length view.bytes.now < END_BYTES }
    ensures { BecomesOrKeeps units.old (units.old.items ++ view_units view.entry) units.new result }
{
    // There are no more units than bytes.
    prove!(view.len() <= SCRATCH_UNITS);
    let mut scratch = [0; SCRATCH_UNITS];
    let count = decode_with_room(&mut scratch, 0, view);
    units.extend_from_slice(&scratch[..count])
}

#[inline(never)]
fn append_counted<B: Allocator>(units: &mut Vec<u16, B>, view: Wtf8<'_>) -> Result<(), AllocError>
    ensures { BecomesOrKeeps units.old (units.old.items ++ view_units view.entry) units.new result }
{
    // There are no more units than bytes.
    prove!(view.len() <= usize::MAX / 2);
    let from = units.len();
    units.resize(from + view.unit_len(), 0)?;
    write_all(units, from, view);
    Ok(())
}

/// Decodes the last bytes to a scratch buffer of `SCRATCH` units, and copies their units.
#[inline(always)]
fn write_end<const SCRATCH: usize>(out: &mut [u16], left: Undecoded<'_>) -> usize
    requires scratch { (length left.view.bytes.now + POSITIONS ≤ SCRATCH) × (SCRATCH < 2 ^ 16) }
    requires room { HasRoom out.old left }
    ensures units { take result out.new ≡ take left.entry.at out.old ++ view_units left.entry.view }
    ensures rest { (n : ℕ) → result ≤ n → drop n out.new ≡ drop n out.old }
    ensures index { result ≡ left.entry.at + length (view_units left.entry.view) }
    ensures len { length out.new ≡ length out.old }
{
    // There are no more units than bytes.
    prove!(left.view.len() <= SCRATCH);
    let mut scratch = [0; SCRATCH];
    let count = decode_with_room(&mut scratch, 0, left.view);
    out[left.at..left.at + count].copy_from_slice(&scratch[..count]);
    left.at + count
}

/// Not inlined, so that `write_units` saves no registers before it chooses.
#[inline(never)]
fn write_all(out: &mut [u16], from: usize, view: Wtf8<'_>) -> usize
    requires { from + length (view_units view) ≤ length out.old }
    ensures units { take result out.new ≡ take from out.old ++ view_units view.entry }
    ensures rest { (n : ℕ) → result ≤ n → drop n out.new ≡ drop n out.old }
    ensures index { result ≡ from + length (view_units view.entry) }
    ensures len { length out.new ≡ length out.old }
{
    if view.len() < POSITIONS {
        return write_end::<BLOCK_SCRATCH>(out, Undecoded { view, at: from });
    }
    if view.len() < 2 * POSITIONS {
        return write_end::<TWO_BLOCKS_SCRATCH>(out, Undecoded { view, at: from });
    }
    let mut left = Undecoded { view, at: from };
    if END_BYTES <= view.len() {
        left = decode_blocks(out, from, view, END_BYTES);
    }
    write_end::<SCRATCH_UNITS>(out, left)
}

impl<'a> Wtf8<'a> {
    /// Writes the 16-bit code units of the string to the front of `out`, which must have room for them, and returns
    /// their number. The rest of `out` is unchanged. There are no more units than bytes. Does not allocate. Linear in
    /// the length.
    pub fn write_units(&self, out: &mut [u16]) -> usize
        requires { length (view_units self.now) ≤ length out.old }
        ensures units { take result out.new ≡ view_units self.now }
        ensures rest { drop result out.new ≡ drop result out.old }
        ensures count { result ≡ length (view_units self.now) }
        ensures len { length out.new ≡ length out.old }
    {
        match self.len() {
            1 if is_ascii_overlapping::<1>(self.bytes) => write_ascii::<1>(out, *self),
            2..=3 if is_ascii_overlapping::<2>(self.bytes) => write_ascii::<2>(out, *self),
            4..=7 if is_ascii_overlapping::<4>(self.bytes) => write_ascii::<4>(out, *self),
            8..=15 if is_ascii_overlapping::<8>(self.bytes) => write_ascii::<8>(out, *self),
            16..=31 if is_ascii_overlapping::<16>(self.bytes) => write_ascii::<16>(out, *self),
            32..=63 if is_ascii_overlapping::<32>(self.bytes) => write_ascii::<32>(out, *self),
            _ => write_all(out, 0, *self),
        }
    }

    /// Appends the 16-bit code units of the string to a vector. Reserves room for them first, and does not allocate if
    /// they fit. If memory is refused, the vector is unchanged. Linear in the length.
    pub fn append_units<B: Allocator>(&self, units: &mut Vec<u16, B>) -> Result<(), AllocError>
        ensures ok { OnOk result (units.new.items ≡ units.old.items ++ view_units self.now) }
        ensures kept { OnErr result (units.new.items ≡ units.old.items) }
        ensures room { vec_len units.old + length (view_units self.now) ≤ vec_capacity units.old → IsOk result }
        ensures capacity { vec_capacity units.old ≤ vec_capacity units.new }
    {
        if self.len() < END_BYTES {
            return append_short(units, *self);
        }
        append_counted(units, *self)
    }
}
