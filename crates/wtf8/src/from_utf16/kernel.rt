// Kernel that encodes sixteen code units at a time, of any kinds. Unit k has three candidate bytes, fk, sk and lk, and
// takes the last one, two or three of them: two if it is a lead or a trail of a pair, half of the pair's four bytes. A
// lone surrogate takes three, by the same formulas as any other unit from 0800 on. Unit k's lanes of 16 bits, where tk
// is 0x80 if it takes three bytes, else 0:
//
//     heads    fk + 256 * sk
//     lasts    lk + 256 * tk
//
// Both are interleaved, four units at a time. The lanes of 8 bits of units 0 to 3, by FIRST_QUARTER:
//
//     f0 s0 l0 t0  f1 s1 l1 t1  f2 s2 l2 t2  f3 s3 l3 t3
//
// A unit's last byte is 0x80 or more if it takes more than one. So the mask of the high bits of `lasts`, lane 0 lowest,
// has two bits for each unit: whether it takes more than one byte, and whether it takes three. It is the index in
// `SHUFFLES` for units 0-3, plus 256 times that for units 4-7, and so on. A row packs the bytes to be written.
#![tactic(auto)]

ghost use Rattle.std.specs.Prelude.{◌≡◌, ◌⊎◌, ℕ, List, Bool, ◌&&◌, ◌+◌, ◌-◌, ◌*◌, ◌%◌, ◌/◌, ◌^◌, ◌<◌, ◌≤◌, ◌++◌, length, map, take, drop, replicate, slice_index_or, vec_capacity, IfOk, IsOk, IsTrue};
ghost use lib.Lanes.{Each1};
ghost use Rattle.wtf8.specs.Unicode.{IsLead, IsUnit};
ghost use Rattle.wtf8.specs.private.Prefixes.{AreScalarUnits, HasRoomFrom, IsKnownForm, ReadsOn};
ghost use Rattle.wtf8.specs.private.PackedUnits.{tagged_units, tagged_block, scalar_head, scalar_last_byte, three_byte_flag, byte_lanes, units_table_index, AreUnitBytes, packed_units};

use crate::codec::code_point::{FIRST_LEAD, LEAD_KIND, SURROGATES_PER_HALF, TRAIL_KIND};
use crate::from_utf16::room::{Growth, make_room};
use crate::from_utf16::{BLOCK_UNITS, HALF_BLOCK, Progress, QUARTER_BLOCK, shuffle_table};
use crate::lanes::ascii::{is_ascii_block, narrow_saturating};
use crate::lanes::padding;
use std::alloc::{AllocError, Allocator};
use std::simd::prelude::*;

/// The bytes that a block needs in the scratch buffer: at most 12 for each of three quarters, then a store of 16.
pub(crate) const MIN_SPARE: usize = 52;

const MAX_BLOCK_BYTES: usize = 3 * BLOCK_UNITS;

/// Shuffle indices: lanes 0 to 3 of two vectors, interleaved; below, lanes 4 to 7, 8 to 11 and 12 to 15.
const FIRST_QUARTER: [usize; 8] = [0, 16, 1, 17, 2, 18, 3, 19];

const SECOND_QUARTER: [usize; 8] = [4, 20, 5, 21, 6, 22, 7, 23];

const THIRD_QUARTER: [usize; 8] = [8, 24, 9, 25, 10, 26, 11, 27];

const FOURTH_QUARTER: [usize; 8] = [12, 28, 13, 29, 14, 30, 15, 31];

/// Lane 0 of another vector, then lanes 0 to 14: each lane has what was in the lane before it.
const LANES_BEFORE: [usize; 16] = [16, 0, 1, 2, 3, 4, 5, 6, 7, 8, 9, 10, 11, 12, 13, 14];

/// Lanes 1 to 15, then lane 0 of another vector: each lane has what was in the lane after it.
const LANES_AFTER: [usize; 16] = [1, 2, 3, 4, 5, 6, 7, 8, 9, 10, 11, 12, 13, 14, 15, 16];

/// Lanes 0 to 7 of two vectors, the second ones after the first ones.
const BOTH_HALVES: [usize; 16] = [0, 1, 2, 3, 4, 5, 6, 7, 8, 9, 10, 11, 12, 13, 14, 15];

/// Lanes 0 to 3 of two vectors, then lanes 4 to 7 of the first, twice.
const BOTH_QUARTERS: [usize; 16] = [0, 1, 2, 3, 8, 9, 10, 11, 4, 5, 6, 7, 4, 5, 6, 7];

/// Heads and lasts of a block's units, and whether none of these is a lone surrogate.
#[derive(Clone, Copy)]
struct UnitBytes {
    heads: u16x16,
    lasts: u16x16,
    is_utf8: bool,
}

/// The number of a block's units that are encoded, the index after their bytes, and whether none is a lone surrogate.
#[derive(Clone, Copy)]
struct Written {
    units: usize,
    end: usize,
    is_utf8: bool,
}

/// Whether none of the units is a surrogate: the high five bits of surrogates, and of no other units, are 11011.
#[inline(always)]
fn are_scalar(units: u16x16) -> bool
    ensures { IsTrue result → AreScalarUnits units }
{
    (units / u16x16::splat(2 * SURROGATES_PER_HALF))
        .simd_eq(u16x16::splat(FIRST_LEAD / (2 * SURROGATES_PER_HALF)))
        .to_bitmask()
        == 0
}

/// For each unit that is no half of a pair the first of three bytes, not used if it takes fewer, plus 256 times the
/// second of three bytes or the first of two, not used for ASCII.
#[inline(always)]
fn scalar_heads(units: u16x16) -> u16x16
    ensures { result ≡ map scalar_head units }
{
    let first_of_two = units
        .simd_lt(u16x16::splat(0x800))
        .select(u16x16::splat(0x4000), u16x16::splat(0));
    let firsts = u16x16::splat(0x80E0) + units / u16x16::splat(4096);
    let middle = units / u16x16::splat(64) % u16x16::splat(64);
    firsts + middle * u16x16::splat(256) + first_of_two
}

/// The last byte of each unit's encoding, for the trail of a pair that of the pair. Not used for the leads of pairs. It
/// is the lesser of the unit and a continuation byte, without a test whether the unit is ASCII.
#[inline(always)]
fn scalar_lasts(units: u16x16) -> u16x16
    ensures { result ≡ map scalar_last_byte units }
{
    units.simd_min(u16x16::splat(0x80) + units % u16x16::splat(64))
}

#[inline(always)]
fn scalar_flags(units: u16x16) -> u16x16
    ensures { result ≡ map three_byte_flag units }
{
    units
        .simd_lt(u16x16::splat(0x800))
        .select(u16x16::splat(0), u16x16::splat(0x8000))
}

#[inline(always)]
fn scalar_unit_bytes(units: u16x16) -> UnitBytes
    requires { AreScalarUnits units }
    ensures bytes { AreUnitBytes (tagged_block units) result.heads result.lasts }
    ensures scalar { Each1 IsUnit (tagged_block units) }
{
    UnitBytes {
        heads: scalar_heads(units),
        lasts: scalar_lasts(units) + scalar_flags(units),
        is_utf8: true,
    }
}

/// The bytes of any block. The second and last bytes of a pair's lead are the first two of the pair's four bytes, and
/// the trail's are the other two, the first with bits of the lead too; their first ones, ED, are not used. All other
/// units have the bytes of scalar values. A lead in the last lane counts as a pair's: the next block encodes it.
#[inline(always)]
fn unit_bytes(units: u16x16) -> UnitBytes
    ensures bytes { AreUnitBytes (tagged_block units) result.heads result.lasts }
    ensures scalar { IsTrue result.is_utf8 → Each1 IsUnit (tagged_block units) }
{
    let kinds = units / u16x16::splat(SURROGATES_PER_HALF);
    let leads = u16x16::splat(LEAD_KIND);
    let trails = u16x16::splat(TRAIL_KIND);
    let kinds_before = kinds.shuffle(u16x16::splat(0), LANES_BEFORE);
    let kinds_after = kinds.shuffle(trails, LANES_AFTER);
    let pair_leads = kinds.simd_eq(leads) & kinds_after.simd_eq(trails);
    let pair_trails = kinds.simd_eq(trails) & kinds_before.simd_eq(leads);
    let halves = pair_leads | pair_trails;
    let surrogates = (units / u16x16::splat(2 * SURROGATES_PER_HALF)).simd_eq(u16x16::splat(
        FIRST_LEAD / (2 * SURROGATES_PER_HALF),
    ));
    // 0x10000 is 64 times `SURROGATES_PER_HALF`: this is the pair's code point without its last ten bits.
    let high = units % u16x16::splat(SURROGATES_PER_HALF) + u16x16::splat(64);
    let lead_heads = u16x16::splat(0xF0ED) + high / u16x16::splat(256) * u16x16::splat(256);
    let lead_lasts = u16x16::splat(0x80) + high / u16x16::splat(4) % u16x16::splat(64);
    let before = units.shuffle(u16x16::splat(0), LANES_BEFORE);
    // In a scalar value's second byte every trail has 11 in the two bits that a pair's trail has of its lead.
    let unset_bits = (u16x16::splat(3) - before % u16x16::splat(4)) * u16x16::splat(4096);
    let no_lead = scalar_heads(units) - pair_trails.select(unset_bits, u16x16::splat(0));
    let flags = halves.select(u16x16::splat(0), scalar_flags(units));
    UnitBytes {
        heads: pair_leads.select(lead_heads, no_lead),
        lasts: pair_leads.select(lead_lasts, scalar_lasts(units)) + flags,
        is_utf8: (surrogates ^ halves).to_bitmask() == 0,
    }
}

#[inline(always)]
fn pack_four(lanes: u8x16, number: usize, scratch: &mut [u8], len: usize) -> usize
    requires number { number < 256 }
    requires room { len + 16 ≤ length scratch.old }
    ensures order { (len ≤ result) × (result ≤ len + 12) }
    ensures bytes { (before : ℕ) (u : List ℕ) → length u ≡ 4 → lanes ≡ byte_lanes before u → number ≡ units_table_index u
        → take result scratch.new ≡ take len scratch.old ++ packed_units before u }
{
    let packed = lanes.swizzle_dyn(shuffle_table::packing_shuffle(number));
    packed.copy_to_slice(&mut scratch[len..]);
    len + shuffle_table::packed_len(number)
}

#[inline(always)]
fn pack_block(units: u16x16, from: UnitBytes, scratch: &mut [u8], len: usize) -> usize
    requires room { len + MIN_SPARE ≤ length scratch.old }
    requires from { AreUnitBytes (tagged_block units) from.heads from.lasts }
    ensures order { (len ≤ result) × (result ≤ len + MAX_BLOCK_BYTES) }
    ensures bytes { take result scratch.new ≡ take len scratch.old ++ packed_units 0 (tagged_block units) }
{
    let first: u16x8 = from.heads.shuffle(from.lasts, FIRST_QUARTER);
    let second: u16x8 = from.heads.shuffle(from.lasts, SECOND_QUARTER);
    let third: u16x8 = from.heads.shuffle(from.lasts, THIRD_QUARTER);
    let fourth: u16x8 = from.heads.shuffle(from.lasts, FOURTH_QUARTER);
    let high_bits = from.lasts.to_le_bytes().simd_ge(u8x32::splat(0x80));
    let rows = high_bits.to_bitmask() as usize;
    let len = pack_four(first.to_le_bytes(), rows % 256, scratch, len);
    let len = pack_four(second.to_le_bytes(), rows / 256 % 256, scratch, len);
    let len = pack_four(third.to_le_bytes(), rows / 65536 % 256, scratch, len);
    pack_four(fourth.to_le_bytes(), rows / 16777216 % 256, scratch, len)
}

/// Encodes a block, without its last unit if that is a lead. Units without a surrogate take the cheaper path. A third
/// path, for lone surrogates without a pair, made letters dearer by 6% and pairs by 8%: all paths share registers and
/// constants.
#[inline(always)]
fn write_block(units: u16x16, scratch: &mut [u8], len: usize) -> Written
    requires room { len + MIN_SPARE ≤ length scratch.old }
    ensures taken { ((result.units ≡ 16) × ¬ (IsLead (slice_index_or units 15 0))) ⊎ ((result.units ≡ 15) × IsLead (slice_index_or units 15 0)) }
    ensures within { result.end ≤ len + MAX_BLOCK_BYTES }
    ensures bytes { take result.end scratch.new ≡ take len scratch.old ++ packed_units 0 (take result.units (tagged_block units)) }
    ensures scalar { IsTrue result.is_utf8 → Each1 IsUnit (tagged_block units) }
{
    if are_scalar(units) {
        let bytes = scalar_unit_bytes(units);
        return Written {
            units: BLOCK_UNITS,
            end: pack_block(units, bytes, scratch, len),
            is_utf8: true,
        };
    }
    let bytes = unit_bytes(units);
    let end = pack_block(units, bytes, scratch, len);
    let is_utf8 = bytes.is_utf8;
    if units.to_array()[BLOCK_UNITS - 1] / SURROGATES_PER_HALF == LEAD_KIND {
        return Written {
            units: BLOCK_UNITS - 1,
            end: end - 2,
            is_utf8,
        };
    }
    Written {
        units: BLOCK_UNITS,
        end,
        is_utf8,
    }
}

/// `write_block`, by one store if the units are ASCII, which is tested if `may_be_ascii`: if the first and the last of them
/// are ASCII. So prose of other letters takes 1.05 of the time, not 1.1, and Chinese and Korean in XML .7 to .8.
#[inline(always)]
fn write_any_block(units: u16x16, may_be_ascii: bool, scratch: &mut [u8], len: usize) -> Written
    requires room { len + MIN_SPARE ≤ length scratch.old }
    ensures taken { ((result.units ≡ 16) × ¬ (IsLead (slice_index_or units 15 0))) ⊎ ((result.units ≡ 15) × IsLead (slice_index_or units 15 0)) }
    ensures within { result.end ≤ len + MAX_BLOCK_BYTES }
    ensures bytes { take result.end scratch.new ≡ take len scratch.old ++ packed_units 0 (take result.units (tagged_block units)) }
    ensures scalar { IsTrue result.is_utf8 → Each1 IsUnit (tagged_block units) }
{
    if may_be_ascii {
        let narrowed = narrow_saturating(units);
        if is_ascii_block(narrowed) {
            narrowed.copy_to_slice(&mut scratch[len..]);
            return Written {
                units: BLOCK_UNITS,
                end: len + BLOCK_UNITS,
                is_utf8: true,
            };
        }
    }
    write_block(units, scratch, len)
}

/// The units from lane `count` on, then zeros.
#[inline(always)]
fn without_first(units: u16x8, count: usize) -> u16x8
    requires { count ≤ HALF_BLOCK }
    ensures { result ≡ drop count units ++ replicate count 0 }
{
    u16x8::from_le_bytes(padding::without_first(units.to_le_bytes(), 2 * count))
}

/// The first `QUARTER_BLOCK` units, then zeros.
#[inline(always)]
fn first_quarter(units: &[u16]) -> u16x8
    requires { QUARTER_BLOCK ≤ length units.now }
    ensures { result ≡ take 4 units.now ++ replicate 4 0 }
{
    u16x4::from_slice(units).shuffle(u16x4::splat(0), [0, 1, 2, 3, 4, 5, 6, 7])
}

/// The units, fewer than `HALF_BLOCK`, then zeros: by loads of the first and the last `QUARTER_BLOCK`, which may overlap.
#[inline(always)]
fn padded_few(units: &[u16]) -> u16x16
    requires least { QUARTER_BLOCK ≤ length units.now }
    requires few { length units.now < HALF_BLOCK }
    ensures { result ≡ units.now ++ replicate (16 - length units.now) 0 }
{
    let last = first_quarter(&units[units.len() - QUARTER_BLOCK..]);
    let rest = without_first(last, HALF_BLOCK - units.len());
    first_quarter(units).shuffle(rest, BOTH_QUARTERS)
}

/// The units from index `at` on, then zeros: by a load of the last `HALF_BLOCK` units of the list, and one from index `at` on
/// if they are no fewer. Stored to the stack and loaded from there, the block would wait for the stores, some 20 ns.
#[inline(always)]
fn padded(v: &[u16], at: usize) -> u16x16
    requires least { at + QUARTER_BLOCK ≤ length v.now }
    requires most { length v.now < at + BLOCK_UNITS }
    ensures { result ≡ drop at v.now ++ replicate (16 - (length v.now - at)) 0 }
{
    if v.len() < HALF_BLOCK {
        return padded_few(&v[at..]);
    }
    let left = v.len() - at;
    let last = u16x8::from_slice(&v[v.len() - HALF_BLOCK..]);
    if left < HALF_BLOCK {
        return without_first(last, HALF_BLOCK - left).shuffle(u16x8::splat(0), BOTH_HALVES);
    }
    let rest = without_first(last, BLOCK_UNITS - left);
    u16x8::from_slice(&v[at..]).shuffle(rest, BOTH_HALVES)
}

/// Encodes the units from index `at` on as a block with zeros after them. A lead before these is lone, and each of them
/// takes one byte, a zero, which is left out. Returns the index after the other bytes, and whether no unit is a lone
/// surrogate.
#[inline(always)]
fn write_last_block(v: &[u16], at: usize, scratch: &mut [u8], len: usize) -> (usize, bool)
    requires least { at + QUARTER_BLOCK ≤ length v.now }
    requires most { length v.now < at + BLOCK_UNITS }
    requires room { len + MIN_SPARE ≤ length scratch.old }
    ensures within { result.0 ≤ len + MAX_BLOCK_BYTES }
    ensures bytes { take result.0 scratch.new ≡ take len scratch.old ++ packed_units 0 (tagged_units 0 (drop at v.now) 0) }
    ensures form { IsKnownForm (packed_units 0 (tagged_units 0 (drop at v.now) 0)) (drop at v.now) result.1 }
{
    let may_be_ascii = (v[at] | v[v.len() - 1]) < 0x80;
    let written = write_any_block(padded(v, at), may_be_ascii, scratch, len);
    let zeros = BLOCK_UNITS - (v.len() - at);
    (written.end - zeros, written.is_utf8)
}

/// Encodes units at index `len`: the number of blocks that has units and room whatever the units are, so that no turn
/// compares either, then `QUARTER_BLOCK` or more that are left at the end. Returns the index after their bytes and how far
/// units are encoded.
#[inline(always)]
pub(crate) fn write_blocks(
    v: &[u16],
    from: Progress,
    out: &mut [u8],
    len: usize,
) -> (usize, Progress)
    requires units { from.at + QUARTER_BLOCK ≤ length v.now }
    requires room { len + MIN_SPARE ≤ length out.old }
    ensures order { from.at < result.1.at }
    ensures within { result.0 ≤ length out.new }
    ensures units { result.1.at ≤ length v.now }
    ensures read { (w : List ℕ) → ReadsOn (w ++ take len out.old) (w ++ take result.0 out.new) v.now from.at from.is_utf8 result.1.at result.1.is_utf8 }
{
    let room = (out.len() - len - MIN_SPARE) / MAX_BLOCK_BYTES + 1;
    let blocks = ((v.len() - from.at) / BLOCK_UNITS).min(room);
    let mut to = from;
    let mut end = len;
    for _ in 0..blocks {
        let may_be_ascii = (v[to.at] | v[to.at + BLOCK_UNITS - 1]) < 0x80;
        let block = u16x16::from_slice(&v[to.at..]);
        let written = write_any_block(block, may_be_ascii, out, end);
        end = written.end;
        to.at += written.units;
        to.is_utf8 &= written.is_utf8;
    }
    let left = v.len() - to.at;
    if QUARTER_BLOCK <= left && left < BLOCK_UNITS && end + MIN_SPARE <= out.len() {
        let (end, is_utf8) = write_last_block(v, to.at, out, end);
        let all = Progress {
            at: v.len(),
            is_utf8: to.is_utf8 & is_utf8,
        };
        return (end, all);
    }
    (end, to)
}

/// Appends blocks through a scratch buffer, until fewer than `QUARTER_BLOCK` are left or ASCII follows a full buffer. A
/// full buffer is appended and filled again, without being zeroed anew.
#[inline(always)]
pub(crate) fn append_blocks<const SCRATCH: usize, A: Allocator>(
    bytes: &mut Vec<u8, A>,
    v: &[u16],
    from: Progress,
    growth: Growth,
) -> Result<Progress, AllocError>
    requires room { (MIN_SPARE ≤ SCRATCH) × (SCRATCH < 2 ^ 16) }
    requires within { from.at + QUARTER_BLOCK ≤ length v.now }
    ensures order { IfOk result (λ to. (from.at < to.at) × (to.at ≤ length v.now)) }
    ensures read { IfOk result (λ to. ReadsOn bytes.old.items bytes.new.items v.now from.at from.is_utf8 to.at to.is_utf8) }
    ensures begins { take (length bytes.old.items) bytes.new.items ≡ bytes.old.items }
    ensures room { HasRoomFrom bytes.old v.now from.at from.is_utf8 → IsOk result }
    ensures capacity { vec_capacity bytes.old ≤ vec_capacity bytes.new }
{
    let mut scratch = [0; SCRATCH];
    let scratch = &mut scratch[..];
    let mut read = from;
    loop {
        let (len, to) = write_blocks(v, read, scratch, 0);
        make_room(bytes, v, to.at, len, len, growth)?;
        bytes.extend_from_slice(&scratch[..len])?;
        read = to;
        if v.len() - read.at < QUARTER_BLOCK || v[read.at] < 0x80 {
            return Ok(read);
        }
    }
}
