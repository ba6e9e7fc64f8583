// Encodes code units in steps, by what the next units are: an ASCII run and the code point after it, blocks of `kernel`,
// or one code point. `decode_utf16` decodes the last ones, fewer than `QUARTER_BLOCK`.
ghost use Rattle.std.specs.Prelude.{◌≡◌, ℕ, List, [], ◌++◌, ◌+◌, ◌<◌, ◌≤◌, ◌⊎◌, length, take, drop, vec_capacity, IfOk, IsOk};
ghost use Rattle.wtf8.specs.private.Prefixes.{IsKnownForm, IsReadTo, ReadsOn, HasRoomFrom};
ghost use Rattle.wtf8.specs.private.Search.{IsNonAsciiMask};

use crate::codec::code_point::CodePoint;
use crate::codec::encoding;
use crate::from_utf16::kernel::{self, MIN_SPARE};
use crate::from_utf16::room::{Growth, make_room, may_be_ascii, reserve_ascii};
use crate::from_utf16::short_ascii::{self, are_ends_ascii, is_short_ascii, push_ends};
use crate::from_utf16::sparse::{SPARSE_SPARE, append_sparse, is_two_or_three_bytes};
use crate::from_utf16::{Progress, QUARTER_BLOCK, TWO_BLOCKS, decode, on_stack};
use crate::lanes::ascii::{first_not_ascii, narrow_saturating};
use crate::vec::spare_capacity;
use std::alloc::{AllocError, Allocator};
use std::simd::prelude::*;

/// With at least this number of groups of units side by side that are not ASCII, among `TWO_BLOCKS` units, blocks are
/// cheaper than runs. With 3 in place of 2, an accent in 13 letters takes 1.3 to 1.5 of the time. If a pair
/// counted as two, one in 23 units would take twice the time.
const MIN_GROUPS_FOR_BLOCKS: u32 = 2;

/// If at most this number of `TWO_BLOCKS` units are not ASCII, each is encoded by itself, at the index that their mask
/// gives. With 4 in place of 3, two side by side after each 14 ASCII units take 1.4 to 1.6 of the time.
const MAX_SPARSE: u32 = 3;

/// The size in bytes of the kernel's scratch buffer while `TWO_BLOCKS` or more units are left: room for ten blocks.
const SCRATCH_BYTES: usize = 512;

/// The scratch buffer's size for fewer than `TWO_BLOCKS` units: room for two blocks, since it is zeroed first.
const SHORT_SCRATCH_BYTES: usize = 112;

/// The size in bytes of the scratch buffer of a new string of fewer than `TWO_BLOCKS` units: a multiple of 16, so that few
/// stores zero it.
const SHORT_BYTES: usize = 160;

/// The most units of a new string that are encoded on the stack unless the first `2 * TWO_BLOCKS` are ASCII: counting them
/// first takes a tenth to a third more instructions.
const STACK_UNITS: usize = 128;

/// The size in bytes of their scratch buffer.
const STACK_BYTES: usize = 448;

/// The most bytes of a code point.
pub(crate) const MAX_POINT_BYTES: usize = 4;

/// The most bytes that a code unit adds.
const MAX_UNIT_BYTES: usize = 3;

#[inline(always)]
fn append_point<A: Allocator>(
    bytes: &mut Vec<u8, A>,
    v: &[u16],
    from: Progress,
    growth: Growth,
) -> Result<Progress, AllocError>
    requires within { from.at < length v.now }
    ensures order { IfOk result (λ to. (from.at < to.at) × (to.at ≤ length v.now)) }
    ensures read { IfOk result (λ to. ReadsOn bytes.old.items bytes.new.items v.now from.at from.is_utf8 to.at to.is_utf8) }
    ensures begins { take (length bytes.old.items) bytes.new.items ≡ bytes.old.items }
    ensures room { HasRoomFrom bytes.old v.now from.at from.is_utf8 → IsOk result }
    ensures capacity { vec_capacity bytes.old ≤ vec_capacity bytes.new }
{
    make_room(bytes, v, from.at, 0, MAX_POINT_BYTES, growth)?;
    let (code_point, at, is_scalar) = decode::read_point(v, from.at);
    encoding::append(bytes, code_point)?;
    let is_utf8 = from.is_utf8 & is_scalar;
    Ok(Progress { at, is_utf8 })
}

/// Appends the ASCII run in the next `N` units, or nothing if the spare capacity is less. Returns how far units are
/// encoded, and the mask of the units that are not ASCII, or 0 if there is no room.
#[inline(always)]
fn append_front<const N: usize, A: Allocator>(
    bytes: &mut Vec<u8, A>,
    v: &[u16],
    from: Progress,
) -> Result<(Progress, u64), AllocError>
    requires lanes { (0 < N) × (N ≤ u64.BITS) }
    requires within { from.at + N ≤ length v.now }
    ensures order { IfOk result (λ r. (from.at ≤ r.0.at) × (r.0.at ≤ from.at + N)) }
    ensures read { IfOk result (λ r. ReadsOn bytes.old.items bytes.new.items v.now from.at from.is_utf8 r.0.at r.0.is_utf8) }
    ensures begins { take (length bytes.old.items) bytes.new.items ≡ bytes.old.items }
    ensures non_ascii { IfOk result (λ r. (r.1 ≡ 0) ⊎ IsNonAsciiMask r.1 (take N (drop from.at v.now))) }
    ensures room { HasRoomFrom bytes.old v.now from.at from.is_utf8 → IsOk result }
    ensures capacity { vec_capacity bytes.old ≤ vec_capacity bytes.new }
{
    if spare_capacity(bytes) < N {
        // The `N` units do not fit, since each takes a byte or more. The code point that the caller appends grows the
        // buffer, so that the store below never does: long ASCII takes 0.97 of the instructions so.
        return Ok((from, 0));
    }
    let block = narrow_saturating(Simd::<u16, N>::from_slice(&v[from.at..]));
    let len = bytes.len();
    bytes.extend_from_slice(&block.to_array())?;
    let Some(count) = first_not_ascii(block) else {
        // By a constant: the next load does not wait for the mask of this block.
        let to = Progress {
            at: from.at + N,
            is_utf8: from.is_utf8,
        };
        return Ok((to, 0));
    };
    bytes.truncate(len + count);
    let to = Progress {
        at: from.at + count,
        is_utf8: from.is_utf8,
    };
    Ok((to, block.simd_ge(Simd::splat(0x80)).to_bitmask()))
}

/// Appends ASCII by blocks of `TWO_BLOCKS` units, as long as a block is all ASCII and the next one begins with ASCII.
/// Returns the index of the last block's first unit, and what `append_front` returns of that block. Without this loop each
/// block is a turn of the loop in `append_utf16`, and long ASCII takes 1.2 of the instructions.
#[inline(always)]
fn append_ascii_blocks<A: Allocator>(
    bytes: &mut Vec<u8, A>,
    v: &[u16],
    from: Progress,
) -> Result<(usize, Progress, u64), AllocError>
    requires within { from.at + TWO_BLOCKS ≤ length v.now }
    ensures order { IfOk result (λ r. (from.at ≤ r.0) × (r.0 ≤ r.1.at) × (r.1.at ≤ r.0 + TWO_BLOCKS) × (r.0 + TWO_BLOCKS ≤ length v.now)) }
    ensures read { IfOk result (λ r. ReadsOn bytes.old.items bytes.new.items v.now from.at from.is_utf8 r.1.at r.1.is_utf8) }
    ensures begins { take (length bytes.old.items) bytes.new.items ≡ bytes.old.items }
    ensures non_ascii { IfOk result (λ r. (r.2 ≡ 0) ⊎ IsNonAsciiMask r.2 (take TWO_BLOCKS (drop r.0 v.now))) }
    ensures room { HasRoomFrom bytes.old v.now from.at from.is_utf8 → IsOk result }
    ensures capacity { vec_capacity bytes.old ≤ vec_capacity bytes.new }
{
    let mut read = from;
    loop {
        let (to, non_ascii) = append_front::<TWO_BLOCKS, A>(bytes, v, read)?;
        let is_full = non_ascii == 0 && to.at != read.at;
        if !is_full || v.len() - to.at < 2 * TWO_BLOCKS || 0x80 <= v[to.at] {
            return Ok((read.at, to, non_ascii));
        }
        read = to;
    }
}

/// Appends the units from index `from.at` on, if they are `TWO_BLOCKS` or more and fewer than twice that, all ASCII, and fit the
/// spare capacity. Returns how far units are encoded. So ASCII ends with one step, whatever its length.
#[inline(always)]
fn append_ascii_end<A: Allocator>(bytes: &mut Vec<u8, A>, v: &[u16], from: Progress) -> Progress
    requires within { from.at ≤ length v.now }
    ensures order { (from.at ≤ result.at) × (result.at ≤ length v.now) }
    ensures read { ReadsOn bytes.old.items bytes.new.items v.now from.at from.is_utf8 result.at result.is_utf8 }
    ensures begins { take (length bytes.old.items) bytes.new.items ≡ bytes.old.items }
    ensures capacity { vec_capacity bytes.old ≤ vec_capacity bytes.new }
{
    let units = &v[from.at..];
    if units.len() < TWO_BLOCKS || 2 * TWO_BLOCKS <= units.len() {
        return from;
    }
    if spare_capacity(bytes) < units.len() || !are_ends_ascii::<TWO_BLOCKS>(units) {
        return from;
    }
    push_ends::<TWO_BLOCKS, A>(bytes, units);
    Progress {
        at: v.len(),
        is_utf8: from.is_utf8,
    }
}

/// Takes a step while `TWO_BLOCKS` or more units are left.
#[inline(always)]
fn append_next<A: Allocator>(
    bytes: &mut Vec<u8, A>,
    v: &[u16],
    from: Progress,
    growth: Growth,
) -> Result<Progress, AllocError>
    requires within { from.at + TWO_BLOCKS ≤ length v.now }
    ensures order { IfOk result (λ to. (from.at < to.at) × (to.at ≤ length v.now)) }
    ensures read { IfOk result (λ to. ReadsOn bytes.old.items bytes.new.items v.now from.at from.is_utf8 to.at to.is_utf8) }
    ensures begins { take (length bytes.old.items) bytes.new.items ≡ bytes.old.items }
    ensures room { HasRoomFrom bytes.old v.now from.at from.is_utf8 → IsOk result }
    ensures capacity { vec_capacity bytes.old ≤ vec_capacity bytes.new }
{
    let mut to = from;
    if v[from.at] < 0x80 {
        // With this test in `append_front` alone, emoji in ASCII take 5% more instructions.
        if spare_capacity(bytes) < TWO_BLOCKS {
            return append_point(bytes, v, from, growth);
        }
        let (at, front, non_ascii) = append_ascii_blocks(bytes, v, from)?;
        to = front;
        if to.at == at + TWO_BLOCKS {
            return Ok(append_ascii_end(bytes, v, to));
        }
        let are_sparse = non_ascii != 0 && non_ascii.count_ones() <= MAX_SPARSE;
        if are_sparse && is_two_or_three_bytes(v[to.at]) && 2 * TWO_BLOCKS <= v.len() - at {
            if SPARSE_SPARE <= spare_capacity(bytes) {
                return Ok(append_sparse(bytes, v, to, at, non_ascii));
            }
        }
        let groups = (non_ascii & !(non_ascii << 1)).count_ones();
        if groups < MIN_GROUPS_FOR_BLOCKS || v.len() - to.at < QUARTER_BLOCK {
            return append_point(bytes, v, to, growth);
        }
    } else if v[from.at + 1] < 0x80 || v[from.at + 2] < 0x80 {
        // ASCII that follows soon is most often a run: encode one code point, and leave the run to a later step.
        return append_point(bytes, v, from, growth);
    }
    kernel::append_blocks::<SCRATCH_BYTES, A>(bytes, v, to, growth)
}

/// `decode_utf16` joins each pair, so it yields no trail directly after a lead, and `append` has nothing to join.
#[inline(always)]
fn append_rest<A: Allocator>(
    bytes: &mut Vec<u8, A>,
    v: &[u16],
    from: Progress,
) -> Result<bool, AllocError>
    requires within { from.at ≤ length v.now }
    ensures ok { IfOk result (λ known. (front : List ℕ) → IsReadTo bytes.old.items front v.now from.at from.is_utf8 → IsKnownForm bytes.new.items (front ++ v.now) known) }
    ensures begins { take (length bytes.old.items) bytes.new.items ≡ bytes.old.items }
    ensures room { HasRoomFrom bytes.old v.now from.at from.is_utf8 → IsOk result }
    ensures capacity { vec_capacity bytes.old ≤ vec_capacity bytes.new }
{
    let mut is_utf8 = from.is_utf8;
    for item in decode::decode_utf16(v[from.at..].iter().copied()) {
        match item {
            Ok(character) => encoding::append(bytes, CodePoint::from_char(character))?,
            Err(surrogate) => {
                is_utf8 = false;
                encoding::append(bytes, CodePoint::from_unit(surrogate))?;
            }
        }
    }
    Ok(is_utf8)
}

/// Appends the bytes of all units from index `from.at` on, after bytes with which they form no pair. Returns whether
/// `from.is_utf8` and none of them is a lone surrogate. If memory is refused, more bytes may have been appended.
pub(crate) fn append_utf16<A: Allocator>(
    bytes: &mut Vec<u8, A>,
    v: &[u16],
    from: Progress,
    growth: Growth,
) -> Result<bool, AllocError>
    requires within { from.at ≤ length v.now }
    ensures ok { IfOk result (λ known. (front : List ℕ) → IsReadTo bytes.old.items front v.now from.at from.is_utf8 → IsKnownForm bytes.new.items (front ++ v.now) known) }
    ensures begins { take (length bytes.old.items) bytes.new.items ≡ bytes.old.items }
    ensures room { HasRoomFrom bytes.old v.now from.at from.is_utf8 → IsOk result }
    ensures capacity { vec_capacity bytes.old ≤ vec_capacity bytes.new }
{
    reserve_ascii(bytes, v, from.at)?;
    let mut read = from;
    while TWO_BLOCKS <= v.len() - read.at {
        read = append_next(bytes, v, read, growth)?;
    }
    while QUARTER_BLOCK <= v.len() - read.at {
        read = kernel::append_blocks::<SHORT_SCRATCH_BYTES, A>(bytes, v, read, growth)?;
    }
    if read.at == v.len() {
        return Ok(read.is_utf8);
    }
    make_room(
        bytes,
        v,
        read.at,
        0,
        MAX_UNIT_BYTES * (v.len() - read.at),
        growth,
    )?;
    append_rest(bytes, v, read)
}

/// Makes a vector of the bytes of all units. Returns whether none of them is a lone surrogate.
#[inline(always)]
pub(crate) fn encode<A: Allocator>(alloc: A, v: &[u16]) -> Result<(Vec<u8, A>, bool), AllocError>
    ensures form { IfOk result (λ r. IsKnownForm r.0.items v.now r.1) }
    ensures empty { v.now ≡ [] → IsOk result }
{
    if is_short_ascii(v) {
        let narrowed = short_ascii::encode(alloc, v)?;
        return Ok((narrowed, true));
    }
    if v.len() < TWO_BLOCKS {
        return on_stack::encode::<SHORT_BYTES, A>(alloc, v);
    }
    if v.len() < 2 * TWO_BLOCKS
        || v.len() <= STACK_UNITS && !are_ends_ascii::<TWO_BLOCKS>(&v[..2 * TWO_BLOCKS])
    {
        return on_stack::encode::<STACK_BYTES, A>(alloc, v);
    }
    let room = if may_be_ascii(v) { v.len() } else { 0 };
    let mut bytes = Vec::with_capacity(alloc, room)?;
    let start = Progress {
        at: 0,
        is_utf8: true,
    };
    let is_utf8 = append_utf16(&mut bytes, v, start, Growth::Exact)?;
    Ok((bytes, is_utf8))
}
