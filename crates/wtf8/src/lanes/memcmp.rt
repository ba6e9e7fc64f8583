// Equality, order and first mismatch of byte slices, in SIMD blocks.
ghost use Rattle.std.specs.Cmp.Lexicographic.{pointwise, slice_cmp};
ghost use Rattle.std.specs.Ordering.{nat_cmp};
ghost use Rattle.std.specs.Prelude.{◌≡◌, ◌+◌, ◌*◌, ◌<◌, ◌≤◌, min, length, slice_get, nat_eq};
ghost use Rattle.wtf8.specs.private.Search.{IsFirstIn, NoneIn, DifferAt, IsMismatch, DecidesNone};

use crate::lanes::{BLOCK, STRIDE, VECTOR, lowest_set_lane};
use std::cmp::Ordering;
use std::simd::prelude::*;

/// The most bytes that two vectors cover, and the stride of the search for a mismatch after `skip_equal_strides`.
const TWO_VECTORS: usize = 2 * VECTOR;

/// The most bytes that a vector and two that may overlap cover.
const THREE_VECTORS: usize = 3 * VECTOR;

pub(crate) fn byte_at(bytes: &[u8], at: usize) -> Option<u8>
    ensures { result ≡ slice_get bytes.now at }
{
    bytes.get(at).copied()
}

#[inline(always)]
fn eq_block<const N: usize>(own: &[u8], others: &[u8], at: usize) -> bool
    requires lanes { (0 < N) × (N ≤ u64.BITS) }
    requires room { (at + N ≤ length own.now) × (at + N ≤ length others.now) }
    ensures { DecidesNone (DifferAt own.now others.now) at (at + N) result }
{
    let unlike = Simd::<u8, N>::from_slice(&own[at..]).simd_ne(Simd::from_slice(&others[at..]));
    unlike.to_bitmask() == 0
}

/// The index of the first mismatch in `at..at + N`, or `None`. First tests for equality, which is cheaper.
#[inline(always)]
fn mismatch_in_block<const N: usize>(own: &[u8], others: &[u8], at: usize) -> Option<usize>
    requires lanes { (0 < N) × (N ≤ u64.BITS) }
    requires room { (at + N ≤ length own.now) × (at + N ≤ length others.now) }
    ensures { IsFirstIn (DifferAt own.now others.now) at (at + N) result }
{
    if eq_block::<N>(own, others, at) {
        return None;
    }
    let unlike = Simd::<u8, N>::from_slice(&own[at..]).simd_ne(Simd::from_slice(&others[at..]));
    Some(at + lowest_set_lane(unlike.to_bitmask()))
}

#[inline(always)]
fn eq_overlapping<const N: usize>(own: &[u8], others: &[u8]) -> bool
    requires lanes { (0 < N) × (N ≤ u64.BITS) }
    requires both { length own.now ≡ length others.now }
    requires all { (N ≤ length own.now) × (length own.now ≤ 2 * N) }
    ensures { DecidesNone (DifferAt own.now others.now) 0 (length own.now) result }
{
    eq_block::<N>(own, others, 0) & eq_block::<N>(own, others, own.len() - N)
}

#[inline]
pub(crate) fn eq(own: &[u8], others: &[u8]) -> bool
    ensures { result ≡ pointwise nat_eq own.now others.now }
{
    if own.len() != others.len() {
        return false;
    }
    if own.len() <= VECTOR {
        return eq_up_to_vector(own, others);
    }
    if own.len() <= BLOCK {
        return eq_up_to_block(own, others);
    }
    eq_over_block(own, others)
}

#[inline(always)]
fn eq_up_to_vector(own: &[u8], others: &[u8]) -> bool
    requires few { length own.now ≤ VECTOR }
    requires both { length own.now ≡ length others.now }
    ensures { DecidesNone (DifferAt own.now others.now) 0 (length own.now) result }
{
    if 8 <= own.len() {
        return eq_overlapping::<8>(own, others);
    }
    if 4 <= own.len() {
        return eq_overlapping::<4>(own, others);
    }
    mismatch_bytewise(own, others, own.len()).is_none()
}

#[inline(always)]
fn eq_up_to_block(own: &[u8], others: &[u8]) -> bool
    requires few { (VECTOR < length own.now) × (length own.now ≤ BLOCK) }
    requires both { length own.now ≡ length others.now }
    ensures { DecidesNone (DifferAt own.now others.now) 0 (length own.now) result }
{
    let len = own.len();
    if len <= TWO_VECTORS {
        return eq_overlapping::<VECTOR>(own, others);
    }
    if len <= THREE_VECTORS {
        return eq_block::<TWO_VECTORS>(own, others, 0)
            & eq_block::<VECTOR>(own, others, len - VECTOR);
    }
    eq_overlapping::<TWO_VECTORS>(own, others)
}

/// Not inlined, so that short slices are compared without its saved registers.
#[inline(never)]
fn eq_over_block(own: &[u8], others: &[u8]) -> bool
    requires many { BLOCK < length own.now }
    requires both { length own.now ≡ length others.now }
    ensures { DecidesNone (DifferAt own.now others.now) 0 (length own.now) result }
{
    let len = own.len();
    if len <= STRIDE {
        return eq_block::<BLOCK>(own, others, 0) && eq_block::<BLOCK>(own, others, len - BLOCK);
    }
    mismatch_long(own, others, len).is_none()
}

/// Not inlined, since sorts and maps call it in many places.
#[inline(never)]
pub(crate) fn cmp(own: &[u8], others: &[u8]) -> Ordering
    ensures { result ≡ slice_cmp nat_cmp own.now others.now }
{
    let end = own.len().min(others.len());
    if end <= TWO_VECTORS {
        return cmp_at_mismatch(own, others, mismatch_short(own, others, end));
    }
    cmp_long(own, others, end)
}

/// Not inlined, so that short slices are compared without its saved registers.
#[inline(never)]
fn cmp_long(own: &[u8], others: &[u8], end: usize) -> Ordering
    requires long { TWO_VECTORS < end }
    requires shorter { end ≡ min (length own.now) (length others.now) }
    ensures { result ≡ slice_cmp nat_cmp own.now others.now }
{
    cmp_at_mismatch(own, others, mismatch_long(own, others, end))
}

#[inline(always)]
fn cmp_at_mismatch(own: &[u8], others: &[u8], found: Option<usize>) -> Ordering
    requires { IsFirstIn (DifferAt own.now others.now) 0 (min (length own.now) (length others.now)) found }
    ensures { result ≡ slice_cmp nat_cmp own.now others.now }
{
    match found {
        Some(at) if own[at] < others[at] => Ordering::Less,
        Some(_) => Ordering::Greater,
        None if own.len() > others.len() => Ordering::Greater,
        None if own.len() == others.len() => Ordering::Equal,
        None => Ordering::Less,
    }
}

/// The index of the first mismatch, or the length of the shorter slice if it is a prefix of the other.
#[inline]
pub(crate) fn mismatch(own: &[u8], others: &[u8]) -> usize
    ensures { IsMismatch own.now others.now result }
{
    let end = own.len().min(others.len());
    if end <= TWO_VECTORS {
        return mismatch_short(own, others, end).unwrap_or(end);
    }
    mismatch_long(own, others, end).unwrap_or(end)
}

#[inline(always)]
fn mismatch_short(own: &[u8], others: &[u8], end: usize) -> Option<usize>
    requires short { end ≤ TWO_VECTORS }
    requires room { (end ≤ length own.now) × (end ≤ length others.now) }
    ensures { IsFirstIn (DifferAt own.now others.now) 0 end result }
{
    if VECTOR <= end {
        return mismatch_overlapping::<VECTOR>(own, others, 0, end);
    }
    if 8 <= end {
        return mismatch_overlapping::<8>(own, others, 0, end);
    }
    if 4 <= end {
        return mismatch_overlapping::<4>(own, others, 0, end);
    }
    mismatch_bytewise(own, others, end)
}

/// The first vector is compared first, since many slices differ there. Equal bytes after it are skipped in strides.
#[inline(always)]
fn mismatch_long(own: &[u8], others: &[u8], end: usize) -> Option<usize>
    requires long { TWO_VECTORS < end }
    requires room { (end ≤ length own.now) × (end ≤ length others.now) }
    ensures { IsFirstIn (DifferAt own.now others.now) 0 end result }
{
    if let Some(at) = mismatch_in_block::<VECTOR>(own, others, 0) {
        return Some(at);
    }
    if end <= THREE_VECTORS {
        return mismatch_overlapping::<VECTOR>(own, others, VECTOR, end);
    }
    let at = skip_equal_strides(own, others, end);
    mismatch_in_blocks(own, others, at, end)
}

#[inline(always)]
fn skip_equal_strides(own: &[u8], others: &[u8], end: usize) -> usize
    requires long { VECTOR ≤ end }
    requires room { (end ≤ length own.now) × (end ≤ length others.now) }
    requires same { NoneIn (DifferAt own.now others.now) 0 VECTOR }
    ensures within { result ≤ end }
    ensures same { NoneIn (DifferAt own.now others.now) 0 result }
{
    let mut at = VECTOR;
    while at <= end.saturating_sub(STRIDE)
        && eq_block::<BLOCK>(own, others, at) & eq_block::<BLOCK>(own, others, at + BLOCK)
    {
        at += STRIDE;
    }
    at
}

/// Compares `TWO_VECTORS` bytes at a time. The last `TWO_VECTORS` may overlap equal bytes before them.
#[inline(always)]
fn mismatch_in_blocks(own: &[u8], others: &[u8], from: usize, end: usize) -> Option<usize>
    requires long { TWO_VECTORS ≤ end }
    requires order { from ≤ end }
    requires room { (end ≤ length own.now) × (end ≤ length others.now) }
    requires same { NoneIn (DifferAt own.now others.now) 0 from }
    ensures { IsFirstIn (DifferAt own.now others.now) 0 end result }
{
    let mut at = from;
    while at < end - TWO_VECTORS {
        if let Some(found) = mismatch_in_block::<TWO_VECTORS>(own, others, at) {
            return Some(found);
        }
        at += TWO_VECTORS;
    }
    mismatch_in_block::<TWO_VECTORS>(own, others, end - TWO_VECTORS)
}

#[inline(always)]
fn mismatch_overlapping<const N: usize>(
    own: &[u8],
    others: &[u8],
    from: usize,
    end: usize,
) -> Option<usize>
    requires lanes { (0 < N) × (N ≤ u64.BITS) }
    requires all { (from + N ≤ end) × (end ≤ from + 2 * N) }
    requires room { (end ≤ length own.now) × (end ≤ length others.now) }
    ensures { IsFirstIn (DifferAt own.now others.now) from end result }
{
    if let Some(at) = mismatch_in_block::<N>(own, others, from) {
        return Some(at);
    }
    mismatch_in_block::<N>(own, others, end - N)
}

#[inline(always)]
fn mismatch_bytewise(own: &[u8], others: &[u8], end: usize) -> Option<usize>
    requires { (end ≤ length own.now) × (end ≤ length others.now) }
    ensures { IsFirstIn (DifferAt own.now others.now) 0 end result }
{
    for at in 0..end {
        if own[at] != others[at] {
            return Some(at);
        }
    }
    None
}
