// ASCII in blocks of bytes: whether all bytes are ASCII, and how many at the front are.
ghost use Rattle.std.specs.Prelude.{◌≡◌, ℕ, ◌*◌, ◌<◌, ◌≤◌, length, map, min, take, slice_index, IsTrue, IfNone, IfSome};
ghost use Rattle.wtf8.specs.private.Prefixes.{AreAscii};

use crate::lanes::{BLOCK, first_set_lane};
use std::simd::prelude::*;

/// Units narrowed to bytes. A unit above 0xFF becomes 0xFF, so that it is not ASCII.
#[inline(always)]
pub(crate) fn narrow_saturating<const N: usize>(units: Simd<u16, N>) -> Simd<u8, N>
    ensures { result ≡ map (λ unit. min unit 0xFF) units.entry }
{
    units.simd_min(Simd::splat(0xFF)).cast::<u8>()
}

/// Returns the index of the first byte that is not ASCII, or `None` if all are.
#[inline(always)]
pub(crate) fn first_not_ascii<const N: usize>(bytes: Simd<u8, N>) -> Option<usize>
    requires { N ≤ u64.BITS }
    ensures none { IfNone result (AreAscii bytes.entry) }
    ensures some { IfSome result (λ n. (n < N) × AreAscii (take n bytes.entry)) }
{
    first_set_lane(bytes.simd_ge(Simd::splat(0x80)).to_bitmask())
}

#[inline(always)]
pub(crate) fn ascii_run_len<const N: usize>(bytes: Simd<u8, N>) -> usize
    requires { N ≤ u64.BITS }
    ensures within { result ≤ N }
    ensures ascii { AreAscii (take result bytes.entry) }
{
    first_not_ascii(bytes).unwrap_or(N)
}

#[inline(always)]
pub(crate) fn is_ascii_block<const N: usize>(bytes: Simd<u8, N>) -> bool
    requires { N ≤ u64.BITS }
    ensures { IsTrue result → AreAscii bytes.entry }
{
    bytes.simd_ge(Simd::splat(0x80)).to_bitmask() == 0
}

/// Whether `N` to `2 * N` bytes are all ASCII, by loads of the first and the last `N`, which may overlap.
#[inline(always)]
pub(crate) fn is_ascii_overlapping<const N: usize>(bytes: &[u8]) -> bool
    requires lanes { N ≤ u64.BITS }
    requires all { (N ≤ length bytes.now) × (length bytes.now ≤ 2 * N) }
    ensures { IsTrue result → AreAscii bytes.now }
{
    let last = bytes.len() - N;
    is_ascii_block(Simd::<u8, N>::from_slice(bytes))
        && is_ascii_block(Simd::<u8, N>::from_slice(&bytes[last..]))
}

/// The number of bytes in the whole blocks at the front that are ASCII.
#[inline(always)]
pub(crate) fn ascii_front_len(bytes: &[u8]) -> usize
    ensures within { result ≤ length bytes.now }
    ensures ascii { (k : ℕ) → k < result → slice_index bytes.now k < 0x80 }
{
    let mut at = 0;
    while BLOCK <= bytes.len() - at && is_ascii_block(Simd::<u8, BLOCK>::from_slice(&bytes[at..])) {
        at += BLOCK;
    }
    at
}
