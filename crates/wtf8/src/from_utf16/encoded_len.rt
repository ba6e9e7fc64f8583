// Counts the bytes of code units before they are encoded: one for each unit, and those that units from 0x80 on add.
ghost use Rattle.std.specs.Prelude.{◌≡◌, ◌+◌, ◌<◌, ◌≤◌, ℕ, List, length, slice_index, slice_index_or};
ghost use lib.Lanes.{zip2};
ghost use Rattle.wtf8.specs.Form.{IsForm};
ghost use Rattle.wtf8.specs.private.EncodedLengths.{more_bytes, IsCounted};

use crate::codec::code_point::{LEAD_KIND, SURROGATES_PER_HALF, TRAIL_KIND};
use crate::from_utf16::{BLOCK_UNITS, QUARTER_BLOCK};
use std::simd::prelude::*;

/// The most units whose lanes are added before they are summed up: a unit adds at most 2 to a sum of 16 bits.
const SUMMED_UNITS: usize = 16384;

/// The index of the first unit that is not counted, and the number of bytes of the units before it.
#[derive(Clone, Copy)]
pub(crate) struct Counted {
    pub(crate) at: usize,
    pub(crate) len: usize,
}

/// The bytes beyond one that each unit adds before the unit in the same lane of `next`.
#[inline(always)]
fn more_bytes_of_each<const N: usize>(units: Simd<u16, N>, next: Simd<u16, N>) -> Simd<u16, N>
    ensures { result ≡ zip2 more_bytes units.entry next.entry }
{
    let zero = Simd::<u16, N>::splat(0);
    let one = Simd::<u16, N>::splat(1);
    let per_half = Simd::<u16, N>::splat(SURROGATES_PER_HALF);
    let leads = (units / per_half).simd_eq(Simd::splat(LEAD_KIND));
    let trails = (next / per_half).simd_eq(Simd::splat(TRAIL_KIND));
    let second = (units / Simd::splat(0x80)).simd_min(one);
    let third = (units / Simd::splat(0x800)).simd_min(one);
    (leads & trails).select(zero, second + third)
}

/// Counts blocks of `N` units, as long as a unit follows each and they are at most `SUMMED_UNITS`.
#[inline(always)]
fn count_blocks<const N: usize>(units: &[u16], from: Counted) -> Counted
    requires lanes { (0 < N) × (N ≤ 16) }
    requires left { from.at + N < length units.now }
    requires counted { IsCounted units.now from }
    ensures counted { IsCounted units.now result }
    ensures order { from.at < result.at }
{
    let end = (units.len() - 1).min(from.at + SUMMED_UNITS);
    let mut at = from.at;
    let mut lanes = Simd::<u16, N>::splat(0);
    while N <= end - at {
        let block = Simd::<u16, N>::from_slice(&units[at..]);
        let next = Simd::<u16, N>::from_slice(&units[at + 1..]);
        lanes = lanes.strict_add(more_bytes_of_each(block, next));
        at += N;
    }
    Counted {
        at,
        len: from.len + (at - from.at) + usize::from(lanes.strict_reduce_sum()),
    }
}

/// The bytes beyond one that the unit at index `at` adds.
#[inline(always)]
fn more_bytes_at(units: &[u16], at: usize) -> usize
    requires { at < length units.now }
    ensures { result ≡ more_bytes (slice_index units.now at) (slice_index_or units.now (at + 1) 0) }
{
    let unit = units[at];
    if unit < 0x80 {
        return 0;
    }
    if unit < 0x800 {
        return 1;
    }
    if unit / SURROGATES_PER_HALF == LEAD_KIND && at + 1 < units.len() {
        if units[at + 1] / SURROGATES_PER_HALF == TRAIL_KIND {
            return 0;
        }
    }
    2
}

/// The number of bytes of the string with the code units `units`, paired or not: one for each unit below 0x80, two for
/// each other one below 0x800, four for each surrogate pair, and three for any other unit. Linear in the number of
/// units.
pub fn encoded_len(units: &[u16]) -> usize
    ensures { (w : List ℕ) → IsForm w units.now → result ≡ length w }
{
    let mut counted = Counted { at: 0, len: 0 };
    while BLOCK_UNITS < units.len() - counted.at {
        counted = count_blocks::<BLOCK_UNITS>(units, counted);
    }
    if QUARTER_BLOCK < units.len() - counted.at {
        counted = count_blocks::<QUARTER_BLOCK>(units, counted);
    }
    while counted.at < units.len() {
        counted = Counted {
            at: counted.at + 1,
            len: counted.len + 1 + more_bytes_at(units, counted.at),
        };
    }
    counted.len
}
