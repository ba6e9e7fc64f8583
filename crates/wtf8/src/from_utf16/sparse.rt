// Encodes a few units that are not ASCII, among ASCII units: units from 80 to D7FF. Their indices are read from a mask, so
// that no load waits for the letter before it.
ghost use Rattle.std.specs.Prelude.{◌≡◌, ◌↔◌, ℕ, List, Bool, ◌++◌, ◌+◌, ◌-◌, ◌*◌, ◌<◌, ◌≤◌, length, take, drop, slice_index, vec_capacity, IsTrue, IfNone, IfSome};
ghost use Rattle.wtf8.specs.Form.{encoding};
ghost use Rattle.wtf8.specs.private.Prefixes.{AreAscii, ReadsOn};
ghost use Rattle.wtf8.specs.private.Search.{IsTwoOrThreeBytes, IsNonAsciiMask};

use crate::codec::code_point::FIRST_LEAD;
use crate::codec::encoding::{three_bytes, two_bytes};
use crate::from_utf16::{Progress, TWO_BLOCKS};
use crate::lanes::ascii::narrow_saturating;
use crate::lanes::first_set_lane;
use crate::vec::push_block;
use std::alloc::Allocator;
use std::simd::prelude::*;

/// The spare capacity that `append_sparse` needs: three bytes for each unit, and a store of all.
pub(crate) const SPARSE_SPARE: usize = 4 * TWO_BLOCKS;

/// Whether a unit is from 80 to D7FF: neither ASCII, nor a surrogate, nor above the surrogates.
#[inline(always)]
pub(crate) fn is_two_or_three_bytes(unit: u16) -> bool
    ensures { IsTrue result ↔ IsTwoOrThreeBytes unit }
{
    0x80 <= unit && unit < FIRST_LEAD
}

#[inline(always)]
fn append_two_or_three_bytes<A: Allocator>(bytes: &mut Vec<u8, A>, unit: u16)
    requires two_or_three_bytes { IsTwoOrThreeBytes unit }
    requires room { length bytes.old.items + 3 ≤ vec_capacity bytes.old }
    ensures items { bytes.new.items ≡ bytes.old.items ++ encoding unit }
    ensures most { length bytes.new.items ≤ length bytes.old.items + 3 }
    ensures capacity { vec_capacity bytes.new ≡ vec_capacity bytes.old }
{
    let value = u32::from(unit);
    if value < 0x800 {
        push_block(bytes, two_bytes(value));
    } else {
        push_block(bytes, three_bytes(value));
    }
}

/// The number of ASCII units from index `at` on before the next unit that is not ASCII, or `None` if the rest is ASCII.
/// `non_ascii` is the mask of `TWO_BLOCKS` units.
#[inline(always)]
fn next_non_ascii(non_ascii: u64, at: usize) -> Option<usize>
    requires { at ≤ TWO_BLOCKS }
    ensures none { (u : List ℕ) → length u ≡ TWO_BLOCKS → IsNonAsciiMask non_ascii u → IfNone result (AreAscii (take (TWO_BLOCKS - at) (drop at u))) }
    ensures some { (u : List ℕ) → length u ≡ TWO_BLOCKS → IsNonAsciiMask non_ascii u → IfSome result (λ n. (at + n < TWO_BLOCKS) × AreAscii (take n (drop at u))) }
{
    first_set_lane(non_ascii >> at)
}

/// Appends the `count` units from index `at` on, which are ASCII, by one store of `TWO_BLOCKS` bytes, whose rest is cut off.
#[inline(always)]
fn append_ascii<A: Allocator>(bytes: &mut Vec<u8, A>, v: &[u16], at: usize, count: usize)
    requires within { at + TWO_BLOCKS ≤ length v.now }
    requires few { count ≤ TWO_BLOCKS }
    requires ascii { AreAscii (take count (drop at v.now)) }
    requires room { length bytes.old.items + TWO_BLOCKS ≤ vec_capacity bytes.old }
    ensures read { (is_utf8 : Bool) → ReadsOn bytes.old.items bytes.new.items v.now at is_utf8 (at + count) is_utf8 }
    ensures begins { take (length bytes.old.items) bytes.new.items ≡ bytes.old.items }
    ensures len { length bytes.new.items ≡ length bytes.old.items + count }
    ensures capacity { vec_capacity bytes.old ≤ vec_capacity bytes.new }
{
    let block = narrow_saturating(Simd::<u16, TWO_BLOCKS>::from_slice(&v[at..]));
    let len = bytes.len();
    bytes.extend_from_slice(&block.to_array()).unwrap();
    bytes.truncate(len + count);
}

/// Appends the unit at `from.at`, the ASCII units after it, the next unit that is not ASCII, and so on, up to index
/// `first + TWO_BLOCKS`, but stops before a unit above D7FF. `non_ascii` is the mask of the units from index `first` on.
#[inline(always)]
pub(crate) fn append_sparse<A: Allocator>(
    bytes: &mut Vec<u8, A>,
    v: &[u16],
    from: Progress,
    first: usize,
    non_ascii: u64,
) -> Progress
    requires order { (first ≤ from.at) × (from.at < first + TWO_BLOCKS) }
    requires within { first + 2 * TWO_BLOCKS ≤ length v.now }
    requires two_or_three_bytes { IsTwoOrThreeBytes (slice_index v.now from.at) }
    requires mask { IsNonAsciiMask non_ascii (take TWO_BLOCKS (drop first v.now)) }
    requires room { length bytes.old.items + SPARSE_SPARE ≤ vec_capacity bytes.old }
    ensures order { (from.at < result.at) × (result.at ≤ length v.now) }
    ensures read { ReadsOn bytes.old.items bytes.new.items v.now from.at from.is_utf8 result.at result.is_utf8 }
    ensures begins { take (length bytes.old.items) bytes.new.items ≡ bytes.old.items }
    ensures capacity { vec_capacity bytes.old ≤ vec_capacity bytes.new }
{
    let mut at = from.at;
    loop {
        append_two_or_three_bytes(bytes, v[at]);
        at += 1;
        let Some(count) = next_non_ascii(non_ascii, at - first) else {
            append_ascii(bytes, v, at, first + TWO_BLOCKS - at);
            return Progress {
                at: first + TWO_BLOCKS,
                is_utf8: from.is_utf8,
            };
        };
        append_ascii(bytes, v, at, count);
        at += count;
        if !is_two_or_three_bytes(v[at]) {
            return Progress {
                at,
                is_utf8: from.is_utf8,
            };
        }
    }
}
