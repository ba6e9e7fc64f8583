// Finds the encodings of surrogates in bytes.
ghost use Rattle.std.specs.Prelude.{◌+◌, ◌<◌, ◌≤◌, length};
ghost use Rattle.wtf8.specs.private.Search.{IsFirst, IsFirstIn, SurrogateAt, SurrogateInLane};

use crate::lanes::first_set_lane;
use crate::lanes::padding::{after_byte, padded};
use std::simd::prelude::*;

/// The least lane that is 0xED in `firsts` and at least 0xA0 in `seconds`: the first two bytes of a surrogate.
#[inline(always)]
fn block(firsts: u8x32, seconds: u8x32) -> Option<usize>
    ensures { IsFirstIn (SurrogateInLane firsts seconds) 0 32 result }
{
    let begin = firsts.simd_eq(Simd::splat(0xED)) & seconds.simd_ge(Simd::splat(0xA0));
    first_set_lane(begin.to_bitmask())
}

#[inline(always)]
fn surrogate_in_block(bytes: &[u8], at: usize) -> Option<usize>
    requires { at + 32 < length bytes.now }
    ensures { IsFirstIn (SurrogateAt bytes.now) at (at + 32) result }
{
    let firsts = u8x32::from_slice(&bytes[at..]);
    let seconds = u8x32::from_slice(&bytes[at + 1..]);
    let lane = block(firsts, seconds)?;
    Some(at + lane)
}

pub(crate) fn next_surrogate(bytes: &[u8], from: usize) -> Option<usize>
    ensures { IsFirst (SurrogateAt bytes.now) from result }
{
    match bytes.len().saturating_sub(from) {
        ..8 => next_surrogate_bytewise(bytes, from),
        8..=32 => surrogate_in_short(bytes, from),
        _ => surrogate_in_long(bytes, from),
    }
}

#[inline(always)]
fn next_surrogate_bytewise(bytes: &[u8], from: usize) -> Option<usize>
    ensures { IsFirst (SurrogateAt bytes.now) from result }
{
    for at in from..bytes.len().saturating_sub(1) {
        if bytes[at] == 0xED && 0xA0 <= bytes[at + 1] {
            return Some(at);
        }
    }
    None
}

/// Searches at most 32 bytes as one block: one by one, 32 take more instructions than 100 in blocks. Zeros follow the
/// second bytes, so no surrogate begins with the last byte.
#[inline(always)]
fn surrogate_in_short(bytes: &[u8], from: usize) -> Option<usize>
    requires some { from < length bytes.now }
    requires few { length bytes.now ≤ from + 32 }
    ensures { IsFirst (SurrogateAt bytes.now) from result }
{
    let seconds = padded(&bytes[from + 1..]);
    let firsts = after_byte(bytes[from], seconds);
    let lane = block(firsts, seconds)?;
    Some(from + lane)
}

/// Searches more than 32 bytes. The last block overlaps the one before it, in which no surrogate begins.
#[inline(always)]
fn surrogate_in_long(bytes: &[u8], from: usize) -> Option<usize>
    requires { from + 32 < length bytes.now }
    ensures { IsFirst (SurrogateAt bytes.now) from result }
{
    let last = bytes.len() - 33;
    let mut at = from;
    while at < last {
        if let Some(found) = surrogate_in_block(bytes, at) {
            return Some(found);
        }
        at += 32;
    }
    surrogate_in_block(bytes, last)
}
