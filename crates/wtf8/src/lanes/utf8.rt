// Tests in SIMD blocks how far bytes are UTF-8: each byte is compared with the three before it.
ghost use Rattle.std.specs.Prelude.{◌≡◌, ◌+◌, ◌-◌, ◌<◌, ◌≤◌, ◌∷◌, ℕ, length, take, drop, get_or, slice_index, Some, MatchResult, IfErr, IfSome, IsTrue};
ghost use Rattle.std.specs.Str.{IsUtf8, IsValidUpTo};
ghost use Rattle.std.specs.Str.Lossy.{utf8_valid_len, utf8_error_len};
ghost use Rattle.wtf8.specs.Utf8Error.{valid_up_to, error_len};
ghost use Rattle.wtf8.specs.private.Prefixes.{AreAscii};
ghost use Rattle.wtf8.specs.private.Utf8Bytes.{MayFollow, FollowsIn, FollowsUpTo};

use crate::lanes::ascii::{ascii_front_len, is_ascii_block, is_ascii_overlapping};
use crate::lanes::first_set_lane;
use crate::lanes::padding::{after_byte, padded};
use crate::lanes::utf8_error::Utf8Error;
use std::simd::prelude::*;
use std::str;

/// The number of bytes that are tested together.
const BLOCK: usize = 32;

/// The number of bytes before a byte that decide whether it may follow them.
const BEFORE: usize = 3;

/// The fewest bytes that hold a block and the bytes before it.
const MIN_LEN: usize = BLOCK + BEFORE;

/// The number of bytes that `near_error` has read one code point at a time.
pub(crate) const NEAR: usize = 16;

/// The most bytes of a code point.
const MAX_POINT_BYTES: usize = 4;

/// The number of lanes of `bytes`, at most `BLOCK`, each of which may follow the bytes in the same lanes of `first`, just
/// before it, `second` and `third`. A byte of A0 or more is wrong after ED, a smaller one after E0; one of 90 or more
/// after F4, a smaller one after F0.
#[inline(always)]
fn follows_in_lanes(third: u8x32, second: u8x32, first: u8x32, bytes: u8x32) -> usize
    ensures within { result ≤ BLOCK }
    ensures follow { (k : ℕ) → k < result → MayFollow (get_or third k 0) (get_or second k 0) (get_or first k 0) (get_or bytes k 0) }
{
    let expected = first.simd_ge(Simd::splat(0xC0))
        | second.simd_ge(Simd::splat(0xE0))
        | third.simd_ge(Simd::splat(0xF0));
    let continues = bytes.simd_ge(Simd::splat(0x80)) & bytes.simd_lt(Simd::splat(0xC0));
    let invalid_lead = bytes.simd_ge(Simd::splat(0xC0)) & bytes.simd_lt(Simd::splat(0xC2))
        | bytes.simd_ge(Simd::splat(0xF5));
    let not_after_three = bytes
        .simd_ge(Simd::splat(0xA0))
        .select(u8x32::splat(0xED), u8x32::splat(0xE0));
    let not_after_four = bytes
        .simd_ge(Simd::splat(0x90))
        .select(u8x32::splat(0xF4), u8x32::splat(0xF0));
    let out_of_range = first.simd_eq(not_after_three) | first.simd_eq(not_after_four);
    let wrong = (expected ^ continues) | invalid_lead | out_of_range;
    first_set_lane(wrong.to_bitmask()).unwrap_or(BLOCK)
}

/// The number of bytes from index `at + BEFORE` on, at most `BLOCK`, each of which may follow the three before it.
#[inline(always)]
fn follows_in_block(bytes: &[u8], at: usize) -> usize
    requires { at + MIN_LEN ≤ length bytes.now }
    ensures within { result ≤ BLOCK }
    ensures follow { FollowsIn bytes.now at (at + result) }
{
    follows_in_lanes(
        u8x32::from_slice(&bytes[at..]),
        u8x32::from_slice(&bytes[at + 1..]),
        u8x32::from_slice(&bytes[at + 2..]),
        u8x32::from_slice(&bytes[at + 3..]),
    )
}

/// The first `BLOCK` bytes; if there are fewer, then zeros.
#[inline(always)]
fn first_block(bytes: &[u8]) -> u8x32
    ensures { (k : ℕ) → k < BLOCK → k < length bytes.now → get_or result k 0 ≡ slice_index bytes.now k }
{
    if bytes.len() < BLOCK {
        return padded(bytes);
    }
    u8x32::from_slice(bytes)
}

/// The number of the first `BLOCK` bytes that may begin a text, if zeros are before them. The vectors of the bytes before
/// each are made in registers: loaded from a copy on the stack, they would wait for its stores.
#[inline(always)]
fn begins_text(bytes: &[u8]) -> usize
    ensures { FollowsUpTo bytes.now result }
{
    let block = first_block(bytes);
    let first = after_byte(0, block);
    let second = after_byte(0, first);
    let third = after_byte(0, second);
    follows_in_lanes(third, second, first, block).min(bytes.len())
}

/// The number of bytes of ASCII in whole blocks at the front, or how many of the first `BLOCK` bytes may begin a text.
#[inline(always)]
fn begins_long_text(bytes: &[u8]) -> usize
    ensures { FollowsUpTo bytes.now result }
{
    match ascii_front_len(bytes) {
        0 => begins_text(bytes),
        ascii => ascii,
    }
}

/// The number of bytes at the front each of which may follow the three before it. The last block, which overlaps the one
/// before it, is tested first: the compiler then keeps the constants of a test in registers throughout the loop.
fn follows_throughout(bytes: &[u8]) -> usize
    requires { MIN_LEN ≤ length bytes.now }
    ensures { FollowsUpTo bytes.now result }
{
    let front = begins_long_text(bytes);
    if front < BLOCK {
        return front;
    }
    let last = bytes.len() - MIN_LEN;
    let end = last + BEFORE + follows_in_block(bytes, last);
    let mut at = front - BEFORE;
    while at < last {
        if is_ascii_block(u8x32::from_slice(&bytes[at..])) {
            at += BLOCK - BEFORE;
        } else {
            let more = follows_in_block(bytes, at);
            if more < BLOCK {
                return at + BEFORE + more;
            }
            at += BLOCK;
        }
    }
    end
}

/// Whether the bytes are all ASCII, of which there are at most 63.
#[inline(always)]
fn is_short_ascii(bytes: &[u8]) -> bool
    ensures { IsTrue result → AreAscii bytes.now }
{
    match bytes.len() {
        1 => is_ascii_overlapping::<1>(bytes),
        2..=3 => is_ascii_overlapping::<2>(bytes),
        4..=7 => is_ascii_overlapping::<4>(bytes),
        8..=15 => is_ascii_overlapping::<8>(bytes),
        16..=31 => is_ascii_overlapping::<16>(bytes),
        32..=63 => is_ascii_overlapping::<32>(bytes),
        _ => false,
    }
}

/// The number of bytes at the front each of which may follow the three before it. Up to three bytes are left to be read
/// one code point at a time.
#[inline(always)]
fn follows_at_front(bytes: &[u8]) -> usize
    ensures { FollowsUpTo bytes.now result }
{
    match bytes.len() {
        ..=BEFORE => 0,
        ..MIN_LEN => begins_text(bytes),
        _ => follows_throughout(bytes),
    }
}

/// The index up to `end` at which a text may end: before a code point that the bytes up to `end` leave unfinished. If
/// they are fewer than three, it is 0.
#[inline(always)]
fn ends_text(bytes: &[u8], end: usize) -> usize
    requires { FollowsUpTo bytes.now end }
    ensures within { result ≤ length bytes.now }
    ensures utf8 { IsUtf8 (take result bytes.now) }
{
    if end < BEFORE {
        return 0;
    }
    if 0xC0 <= bytes[end - 1] {
        end - 1
    } else if 0xE0 <= bytes[end - 2] {
        end - 2
    } else if 0xF0 <= bytes[end - 3] {
        end - 3
    } else {
        end
    }
}

/// Views bytes of which the first `front` are UTF-8 as the text that they are, and reads the others one code point at a
/// time.
fn from_utf8_after(bytes: &[u8], front: usize) -> Result<&str, Utf8Error>
    requires { (front ≤ length bytes.now) × IsUtf8 (take front bytes.now) }
    ensures cases { MatchResult result (λ s. (s.now ≡ bytes.now) × IsUtf8 bytes.now) (λ e. ¬ (IsUtf8 bytes.now) × IsValidUpTo bytes.now (valid_up_to e)) }
    ensures valid_len { IfErr result (λ e. valid_up_to e ≡ utf8_valid_len bytes.now) }
    ensures error_len { IfErr result (λ e. error_len e ≡ utf8_error_len (drop (valid_up_to e) bytes.now)) }
{
    match str::from_utf8(&bytes[front..]) {
        Ok(_) => Ok(unsafe { str::from_utf8_unchecked(bytes) }),
        Err(error) => Err(Utf8Error {
            valid_up_to: front + error.valid_up_to(),
            error_len: error.error_len(),
        }),
    }
}

/// Views bytes as the text that they are in UTF-8, as `str::from_utf8` does, but 32 at a time. The error tells how many
/// bytes at the front are UTF-8, and how many after these are wrong together.
pub fn from_utf8(bytes: &[u8]) -> Result<&str, Utf8Error>
    ensures cases { MatchResult result (λ s. (s.now ≡ bytes.now) × IsUtf8 bytes.now) (λ e. ¬ (IsUtf8 bytes.now) × IsValidUpTo bytes.now (valid_up_to e)) }
    ensures valid_len { IfErr result (λ e. valid_up_to e ≡ utf8_valid_len bytes.now) }
    ensures error_len { IfErr result (λ e. error_len e ≡ utf8_error_len (drop (valid_up_to e) bytes.now)) }
{
    if is_short_ascii(bytes) {
        return Ok(unsafe { str::from_utf8_unchecked(bytes) });
    }
    let front = ends_text(bytes, follows_at_front(bytes));
    if front == bytes.len() {
        return Ok(unsafe { str::from_utf8_unchecked(bytes) });
    }
    from_utf8_after(bytes, front)
}

/// The number of bytes before the first wrong part, and of that part, if std finds it among the first `NEAR` bytes and
/// before the last three of these, which may be the front of a code point.
#[inline(always)]
pub(crate) fn near_error(bytes: &[u8]) -> Option<(usize, usize)>
    ensures valid { IfSome result (λ e. IsValidUpTo bytes.now e.0) }
    ensures wrong { IfSome result (λ e. utf8_error_len (drop e.0 bytes.now) ≡ Some e.1) }
{
    if bytes.len() < NEAR {
        return None;
    }
    let Err(error) = str::from_utf8(&bytes[..NEAR]) else {
        return None;
    };
    let valid = error.valid_up_to();
    if NEAR < valid + MAX_POINT_BYTES {
        return None;
    }
    let Some(wrong) = error.error_len() else {
        return None;
    };
    Some((valid, wrong))
}
