// Encodes short lists of code units on the stack, so that the number of their bytes is known before memory is requested.
ghost use Rattle.std.specs.Prelude.{◌≡◌, ℕ, List, [], true, ◌++◌, ◌+◌, ◌-◌, ◌*◌, ◌^◌, ◌<◌, ◌≤◌, length, take, vec_capacity, IfOk, IsOk, OnErr};
ghost use Rattle.wtf8.specs.CodePoint.{number};
ghost use Rattle.wtf8.specs.Form.{encoding};
ghost use Rattle.wtf8.specs.private.Prefixes.{HasRoomFrom, IsKnownForm, IsReadTo, ReadsOn};

use crate::codec::code_point::{CodePoint, FIRST_LEAD};
use crate::codec::encoding::{four_bytes, three_bytes, two_bytes};
use crate::from_utf16::kernel::MIN_SPARE;
use crate::from_utf16::{Progress, decode, front};
use crate::vec::to_vec_in;
use std::alloc::{AllocError, Allocator};

/// The most units that are encoded one by one. With 12 in place of 8, 12 units that are not ASCII take 1.2 to 1.6 of the
/// instructions, 9 of which one is not ASCII .8 to .9. With 5 in place of 12, as blocks from 6 units on, lists of 6 to 12 units
/// take 1.1 of the time to be pushed and 1.2 as new strings, and 1.9 and 1.8 on x86-64 without SSSE3.
pub(crate) const MAX_ONE_BY_ONE: usize = 8;

/// At least three bytes for each unit, and four for the last code point. A multiple of 16, so that few stores zero them.
const ONE_BY_ONE_BYTES: usize = 32;

/// Writes an array at index `at`. Returns the index after it.
#[inline(always)]
fn write_array<const N: usize>(out: &mut [u8], at: usize, array: [u8; N]) -> usize
    requires { at + N ≤ length out.old }
    ensures end { result ≡ at + N }
    ensures bytes { take result out.new ≡ take at out.old ++ array.entry }
{
    for k in 0..N {
        out[at + k] = array[k];
    }
    at + N
}

/// Writes the encoding of a code point at index `at`. Returns the index after it.
#[inline(always)]
#[tactic(auto, using(crate::proofs::lemmas::codec::Encoding::encoding_one))]
fn write_encoding(out: &mut [u8], at: usize, code_point: CodePoint) -> usize
    requires { at + 4 ≤ length out.old }
    ensures end { result ≡ at + length (encoding (number code_point)) }
    ensures most { result ≤ at + 4 }
    ensures bytes { take result out.new ≡ take at out.old ++ encoding (number code_point) }
{
    let value = code_point.to_u32();
    if value < 0x80 {
        write_array(out, at, [value as u8])
    } else if value < 0x800 {
        write_array(out, at, two_bytes(value))
    } else if value < 0x10000 {
        // Four bytes take one store, and three take three. The fourth is overwritten or cut off.
        let [first, second, third] = three_bytes(value);
        write_array(out, at, [first, second, third, 0]);
        at + 3
    } else {
        write_array(out, at, four_bytes(value))
    }
}

/// Encodes the code point at `from.at` at index `len`. Returns the index after its bytes and how far units are encoded.
#[inline(always)]
pub(crate) fn write_point(
    v: &[u16],
    from: Progress,
    out: &mut [u8],
    len: usize,
) -> (usize, Progress)
    requires within { from.at < length v.now }
    requires room { len + 4 ≤ length out.old }
    ensures order { (from.at < result.1.at) × (result.1.at ≤ length v.now) }
    ensures end { result.0 ≤ len + 3 * (result.1.at - from.at) }
    ensures most { result.0 ≤ len + 4 }
    ensures read { (w : List ℕ) → ReadsOn (w ++ take len out.old) (w ++ take result.0 out.new) v.now from.at from.is_utf8 result.1.at result.1.is_utf8 }
{
    if v[from.at] < FIRST_LEAD {
        // By a call of its own, in which the compiler knows more of the encoded length: 8 units of three bytes take 1.1 without.
        let end = write_encoding(out, len, CodePoint::from_unit(v[from.at]));
        let (at, is_utf8) = (from.at + 1, from.is_utf8);
        return (end, Progress { at, is_utf8 });
    }
    let (code_point, at, is_scalar) = decode::read_point(v, from.at);
    let end = write_encoding(out, len, code_point);
    let is_utf8 = from.is_utf8 & is_scalar;
    (end, Progress { at, is_utf8 })
}

/// Encodes units at the front of `out`, one code point at a time. Returns the number of their bytes, and whether `is_utf8`
/// and none of them is a lone surrogate.
#[inline(always)]
fn write_one_by_one(v: &[u16], is_utf8: bool, out: &mut [u8]) -> (usize, bool)
    requires few { length v.now ≤ MAX_ONE_BY_ONE }
    requires room { ONE_BY_ONE_BYTES ≤ length out.old }
    ensures within { result.0 ≤ length out.new }
    ensures read { (w : List ℕ) → ReadsOn w (w ++ take result.0 out.new) v.now 0 is_utf8 (length v.now) result.1 }
{
    let mut len = 0;
    let mut read = Progress { at: 0, is_utf8 };
    while read.at < v.len() {
        (len, read) = write_point(v, read, out, len);
    }
    (len, read.is_utf8)
}

/// Encodes units at the front of `out` in the way that is shorter. Returns the number of their bytes, and whether none of
/// them is a lone surrogate.
#[inline(always)]
fn write_all(v: &[u16], out: &mut [u8]) -> (usize, bool)
    requires room { 3 * length v.now + MIN_SPARE ≤ length out.old }
    ensures within { result.0 ≤ length out.new }
    ensures form { IsKnownForm (take result.0 out.new) v.now result.1 }
{
    if v.len() <= MAX_ONE_BY_ONE {
        return write_one_by_one(v, true, out);
    }
    let (len, read) = front::write_front(v, out);
    (len, read.is_utf8)
}

/// Makes a vector of just the bytes of the units, which are encoded in `N` bytes. Returns whether none of them is a lone
/// surrogate.
#[inline(always)]
pub(crate) fn encode<const N: usize, A: Allocator>(
    alloc: A,
    v: &[u16],
) -> Result<(Vec<u8, A>, bool), AllocError>
    requires bytes { N < 2 ^ 16 }
    requires room { 3 * length v.now + MIN_SPARE ≤ N }
    ensures form { IfOk result (λ r. IsKnownForm r.0.items v.now r.1) }
    ensures empty { v.now ≡ [] → IsOk result }
{
    let mut block = [0; N];
    let (len, is_utf8) = write_all(v, &mut block);
    let bytes = to_vec_in(alloc, &block[..len])?;
    Ok((bytes, is_utf8))
}

/// Appends the bytes of at most `MAX_ONE_BY_ONE` units, after bytes with which they form no pair. Returns whether `is_utf8`
/// and none of them is a lone surrogate. They are encoded on the stack, so that one request is enough.
#[inline(always)]
pub(crate) fn append<A: Allocator>(
    bytes: &mut Vec<u8, A>,
    v: &[u16],
    is_utf8: bool,
) -> Result<bool, AllocError>
    requires few { length v.now ≤ MAX_ONE_BY_ONE }
    ensures ok { IfOk result (λ known. (front : List ℕ) → IsReadTo bytes.old.items front v.now 0 is_utf8 → IsKnownForm bytes.new.items (front ++ v.now) known) }
    ensures kept { OnErr result (bytes.new.items ≡ bytes.old.items) }
    ensures room { HasRoomFrom bytes.old v.now 0 is_utf8 → IsOk result }
    ensures capacity { vec_capacity bytes.old ≤ vec_capacity bytes.new }
{
    let mut block = [0; ONE_BY_ONE_BYTES];
    let (len, is_utf8) = write_one_by_one(v, is_utf8, &mut block);
    bytes.extend_from_slice(&block[..len])?;
    Ok(is_utf8)
}
