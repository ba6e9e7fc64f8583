// Encodes one code point at the end of a byte vector, and decodes the one at the front of a byte slice.
ghost use Rattle.std.specs.Prelude.{◌≡◌, ◌++◌, ◌+◌, ◌-◌, ◌*◌, ◌/◌, ◌%◌, ◌^◌, ◌<◌, ◌≤◌, ◌↔◌, ◌⊎◌, IsTrue, length, take, slice_index, vec_len, vec_capacity};
ghost use Rattle.wtf8.specs.CodePoint.{number};
ghost use Rattle.wtf8.specs.Form.{encoding};
ghost use Rattle.wtf8.specs.private.EncodedBytes.{BeginsWithPoint, FirstPointIs, BecomesOrKeeps};
ghost use Rattle.wtf8.specs.Unicode.{IsCodePoint, IsLead};
ghost use Rattle.wtf8.specs.private.UnitsInBytes.{trail_from_bytes};

use crate::codec::code_point::CodePoint;
use crate::vec::{reserve_if_short, spare_capacity};
use std::alloc::{AllocError, Allocator};

#[inline(always)]
fn continuation_byte(value: u32) -> u8
    ensures { result ≡ 0x80 + value % 64 }
{
    (0x80 + value % 64) as u8
}

#[tactic(auto, using(crate::proofs::lemmas::codec::Encoding::encoding_two))]
pub(crate) fn two_bytes(value: u32) -> [u8; 2]
    requires low { 0x80 ≤ value }
    requires high { value < 0x800 }
    ensures { result ≡ encoding value }
{
    [(0xC0 + value / 64) as u8, continuation_byte(value)]
}

#[tactic(auto, using(crate::proofs::lemmas::codec::Encoding::encoding_three))]
pub(crate) fn three_bytes(value: u32) -> [u8; 3]
    requires low { 0x800 ≤ value }
    requires high { value < 0x10000 }
    ensures { result ≡ encoding value }
{
    [
        (0xE0 + value / 4096) as u8,
        continuation_byte(value / 64),
        continuation_byte(value),
    ]
}

#[tactic(auto, using(crate::proofs::lemmas::codec::Encoding::encoding_four))]
pub(crate) fn four_bytes(value: u32) -> [u8; 4]
    requires low { 0x10000 ≤ value }
    requires high { IsCodePoint value }
    ensures { result ≡ encoding value }
{
    [
        (0xF0 + value / 262144 % 8) as u8,
        continuation_byte(value / 4096),
        continuation_byte(value / 64),
        continuation_byte(value),
    ]
}

#[inline(always)]
pub(crate) fn append<A: Allocator>(
    bytes: &mut Vec<u8, A>,
    code_point: CodePoint,
) -> Result<(), AllocError>
    ensures { BecomesOrKeeps bytes.old (bytes.old.items ++ encoding (number code_point)) bytes.new result }
{
    let spare = spare_capacity(bytes);
    append_with_spare(bytes, spare, code_point)
}

#[inline(always)]
#[tactic(auto, using(crate::proofs::lemmas::codec::Encoding::encoding_one))]
pub(crate) fn append_with_spare<A: Allocator>(
    bytes: &mut Vec<u8, A>,
    spare: usize,
    code_point: CodePoint,
) -> Result<(), AllocError>
    requires { vec_len bytes.old + spare ≡ vec_capacity bytes.old }
    ensures { BecomesOrKeeps bytes.old (bytes.old.items ++ encoding (number code_point)) bytes.new result }
{
    let value = code_point.to_u32();
    if value < 0x80 {
        reserve_if_short(bytes, spare, 1)?;
        bytes.push_reserved(value as u8);
    } else if value < 0x800 {
        let [first, second] = two_bytes(value);
        reserve_if_short(bytes, spare, 2)?;
        bytes.push_reserved(first);
        bytes.push_reserved(second);
    } else if value < 0x10000 {
        let [first, second, third] = three_bytes(value);
        reserve_if_short(bytes, spare, 3)?;
        bytes.push_reserved(first);
        bytes.push_reserved(second);
        bytes.push_reserved(third);
    } else {
        let [first, second, third, fourth] = four_bytes(value);
        reserve_if_short(bytes, spare, 4)?;
        bytes.push_reserved(first);
        bytes.push_reserved(second);
        bytes.push_reserved(third);
        bytes.push_reserved(fourth);
    }
    Ok(())
}

pub(crate) fn keep_lead<A: Allocator>(bytes: &mut Vec<u8, A>, at: usize, lead: u16)
    requires lead { IsLead lead }
    requires within { at + 3 ≤ length bytes.old.items }
    ensures items { bytes.new.items ≡ take at bytes.old.items ++ encoding lead }
    ensures capacity { vec_capacity bytes.new ≡ vec_capacity bytes.old }
{
    bytes.truncate(at + 3);
    bytes[at..at + 3].copy_from_slice(&three_bytes(u32::from(lead)));
}

pub(crate) fn begins_code_point(byte: u8) -> bool
    ensures { IsTrue result ↔ ((byte < 0x80) ⊎ (0xC0 ≤ byte)) }
{
    byte < 0x80 || 0xC0 <= byte
}

fn payload_bits(byte: u8) -> u32
    requires inside { 0x80 ≤ byte }
    ensures { result + 0x80 ≡ byte }
{
    u32::from(byte - 0x80)
}

#[inline(always)]
pub(crate) fn surrogate_after_ed(second: u8, third: u8) -> u32
    requires second { 0x80 ≤ second }
    requires third { 0x80 ≤ third }
    ensures { result ≡ 0xD000 + (second - 0x80) * 64 + (third - 0x80) }
{
    // The low four bits of ED are the high four of each surrogate.
    0xD000 + u32::from(second - 0x80) * 64 + u32::from(third - 0x80)
}

#[inline(always)]
pub(crate) fn read_two(bytes: &[u8]) -> u32
    requires front { BeginsWithPoint bytes.now }
    requires least { 0x80 ≤ slice_index bytes.now 0 }
    requires most { slice_index bytes.now 0 < 0xE0 }
    ensures read { FirstPointIs bytes.now result 2 }
    ensures one_unit { result < 0x10000 }
{
    (u32::from(bytes[0]) - 0xC0) * 64 + payload_bits(bytes[1])
}

#[inline(always)]
pub(crate) fn read_three(bytes: &[u8]) -> u32
    requires front { BeginsWithPoint bytes.now }
    requires least { 0xE0 ≤ slice_index bytes.now 0 }
    requires most { slice_index bytes.now 0 < 0xF0 }
    ensures read { FirstPointIs bytes.now result 3 }
    ensures one_unit { result < 0x10000 }
{
    let high = (u32::from(bytes[0]) - 0xE0) * 64 + payload_bits(bytes[1]);
    high * 64 + payload_bits(bytes[2])
}

#[inline(always)]
pub(crate) fn read_four(bytes: &[u8]) -> u32
    requires front { BeginsWithPoint bytes.now }
    requires least { 0xF0 ≤ slice_index bytes.now 0 }
    ensures { FirstPointIs bytes.now result 4 }
{
    let high = (u32::from(bytes[0]) - 0xF0) * 64 + payload_bits(bytes[1]);
    let middle = high * 64 + payload_bits(bytes[2]);
    middle * 64 + payload_bits(bytes[3])
}

#[inline(always)]
pub(crate) fn read_lead(bytes: &[u8]) -> u16
    requires front { BeginsWithPoint bytes.now }
    requires least { 0xF0 ≤ slice_index bytes.now 0 }
    ensures { (b : BeginsWithPoint bytes.now) → result ≡ 0xD800 + (b.point - 0x10000) / 0x400 }
{
    let high = (u32::from(bytes[0]) - 0xF0) * 64 + payload_bits(bytes[1]);
    // The lead is 0xD800 + ((code point - 0x10000) >> 10), and 0x10000 >> 10 is 0x40.
    (0xD800 - 0x40 + high * 4 + payload_bits(bytes[2]) / 16) as u16
}

/// The trail surrogate of a supplementary code point; `bytes` begins with the last two bytes of its encoding.
#[inline(always)]
pub(crate) fn read_trail(bytes: &[u8]) -> u16
    requires { 1 < length bytes.now }
    ensures { result ≡ trail_from_bytes (slice_index bytes.now 0) (slice_index bytes.now 1) }
{
    (0xDC00 + u32::from(bytes[0] % 16) * 64 + u32::from(bytes[1] % 64)) as u16
}

/// The code point at the front of `bytes`, which is at byte position `at`, and the position after it: with a length in
/// its place, loops over code points take an instruction more for each.
#[inline(always)]
pub(crate) fn read(bytes: &[u8], at: usize) -> (CodePoint, usize)
    requires front { BeginsWithPoint bytes.now }
    requires within { at + length bytes.now < 2 ^ 64 }
    ensures { (b : BeginsWithPoint bytes.now) → (number result.0 ≡ b.point) × (result.1 ≡ at + length (encoding b.point)) }
{
    let first = bytes[0];
    let (value, after) = if first < 0x80 {
        (u32::from(first), at + 1)
    } else if first < 0xE0 {
        (read_two(bytes), at + 2)
    } else if first < 0xF0 {
        (read_three(bytes), at + 3)
    } else {
        (read_four(bytes), at + 4)
    };
    (CodePoint::from_u32_unchecked(value), after)
}
