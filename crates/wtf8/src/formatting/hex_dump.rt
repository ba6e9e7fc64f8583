// Bytes as upper-case hexadecimal text.
ghost use Rattle.std.specs.List.{flat_map};
ghost use Rattle.std.specs.Prelude.{◌≡◌, [], ◌∷◌, ◌++◌, ◌+◌, ◌*◌, ◌<◌, ◌≤◌, length, map, vec_len, vec_capacity, IfOk, OnOk, OnErr, IsOk};
ghost use Rattle.std.specs.Simd.Lanes.{Each1};
ghost use Rattle.std.specs.String.{string_bytes};
ghost use Rattle.wtf8.specs.Hex.{digit, hex_of, hex};

use crate::lanes::VECTOR;
use crate::strings::view::Wtf8;
use std::alloc::{AllocError, Allocator};
use std::simd::prelude::*;

/// The length of the text of one vector: a space and two digits for each byte.
const SPACED_LEN: usize = 3 * VECTOR;

const DIGITS: [u8; VECTOR] = *b"0123456789ABCDEF";

/// Shuffle indices: lanes 0 to 7 of the high digits and of the low ones, interleaved; below, lanes 4 to 11 and 8 to 15.
const INTERLEAVE_FRONT: [usize; VECTOR] = [0, 16, 1, 17, 2, 18, 3, 19, 4, 20, 5, 21, 6, 22, 7, 23];

const INTERLEAVE_MID: [usize; VECTOR] = [4, 20, 5, 21, 6, 22, 7, 23, 8, 24, 9, 25, 10, 26, 11, 27];

const INTERLEAVE_BACK: [usize; VECTOR] = [
    8, 24, 9, 25, 10, 26, 11, 27, 12, 28, 13, 29, 14, 30, 15, 31,
];

/// Shuffle indices: bytes 0 to 15 of the spaced text, from the front digits; below, bytes 16 to 31 and 32 to 47, from
/// the middle and back ones, whose lane 0 is the high digit of byte 4 and of byte 8. Index 16 is a space.
const SPACED_FRONT: [usize; VECTOR] = [16, 0, 1, 16, 2, 3, 16, 4, 5, 16, 6, 7, 16, 8, 9, 16];

const SPACED_MID: [usize; VECTOR] = [2, 3, 16, 4, 5, 16, 6, 7, 16, 8, 9, 16, 10, 11, 16, 12];

const SPACED_BACK: [usize; VECTOR] = [5, 16, 6, 7, 16, 8, 9, 16, 10, 11, 16, 12, 13, 16, 14, 15];

#[inline(always)]
#[tactic(auto, using(crate::proofs::lemmas::formatting::HexDigits::digit_at))]
pub(crate) fn upper_digit(value: u8) -> char
    requires { value < 16 }
    ensures digit { result ≡ digit value }
    ensures ascii { result < 128 }
{
    DIGITS[usize::from(value)] as char
}

#[inline(always)]
fn upper_digits(values: u8x16) -> u8x16
    requires { Each1 (λ value. value < 16) values }
    ensures { result ≡ map digit values }
{
    u8x16::from_array(DIGITS).swizzle_dyn(values)
}

#[inline(always)]
#[tactic(auto, using(crate::proofs::lemmas::formatting::HexDigits::highs_below, crate::proofs::lemmas::formatting::HexDigits::lows_below, crate::proofs::lemmas::formatting::HexDigits::block_text))]
fn spaced_block(bytes: u8x16) -> [u8; SPACED_LEN]
    ensures { result ≡ flat_map (λ b. 32 ∷ hex_of b) bytes }
{
    let high = upper_digits(bytes >> u8x16::splat(4));
    let low = upper_digits(bytes & u8x16::splat(15));
    let spaces = u8x16::splat(b' ');
    let front: u8x16 = high.shuffle(low, INTERLEAVE_FRONT);
    let middle: u8x16 = high.shuffle(low, INTERLEAVE_MID);
    let back: u8x16 = high.shuffle(low, INTERLEAVE_BACK);
    let mut text = [0; SPACED_LEN];
    front.shuffle(spaces, SPACED_FRONT).copy_to_slice(&mut text);
    middle
        .shuffle(spaces, SPACED_MID)
        .copy_to_slice(&mut text[VECTOR..]);
    back.shuffle(spaces, SPACED_BACK)
        .copy_to_slice(&mut text[2 * VECTOR..]);
    text
}

#[inline(always)]
fn push_hex_byte<A: Allocator>(text: &mut Vec<u8, A>, byte: u8)
    requires { vec_len text.old + 2 ≤ vec_capacity text.old }
    ensures items { text.new.items ≡ text.old.items ++ hex_of byte }
    ensures capacity { vec_capacity text.new ≡ vec_capacity text.old }
{
    text.push_reserved(upper_digit(byte / 16) as u8);
    text.push_reserved(upper_digit(byte % 16) as u8);
}

#[inline(always)]
fn push_spaced<A: Allocator>(text: &mut Vec<u8, A>, bytes: &[u8])
    requires { vec_len text.old + 3 * length bytes.now ≤ vec_capacity text.old }
    ensures { text.new.items ≡ text.old.items ++ flat_map (λ b. 32 ∷ hex_of b) bytes.now }
{
    for byte in bytes {
        text.push_reserved(b' ');
        push_hex_byte(text, *byte);
    }
}

impl<'a> Wtf8<'a> {
    /// The bytes as hexadecimal text for diagnosis: two upper-case digits each, separated by spaces. An empty string
    /// does not allocate. Linear in the length.
    pub fn hex_dump<A: Allocator>(&self, alloc: A) -> Result<String<A>, AllocError>
        ensures ok { IfOk result (λ t. string_bytes t ≡ hex self.now.bytes.now) }
        ensures empty { self.now.bytes.now ≡ [] → IsOk result }
    {
        let mut text = Vec::with_capacity(alloc, self.bytes.len().saturating_mul(3))?;
        self.append_hex_dump(&mut text)?;
        Ok(unsafe { String::from_utf8_unchecked(text) })
    }

    /// Appends the text of `hex_dump` to a vector of bytes. Reserves three bytes for each byte of the string, and does
    /// not allocate if they fit. If memory is refused, the vector is unchanged. Linear in the length.
    pub fn append_hex_dump<A: Allocator>(&self, text: &mut Vec<u8, A>) -> Result<(), AllocError>
        ensures ok { OnOk result (text.new.items ≡ text.old.items ++ hex self.now.bytes.now) }
        ensures kept { OnErr result (text.new.items ≡ text.old.items) }
        ensures room { vec_len text.old + 3 * length self.now.bytes.now ≤ vec_capacity text.old → IsOk result }
    {
        text.reserve(self.bytes.len().saturating_mul(3))?;
        let Some((first, rest)) = self.bytes.split_first() else {
            return Ok(());
        };
        push_hex_byte(text, *first);
        let mut at = 0;
        while VECTOR <= rest.len() - at {
            let _ = text.extend_from_slice(&spaced_block(u8x16::from_slice(&rest[at..])));
            at += VECTOR;
        }
        push_spaced(text, &rest[at..]);
        Ok(())
    }
}
