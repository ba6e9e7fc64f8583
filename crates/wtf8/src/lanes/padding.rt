// Fewer than 32 bytes as a block, with zeros after them. They are loaded twice, from their front and from their end, and
// put together in registers: stored to the stack and loaded from there, the block would wait for the stores, some 20 ns.
ghost use Rattle.std.specs.Prelude.{◌≡◌, ◌+◌, ◌-◌, ◌*◌, ◌<◌, ◌≤◌, ◌++◌, ◌∷◌, length, take, drop, replicate};

use crate::lanes::VECTOR;
use std::simd::prelude::*;

/// Shuffle indices that move a vector's bytes to its front: those from index `n` on are of bytes `n` to 15, then 128,
/// which stands for a zero.
static BYTE_SHIFTS: [u8; 32] = [
    0, 1, 2, 3, 4, 5, 6, 7, 8, 9, 10, 11, 12, 13, 14, 15, 128, 128, 128, 128, 128, 128, 128, 128,
    128, 128, 128, 128, 128, 128, 128, 128,
];

/// Shuffle indices: two bytes of a vector, then another vector's; below, four and eight bytes, and all.
const AFTER_2: [usize; 16] = [0, 1, 16, 17, 18, 19, 20, 21, 22, 23, 24, 25, 26, 27, 28, 29];

const AFTER_4: [usize; 16] = [0, 1, 2, 3, 16, 17, 18, 19, 20, 21, 22, 23, 24, 25, 26, 27];

const AFTER_8: [usize; 16] = [0, 1, 2, 3, 4, 5, 6, 7, 16, 17, 18, 19, 20, 21, 22, 23];

const AFTER_16: [usize; 32] = [
    0, 1, 2, 3, 4, 5, 6, 7, 8, 9, 10, 11, 12, 13, 14, 15, 16, 17, 18, 19, 20, 21, 22, 23, 24, 25,
    26, 27, 28, 29, 30, 31,
];

/// Shuffle indices: a lane of a vector, then all lanes of another vector but the last.
const AFTER_1: [usize; 32] = [
    0, 32, 33, 34, 35, 36, 37, 38, 39, 40, 41, 42, 43, 44, 45, 46, 47, 48, 49, 50, 51, 52, 53, 54,
    55, 56, 57, 58, 59, 60, 61, 62,
];

/// The bytes from lane `count` on, then zeros.
#[inline(always)]
pub(crate) fn without_first(bytes: u8x16, count: usize) -> u8x16
    requires { count ≤ VECTOR }
    ensures { result ≡ drop count bytes ++ replicate count 0 }
{
    bytes.swizzle_dyn(u8x16::from_slice(&BYTE_SHIFTS[count..]))
}

/// The first `N` bytes, then zeros.
#[inline(always)]
fn first_bytes<const N: usize>(bytes: &[u8]) -> u8x16
    requires { (N ≤ VECTOR) × (N ≤ length bytes.now) }
    ensures { result ≡ take N bytes.now ++ replicate (16 - N) 0 }
{
    let mut block = [0; VECTOR];
    Simd::<u8, N>::from_slice(bytes).copy_to_slice(&mut block);
    u8x16::from_array(block)
}

/// Of `N` to `2 * N` bytes those after the first `N`, then zeros.
#[inline(always)]
fn other_bytes<const N: usize>(bytes: &[u8]) -> u8x16
    requires lanes { N ≤ VECTOR }
    requires all { (N ≤ length bytes.now) × (length bytes.now ≤ 2 * N) }
    ensures { result ≡ drop N bytes.now ++ replicate (16 + N - length bytes.now) 0 }
{
    let last = first_bytes::<N>(&bytes[bytes.len() - N..]);
    without_first(last, 2 * N - bytes.len())
}

/// The bytes, then zeros.
#[inline(always)]
pub(crate) fn padded(bytes: &[u8]) -> u8x32
    requires { length bytes.now < 2 * VECTOR }
    ensures { result ≡ bytes.now ++ replicate (32 - length bytes.now) 0 }
{
    if VECTOR <= bytes.len() {
        return first_bytes::<16>(bytes).shuffle(other_bytes::<16>(bytes), AFTER_16);
    }
    let vector = match bytes.len() {
        0 => u8x16::splat(0),
        1 => first_bytes::<1>(bytes),
        2..=3 => first_bytes::<2>(bytes).shuffle(other_bytes::<2>(bytes), AFTER_2),
        4..=7 => first_bytes::<4>(bytes).shuffle(other_bytes::<4>(bytes), AFTER_4),
        _ => first_bytes::<8>(bytes).shuffle(other_bytes::<8>(bytes), AFTER_8),
    };
    vector.shuffle(u8x16::splat(0), AFTER_16)
}

/// The lanes moved on by one, after another byte. The last lane is left out.
#[inline(always)]
pub(crate) fn after_byte(byte: u8, lanes: u8x32) -> u8x32
    ensures { result ≡ byte ∷ take 31 lanes }
{
    u8x32::splat(byte).shuffle(lanes, AFTER_1)
}
