// Moves the bytes at the end of a slice by a block at a time: the ranges may overlap, and the library's `copy_within` moves
// one element at a time.
ghost use Rattle.std.specs.Prelude.{◌≡◌, ◌++◌, ◌+◌, ◌-◌, ◌*◌, ◌<◌, ◌≤◌, length, take, drop};

use crate::lanes::{BLOCK, VECTOR};
use std::simd::prelude::*;

/// The last index at or before `index`, but at least 16, at which blocks are stored at multiples of a vector's length. An
/// allocated block begins at a multiple of 16, so no store of 16 bytes there lies across two cache lines. A large one of
/// glibc begins 16 bytes after a multiple of 4096, so no store of 32 does either.
#[inline(always)]
fn aligned_at_most(index: usize) -> usize
    requires { VECTOR ≤ index }
    ensures within { result ≤ index }
    ensures near { index < result + 2 * VECTOR }
{
    index - (index - VECTOR) % (2 * VECTOR)
}

/// Moves the bytes from index `from` on, but for the last `by`, to the end of the slice. What is at index `from` and before
/// the moved bytes is not said. If there is a whole block, the last one is stored after the others, which are aligned.
pub(crate) fn move_to_end(bytes: &mut [u8], from: usize, by: usize)
    requires { from + by ≤ length bytes.old }
    ensures front { take from bytes.new ≡ take from bytes.old }
    ensures back { drop (from + by) bytes.new ≡ drop from (take (length bytes.old - by) bytes.old) }
    ensures len { length bytes.new ≡ length bytes.old }
{
    let len = bytes.len();
    if len - by - from < BLOCK {
        return move_blocks_to_end(bytes, from, by);
    }
    let last = Simd::<u8, BLOCK>::from_slice(&bytes[len - by - BLOCK..]);
    move_blocks_to_end(&mut bytes[..aligned_at_most(len)], from, by);
    last.copy_to_slice(&mut bytes[len - BLOCK..]);
}

/// `move_to_end` by blocks from the last byte on, which is fast if the slice's end is aligned.
fn move_blocks_to_end(bytes: &mut [u8], from: usize, by: usize)
    requires { from + by ≤ length bytes.old }
    ensures front { take from bytes.new ≡ take from bytes.old }
    ensures back { drop (from + by) bytes.new ≡ drop from (take (length bytes.old - by) bytes.old) }
    ensures len { length bytes.new ≡ length bytes.old }
{
    let mut at = bytes.len() - by;
    while BLOCK <= at - from {
        at -= BLOCK;
        let block = Simd::<u8, BLOCK>::from_slice(&bytes[at..]);
        block.copy_to_slice(&mut bytes[at + by..]);
    }
    bytes.copy_within(from..at, from + by);
}

/// Moves the bytes from index `from` on down by `by`. What is after them is not said. If there is a whole block, the first
/// one is stored after the others, which are aligned.
pub(crate) fn move_down(bytes: &mut [u8], from: usize, by: usize)
    requires order { by ≤ from }
    requires within { from ≤ length bytes.old }
    ensures items { take (length bytes.old - by) bytes.new ≡ take (from - by) bytes.old ++ drop from bytes.old }
    ensures len { length bytes.new ≡ length bytes.old }
{
    let to = from - by;
    if bytes.len() - from < BLOCK {
        return move_blocks_down(bytes, from, by);
    }
    let first = Simd::<u8, BLOCK>::from_slice(&bytes[from..]);
    move_blocks_down(&mut bytes[aligned_at_most(to + 2 * VECTOR)..], by, by);
    first.copy_to_slice(&mut bytes[to..]);
}

/// `move_down` by blocks from the first byte on, which is fast if that is aligned after the move.
fn move_blocks_down(bytes: &mut [u8], from: usize, by: usize)
    requires order { by ≤ from }
    requires within { from ≤ length bytes.old }
    ensures items { take (length bytes.old - by) bytes.new ≡ take (from - by) bytes.old ++ drop from bytes.old }
    ensures len { length bytes.new ≡ length bytes.old }
{
    let mut at = from;
    while BLOCK <= bytes.len() - at {
        let block = Simd::<u8, BLOCK>::from_slice(&bytes[at..]);
        block.copy_to_slice(&mut bytes[at - by..]);
        at += BLOCK;
    }
    bytes.copy_within(at.., at - by);
}
