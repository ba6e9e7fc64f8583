// Vectors of `std`: their spare capacity, and short slices copied or appended to them, as two overlapping blocks.
ghost use Rattle.std.specs.Prelude.{◌≡◌, ◌+◌, ◌≤◌, OnOk, IsOk, vec_len, vec_capacity, [], ◌++◌, ◌*◌, ◌<◌, length, take, IfOk};

use std::alloc::{AllocError, Allocator};
use std::simd::prelude::*;

/// Shorter slices are copied as two overlapping blocks of at most 16 bytes, which takes 11 to 15 instructions less than
/// `extend_from_slice`: 188 for 203 of a clone of 5 bytes.
const SHORT_COPY_LIMIT: usize = 32;

#[inline(always)]
pub(crate) fn spare_capacity<A: Allocator>(bytes: &Vec<u8, A>) -> usize
    ensures { vec_len bytes.now + result ≡ vec_capacity bytes.now }
{
    bytes.capacity() - bytes.len()
}

#[inline(always)]
pub(crate) fn reserve_if_short<A: Allocator>(
    bytes: &mut Vec<u8, A>,
    spare: usize,
    count: usize,
) -> Result<(), AllocError>
    requires { vec_len bytes.old + spare ≡ vec_capacity bytes.old }
    ensures items { bytes.new.items ≡ bytes.old.items }
    ensures len { vec_len bytes.new ≡ vec_len bytes.old }
    ensures ok { OnOk result (vec_len bytes.new + count ≤ vec_capacity bytes.new) }
    ensures room { vec_len bytes.old + count ≤ vec_capacity bytes.old → IsOk result }
    ensures capacity { vec_capacity bytes.old ≤ vec_capacity bytes.new }
{
    if count <= spare {
        return Ok(());
    }
    bytes.reserve(count)
}

#[inline(always)]
pub(crate) fn to_vec_in<A: Allocator>(alloc: A, bytes: &[u8]) -> Result<Vec<u8, A>, AllocError>
    ensures items { IfOk result (λ v. v.items ≡ bytes.now) }
    ensures empty { bytes.now ≡ [] → IsOk result }
{
    let mut copy = Vec::with_capacity(alloc, bytes.len())?;
    if bytes.len() < SHORT_COPY_LIMIT {
        push_short(&mut copy, bytes);
    } else {
        copy.extend_from_slice(bytes)?;
    }
    Ok(copy)
}

#[inline(always)]
fn push_short<A: Allocator>(bytes: &mut Vec<u8, A>, other: &[u8])
    requires few { length other.now < SHORT_COPY_LIMIT }
    requires room { length bytes.old.items + length other.now ≤ vec_capacity bytes.old }
    ensures { bytes.new.items ≡ bytes.old.items ++ other.now }
{
    let count = other.len();
    if 8 <= count {
        if 16 <= count {
            push_overlapping::<16, A>(bytes, other)
        } else {
            push_overlapping::<8, A>(bytes, other)
        }
    } else if 4 <= count {
        push_overlapping::<4, A>(bytes, other)
    } else if 2 <= count {
        push_overlapping::<2, A>(bytes, other)
    } else if count == 1 {
        push_overlapping::<1, A>(bytes, other)
    }
}

/// Appends the first `N` and the last `N` bytes, which may overlap: two stores if nothing else refers to the vector.
#[inline(always)]
fn push_overlapping<const N: usize, A: Allocator>(bytes: &mut Vec<u8, A>, other: &[u8])
    requires lanes { N ≤ u64.BITS }
    requires all { (N ≤ length other.now) × (length other.now ≤ 2 * N) }
    requires room { length bytes.old.items + length other.now ≤ vec_capacity bytes.old }
    ensures { bytes.new.items ≡ bytes.old.items ++ other.now }
{
    let last = other.len() - N;
    let end = bytes.len() + last;
    push_block(bytes, Simd::<u8, N>::from_slice(other).to_array());
    bytes.truncate(end);
    push_block(bytes, Simd::<u8, N>::from_slice(&other[last..]).to_array());
}

#[inline(always)]
pub(crate) fn push_block<T: Copy, const N: usize, A: Allocator>(list: &mut Vec<T, A>, block: [T; N])
    requires { length list.old.items + N ≤ vec_capacity list.old }
    ensures items { list.new.items ≡ list.old.items ++ block }
    ensures capacity { vec_capacity list.new ≡ vec_capacity list.old }
{
    for at in 0..N {
        list.push_reserved(block[at]);
    }
}

/// Appends the first `count` bytes of a block: all are stored, and the others cut off. By `push_block` each byte would be a
/// store of its own.
#[inline(always)]
pub(crate) fn push_front<const N: usize, A: Allocator>(
    bytes: &mut Vec<u8, A>,
    block: [u8; N],
    count: usize,
)
    requires few { count ≤ N }
    requires room { length bytes.old.items + N ≤ vec_capacity bytes.old }
    ensures items { bytes.new.items ≡ bytes.old.items ++ take count block.entry }
    ensures capacity { vec_capacity bytes.old ≤ vec_capacity bytes.new }
{
    let end = bytes.len() + count;
    bytes.extend_from_slice(&block).unwrap();
    bytes.truncate(end);
}
