// How memory is requested for the bytes of code units that are not encoded yet.
ghost use Rattle.std.specs.Prelude.{◌≡◌, ◌+◌, ◌<◌, ◌≤◌, ◌^◌, ℕ, Bool, List, length, vec_capacity, IsOk};
ghost use Rattle.wtf8.specs.private.Prefixes.{HasRoomAfter, HasRoomFrom};

use crate::from_utf16::TWO_BLOCKS;
use crate::from_utf16::encoded_len::encoded_len;
use crate::vec::spare_capacity;
use std::alloc::{AllocError, Allocator};

/// How the capacity of a string grows.
#[derive(Clone, Copy)]
pub(crate) enum Growth {
    /// To what is needed: a new string has no spare capacity.
    Exact,
    /// To at least twice the capacity, so that many appends are linear together.
    Amortized,
}

#[inline(always)]
fn reserve<A: Allocator>(
    bytes: &mut Vec<u8, A>,
    count: usize,
    growth: Growth,
) -> Result<(), AllocError>
    ensures items { bytes.new.items ≡ bytes.old.items }
    ensures room { length bytes.old.items + count ≤ vec_capacity bytes.old → IsOk result }
    ensures capacity { vec_capacity bytes.old ≤ vec_capacity bytes.new }
{
    match growth {
        Growth::Exact => bytes.reserve_exact(count),
        Growth::Amortized => bytes.reserve(count),
    }
}

/// Reserves `encoded` bytes, and those of the units from index `at` on. These are counted, so that one request is
/// enough. Not inlined, since few calls need it.
#[inline(never)]
fn reserve_rest<A: Allocator>(
    bytes: &mut Vec<u8, A>,
    v: &[u16],
    at: usize,
    encoded: usize,
    growth: Growth,
) -> Result<(), AllocError>
    requires within { at ≤ length v.now }
    requires encoded { encoded < 2 ^ 16 }
    ensures items { bytes.new.items ≡ bytes.old.items }
    ensures room { (w : List ℕ) → length w ≡ encoded → HasRoomAfter bytes.old w v.now at → IsOk result }
    ensures capacity { vec_capacity bytes.old ≤ vec_capacity bytes.new }
{
    reserve(bytes, encoded + encoded_len(&v[at..]), growth)
}

/// If there is no room for the next `least` bytes, reserves `encoded` bytes, and those of the units from index `at` on.
#[inline(always)]
pub(crate) fn make_room<A: Allocator>(
    bytes: &mut Vec<u8, A>,
    v: &[u16],
    at: usize,
    encoded: usize,
    least: usize,
    growth: Growth,
) -> Result<(), AllocError>
    requires within { at ≤ length v.now }
    requires encoded { encoded < 2 ^ 16 }
    ensures items { bytes.new.items ≡ bytes.old.items }
    ensures room { (w : List ℕ) → length w ≡ encoded → HasRoomAfter bytes.old w v.now at → IsOk result }
    ensures capacity { vec_capacity bytes.old ≤ vec_capacity bytes.new }
{
    if least <= spare_capacity(bytes) {
        return Ok(());
    }
    reserve_rest(bytes, v, at, encoded, growth)
}

/// Whether a byte for each unit may be enough: they are many, and the first is ASCII.
#[inline(always)]
pub(crate) fn may_be_ascii(units: &[u16]) -> bool {
    TWO_BLOCKS <= units.len() && units[0] < 0x80
}

/// Reserves a byte for each unit from index `at` on, if that may be enough.
#[inline(always)]
pub(crate) fn reserve_ascii<A: Allocator>(
    bytes: &mut Vec<u8, A>,
    v: &[u16],
    at: usize,
) -> Result<(), AllocError>
    requires within { at ≤ length v.now }
    ensures items { bytes.new.items ≡ bytes.old.items }
    ensures room { (is_utf8 : Bool) → HasRoomFrom bytes.old v.now at is_utf8 → IsOk result }
    ensures capacity { vec_capacity bytes.old ≤ vec_capacity bytes.new }
{
    let left = v.len() - at;
    if left <= spare_capacity(bytes) || !may_be_ascii(&v[at..]) {
        return Ok(());
    }
    bytes.reserve(left)
}
