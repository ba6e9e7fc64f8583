// Texts in Latin-1, each byte of which is the code point of its value.
ghost use Rattle.std.specs.Prelude.{◌≡◌, ◌+◌, ◌≤◌, ◌<◌, ◌^◌, ◌↔◌, ℕ, List, length, take, IsTrue, IsOk, OnOk, OnErr};
ghost use Rattle.wtf8.specs.Appending.{AppendsUnits, FitWithin, KeepsContents, HasRoomFor};
ghost use Rattle.wtf8.specs.Form.{IsForm};

use std::alloc::{AllocError, Global};
use unit_text::IndexedBuf;

/// The number of bytes that are made units at a time, on the stack.
const CHUNK: usize = 128;

/// The same for shorter texts: fewer units to zero.
const SHORT_CHUNK: usize = 32;

/// Replaces the units of a buffer by the code points of bytes, in its capacity if they fit.
pub(crate) fn set_bytes(
    alloc: Global,
    buf: &mut IndexedBuf<Global>,
    bytes: &[u8],
) -> Result<(), AllocError>
    ensures ok { OnOk result (buf.new.units ≡ bytes.now) }
    ensures kept { OnErr result (buf.new ≡ buf.old) }
    ensures room { FitWithin bytes.now 0 buf.old.capacity → IsOk result }
    ensures capacity { buf.old.capacity ≤ buf.new.capacity }
{
    if has_room(buf.capacity(), bytes) {
        buf.clear();
        return push_bytes(buf, bytes);
    }
    let mut made = IndexedBuf::new(alloc);
    push_bytes(&mut made, bytes)?;
    *buf = made;
    Ok(())
}

/// Whether a capacity has room for the code points of bytes.
fn has_room(capacity: usize, bytes: &[u8]) -> bool
    ensures { IsTrue result ↔ FitWithin bytes.now 0 capacity }
{
    bytes.len() <= capacity && high_count(bytes) <= capacity - bytes.len()
}

/// Appends the code points of bytes. If memory is refused, the string is unchanged.
pub(crate) fn push_bytes(buf: &mut IndexedBuf<Global>, bytes: &[u8]) -> Result<(), AllocError>
    ensures ok { OnOk result (AppendsUnits buf.old bytes.now buf.new) }
    ensures kept { OnErr result (KeepsContents buf.old buf.new) }
    ensures room { HasRoomFor buf.old bytes.now → IsOk result }
    ensures capacity { buf.old.capacity ≤ buf.new.capacity }
{
    if bytes.len() <= SHORT_CHUNK {
        return push_chunk::<SHORT_CHUNK>(buf, bytes);
    }
    let old_len = buf.unit_len();
    // One request for all; if it is refused, so is a push that needs more than there is.
    let _is_reserved = buf
        .reserve(bytes.len().saturating_add(high_count(bytes)))
        .is_ok();
    let mut at = 0;
    while at < bytes.len() {
        let n = CHUNK.min(bytes.len() - at);
        if let Err(refused) = push_chunk::<CHUNK>(buf, &bytes[at..at + n]) {
            buf.truncate_units(old_len);
            return Err(refused);
        }
        at += n;
    }
    Ok(())
}

/// The number of bytes from 80 on, each of which is a code point of two bytes.
fn high_count(bytes: &[u8]) -> usize
    ensures { (w : List ℕ) → IsForm w bytes.now → length w ≡ length bytes.now + result }
{
    let mut high = 0;
    for at in 0..bytes.len() {
        if 0x80 <= bytes[at] {
            high += 1;
        }
    }
    high
}

/// Appends the code points of at most `N` bytes.
#[inline(always)]
fn push_chunk<const N: usize>(buf: &mut IndexedBuf<Global>, bytes: &[u8]) -> Result<(), AllocError>
    requires part { N < 2 ^ 16 }
    requires within { length bytes.now ≤ N }
    ensures ok { OnOk result (AppendsUnits buf.old bytes.now buf.new) }
    ensures kept { OnErr result (KeepsContents buf.old buf.new) }
    ensures room { HasRoomFor buf.old bytes.now → IsOk result }
    ensures capacity { buf.old.capacity ≤ buf.new.capacity }
{
    let mut units = [0; N];
    widen(bytes, &mut units);
    buf.push_units(&units[..bytes.len()])
}

/// Writes bytes to the front of an array of units.
#[inline(always)]
fn widen(bytes: &[u8], units: &mut [u16])
    requires { length bytes.now ≤ length units.old }
    ensures { take (length bytes.now) units.new ≡ bytes.now }
{
    for at in 0..bytes.len() {
        units[at] = u16::from(bytes[at]);
    }
}
