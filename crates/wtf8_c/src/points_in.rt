// Arrays of code points, which are appended.
ghost use Rattle.std.specs.Prelude.{◌≡◌, ◌*◌, ◌<◌, ◌≤◌, ◌⊎◌, ◌↔◌, length, take, IsFalse, IsTrue, IsOk, OnOk, OnErr};
ghost use Rattle.std.specs.List.{All};
ghost use Rattle.wtf8.specs.Appending.{AppendsUnits, KeepsContents, HasRoomFor};
ghost use Rattle.wtf8.specs.Unicode.{IsCodePoint, units};

use crate::codes::{BAD_CODE_POINT, NO_MEMORY, OK, code_of};
use crate::handle::Wtf8String;
use std::alloc::{AllocError, Global};
use unit_text::IndexedBuf;

/// The number of code points that are made units at a time, on the stack.
const CHUNK: usize = 128;

/// The most units that these have.
const CHUNK_UNITS: usize = 2 * CHUNK;

/// Appends code points, surrogates too, if none is greater than 10FFFF.
#[unsafe(no_mangle)]
pub extern "C" fn wtf8_push_code_points(string: &mut Wtf8String, points: &[u32]) -> i32
    ensures code { (result ≡ OK) ⊎ ((result ≡ NO_MEMORY) ⊎ (result ≡ BAD_CODE_POINT)) }
    ensures bad_code_point { result ≡ BAD_CODE_POINT ↔ ¬ (All IsCodePoint points.now) }
    ensures ok { result ≡ OK → AppendsUnits string.old.buf (units points.now) string.new.buf }
    ensures kept { ¬ (result ≡ OK) → KeepsContents string.old.buf string.new.buf }
    ensures room { All IsCodePoint points.now → HasRoomFor string.old.buf (units points.now) → result ≡ OK }
    ensures capacity { string.old.buf.capacity ≤ string.new.buf.capacity }
    ensures lies { string.new.at ≡ string.old.at }
{
    if !are_code_points(points) {
        return BAD_CODE_POINT;
    }
    code_of(push_points(string.buffer(), points))
}

/// Whether each number is a code point. All are looked at, several at a time.
fn are_code_points(points: &[u32]) -> bool
    ensures { IsTrue result ↔ All IsCodePoint points.now }
{
    let mut are = true;
    for at in 0..points.len() {
        are = are & (points[at] <= 0x10FFFF);
    }
    are
}

/// Appends code points. If memory is refused, the string is unchanged.
fn push_points(buf: &mut IndexedBuf<Global>, points: &[u32]) -> Result<(), AllocError>
    requires { All IsCodePoint points.now }
    ensures ok { OnOk result (AppendsUnits buf.old (units points.now) buf.new) }
    ensures kept { OnErr result (KeepsContents buf.old buf.new) }
    ensures room { HasRoomFor buf.old (units points.now) → IsOk result }
    ensures capacity { buf.old.capacity ≤ buf.new.capacity }
{
    let old_len = buf.unit_len();
    let mut at = 0;
    while at < points.len() {
        let n = CHUNK.min(points.len() - at);
        if let Err(refused) = push_chunk(buf, &points[at..at + n]) {
            buf.truncate_units(old_len);
            return Err(refused);
        }
        at += n;
    }
    Ok(())
}

/// Appends at most `CHUNK` code points.
fn push_chunk(buf: &mut IndexedBuf<Global>, points: &[u32]) -> Result<(), AllocError>
    requires short { length points.now ≤ CHUNK }
    requires points { All IsCodePoint points.now }
    ensures ok { OnOk result (AppendsUnits buf.old (units points.now) buf.new) }
    ensures kept { OnErr result (KeepsContents buf.old buf.new) }
    ensures room { HasRoomFor buf.old (units points.now) → IsOk result }
    ensures capacity { buf.old.capacity ≤ buf.new.capacity }
{
    let mut block = [0; CHUNK_UNITS];
    let n = write_units_of(points, &mut block);
    buf.push_units(&block[..n])
}

/// Writes the units of code points at the front of an array, and returns their number.
fn write_units_of(points: &[u32], block: &mut [u16; CHUNK_UNITS]) -> usize
    requires short { length points.now ≤ CHUNK }
    requires points { All IsCodePoint points.now }
    ensures units { take result block.new ≡ units points.now }
    ensures within { result ≤ 2 * length points.now }
{
    if has_pair(points) {
        return write_pairs(points, block);
    }
    narrow(points, block);
    points.len()
}

/// Whether a code point has two units. All are looked at, several at a time.
fn has_pair(points: &[u32]) -> bool
    ensures { IsFalse result → All (λ p. p < 0x10000) points.now }
{
    let mut found = false;
    for at in 0..points.len() {
        found = found | (0x10000 <= points[at]);
    }
    found
}

/// Writes code points of one unit each at the front of an array.
fn narrow(points: &[u32], block: &mut [u16; CHUNK_UNITS])
    requires short { length points.now ≤ CHUNK }
    requires low { All (λ p. p < 0x10000) points.now }
    ensures { take (length points.now) block.new ≡ points.now }
{
    for at in 0..points.len() {
        block[at] = points[at] as u16;
    }
}

/// The same of code points that may have two units.
fn write_pairs(points: &[u32], block: &mut [u16; CHUNK_UNITS]) -> usize
    requires short { length points.now ≤ CHUNK }
    requires points { All IsCodePoint points.now }
    ensures units { take result block.new ≡ units points.now }
    ensures within { result ≤ 2 * length points.now }
{
    let mut n = 0;
    for at in 0..points.len() {
        let point = points[at];
        if point < 0x10000 {
            block[n] = point as u16;
            n += 1;
        } else {
            let over = point - 0x10000;
            block[n] = (0xD800 + over / 0x400) as u16;
            block[n + 1] = (0xDC00 + over % 0x400) as u16;
            n += 2;
        }
    }
    n
}
