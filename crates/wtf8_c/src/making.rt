// Calls that make a string and let it go.
ghost use Rattle.std.specs.Prelude.{◌≡◌, [], ◌+◌, ◌*◌, ◌≤◌, ◌⊎◌, ◌↔◌, ◌<◌, IsTrue, IsFalse, IfOk, IsOk, OnOk, OnErr, length};
ghost use Rattle.std.specs.Str.{chars, IsUtf8};
ghost use Rattle.std.specs.Str.Lossy.{utf8_valid_len};
ghost use Rattle.wtf8.specs.Appending.{FitWithin, KeepsContents};
ghost use Rattle.wtf8.specs.Unicode.{units};
ghost use Rattle.wtf8_c.specs.Kept.{IsKept};

use crate::codes::{NO_MEMORY, NOT_UTF8, OK, code_of};
use crate::handle::Wtf8String;
use crate::latin1::set_bytes;
use std::alloc::{AllocError, Global};
use unit_text::IndexedBuf;
use wtf8::{Wtf8Buf, encoded_len, from_utf8};

/// The most units for which a string that is set again gets the capacity for any units of that number, of which ASCII
/// takes a third.
const ROOMY_UNITS: usize = 1024;

/// Replaces the units of the string.
#[unsafe(no_mangle)]
pub extern "C" fn wtf8_set_units(alloc: Global, string: &mut Wtf8String, units: &[u16]) -> i32
    ensures code { (result ≡ OK) ⊎ (result ≡ NO_MEMORY) }
    ensures ok { result ≡ OK → string.new.buf.units ≡ units.now }
    ensures kept { result ≡ NO_MEMORY → IsKept string.old string.new }
    ensures room { 3 * length units.now ≤ string.old.buf.capacity → result ≡ OK }
    ensures counted { ROOMY_UNITS < length units.now → FitWithin units.now 0 string.old.buf.capacity → result ≡ OK }
    ensures again { length units.now ≤ ROOMY_UNITS → result ≡ OK → 3 * length units.now ≤ string.new.buf.capacity }
    ensures capacity { string.old.buf.capacity ≤ string.new.buf.capacity }
    ensures lies { string.new.at ≡ string.old.at }
{
    code_of(set_units(alloc, string.buffer(), units))
}

/// Replaces the units of a buffer, in its capacity if they fit.
fn set_units(alloc: Global, buf: &mut IndexedBuf<Global>, units: &[u16]) -> Result<(), AllocError>
    ensures ok { OnOk result (buf.new.units ≡ units.now) }
    ensures kept { OnErr result (buf.new ≡ buf.old) }
    ensures room { 3 * length units.now ≤ buf.old.capacity → IsOk result }
    ensures counted { ROOMY_UNITS < length units.now → FitWithin units.now 0 buf.old.capacity → IsOk result }
    ensures again { length units.now ≤ ROOMY_UNITS → OnOk result (3 * length units.now ≤ buf.new.capacity) }
    ensures capacity { buf.old.capacity ≤ buf.new.capacity }
{
    if have_room(buf.capacity(), units) {
        buf.clear();
        return buf.push_units(units);
    }
    *buf = with_room_for_others(alloc, units)?;
    Ok(())
}

/// Whether a capacity has room for the units: three bytes for each, or, for more than `ROOMY_UNITS`, the bytes that they
/// take, which are counted then.
fn have_room(capacity: usize, units: &[u16]) -> bool
    ensures fits { IsTrue result → FitWithin units.now 0 capacity }
    ensures roomy { IsTrue result → length units.now ≤ ROOMY_UNITS → 3 * length units.now ≤ capacity }
    ensures room { 3 * length units.now ≤ capacity → IsTrue result }
    ensures counted { ROOMY_UNITS < length units.now → FitWithin units.now 0 capacity → IsTrue result }
{
    3 * units.len() <= capacity || (ROOMY_UNITS < units.len() && encoded_len(units) <= capacity)
}

/// Makes a buffer of units that replaces another. If there are at most `ROOMY_UNITS`, any units of that number will fit
/// it, so that a string which is set again and again asks for memory once.
fn with_room_for_others(alloc: Global, units: &[u16]) -> Result<IndexedBuf<Global>, AllocError>
    ensures units { IfOk result (λ b. b.units ≡ units.now) }
    ensures room { length units.now ≤ ROOMY_UNITS → IfOk result (λ b. 3 * length units.now ≤ b.capacity) }
{
    if ROOMY_UNITS < units.len() {
        return IndexedBuf::from_units(alloc, units);
    }
    let mut made = IndexedBuf::with_capacity(alloc, 3 * units.len())?;
    made.push_units(units)?;
    Ok(made)
}

/// Replaces the string by a text, which must be UTF-8. If it is not, the length of its longest front that is UTF-8 is
/// written to `valid`.
#[unsafe(no_mangle)]
pub extern "C" fn wtf8_set_utf8(
    alloc: Global,
    string: &mut Wtf8String,
    text: &[u8],
    valid: &mut usize,
) -> i32
    ensures code { (result ≡ OK) ⊎ ((result ≡ NO_MEMORY) ⊎ (result ≡ NOT_UTF8)) }
    ensures not_utf8 { result ≡ NOT_UTF8 ↔ ¬ (IsUtf8 text.now) }
    ensures ok { result ≡ OK → string.new.buf.units ≡ units (chars text.now) }
    ensures kept { ¬ (result ≡ OK) → IsKept string.old string.new }
    ensures room { IsUtf8 text.now → length text.now ≤ string.old.buf.capacity → result ≡ OK }
    ensures capacity { string.old.buf.capacity ≤ string.new.buf.capacity }
    ensures valid { result ≡ NOT_UTF8 → valid.new ≡ utf8_valid_len text.now }
    ensures valid_kept { ¬ (result ≡ NOT_UTF8) → valid.new ≡ valid.old }
    ensures lies { string.new.at ≡ string.old.at }
{
    match from_utf8(text) {
        Ok(text) => code_of(set_text(alloc, string.buffer(), text)),
        Err(error) => {
            *valid = error.valid_up_to();
            NOT_UTF8
        }
    }
}

/// Replaces the units of a buffer by those of a text, in its capacity if they fit, else in a block of the text's length.
fn set_text(alloc: Global, buf: &mut IndexedBuf<Global>, text: &str) -> Result<(), AllocError>
    ensures ok { OnOk result (buf.new.units ≡ units (chars text.now)) }
    ensures kept { OnErr result (buf.new ≡ buf.old) }
    ensures room { length text.now ≤ buf.old.capacity → IsOk result }
    ensures capacity { buf.old.capacity ≤ buf.new.capacity }
{
    if text.len() <= buf.capacity() {
        buf.clear();
        return buf.push_str(text);
    }
    *buf = IndexedBuf::from_buf(Wtf8Buf::from_str(alloc, text)?);
    Ok(())
}

/// Replaces the string by a text in Latin-1: by the code points of its bytes.
#[unsafe(no_mangle)]
pub extern "C" fn wtf8_set_latin1(alloc: Global, string: &mut Wtf8String, text: &[u8]) -> i32
    ensures code { (result ≡ OK) ⊎ (result ≡ NO_MEMORY) }
    ensures ok { result ≡ OK → string.new.buf.units ≡ text.now }
    ensures kept { result ≡ NO_MEMORY → IsKept string.old string.new }
    ensures room { FitWithin text.now 0 string.old.buf.capacity → result ≡ OK }
    ensures capacity { string.old.buf.capacity ≤ string.new.buf.capacity }
    ensures lies { string.new.at ≡ string.old.at }
{
    code_of(set_bytes(alloc, string.buffer(), text))
}

/// Replaces the string by a copy of another one.
#[unsafe(no_mangle)]
pub extern "C" fn wtf8_set_string(string: &mut Wtf8String, other: &mut Wtf8String) -> i32
    ensures code { (result ≡ OK) ⊎ (result ≡ NO_MEMORY) }
    ensures ok { result ≡ OK → string.new.buf.units ≡ other.old.buf.units }
    ensures kept { result ≡ NO_MEMORY → IsKept string.old string.new }
    ensures room { length other.old.buf.bytes ≤ string.old.buf.capacity → result ≡ OK }
    ensures capacity { string.old.buf.capacity ≤ string.new.buf.capacity }
    ensures other { IsKept other.old other.new }
    ensures lies { string.new.at ≡ string.old.at }
{
    let from = other.buffer();
    code_of(set_copy(string.buffer(), from))
}

/// Replaces the units of a buffer by those of another, in its capacity if they fit, else in a block of their length.
fn set_copy(buf: &mut IndexedBuf<Global>, from: &IndexedBuf<Global>) -> Result<(), AllocError>
    ensures ok { OnOk result (buf.new.units ≡ from.now.units) }
    ensures kept { OnErr result (buf.new ≡ buf.old) }
    ensures room { length from.now.bytes ≤ buf.old.capacity → IsOk result }
    ensures capacity { buf.old.capacity ≤ buf.new.capacity }
{
    let view = from.as_wtf8();
    if view.len() <= buf.capacity() {
        buf.clear();
        return buf.push_counted(view, from.unit_len());
    }
    *buf = from.clone()?;
    Ok(())
}

/// Empties the string and keeps its capacity.
#[unsafe(no_mangle)]
pub extern "C" fn wtf8_clear(string: &mut Wtf8String)
    ensures units { string.new.buf.units ≡ [] }
    ensures capacity { string.new.buf.capacity ≡ string.old.buf.capacity }
    ensures lies { string.new.at ≡ string.old.at }
{
    string.buffer().clear();
}

/// Frees what the string owns. Its buffer is an empty one then, which owns no memory.
#[unsafe(no_mangle)]
pub extern "C" fn wtf8_free(alloc: Global, string: &mut Wtf8String)
    ensures units { string.new.buf.units ≡ [] }
    ensures bytes { string.new.buf.bytes ≡ [] }
    ensures capacity { string.new.buf.capacity ≡ 0 }
    ensures lies { string.new.at ≡ string.old.at }
{
    *string.buffer() = IndexedBuf::new(alloc);
}

/// Reserves capacity for at least `additional` more bytes.
#[unsafe(no_mangle)]
pub extern "C" fn wtf8_reserve_bytes(string: &mut Wtf8String, additional: usize) -> i32
    ensures code { (result ≡ OK) ⊎ (result ≡ NO_MEMORY) }
    ensures ok { result ≡ OK → length string.new.buf.bytes + additional ≤ string.new.buf.capacity }
    ensures kept { KeepsContents string.old.buf string.new.buf }
    ensures room { length string.old.buf.bytes + additional ≤ string.old.buf.capacity → result ≡ OK }
    ensures capacity { string.old.buf.capacity ≤ string.new.buf.capacity }
    ensures lies { string.new.at ≡ string.old.at }
{
    code_of(string.buffer().reserve(additional))
}

/// Gives back the capacity that the string does not use.
#[unsafe(no_mangle)]
pub extern "C" fn wtf8_shrink(string: &mut Wtf8String)
    ensures kept { KeepsContents string.old.buf string.new.buf }
    ensures capacity { string.new.buf.capacity ≤ string.old.buf.capacity }
    ensures empty { string.old.buf.bytes ≡ [] → string.new.buf.capacity ≡ 0 }
    ensures lies { string.new.at ≡ string.old.at }
{
    string.buffer().shrink_to_fit();
}

/// Keeps marks of the string, from which its units are found. A mark without memory is left out.
#[unsafe(no_mangle)]
pub extern "C" fn wtf8_mark(alloc: Global, string: &mut Wtf8String) -> i32
    ensures code { (result ≡ OK) ⊎ (result ≡ NO_MEMORY) }
    ensures kept { KeepsContents string.old.buf string.new.buf }
    ensures ok { result ≡ OK }
    ensures capacity { string.old.buf.capacity ≤ string.new.buf.capacity }
    ensures lies { string.new.at ≡ string.old.at }
{
    string.buffer().mark_units(alloc);
    OK
}
