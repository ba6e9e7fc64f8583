// Calls that append.
ghost use Rattle.std.specs.Prelude.{◌≡◌, ◌+◌, ◌∷◌, [], ◌≤◌, ◌⊎◌, ◌↔◌, ℕ, length, take};
ghost use Rattle.std.specs.Str.{chars, IsUtf8};
ghost use Rattle.std.specs.Str.Lossy.{utf8_valid_len};
ghost use Rattle.wtf8.specs.Appending.{AppendsUnits, KeepsContents, HasRoomFor};
ghost use Rattle.wtf8.specs.Position.{IsFront};
ghost use Rattle.wtf8.specs.Unicode.{IsCodePoint, units, units_of};
ghost use Rattle.wtf8.specs.Utf8.{LeavesUnfinished, lossy_chars};
ghost use Rattle.wtf8_c.specs.Utf8Front.{utf8_front, bad_len};
ghost use Rattle.wtf8_c.specs.Kept.{IsKept};

use crate::codes::{BAD_CODE_POINT, NO_MEMORY, NOT_UTF8, OK, code_of};
use crate::handle::Wtf8String;
use crate::latin1::push_bytes;
use std::alloc::Global;
use std::str;
use wtf8::{CodePoint, from_utf8};

/// Appends a unit. A trail after a lead completes the pair.
#[unsafe(no_mangle)]
#[tactic(auto, using(crate::proofs::Units::room_for_unit))]
pub extern "C" fn wtf8_push_unit(string: &mut Wtf8String, unit: u16) -> i32
    ensures code { (result ≡ OK) ⊎ (result ≡ NO_MEMORY) }
    ensures ok { result ≡ OK → AppendsUnits string.old.buf (unit ∷ []) string.new.buf }
    ensures kept { result ≡ NO_MEMORY → KeepsContents string.old.buf string.new.buf }
    ensures room { HasRoomFor string.old.buf (units_of unit) → result ≡ OK }
    ensures capacity { string.old.buf.capacity ≤ string.new.buf.capacity }
    ensures lies { string.new.at ≡ string.old.at }
{
    code_of(string.buffer().push_unit(unit))
}

/// Appends a code point.
#[unsafe(no_mangle)]
pub extern "C" fn wtf8_push_code_point(string: &mut Wtf8String, value: u32) -> i32
    ensures code { (result ≡ OK) ⊎ ((result ≡ NO_MEMORY) ⊎ (result ≡ BAD_CODE_POINT)) }
    ensures bad_code_point { result ≡ BAD_CODE_POINT ↔ ¬ (IsCodePoint value) }
    ensures ok { result ≡ OK → AppendsUnits string.old.buf (units_of value) string.new.buf }
    ensures kept { ¬ (result ≡ OK) → KeepsContents string.old.buf string.new.buf }
    ensures room { IsCodePoint value → HasRoomFor string.old.buf (units_of value) → result ≡ OK }
    ensures capacity { string.old.buf.capacity ≤ string.new.buf.capacity }
    ensures lies { string.new.at ≡ string.old.at }
{
    let Some(point) = CodePoint::from_u32(value) else {
        return BAD_CODE_POINT;
    };
    code_of(string.buffer().push(point))
}

/// Appends units.
#[unsafe(no_mangle)]
pub extern "C" fn wtf8_push_units(string: &mut Wtf8String, units: &[u16]) -> i32
    ensures code { (result ≡ OK) ⊎ (result ≡ NO_MEMORY) }
    ensures ok { result ≡ OK → AppendsUnits string.old.buf units.now string.new.buf }
    ensures kept { result ≡ NO_MEMORY → KeepsContents string.old.buf string.new.buf }
    ensures room { HasRoomFor string.old.buf units.now → result ≡ OK }
    ensures capacity { string.old.buf.capacity ≤ string.new.buf.capacity }
    ensures lies { string.new.at ≡ string.old.at }
{
    code_of(string.buffer().push_units(units))
}

/// Appends a text in Latin-1: the code points of its bytes.
#[unsafe(no_mangle)]
pub extern "C" fn wtf8_push_latin1(string: &mut Wtf8String, text: &[u8]) -> i32
    ensures code { (result ≡ OK) ⊎ (result ≡ NO_MEMORY) }
    ensures ok { result ≡ OK → AppendsUnits string.old.buf text.now string.new.buf }
    ensures kept { result ≡ NO_MEMORY → KeepsContents string.old.buf string.new.buf }
    ensures room { HasRoomFor string.old.buf text.now → result ≡ OK }
    ensures capacity { string.old.buf.capacity ≤ string.new.buf.capacity }
    ensures lies { string.new.at ≡ string.old.at }
{
    code_of(push_bytes(string.buffer(), text))
}

/// Appends a text, which must be UTF-8. If it is not, the length of its longest front that is UTF-8 is written to
/// `valid`.
#[unsafe(no_mangle)]
pub extern "C" fn wtf8_push_utf8(string: &mut Wtf8String, text: &[u8], valid: &mut usize) -> i32
    ensures code { (result ≡ OK) ⊎ ((result ≡ NO_MEMORY) ⊎ (result ≡ NOT_UTF8)) }
    ensures not_utf8 { result ≡ NOT_UTF8 ↔ ¬ (IsUtf8 text.now) }
    ensures ok { result ≡ OK → AppendsUnits string.old.buf (units (chars text.now)) string.new.buf }
    ensures kept { ¬ (result ≡ OK) → KeepsContents string.old.buf string.new.buf }
    ensures room { IsUtf8 text.now → HasRoomFor string.old.buf (units (chars text.now)) → result ≡ OK }
    ensures valid { result ≡ NOT_UTF8 → valid.new ≡ utf8_valid_len text.now }
    ensures valid_kept { ¬ (result ≡ NOT_UTF8) → valid.new ≡ valid.old }
    ensures capacity { string.old.buf.capacity ≤ string.new.buf.capacity }
    ensures lies { string.new.at ≡ string.old.at }
{
    match from_utf8(text) {
        Ok(text) => code_of(string.buffer().push_str(text)),
        Err(error) => {
            *valid = error.valid_up_to();
            NOT_UTF8
        }
    }
}

/// Appends the longest front of `text` that is UTF-8. Its length is written to `used`, and the number of bytes after it
/// that are wrong together to `bad`, which is 0 if none are: `text` was taken whole, or ends within a code point.
#[unsafe(no_mangle)]
pub extern "C" fn wtf8_push_utf8_part(
    string: &mut Wtf8String,
    text: &[u8],
    used: &mut usize,
    bad: &mut usize,
) -> i32
    ensures code { (result ≡ OK) ⊎ (result ≡ NO_MEMORY) }
    ensures ok { result ≡ OK → AppendsUnits string.old.buf (units (chars (utf8_front text.now))) string.new.buf }
    ensures kept { result ≡ NO_MEMORY → KeepsContents string.old.buf string.new.buf }
    ensures room { HasRoomFor string.old.buf (units (chars (utf8_front text.now))) → result ≡ OK }
    ensures capacity { string.old.buf.capacity ≤ string.new.buf.capacity }
    ensures lies { string.new.at ≡ string.old.at }
    ensures used { result ≡ OK → used.new ≡ utf8_valid_len text.now }
    ensures bad { result ≡ OK → bad.new ≡ bad_len text.now }
    ensures used_kept { result ≡ NO_MEMORY → used.new ≡ used.old }
    ensures bad_kept { result ≡ NO_MEMORY → bad.new ≡ bad.old }
{
    let (front, after) = read_front(text);
    if string.buffer().push_str(front).is_err() {
        return NO_MEMORY;
    }
    *used = front.len();
    *bad = after;
    OK
}

/// Appends bytes read as UTF-8, with U+FFFD for each maximal part that is not.
#[unsafe(no_mangle)]
pub extern "C" fn wtf8_push_utf8_lossy(string: &mut Wtf8String, text: &[u8]) -> i32
    ensures code { (result ≡ OK) ⊎ (result ≡ NO_MEMORY) }
    ensures ok { result ≡ OK → AppendsUnits string.old.buf (units (lossy_chars text.now)) string.new.buf }
    ensures kept { result ≡ NO_MEMORY → KeepsContents string.old.buf string.new.buf }
    ensures room { HasRoomFor string.old.buf (units (lossy_chars text.now)) → result ≡ OK }
    ensures capacity { string.old.buf.capacity ≤ string.new.buf.capacity }
    ensures front { result ≡ OK → IsFront string.new.buf.units (length string.old.buf.bytes) string.old.buf.units }
    ensures lies { string.new.at ≡ string.old.at }
{
    code_of(string.buffer().push_utf8_lossy(text))
}

/// Appends bytes as `wtf8_push_utf8_lossy` does, but leaves out a code point that is unfinished at their end. The number of
/// bytes before it is written to `used`.
#[unsafe(no_mangle)]
pub extern "C" fn wtf8_push_utf8_lossy_part(
    string: &mut Wtf8String,
    text: &[u8],
    used: &mut usize,
) -> i32
    ensures code { (result ≡ OK) ⊎ (result ≡ NO_MEMORY) }
    ensures used { result ≡ OK → LeavesUnfinished text.now used.new }
    ensures few { result ≡ OK → length text.now ≤ used.new + 3 }
    ensures ok { result ≡ OK → AppendsUnits string.old.buf (units (lossy_chars (take used.new text.now))) string.new.buf }
    ensures kept { result ≡ NO_MEMORY → KeepsContents string.old.buf string.new.buf }
    ensures room { (n : ℕ) → LeavesUnfinished text.now n → HasRoomFor string.old.buf (units (lossy_chars (take n text.now))) → result ≡ OK }
    ensures capacity { string.old.buf.capacity ≤ string.new.buf.capacity }
    ensures front { result ≡ OK → IsFront string.new.buf.units (length string.old.buf.bytes) string.old.buf.units }
    ensures lies { string.new.at ≡ string.old.at }
    ensures used_kept { result ≡ NO_MEMORY → used.new ≡ used.old }
{
    let Ok(n) = string.buffer().push_utf8_lossy_part(text) else {
        return NO_MEMORY;
    };
    *used = n;
    OK
}

/// The longest front that is UTF-8, and the number of bytes after it that are wrong together.
fn read_front(text: &[u8]) -> (&str, usize)
    ensures front { result.0.now ≡ utf8_front text.now }
    ensures len { length result.0.now ≡ utf8_valid_len text.now }
    ensures bad { result.1 ≡ bad_len text.now }
{
    match from_utf8(text) {
        Ok(whole) => (whole, 0),
        Err(error) => {
            let front = unsafe { str::from_utf8_unchecked(&text[..error.valid_up_to()]) };
            (front, error.error_len().unwrap_or(0))
        }
    }
}

/// Appends another string.
#[unsafe(no_mangle)]
pub extern "C" fn wtf8_push_string(string: &mut Wtf8String, other: &mut Wtf8String) -> i32
    ensures code { (result ≡ OK) ⊎ (result ≡ NO_MEMORY) }
    ensures ok { result ≡ OK → AppendsUnits string.old.buf other.old.buf.units string.new.buf }
    ensures kept { result ≡ NO_MEMORY → KeepsContents string.old.buf string.new.buf }
    ensures other { IsKept other.old other.new }
    ensures room { HasRoomFor string.old.buf other.old.buf.units → result ≡ OK }
    ensures capacity { string.old.buf.capacity ≤ string.new.buf.capacity }
    ensures lies { string.new.at ≡ string.old.at }
{
    let own = string.buffer();
    let more = other.buffer();
    code_of(own.push_counted(more.as_wtf8(), more.unit_len()))
}
