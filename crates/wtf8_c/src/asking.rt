// Calls that change nothing.
ghost use Rattle.std.specs.Prelude.{◌≡◌, ◌⊎◌, ◌-◌, ◌<◌, ◌≤◌, ◌↔◌, List, ℕ, IsTrue, Some, length, take};
ghost use Rattle.std.specs.List.{slice_get};
ghost use Rattle.std.specs.Str.{chars, IsUtf8};
ghost use Rattle.std.specs.Str.Lossy.{utf8_valid_len};
ghost use Rattle.wtf8.specs.Form.{IsForm, Reads};
ghost use Rattle.wtf8.specs.Order.{Before};
ghost use Rattle.wtf8.specs.Position.{IsBoundary, IsFront};
ghost use Rattle.wtf8.specs.Surrogates.{AreScalar};
ghost use Rattle.wtf8.specs.Unicode.{units};
ghost use Rattle.wtf8.specs.UnitPosition.{DividesPair};
ghost use Rattle.wtf8.specs.View.{view_units};
ghost use Rattle.unit_text.specs.Positions.{AreUnitsBefore};
ghost use Rattle.wtf8_c.specs.Kept.{IsKept};
ghost use Rattle.wtf8_c.specs.Latin1.{AreAscii};

use crate::codes::{AFTER, BAD_POSITION, BEFORE, NOT_UTF8, OK, SAME, code_of_order};
use crate::handle::Wtf8String;
use wtf8::{Wtf8, encoded_len, from_utf8};

/// The number of units.
#[unsafe(no_mangle)]
pub extern "C" fn wtf8_unit_len(string: &mut Wtf8String) -> usize
    ensures len { result ≡ length string.old.buf.units }
    ensures kept { IsKept string.old string.new }
{
    string.buffer().unit_len()
}

/// The number of bytes of a string with these units.
#[unsafe(no_mangle)]
pub extern "C" fn wtf8_encoded_len(units: &[u16]) -> usize
    ensures { (w : List ℕ) → IsForm w units.now → result ≡ length w }
{
    encoded_len(units)
}

/// The length in bytes.
#[unsafe(no_mangle)]
pub extern "C" fn wtf8_byte_len(string: &mut Wtf8String) -> usize
    ensures len { result ≡ length string.old.buf.bytes }
    ensures kept { IsKept string.old string.new }
{
    string.buffer().as_wtf8().len()
}

/// The number of bytes that the string can have without a request for memory.
#[unsafe(no_mangle)]
pub extern "C" fn wtf8_capacity(string: &mut Wtf8String) -> usize
    ensures capacity { result ≡ string.old.buf.capacity }
    ensures kept { IsKept string.old string.new }
{
    string.buffer().capacity()
}

/// Writes the byte position of the boundary before the unit at `index` to `position`: of the pair, if that divides one.
#[unsafe(no_mangle)]
pub extern "C" fn wtf8_position_at(
    string: &mut Wtf8String,
    index: usize,
    position: &mut usize,
) -> i32
    ensures code { (result ≡ OK) ⊎ (result ≡ BAD_POSITION) }
    ensures position { result ≡ BAD_POSITION ↔ length string.old.buf.units < index }
    ensures whole { result ≡ OK → ¬ (DividesPair string.old.buf.units index) → IsFront string.old.buf.units position.new (take index string.old.buf.units) }
    ensures divided { result ≡ OK → DividesPair string.old.buf.units index → IsFront string.old.buf.units position.new (take (index - 1) string.old.buf.units) }
    ensures position_kept { result ≡ BAD_POSITION → position.new ≡ position.old }
    ensures kept { IsKept string.old string.new }
{
    let buf = string.buffer();
    if buf.unit_len() < index {
        return BAD_POSITION;
    }
    *position = buf.position_at(index);
    OK
}

/// The number of units before the last boundary at or before a position in bytes; all units if it is after the end.
#[unsafe(no_mangle)]
pub extern "C" fn wtf8_unit_before(string: &mut Wtf8String, position: usize) -> usize
    ensures before { AreUnitsBefore string.old.buf.units position result }
    ensures kept { IsKept string.old string.new }
{
    string.buffer().unit_before(position)
}

/// Writes the unit at an index to `unit`.
#[unsafe(no_mangle)]
pub extern "C" fn wtf8_unit_at(string: &mut Wtf8String, index: usize, unit: &mut u16) -> i32
    ensures code { (result ≡ OK) ⊎ (result ≡ BAD_POSITION) }
    ensures position { result ≡ BAD_POSITION ↔ length string.old.buf.units ≤ index }
    ensures ok { result ≡ OK → slice_get string.old.buf.units index ≡ Some unit.new }
    ensures unit { result ≡ BAD_POSITION → unit.new ≡ unit.old }
    ensures kept { IsKept string.old string.new }
{
    match string.buffer().unit_at(index) {
        Some(value) => {
            *unit = value;
            OK
        }
        None => BAD_POSITION,
    }
}

/// Whether a position in bytes is a boundary.
#[unsafe(no_mangle)]
pub extern "C" fn wtf8_is_boundary(string: &mut Wtf8String, position: usize) -> bool
    ensures boundary { IsTrue result ↔ IsBoundary string.old.buf.units position }
    ensures kept { IsKept string.old string.new }
{
    string.buffer().as_wtf8().is_code_point_boundary(position)
}

/// Whether the string holds no surrogate, so that it is a text in UTF-8.
#[unsafe(no_mangle)]
pub extern "C" fn wtf8_is_utf8(string: &mut Wtf8String) -> bool
    ensures utf8 { IsTrue result ↔ ((c : List ℕ) → Reads c string.old.buf.units → AreScalar c) }
    ensures kept { IsKept string.old string.new }
{
    string.buffer().as_str().is_some()
}

/// Whether each unit is below 80.
#[unsafe(no_mangle)]
pub extern "C" fn wtf8_is_ascii(string: &mut Wtf8String) -> bool
    ensures ascii { IsTrue result ↔ AreAscii string.old.buf.units }
    ensures kept { IsKept string.old string.new }
{
    let buf = string.buffer();
    has_one_byte_each(buf.as_wtf8(), buf.unit_len())
}

/// Whether a string has one byte for each of its `count` units, so that each is ASCII.
pub(crate) fn has_one_byte_each(text: Wtf8<'_>, count: usize) -> bool
    requires { count ≡ length (view_units text) }
    ensures { IsTrue result ↔ AreAscii (view_units text.entry) }
{
    text.len() == count
}

/// Writes the number of units of a text to `len`, which must be UTF-8. If it is not, the length of its longest front that
/// is UTF-8 is written to `valid`.
#[unsafe(no_mangle)]
pub extern "C" fn wtf8_utf8_unit_len(text: &[u8], len: &mut usize, valid: &mut usize) -> i32
    ensures code { (result ≡ OK) ⊎ (result ≡ NOT_UTF8) }
    ensures not_utf8 { result ≡ NOT_UTF8 ↔ ¬ (IsUtf8 text.now) }
    ensures ok { result ≡ OK → len.new ≡ length (units (chars text.now)) }
    ensures len_kept { result ≡ NOT_UTF8 → len.new ≡ len.old }
    ensures valid { result ≡ NOT_UTF8 → valid.new ≡ utf8_valid_len text.now }
    ensures valid_kept { result ≡ OK → valid.new ≡ valid.old }
{
    match from_utf8(text) {
        Ok(text) => {
            *len = Wtf8::from_str(text).unit_len();
            OK
        }
        Err(error) => {
            *valid = error.valid_up_to();
            NOT_UTF8
        }
    }
}

/// Whether two strings have the same units.
#[unsafe(no_mangle)]
pub extern "C" fn wtf8_equal(string: &mut Wtf8String, other: &mut Wtf8String) -> bool
    ensures equal { IsTrue result ↔ string.old.buf.units ≡ other.old.buf.units }
    ensures kept { IsKept string.old string.new }
    ensures other { IsKept other.old other.new }
{
    string.buffer().as_wtf8() == other.buffer().as_wtf8()
}

/// Compares two strings by their units.
#[unsafe(no_mangle)]
pub extern "C" fn wtf8_compare_units(string: &mut Wtf8String, other: &mut Wtf8String) -> i32
    ensures code { (result ≡ BEFORE) ⊎ ((result ≡ SAME) ⊎ (result ≡ AFTER)) }
    ensures before { result ≡ BEFORE → Before string.old.buf.units other.old.buf.units }
    ensures same { result ≡ SAME → string.old.buf.units ≡ other.old.buf.units }
    ensures after { result ≡ AFTER → Before other.old.buf.units string.old.buf.units }
    ensures kept { IsKept string.old string.new }
    ensures other { IsKept other.old other.new }
{
    let others = other.buffer().as_wtf8();
    code_of_order(string.buffer().as_wtf8().cmp_units(&others))
}

/// Compares two strings by their code points.
#[unsafe(no_mangle)]
pub extern "C" fn wtf8_compare_code_points(string: &mut Wtf8String, other: &mut Wtf8String) -> i32
    ensures code { (result ≡ BEFORE) ⊎ ((result ≡ SAME) ⊎ (result ≡ AFTER)) }
    ensures before { result ≡ BEFORE → Before string.old.buf.form.points other.old.buf.form.points }
    ensures same { result ≡ SAME → string.old.buf.form.points ≡ other.old.buf.form.points }
    ensures after { result ≡ AFTER → Before other.old.buf.form.points string.old.buf.form.points }
    ensures kept { IsKept string.old string.new }
    ensures other { IsKept other.old other.new }
{
    let others = other.buffer().as_wtf8();
    code_of_order(string.buffer().as_wtf8().cmp(&others))
}
