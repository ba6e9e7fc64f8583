// Calls that compare a string with units or a text, or its units from an index on with units or another string.
ghost use Rattle.std.specs.Prelude.{◌≡◌, ◌⊎◌, ◌↔◌, [], IsTrue, length, take, drop};
ghost use Rattle.std.specs.Str.{chars, IsUtf8};
ghost use Rattle.wtf8.specs.Order.{Before};
ghost use Rattle.wtf8.specs.Unicode.{units};
ghost use Rattle.wtf8_c.specs.Kept.{IsKept};

use crate::codes::{AFTER, BEFORE, SAME, code_of_order};
use crate::handle::Wtf8String;

/// Whether the units of the string are these.
#[unsafe(no_mangle)]
pub extern "C" fn wtf8_equal_units(string: &mut Wtf8String, units: &[u16]) -> bool
    ensures equal { IsTrue result ↔ string.old.buf.units ≡ units.now }
    ensures kept { IsKept string.old string.new }
{
    string.buffer().eq_units(units)
}

/// Whether the bytes are UTF-8, and the text is that of the string.
#[unsafe(no_mangle)]
pub extern "C" fn wtf8_equal_utf8(string: &mut Wtf8String, text: &[u8]) -> bool
    ensures equal { IsTrue result ↔ (IsUtf8 text.now × (string.old.buf.units ≡ units (chars text.now))) }
    ensures kept { IsKept string.old string.new }
{
    string.buffer().as_wtf8().eq_utf8(text)
}

/// Whether the bytes are UTF-8, and the units of the string begin with the text's.
#[unsafe(no_mangle)]
pub extern "C" fn wtf8_starts_with_utf8(string: &mut Wtf8String, text: &[u8]) -> bool
    ensures starts { IsTrue result ↔ (IsUtf8 text.now × (take (length (units (chars text.now))) string.old.buf.units ≡ units (chars text.now))) }
    ensures kept { IsKept string.old string.new }
{
    string.buffer().as_wtf8().starts_with_utf8(text)
}

/// Compares the units of the string with a text's in UTF-8. Bytes that are not UTF-8 come after each string.
#[unsafe(no_mangle)]
pub extern "C" fn wtf8_compare_with_utf8(string: &mut Wtf8String, text: &[u8]) -> i32
    ensures code { (result ≡ BEFORE) ⊎ ((result ≡ SAME) ⊎ (result ≡ AFTER)) }
    ensures before { result ≡ BEFORE → IsUtf8 text.now → Before string.old.buf.units (units (chars text.now)) }
    ensures same { result ≡ SAME → IsUtf8 text.now → string.old.buf.units ≡ units (chars text.now) }
    ensures after { result ≡ AFTER → IsUtf8 text.now → Before (units (chars text.now)) string.old.buf.units }
    ensures not_utf8 { ¬ (IsUtf8 text.now) → result ≡ BEFORE }
    ensures kept { IsKept string.old string.new }
{
    code_of_order(string.buffer().as_wtf8().cmp_with_utf8(text))
}

/// Compares the units of the string with these.
#[unsafe(no_mangle)]
pub extern "C" fn wtf8_compare_with_units(string: &mut Wtf8String, units: &[u16]) -> i32
    ensures code { (result ≡ BEFORE) ⊎ ((result ≡ SAME) ⊎ (result ≡ AFTER)) }
    ensures before { result ≡ BEFORE → Before string.old.buf.units units.now }
    ensures same { result ≡ SAME → string.old.buf.units ≡ units.now }
    ensures after { result ≡ AFTER → Before units.now string.old.buf.units }
    ensures kept { IsKept string.old string.new }
{
    code_of_order(string.buffer().as_wtf8().cmp_with_units(units))
}

/// Whether the units of the string from `index` on begin with the units of `other`. An empty `other` is found at each
/// index.
#[unsafe(no_mangle)]
pub extern "C" fn wtf8_starts_with(
    string: &mut Wtf8String,
    index: usize,
    other: &mut Wtf8String,
) -> bool
    ensures starts { IsTrue result ↔ take (length other.old.buf.units) (drop index string.old.buf.units) ≡ other.old.buf.units }
    ensures kept { IsKept string.old string.new }
    ensures other { IsKept other.old other.new }
{
    string.buffer().starts_with_at(index, other.buffer())
}

/// Whether the units of the string from `index` on begin with these. An empty list is found at each index.
#[unsafe(no_mangle)]
pub extern "C" fn wtf8_starts_with_units(
    string: &mut Wtf8String,
    index: usize,
    units: &[u16],
) -> bool
    ensures starts { IsTrue result ↔ take (length units.now) (drop index string.old.buf.units) ≡ units.now }
    ensures kept { IsKept string.old string.new }
{
    string.buffer().starts_with_units_at(index, units)
}
