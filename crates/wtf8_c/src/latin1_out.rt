// Calls that ask whether the units are Latin-1, and copy them out as bytes.
ghost use Rattle.std.specs.Prelude.{◌≡◌, ◌++◌, ◌⊎◌, ◌+◌, ◌<◌, ◌≤◌, ◌↔◌, ℕ, IsFalse, IsTrue, length, take, drop};
ghost use Rattle.wtf8.specs.View.{view_units};
ghost use Rattle.wtf8_c.specs.Front.{with_front};
ghost use Rattle.wtf8_c.specs.Latin1.{AreLatin1, EndsLatin1};
ghost use Rattle.wtf8_c.specs.Kept.{IsKept};

use crate::asking::has_one_byte_each;
use crate::codes::{ARRAY_TOO_SHORT, NOT_LATIN1, OK};
use crate::handle::Wtf8String;
use wtf8::Wtf8;

/// The most bytes of a part whose units are decoded together, on the stack.
const PART: usize = 256;

/// Whether each unit is at most FF.
#[unsafe(no_mangle)]
pub extern "C" fn wtf8_is_latin1(string: &mut Wtf8String) -> bool
    ensures latin1 { IsTrue result ↔ AreLatin1 string.old.buf.units }
    ensures kept { IsKept string.old string.new }
{
    let buf = string.buffer();
    latin1_len(buf.as_wtf8(), buf.unit_len()) == buf.unit_len()
}

/// Writes each unit as a byte at the front of `out`, and their number to `len`, if each is at most FF. If one is not, the
/// index of the first such unit is written to `valid`.
#[unsafe(no_mangle)]
pub extern "C" fn wtf8_copy_latin1(
    string: &mut Wtf8String,
    out: &mut [u8],
    len: &mut usize,
    valid: &mut usize,
) -> i32
    ensures code { (result ≡ OK) ⊎ ((result ≡ NOT_LATIN1) ⊎ (result ≡ ARRAY_TOO_SHORT)) }
    ensures not_latin1 { result ≡ NOT_LATIN1 ↔ ¬ (AreLatin1 string.old.buf.units) }
    ensures short { result ≡ ARRAY_TOO_SHORT ↔ AreLatin1 string.old.buf.units × (length out.old < length string.old.buf.units) }
    ensures ok { result ≡ OK → out.new ≡ with_front string.old.buf.units out.old }
    ensures out { ¬ (result ≡ OK) → out.new ≡ out.old }
    ensures len { ¬ (result ≡ NOT_LATIN1) → len.new ≡ length string.old.buf.units }
    ensures len_kept { result ≡ NOT_LATIN1 → len.new ≡ len.old }
    ensures valid { result ≡ NOT_LATIN1 → EndsLatin1 string.old.buf.units valid.new }
    ensures valid_kept { ¬ (result ≡ NOT_LATIN1) → valid.new ≡ valid.old }
    ensures kept { IsKept string.old string.new }
{
    let buf = string.buffer();
    let text = buf.as_wtf8();
    let needed = buf.unit_len();
    let front = latin1_len(text, needed);
    if front < needed {
        *valid = front;
        return NOT_LATIN1;
    }
    *len = needed;
    if out.len() < needed {
        return ARRAY_TOO_SHORT;
    }
    write_latin1(text, out);
    OK
}

/// The number of units before the first one that is greater than FF, or of all, which are `count`.
fn latin1_len(text: Wtf8<'_>, count: usize) -> usize
    requires { count ≡ length (view_units text) }
    ensures { EndsLatin1 (view_units text.entry) result }
{
    if has_one_byte_each(text, count) {
        return count;
    }
    scanned_len(text)
}

/// The same of a string that need not be ASCII.
fn scanned_len(text: Wtf8<'_>) -> usize
    ensures { EndsLatin1 (view_units text.entry) result }
{
    let mut left = text;
    let mut count = 0;
    while 0 < left.len() {
        let (part, rest) = next_part(left);
        let (front, n) = part_latin1_len(part);
        // The string has no more units than bytes, so they can be counted.
        prove!(text.len() <= usize::MAX);
        count += front;
        if front < n {
            return count;
        }
        left = rest;
    }
    count
}

/// Divides a view that is not empty: the code points of its first `PART` bytes, and the others.
fn next_part<'a>(left: Wtf8<'a>) -> (Wtf8<'a>, Wtf8<'a>)
    requires { 0 < length left.bytes.now }
    ensures whole { view_units result.0 ++ view_units result.1 ≡ view_units left.entry }
    ensures short { length result.0.bytes.now ≤ PART }
    ensures less { length result.1.bytes.now < length left.entry.bytes.now }
{
    let end = left.boundary_before(PART.min(left.len()));
    (left.slice_to(end), left.slice_from(end))
}

/// The same of at most `PART` bytes, and the number of their units.
fn part_latin1_len(part: Wtf8<'_>) -> (usize, usize)
    requires { length part.bytes.now ≤ PART }
    ensures front { EndsLatin1 (view_units part.entry) result.0 }
    ensures count { result.1 ≡ length (view_units part.entry) }
{
    let mut block = [0; PART];
    let n = part.write_units(&mut block);
    (low_len(&block[..n]), n)
}

/// The number of units before the first one that is greater than FF, or of all.
fn low_len(units: &[u16]) -> usize
    ensures { EndsLatin1 units.now result }
{
    if !has_high(units) {
        return units.len();
    }
    for at in 0..units.len() {
        if 0xFF < units[at] {
            return at;
        }
    }
    units.len()
}

/// Whether a unit is greater than FF. All are looked at, several at a time.
fn has_high(units: &[u16]) -> bool
    ensures { IsFalse result → AreLatin1 units.now }
{
    let mut found = false;
    for at in 0..units.len() {
        found = found | (0xFF < units[at]);
    }
    found
}

/// Writes each unit as a byte at the front of `out`, which has room for them.
fn write_latin1(text: Wtf8<'_>, out: &mut [u8])
    requires latin1 { AreLatin1 (view_units text) }
    requires room { length (view_units text) ≤ length out.old }
    ensures { out.new ≡ with_front (view_units text.entry) out.old }
{
    let mut left = text;
    let mut count = 0;
    while 0 < left.len() {
        let (part, rest) = next_part(left);
        count = write_part(part, out, count);
        left = rest;
    }
}

/// The same of at most `PART` bytes, from index `from` of `out` on. Returns the index after them.
fn write_part(part: Wtf8<'_>, out: &mut [u8], from: usize) -> usize
    requires short { length part.bytes.now ≤ PART }
    requires latin1 { AreLatin1 (view_units part) }
    requires room { from + length (view_units part) ≤ length out.old }
    ensures units { take result out.new ≡ take from out.old ++ view_units part.entry }
    ensures rest { (n : ℕ) → result ≤ n → drop n out.new ≡ drop n out.old }
    ensures index { result ≡ from + length (view_units part.entry) }
    ensures len { length out.new ≡ length out.old }
{
    let mut block = [0; PART];
    let n = part.write_units(&mut block);
    narrow(&block[..n], out, from);
    from + n
}

/// Writes each unit as a byte, from index `from` of `out` on.
fn narrow(units: &[u16], out: &mut [u8], from: usize)
    requires latin1 { AreLatin1 units.now }
    requires room { from + length units.now ≤ length out.old }
    ensures units { take (from + length units.now) out.new ≡ take from out.old ++ units.now }
    ensures rest { (n : ℕ) → from + length units.now ≤ n → drop n out.new ≡ drop n out.old }
    ensures len { length out.new ≡ length out.old }
{
    for at in 0..units.len() {
        out[from + at] = units[at] as u8;
    }
}
