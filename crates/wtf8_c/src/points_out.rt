// Calls that copy code points out.
ghost use Rattle.std.specs.Prelude.{◌≡◌, ◌⊎◌, ◌≤◌, ◌↔◌, length, take, drop, min, IsTrue, IsFalse};
ghost use Rattle.wtf8.specs.Form.{bytes};
ghost use Rattle.wtf8.specs.Position.{IsBoundary};
ghost use Rattle.wtf8.specs.Surrogates.{AreScalar};
ghost use Rattle.wtf8.specs.Unicode.{IsSurrogate};
ghost use Rattle.wtf8.specs.View.{view_points, view_units};
ghost use Rattle.wtf8_c.specs.Walks.{ArePointsBetween};
ghost use Rattle.wtf8_c.specs.Kept.{IsKept};

use crate::codes::{BAD_POSITION, END, OK};
use crate::handle::Wtf8String;
use wtf8::Wtf8;

/// The most bytes of a part whose units are decoded together.
const PART: usize = 256;

/// Writes the code points after `position` to the front of `out` until it is full, and their number to `len`, and moves
/// `position` past them.
#[unsafe(no_mangle)]
pub extern "C" fn wtf8_copy_code_points(
    string: &mut Wtf8String,
    position: &mut usize,
    out: &mut [u32],
    len: &mut usize,
) -> i32
    ensures code { (result ≡ OK) ⊎ ((result ≡ BAD_POSITION) ⊎ (result ≡ END)) }
    ensures position { result ≡ BAD_POSITION ↔ ¬ (IsBoundary string.old.buf.units position.old) }
    ensures end { result ≡ END ↔ position.old ≡ length string.old.buf.bytes }
    ensures ok { result ≡ OK → ArePointsBetween string.old.buf.units position.old position.new (take len.new out.new) }
    ensures within { result ≡ OK → len.new ≤ length out.old }
    ensures all { result ≡ OK → (len.new ≡ length out.old) ⊎ (position.new ≡ length string.old.buf.bytes) }
    ensures rest { result ≡ OK → drop len.new out.new ≡ drop len.new out.old }
    ensures size { length out.new ≡ length out.old }
    ensures out { ¬ (result ≡ OK) → out.new ≡ out.old }
    ensures position_kept { ¬ (result ≡ OK) → position.new ≡ position.old }
    ensures len_kept { ¬ (result ≡ OK) → len.new ≡ len.old }
    ensures kept { IsKept string.old string.new }
{
    copy_from(string.buffer().as_wtf8(), position, out, len)
}

/// The code points of `text` after `position`, as `wtf8_copy_code_points` writes them.
fn copy_from(text: Wtf8<'_>, position: &mut usize, out: &mut [u32], len: &mut usize) -> i32
    ensures code { (result ≡ OK) ⊎ ((result ≡ BAD_POSITION) ⊎ (result ≡ END)) }
    ensures position { result ≡ BAD_POSITION ↔ ¬ (IsBoundary (view_units text.entry) position.old) }
    ensures end { result ≡ END ↔ position.old ≡ length text.entry.bytes.now }
    ensures ok { result ≡ OK → ArePointsBetween (view_units text.entry) position.old position.new (take len.new out.new) }
    ensures within { result ≡ OK → len.new ≤ length out.old }
    ensures all { result ≡ OK → (len.new ≡ length out.old) ⊎ (position.new ≡ length text.entry.bytes.now) }
    ensures rest { result ≡ OK → drop len.new out.new ≡ drop len.new out.old }
    ensures size { length out.new ≡ length out.old }
    ensures out { ¬ (result ≡ OK) → out.new ≡ out.old }
    ensures position_kept { ¬ (result ≡ OK) → position.new ≡ position.old }
    ensures len_kept { ¬ (result ≡ OK) → len.new ≡ len.old }
{
    let begin = *position;
    if !text.is_code_point_boundary(begin) {
        return BAD_POSITION;
    }
    if begin == text.len() {
        return END;
    }
    let (count, copied) = copy_points(text.slice_from(begin), out);
    *len = count;
    *position = begin + copied;
    OK
}

/// Writes the code points of `text` to the front of `out` until it is full. Returns their number and that of their bytes.
fn copy_points(text: Wtf8<'_>, out: &mut [u32]) -> (usize, usize)
    ensures count { result.0 ≡ min (length out.old) (length (view_points text.entry)) }
    ensures points { take result.0 out.new ≡ take result.0 (view_points text.entry) }
    ensures rest { drop result.0 out.new ≡ drop result.0 out.old }
    ensures size { length out.new ≡ length out.old }
    ensures bytes { result.1 ≡ length (bytes (take result.0 (view_points text.entry))) }
    ensures within { result.1 ≤ length text.entry.bytes.now }
{
    let mut left = text;
    let mut count = 0;
    while PART <= left.len() && PART <= out.len() - count {
        let end = left.boundary_before(PART);
        count += copy_part(left.slice_to(end), &mut out[count..]);
        left = left.slice_from(end);
    }
    let (n, copied) = copy_one_by_one(left, &mut out[count..]);
    (count + n, text.len() - left.len() + copied)
}

/// Writes the code points of at most `PART` bytes to the front of `out`, which has an element for each byte, and returns
/// their number. If no unit is a surrogate, the code points are the units, which are decoded in blocks.
fn copy_part(part: Wtf8<'_>, out: &mut [u32]) -> usize
    requires short { length part.bytes.now ≤ PART }
    requires room { length part.bytes.now ≤ length out.old }
    ensures count { result ≡ length (view_points part.entry) }
    ensures points { take result out.new ≡ view_points part.entry }
    ensures rest { drop result out.new ≡ drop result out.old }
    ensures size { length out.new ≡ length out.old }
{
    let mut block = [0; PART];
    let n = part.write_units(&mut block);
    let units: &[u16] = &block[..n];
    if has_surrogate(units) {
        let (count, _) = copy_one_by_one(part, out);
        return count;
    }
    widen(units, &mut out[..n]);
    n
}

/// Whether a unit is a surrogate.
fn has_surrogate(units: &[u16]) -> bool
    ensures { IsFalse result → AreScalar units.now }
{
    let mut found = false;
    for at in 0..units.len() {
        found = found | is_surrogate(units[at]);
    }
    found
}

#[inline(always)]
fn is_surrogate(unit: u16) -> bool
    ensures { IsTrue result ↔ IsSurrogate unit }
{
    0xD800 <= unit && unit < 0xE000
}

/// Writes each unit to the element with its index.
fn widen(units: &[u16], out: &mut [u32])
    requires { length out.old ≡ length units.now }
    ensures { out.new ≡ units.now }
{
    for at in 0..units.len() {
        out[at] = u32::from(units[at]);
    }
}

/// The same as `copy_points`, code point by code point.
fn copy_one_by_one(text: Wtf8<'_>, out: &mut [u32]) -> (usize, usize)
    ensures count { result.0 ≡ min (length out.old) (length (view_points text.entry)) }
    ensures points { take result.0 out.new ≡ take result.0 (view_points text.entry) }
    ensures rest { drop result.0 out.new ≡ drop result.0 out.old }
    ensures size { length out.new ≡ length out.old }
    ensures bytes { result.1 ≡ length (bytes (take result.0 (view_points text.entry))) }
    ensures within { result.1 ≤ length text.entry.bytes.now }
{
    let mut left = text.code_points();
    let mut count = 0;
    while count < out.len() {
        let Some(point) = left.next() else {
            return (count, text.len());
        };
        out[count] = point.to_u32();
        count += 1;
    }
    (count, text.len() - left.as_wtf8().len())
}
