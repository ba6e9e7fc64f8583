// Calls that walk over a string, code point by code point.
ghost use Rattle.std.specs.Prelude.{◌≡◌, ◌⊎◌, ◌+◌, ◌-◌, ◌<◌, ◌≤◌, ◌↔◌, IfSome, IsNone, IsTrue, length, slice_index, take};
ghost use Rattle.wtf8.specs.CodePoint.{number};
ghost use Rattle.wtf8.specs.Form.{encoding};
ghost use Rattle.wtf8.specs.Position.{IsBoundary};
ghost use Rattle.wtf8.specs.SurrogatePosition.{IsNextSurrogate, IsTextFrom};
ghost use Rattle.wtf8.specs.Unicode.{IsLead, IsTrail};
ghost use Rattle.wtf8.specs.View.{view_units};
ghost use Rattle.wtf8_c.specs.Walks.{EndsWithPoint, IsPointBetween};
ghost use Rattle.wtf8_c.specs.Kept.{IsKept};

use crate::codes::{BAD_POSITION, END, OK};
use crate::handle::Wtf8String;
use std::alloc::Global;
use unit_text::IndexedBuf;
use wtf8::{CodePoint, Wtf8};

/// Writes the code point after `position` to `code_point`, and moves `position` past it.
#[unsafe(no_mangle)]
pub extern "C" fn wtf8_next_code_point(
    string: &mut Wtf8String,
    position: &mut usize,
    code_point: &mut u32,
) -> i32
    ensures code { (result ≡ OK) ⊎ ((result ≡ BAD_POSITION) ⊎ (result ≡ END)) }
    ensures position { result ≡ BAD_POSITION ↔ ¬ (IsBoundary string.old.buf.units position.old) }
    ensures end { result ≡ END ↔ position.old ≡ length string.old.buf.bytes }
    ensures ok { result ≡ OK → IsPointBetween string.old.buf.units position.old position.new code_point.new }
    ensures position_kept { ¬ (result ≡ OK) → position.new ≡ position.old }
    ensures code_point { ¬ (result ≡ OK) → code_point.new ≡ code_point.old }
    ensures kept { IsKept string.old string.new }
{
    let text = string.buffer().as_wtf8();
    let begin = *position;
    if !text.is_code_point_boundary(begin) {
        return BAD_POSITION;
    }
    match code_point_at(text, begin) {
        Some(found) => {
            *position = begin + found.encoded_len();
            *code_point = found.to_u32();
            OK
        }
        None => END,
    }
}

/// Writes the code point before `position` to `code_point`, and moves `position` back to its start.
#[unsafe(no_mangle)]
pub extern "C" fn wtf8_previous_code_point(
    string: &mut Wtf8String,
    position: &mut usize,
    code_point: &mut u32,
) -> i32
    ensures code { (result ≡ OK) ⊎ ((result ≡ BAD_POSITION) ⊎ (result ≡ END)) }
    ensures position { result ≡ BAD_POSITION ↔ ¬ (IsBoundary string.old.buf.units position.old) }
    ensures end { result ≡ END ↔ position.old ≡ 0 }
    ensures ok { result ≡ OK → IsPointBetween string.old.buf.units position.new position.old code_point.new }
    ensures position_kept { ¬ (result ≡ OK) → position.new ≡ position.old }
    ensures code_point { ¬ (result ≡ OK) → code_point.new ≡ code_point.old }
    ensures kept { IsKept string.old string.new }
{
    let text = string.buffer().as_wtf8();
    let end = *position;
    if !text.is_code_point_boundary(end) {
        return BAD_POSITION;
    }
    match code_point_before(text, end) {
        Some((found, before)) => {
            *position = before;
            *code_point = found.to_u32();
            OK
        }
        None => END,
    }
}

/// Writes the code point before the unit at `index` to `code_point`: the lead of a pair that `index` divides.
#[unsafe(no_mangle)]
pub extern "C" fn wtf8_code_point_before(
    string: &mut Wtf8String,
    index: usize,
    code_point: &mut u32,
) -> i32
    ensures code { (result ≡ OK) ⊎ ((result ≡ BAD_POSITION) ⊎ (result ≡ END)) }
    ensures position { result ≡ BAD_POSITION ↔ length string.old.buf.units < index }
    ensures end { result ≡ END ↔ index ≡ 0 }
    ensures ok { result ≡ OK → EndsWithPoint (take index string.old.buf.units) code_point.new }
    ensures code_point { ¬ (result ≡ OK) → code_point.new ≡ code_point.old }
    ensures kept { IsKept string.old string.new }
{
    let buf = string.buffer();
    if buf.unit_len() < index {
        return BAD_POSITION;
    }
    if index == 0 {
        return END;
    }
    *code_point = last_point(buf, index);
    OK
}

/// The last code point of the units before `index`.
fn last_point(buf: &IndexedBuf<Global>, index: usize) -> u32
    requires some { 0 < index }
    requires within { index ≤ length buf.now.units }
    ensures { EndsWithPoint (take index buf.now.units) result }
{
    let last = unit_of(buf, index - 1);
    if index == 1 {
        return u32::from(last);
    }
    if !is_trail(last) {
        return u32::from(last);
    }
    let before = unit_of(buf, index - 2);
    if !is_lead(before) {
        return u32::from(last);
    }
    0x10000 + (u32::from(before) - 0xD800) * 0x400 + (u32::from(last) - 0xDC00)
}

#[inline(always)]
fn is_lead(unit: u16) -> bool
    ensures { IsTrue result ↔ IsLead unit }
{
    0xD800 <= unit && unit < 0xDC00
}

#[inline(always)]
fn is_trail(unit: u16) -> bool
    ensures { IsTrue result ↔ IsTrail unit }
{
    0xDC00 <= unit && unit < 0xE000
}

/// The unit at an index of the buffer, which must be less than the length.
fn unit_of(buf: &IndexedBuf<Global>, index: usize) -> u16
    requires { index < length buf.now.units }
    ensures { result ≡ slice_index buf.now.units index }
{
    match buf.unit_at(index) {
        Some(unit) => unit,
        None => 0,
    }
}

/// Writes the first surrogate after `position` to `unit`, and moves `position` past it.
#[unsafe(no_mangle)]
pub extern "C" fn wtf8_next_surrogate(
    string: &mut Wtf8String,
    position: &mut usize,
    unit: &mut u16,
) -> i32
    ensures code { (result ≡ OK) ⊎ ((result ≡ BAD_POSITION) ⊎ (result ≡ END)) }
    ensures position { result ≡ BAD_POSITION ↔ ¬ (IsBoundary string.old.buf.units position.old) }
    ensures end { result ≡ END ↔ IsTextFrom string.old.buf.units position.old }
    ensures ok { result ≡ OK → IsNextSurrogate string.old.buf.units position.old position.new unit.new }
    ensures position_kept { ¬ (result ≡ OK) → position.new ≡ position.old }
    ensures unit { ¬ (result ≡ OK) → unit.new ≡ unit.old }
    ensures kept { IsKept string.old string.new }
{
    let buf = string.buffer();
    let begin = *position;
    if !buf.as_wtf8().is_code_point_boundary(begin) {
        return BAD_POSITION;
    }
    match buf.next_surrogate(begin) {
        Some((surrogate, end)) => {
            *position = end;
            *unit = surrogate.to_u32() as u16;
            OK
        }
        None => END,
    }
}

/// The code point of `text` after the boundary `position`, or `None` at the end.
fn code_point_at(text: Wtf8<'_>, position: usize) -> Option<CodePoint>
    requires { IsBoundary (view_units text) position }
    ensures some { IfSome result (λ p. IsPointBetween (view_units text.entry) position (position + length (encoding (number p))) (number p)) }
    ensures within { IfSome result (λ p. position + length (encoding (number p)) ≤ length text.entry.bytes.now) }
    ensures none { IsNone result → position ≡ length text.entry.bytes.now }
{
    text.slice_from(position).code_points().next()
}

/// The code point of `text` before the boundary `position`, and the boundary before it, or `None` at the start.
pub(crate) fn code_point_before(text: Wtf8<'_>, position: usize) -> Option<(CodePoint, usize)>
    requires { IsBoundary (view_units text) position }
    ensures some { IfSome result (λ p. IsPointBetween (view_units text.entry) p.1 position (number p.0)) }
    ensures len { IfSome result (λ p. p.1 + length (encoding (number p.0)) ≡ position) }
    ensures none { IsNone result ↔ position ≡ 0 }
{
    if position == 0 {
        return None;
    }
    let begin = text.boundary_before(position - 1);
    match code_point_at(text, begin) {
        Some(point) => Some((point, begin)),
        None => None,
    }
}
