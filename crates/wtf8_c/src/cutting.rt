// Calls that shorten a string, and that copy or append a part of one.
ghost use Rattle.std.specs.Prelude.{◌≡◌, [], ◌∷◌, ◌++◌, ◌⊎◌, ◌<◌, ◌≤◌, ◌↔◌, IsTrue, IsOk, OnOk, OnErr, length, take, drop};
ghost use Rattle.wtf8.specs.Appending.{AppendsUnits, KeepsContents, HasRoomFor, FitWithin};
ghost use Rattle.wtf8.specs.Position.{IsBoundary, IsFront};
ghost use Rattle.wtf8.specs.UnitPosition.{units_of_slice};
ghost use Rattle.wtf8_c.specs.Halves.{AreHalves};
ghost use Rattle.wtf8_c.specs.Kept.{IsKept};

use crate::codes::{BAD_POSITION, END, NO_MEMORY, OK, code_of};
use crate::handle::Wtf8String;
use crate::walking::code_point_before;
use std::alloc::{AllocError, Global};
use unit_text::IndexedBuf;
use wtf8::{UnitMark, UnitSlice};

/// Shortens the string to `n` units.
#[unsafe(no_mangle)]
pub extern "C" fn wtf8_truncate_units(string: &mut Wtf8String, n: usize) -> i32
    ensures code { (result ≡ OK) ⊎ (result ≡ BAD_POSITION) }
    ensures position { result ≡ BAD_POSITION ↔ length string.old.buf.units < n }
    ensures ok { result ≡ OK → string.new.buf.units ≡ take n string.old.buf.units }
    ensures kept { result ≡ BAD_POSITION → IsKept string.old string.new }
    ensures capacity { string.new.buf.capacity ≡ string.old.buf.capacity }
    ensures lies { string.new.at ≡ string.old.at }
{
    let buf = string.buffer();
    if buf.unit_len() < n {
        return BAD_POSITION;
    }
    buf.truncate_units(n);
    OK
}

/// Shortens the string to `position` bytes.
#[unsafe(no_mangle)]
pub extern "C" fn wtf8_truncate_bytes(string: &mut Wtf8String, position: usize) -> i32
    ensures code { (result ≡ OK) ⊎ (result ≡ BAD_POSITION) }
    ensures position { result ≡ BAD_POSITION ↔ ¬ (IsBoundary string.old.buf.units position) }
    ensures ok { result ≡ OK → IsFront string.old.buf.units position string.new.buf.units }
    ensures kept { result ≡ BAD_POSITION → IsKept string.old string.new }
    ensures capacity { string.new.buf.capacity ≡ string.old.buf.capacity }
    ensures lies { string.new.at ≡ string.old.at }
{
    let buf = string.buffer();
    if !buf.as_wtf8().is_code_point_boundary(position) {
        return BAD_POSITION;
    }
    buf.truncate(position);
    OK
}

/// Takes the last code point off, and writes it to `code_point`.
#[unsafe(no_mangle)]
pub extern "C" fn wtf8_pop(string: &mut Wtf8String, code_point: &mut u32) -> i32
    ensures code { (result ≡ OK) ⊎ (result ≡ END) }
    ensures end { result ≡ END ↔ string.old.buf.units ≡ [] }
    ensures ok { result ≡ OK → string.old.buf.form.points ≡ string.new.buf.form.points ++ code_point.new ∷ [] }
    ensures kept { result ≡ END → IsKept string.old string.new }
    ensures code_point { result ≡ END → code_point.new ≡ code_point.old }
    ensures capacity { string.new.buf.capacity ≡ string.old.buf.capacity }
    ensures lies { string.new.at ≡ string.old.at }
{
    pop_of(string.buffer(), code_point)
}

/// Takes the last code point off the buffer, as `wtf8_pop` does off a string.
fn pop_of(buf: &mut IndexedBuf<Global>, code_point: &mut u32) -> i32
    ensures code { (result ≡ OK) ⊎ (result ≡ END) }
    ensures end { result ≡ END ↔ buf.old.units ≡ [] }
    ensures ok { result ≡ OK → buf.old.form.points ≡ buf.new.form.points ++ code_point.new ∷ [] }
    ensures kept { result ≡ END → buf.new ≡ buf.old }
    ensures code_point { result ≡ END → code_point.new ≡ code_point.old }
    ensures capacity { buf.new.capacity ≡ buf.old.capacity }
{
    let text = buf.as_wtf8();
    let len = text.len();
    match code_point_before(text, len) {
        Some((last, position)) => {
            let before = UnitMark {
                position,
                units: buf.unit_len() - last.len_utf16(),
            };
            buf.truncate_at(before);
            *code_point = last.to_u32();
            OK
        }
        None => END,
    }
}

/// Replaces `into` by the units of `string` from index `begin` to before `end`.
#[unsafe(no_mangle)]
pub extern "C" fn wtf8_slice_units(
    alloc: Global,
    into: &mut Wtf8String,
    string: &mut Wtf8String,
    begin: usize,
    end: usize,
) -> i32
    ensures code { (result ≡ OK) ⊎ ((result ≡ NO_MEMORY) ⊎ (result ≡ BAD_POSITION)) }
    ensures position { result ≡ BAD_POSITION ↔ ¬ ((begin ≤ end) × (end ≤ length string.old.buf.units)) }
    ensures ok { result ≡ OK → into.new.buf.units ≡ drop begin (take end string.old.buf.units) }
    ensures kept { ¬ (result ≡ OK) → IsKept into.old into.new }
    ensures room { (begin ≤ end) × (end ≤ length string.old.buf.units) → FitWithin (drop begin (take end string.old.buf.units)) 0 into.old.buf.capacity → result ≡ OK }
    ensures string { IsKept string.old string.new }
    ensures capacity { into.old.buf.capacity ≤ into.new.buf.capacity }
    ensures lies { into.new.at ≡ into.old.at }
{
    let from = string.buffer();
    if end < begin || from.unit_len() < end {
        return BAD_POSITION;
    }
    code_of(set_part(alloc, into.buffer(), slice_of(from, begin, end)))
}

/// Replaces the units of a buffer by those of a slice, in its capacity if they fit.
fn set_part(
    alloc: Global,
    buf: &mut IndexedBuf<Global>,
    slice: UnitSlice<'_>,
) -> Result<(), AllocError>
    requires { AreHalves slice }
    ensures ok { OnOk result (buf.new.units ≡ units_of_slice slice.entry) }
    ensures kept { OnErr result (buf.new ≡ buf.old) }
    ensures room { FitWithin (units_of_slice slice.entry) 0 buf.old.capacity → IsOk result }
    ensures capacity { buf.old.capacity ≤ buf.new.capacity }
{
    if has_room(buf.capacity(), slice) {
        buf.clear();
        return buf.push_unit_slice(slice);
    }
    let mut made = IndexedBuf::new(alloc);
    made.push_unit_slice(slice)?;
    *buf = made;
    Ok(())
}

/// Whether a capacity has room for a slice.
fn has_room(capacity: usize, slice: UnitSlice<'_>) -> bool
    requires { AreHalves slice }
    ensures { IsTrue result ↔ FitWithin (units_of_slice slice.entry) 0 capacity }
{
    // A half of a pair has three bytes.
    let halves = usize::from(slice.trail.is_some()) + usize::from(slice.lead.is_some());
    let whole = slice.whole.len();
    whole <= capacity && 3 * halves <= capacity - whole
}

/// Appends the units of `other` from index `begin` to before `end`.
#[unsafe(no_mangle)]
pub extern "C" fn wtf8_push_slice(
    string: &mut Wtf8String,
    other: &mut Wtf8String,
    begin: usize,
    end: usize,
) -> i32
    ensures code { (result ≡ OK) ⊎ ((result ≡ NO_MEMORY) ⊎ (result ≡ BAD_POSITION)) }
    ensures position { result ≡ BAD_POSITION ↔ ¬ ((begin ≤ end) × (end ≤ length other.old.buf.units)) }
    ensures ok { result ≡ OK → AppendsUnits string.old.buf (drop begin (take end other.old.buf.units)) string.new.buf }
    ensures kept { ¬ (result ≡ OK) → KeepsContents string.old.buf string.new.buf }
    ensures room { (begin ≤ end) × (end ≤ length other.old.buf.units) → HasRoomFor string.old.buf (drop begin (take end other.old.buf.units)) → result ≡ OK }
    ensures other { IsKept other.old other.new }
    ensures capacity { string.old.buf.capacity ≤ string.new.buf.capacity }
    ensures lies { string.new.at ≡ string.old.at }
{
    let from = other.buffer();
    if end < begin || from.unit_len() < end {
        return BAD_POSITION;
    }
    code_of(string.buffer().push_unit_slice(slice_of(from, begin, end)))
}

/// The part of the buffer's string from unit `begin` to before unit `end`.
fn slice_of(buf: &IndexedBuf<Global>, begin: usize, end: usize) -> UnitSlice<'_>
    requires order { begin ≤ end }
    requires within { end ≤ length buf.now.units }
    ensures units { units_of_slice result ≡ drop begin (take end buf.now.units) }
    ensures halves { AreHalves result }
{
    buf.slice_units(begin, end)
}
