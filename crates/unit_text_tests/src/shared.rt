// Texts, buffers and checks that several test modules use.
use std::alloc::{AllocError, Allocator, Global};
use unit_text::{IndexedBuf, UnitText};
use wtf8::{CodePoint, IllFormedUtf16CodeUnits, Wtf8, Wtf8Buf};
use wtf8_tests::wrong::expect_bytes;

pub type Buf = IndexedBuf<Global>;

/// The text of the units, or the empty one if memory is refused.
pub fn text_of<A: Allocator + Copy + Drop>(alloc: A, units: &[u16]) -> UnitText<A> {
    match UnitText::from_units(alloc, units) {
        Ok(text) => text,
        Err(_) => UnitText::new(alloc),
    }
}

/// An empty buffer with room for `n` bytes, or without room if memory is refused.
pub fn with_room<A: Allocator + Copy + Drop>(heap: A, n: usize) -> IndexedBuf<A> {
    match IndexedBuf::with_capacity(heap, n) {
        Ok(buf) => buf,
        Err(_) => IndexedBuf::new(heap),
    }
}

/// The buffer of the units, or the empty one if memory is refused.
pub fn buf_of<A: Allocator + Copy + Drop>(alloc: A, units: &[u16]) -> IndexedBuf<A> {
    match IndexedBuf::from_units(alloc, units) {
        Ok(buf) => buf,
        Err(_) => IndexedBuf::new(alloc),
    }
}

/// The slice from unit `begin` to before unit `end`. Fails if this is no range of the text's units.
pub fn slice_of<A: Allocator + Drop>(
    alloc: A,
    text: &UnitText<A>,
    begin: usize,
    end: usize,
) -> Result<UnitText<A>, AllocError> {
    if begin > end || end > text.unit_len() {
        return Err(AllocError);
    }
    text.slice_units(alloc, begin, end)
}

/// Whether the string has the bytes of `dump`.
pub fn has_bytes(alloc: Global, text: Wtf8<'_>, dump: &str) -> bool {
    expect_bytes(alloc, text, dump).is_ok()
}

/// Six units that repeat in a text.
pub static KINDS: [[u16; 6]; 5] = [
    [0x61; 6],
    [0x3042; 6],
    [0xD83D, 0xDCA9, 0xD83D, 0xDCA9, 0xD83D, 0xDCA9],
    [0xE9, 0xD83D, 0xDCA9, 0xE9, 0xD83D, 0xDCA9],
    [0x61, 0x3042, 0xDCA9, 0xD83D, 0xDCA9, 0xD83D],
];

/// `length` units that repeat `kind`; fewer if memory is refused.
pub fn units_of(alloc: Global, kind: &[u16; 6], length: usize) -> Vec<u16> {
    let mut units = Vec::new(alloc);
    for at in 0..length {
        let _ = units.push(kind[at % 6]);
    }
    units
}

/// Whether the text has `units` by index, and no more.
pub fn has_units<A: Allocator>(text: &UnitText<A>, units: &[u16]) -> bool {
    for i in 0..units.len().saturating_add(1) {
        if text.unit_at(i) != units.get(i).copied() {
            return false;
        }
    }
    text.unit_len() == units.len() && text.unit_at(usize::MAX).is_none()
}

/// Whether the text has `units` by index, and no more, and the bytes of `dump`.
pub fn has_text<A: Allocator>(
    alloc: Global,
    text: &UnitText<A>,
    units: &[u16],
    dump: &str,
) -> bool {
    has_units(text, units) && has_bytes(alloc, text.as_wtf8(), dump)
}

/// Whether the buffer has `units` by index, and no more.
pub fn buf_has_units<A: Allocator>(buf: &IndexedBuf<A>, units: &[u16]) -> bool {
    for i in 0..units.len().saturating_add(1) {
        if buf.unit_at(i) != units.get(i).copied() {
            return false;
        }
    }
    buf.unit_len() == units.len() && buf.unit_at(usize::MAX).is_none()
}

/// Whether the buffer has `units` by index, and no more, and the bytes of `dump`.
pub fn has_buf<A: Allocator>(
    alloc: Global,
    buf: &IndexedBuf<A>,
    units: &[u16],
    dump: &str,
) -> bool {
    buf_has_units(buf, units) && has_bytes(alloc, buf.as_wtf8(), dump)
}

/// Whether the iterator has these units left, and no more.
pub fn has_units_left(mut left: IllFormedUtf16CodeUnits<'_>, units: &[u16]) -> bool {
    for unit in units {
        if left.next() != Some(*unit) {
            return false;
        }
    }
    left.next().is_none()
}

/// Appends units one by one, except those for which memory is refused.
pub fn push_each<A: Allocator>(buf: &mut IndexedBuf<A>, units: &[u16]) {
    for unit in units {
        let _ = buf.push_unit(*unit);
    }
}

/// A call of a buffer that appends, with what it appends.
#[derive(Clone, Copy)]
pub enum Push {
    Point(u32),
    Unit(u16),
    Char(char),
    Str(&'static str),
    Units(&'static [u16]),
    View(&'static [u16]),
    /// The slice of the string of these units from one index to before another.
    Slice(&'static [u16], usize, usize),
}

/// Makes the call. A view or a slice is of a string that `alloc` allocates. Fails if a `Point` is no code point or the
/// indexes of a `Slice` are no range of its units.
pub fn push_to<A: Allocator>(
    alloc: Global,
    buf: &mut IndexedBuf<A>,
    push: Push,
) -> Result<(), AllocError> {
    match push {
        Push::Point(number) => match CodePoint::from_u32(number) {
            Some(code_point) => buf.push(code_point),
            None => Err(AllocError),
        },
        Push::Unit(unit) => buf.push_unit(unit),
        Push::Char(c) => buf.push_char(c),
        Push::Str(value) => buf.push_str(value),
        Push::Units(units) => buf.push_units(units),
        Push::View(units) => push_part_of_units(alloc, buf, units, None),
        Push::Slice(units, begin, end) => {
            push_part_of_units(alloc, buf, units, Some((begin, end)))
        }
    }
}

/// Appends the string of these units, which `alloc` allocates, or its slice where a range is given.
fn push_part_of_units<A: Allocator>(
    alloc: Global,
    buf: &mut IndexedBuf<A>,
    units: &[u16],
    range: Option<(usize, usize)>,
) -> Result<(), AllocError> {
    match Wtf8Buf::from_ill_formed_utf16(alloc, units) {
        Ok(whole) => push_part(buf, whole.as_wtf8(), range),
        Err(_) => Err(AllocError),
    }
}

/// Appends a view, or its slice where a range is given. Fails if there is no such range of its units.
fn push_part<A: Allocator>(
    buf: &mut IndexedBuf<A>,
    whole: Wtf8<'_>,
    range: Option<(usize, usize)>,
) -> Result<(), AllocError> {
    let Some((begin, end)) = range else {
        return buf.push_wtf8(whole);
    };
    if end < begin || whole.unit_len() < end {
        return Err(AllocError);
    }
    buf.push_unit_slice(whole.slice_units(begin, end))
}
