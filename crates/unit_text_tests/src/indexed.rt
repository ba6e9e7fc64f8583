// Buffers that find their code units: short ones by tables, and long ones with marks and without.
use crate::shared::Push::{Char, Point, Slice, Str, Unit, Units, View};
use crate::shared::{
    Buf, Push, buf_has_units, buf_of, has_buf, has_bytes, has_text, has_units_left, push_each,
    push_to, with_room,
};
use std::alloc::{AllocError, Global};
use std::cmp::Ordering;
use std::hash::{DefaultHasher, Hash, Hasher};
use unit_text::{IndexedBuf, UnitText};
use wtf8::{CodePoint, Wtf8, Wtf8Buf};

/// What a unit of an output is before a call writes to it.
const UNWRITTEN: u16 = 0x1234;

/// Whether no call has written to these units.
fn are_unwritten(units: &[u16]) -> bool {
    for unit in units {
        if *unit != UNWRITTEN {
            return false;
        }
    }
    true
}

/// Whether `copy_units` writes the units from index `begin` to before index `end` to the front of `out`, whose units no
/// call has written, and leaves its rest, which has more units than those from index `end` on.
fn is_copied_to(buf: &Buf, units: &[u16], begin: usize, end: usize, out: &mut [u16]) -> bool {
    if begin > end || end > buf.unit_len() || end > units.len() {
        return false;
    }
    let n = end - begin;
    if out.len() < n {
        return false;
    }
    buf.copy_units(begin, end, out);
    let (front, rest) = out.split_at(n);
    rest.len() > units.len() - end && are_unwritten(rest) && front == &units[begin..end]
}

/// Whether `is_copied_to` holds of an output that has room for all units and one more.
fn is_copied(alloc: Global, buf: &Buf, units: &[u16], begin: usize, end: usize) -> bool {
    let mut out = Vec::new(alloc);
    let is_made = out.resize(units.len().saturating_add(1), UNWRITTEN).is_ok();
    is_made && is_copied_to(buf, units, begin, end, &mut out)
}

/// Whether `slice_units` and `starts_with_units_at` find the units from index `begin` to before index `end`.
fn has_slice(buf: &Buf, units: &[u16], begin: usize, end: usize) -> bool {
    if begin > end || end > buf.unit_len() || end > units.len() {
        return false;
    }
    let slice = buf.slice_units(begin, end);
    let rest = slice.whole.to_ill_formed_utf16().chain(slice.lead);
    let found = slice.trail.into_iter().chain(rest);
    found.cmp(units[begin..end].iter().copied()).is_eq()
        && buf.starts_with_units_at(begin, &units[begin..end])
}

/// Whether `units_from` has the units from index `begin` on.
fn has_units_from(buf: &Buf, units: &[u16], begin: usize) -> bool {
    if begin > buf.unit_len() || begin > units.len() {
        return false;
    }
    has_units_left(buf.units_from(begin), &units[begin..])
}

/// Whether the part from index `begin` to before index `end` is found by each call, if these are in order.
fn has_part(alloc: Global, buf: &Buf, units: &[u16], begin: usize, end: usize) -> bool {
    if begin > end {
        return true;
    }
    has_units_from(buf, units, begin)
        && has_slice(buf, units, begin, end)
        && is_copied(alloc, buf, units, begin, end)
}

/// Whether the buffer has `units`, in whole and in each part, and the bytes of `dump`.
fn has_all(alloc: Global, buf: &Buf, units: &[u16], dump: &str) -> bool {
    for end in 0..=units.len() {
        for begin in 0..=end {
            if !has_part(alloc, buf, units, begin, end) {
                return false;
            }
        }
    }
    has_buf(alloc, buf, units, dump)
}

/// Units and their bytes: of each length, in pairs, and lone.
static TEXTS: [(&[u16], &str); 11] = [
    (&[], ""),
    (&[0x61, 0x00, 0x7F], "61 00 7F"),
    (&[0x80, 0xE9, 0x07FF], "C2 80 C3 A9 DF BF"),
    (&[0x0800, 0x3042, 0xFFFF], "E0 A0 80 E3 81 82 EF BF BF"),
    (&[0xD83D, 0xDCA9], "F0 9F 92 A9"),
    (&[0xD83D], "ED A0 BD"),
    (&[0xDCA9], "ED B2 A9"),
    (&[0xDCA9, 0xD83D], "ED B2 A9 ED A0 BD"),
    (&[0xD83D, 0xD83D, 0xDCA9], "ED A0 BD F0 9F 92 A9"),
    (
        &[0xD83D, 0xDCA9, 0xD800, 0xDC00, 0xDBFF, 0xDFFF],
        "F0 9F 92 A9 F0 90 80 80 F4 8F BF BF",
    ),
    (
        &[0x61, 0xD83D, 0xDCA9, 0xE9, 0xD800],
        "61 F0 9F 92 A9 C3 A9 ED A0 80",
    ),
];

/// The buffer of the units, pushed one by one to an empty one.
fn pushed_each(alloc: Global, units: &[u16]) -> Buf {
    let mut buf = IndexedBuf::new(alloc);
    push_each(&mut buf, units);
    buf
}

/// The buffer of the units, pushed at once to one with room for 40 bytes and with marks kept; an empty one if memory is
/// refused.
fn pushed_at_once(alloc: Global, units: &[u16]) -> Buf {
    let mut buf = with_room(alloc, 40);
    buf.mark_units(alloc);
    let _ = buf.push_units(units);
    buf
}

/// The buffer that takes over the string of the units, or an empty one if memory is refused.
fn taken_over(alloc: Global, units: &[u16]) -> Buf {
    match Wtf8Buf::from_ill_formed_utf16(alloc, units) {
        Ok(text) => IndexedBuf::from_buf(text),
        Err(_) => IndexedBuf::new(alloc),
    }
}

/// The buffer of the units, with marks kept or without.
fn marked(alloc: Global, units: &[u16], is_marked: bool) -> Buf {
    let mut buf = buf_of(alloc, units);
    if is_marked {
        buf.mark_units(alloc);
    }
    buf
}

/// Whether the buffer has room for `capacity` bytes, and has the units and the bytes.
fn is_all(alloc: Global, buf: Buf, capacity: usize, units: &[u16], dump: &str) -> bool {
    buf.capacity() >= capacity && has_all(alloc, &buf, units, dump)
}

/// Whether a copy of the buffer was made, and has the units and the bytes.
fn is_copy(alloc: Global, copy: Result<Buf, AllocError>, units: &[u16], dump: &str) -> bool {
    match copy {
        Ok(buf) => has_all(alloc, &buf, units, dump),
        Err(_) => false,
    }
}

/// Whether the buffer has the units and the bytes, without marks and with them, and its copy too.
fn has_all_marked(alloc: Global, buf: &mut Buf, units: &[u16], dump: &str) -> bool {
    let has_all_unmarked = has_all(alloc, buf, units, dump);
    buf.mark_units(alloc);
    has_all_unmarked && has_all(alloc, buf, units, dump) && is_copy(alloc, buf.clone(), units, dump)
}

/// Whether the string of the buffer has the bytes.
fn has_string(alloc: Global, buf: Buf, dump: &str) -> bool {
    has_bytes(alloc, buf.into_buf().as_wtf8(), dump)
}

/// Whether the buffer of the units has these and the bytes, without marks and with them, and its string the bytes.
fn is_made(alloc: Global, units: &[u16], dump: &str) -> bool {
    let mut buf = buf_of(alloc, units);
    let is_right = has_all_marked(alloc, &mut buf, units, dump);
    has_string(alloc, buf, dump) && is_right
}

/// Whether the buffer of the units is this text, by each call that returns one, and has no surrogate.
fn is_text(alloc: Global, units: &[u16], text: &str, is_ascii: bool) -> bool {
    let buf = buf_of(alloc, units);
    buf.as_str() == Some(text)
        && buf.as_ascii().is_some() == is_ascii
        && buf.next_surrogate(0).is_none()
}

/// Whether this is D83D, which ends at position 4.
fn is_lead(found: Option<(CodePoint, usize)>) -> bool {
    match found {
        Some((surrogate, end)) => surrogate.to_u32() == 0xD83D && end == 4,
        None => false,
    }
}

/// Whether the lead before "a" in a buffer of three units is found from the start on, and none after it.
fn has_lead(alloc: Global) -> bool {
    let buf = buf_of(alloc, &[0x62, 0xD83D, 0x61]);
    is_lead(buf.next_surrogate(0))
        && buf.as_wtf8().is_code_point_boundary(4)
        && buf.next_surrogate(4).is_none()
        && buf.as_str().is_none()
        && buf.as_ascii().is_none()
}

#[test]
fn a_buffer_is_a_text_without_surrogates(rt: HostRuntime) {
    let alloc = rt.alloc();
    assert!(rt; is_text(alloc, &[], "", true));
    assert!(rt; is_text(alloc, &[0x61, 0x62], "ab", true));
    assert!(rt; is_text(alloc, &[0x61, 0xD83D, 0xDCA9], "a💩", false));
    assert!(rt; has_lead(alloc));
}

/// Whether buffers of the units that are made and grown in several ways have the units and the bytes.
fn is_made_each_way(alloc: Global, units: &[u16], dump: &str) -> bool {
    is_made(alloc, units, dump)
        && is_all(alloc, taken_over(alloc, units), 0, units, dump)
        && is_all(alloc, pushed_each(alloc, units), 0, units, dump)
        && is_all(alloc, pushed_at_once(alloc, units), 40, units, dump)
}

#[test]
fn a_buffer_has_the_units_that_it_is_made_of(rt: HostRuntime) {
    for (units, dump) in &TEXTS {
        assert!(rt; is_made_each_way(rt.alloc(), units, dump));
    }
}

/// The units of a buffer and a call that appends to it, and the units and bytes after it.
type Row = ((&'static [u16], Push), (&'static [u16], &'static str));

/// Code points, units and characters that are pushed, then strings and lists of units, and then slices: with the trail
/// of a pair in front, which the lead at the end of a string meets or not, with a lead at the end, with both, and
/// without any unit.
static PUSHES: [Row; 19] = [
    ((&[0x61], Point(0xE9)), (&[0x61, 0xE9], "61 C3 A9")),
    (
        (&[0xD83D], Point(0xDCA9)),
        (&[0xD83D, 0xDCA9], "F0 9F 92 A9"),
    ),
    ((&[], Point(0x10_FFFF)), (&[0xDBFF, 0xDFFF], "F4 8F BF BF")),
    (
        (&[0xD83D], Unit(0xDCA9)),
        (&[0xD83D, 0xDCA9], "F0 9F 92 A9"),
    ),
    (
        (&[0xDCA9], Unit(0xD83D)),
        (&[0xDCA9, 0xD83D], "ED B2 A9 ED A0 BD"),
    ),
    ((&[0x61], Char('あ')), (&[0x61, 0x3042], "61 E3 81 82")),
    (
        (&[0xD83D], Char('💩')),
        (&[0xD83D, 0xD83D, 0xDCA9], "ED A0 BD F0 9F 92 A9"),
    ),
    ((&[0x61], Str("")), (&[0x61], "61")),
    (
        (&[0xD83D], Str("aé💩")),
        (
            &[0xD83D, 0x61, 0xE9, 0xD83D, 0xDCA9],
            "ED A0 BD 61 C3 A9 F0 9F 92 A9",
        ),
    ),
    ((&[0xD83D], Units(&[])), (&[0xD83D], "ED A0 BD")),
    (
        (&[0x61, 0xD83D], Units(&[0xDCA9, 0xDCA9])),
        (&[0x61, 0xD83D, 0xDCA9, 0xDCA9], "61 F0 9F 92 A9 ED B2 A9"),
    ),
    ((&[0xD83D], View(&[])), (&[0xD83D], "ED A0 BD")),
    (
        (&[0x61, 0xD83D], View(&[0xDCA9, 0xE9])),
        (&[0x61, 0xD83D, 0xDCA9, 0xE9], "61 F0 9F 92 A9 C3 A9"),
    ),
    (
        (&[0x61], View(&[0xDCA9, 0xD83D])),
        (&[0x61, 0xDCA9, 0xD83D], "61 ED B2 A9 ED A0 BD"),
    ),
    (
        (&[0x61, 0xD83D], Slice(&[0xD83D, 0xDCA9, 0xE9], 1, 3)),
        (&[0x61, 0xD83D, 0xDCA9, 0xE9], "61 F0 9F 92 A9 C3 A9"),
    ),
    (
        (&[0x61], Slice(&[0xD83D, 0xDCA9, 0xE9], 1, 3)),
        (&[0x61, 0xDCA9, 0xE9], "61 ED B2 A9 C3 A9"),
    ),
    (
        (&[0x61], Slice(&[0xE9, 0xD83D, 0xDCA9], 0, 2)),
        (&[0x61, 0xE9, 0xD83D], "61 C3 A9 ED A0 BD"),
    ),
    (
        (&[0xD83D], Slice(&[0xD83D, 0xDCA9, 0xD83D, 0xDCA9], 1, 3)),
        (&[0xD83D, 0xDCA9, 0xD83D], "F0 9F 92 A9 ED A0 BD"),
    ),
    (
        (&[0xD83D], Slice(&[0xD83D, 0xDCA9], 1, 1)),
        (&[0xD83D], "ED A0 BD"),
    ),
];

/// Whether the row's call appends its units, with marks kept or without.
fn is_pushed(alloc: Global, &((front, push), (units, dump)): &Row, is_marked: bool) -> bool {
    let mut buf = marked(alloc, front, is_marked);
    push_to(alloc, &mut buf, push).is_ok() && has_all(alloc, &buf, units, dump)
}

#[test]
fn each_call_that_pushes_appends_its_units(rt: HostRuntime) {
    for row in &PUSHES {
        assert!(rt; is_pushed(rt.alloc(), row, false) && is_pushed(rt.alloc(), row, true));
    }
}

/// Lists of units in the order of their code points, which is that of their bytes: a pair is after U+FFFF.
static ORDERED: [&[u16]; 8] = [
    &[],
    &[0x61],
    &[0x61, 0x61],
    &[0xE9],
    &[0xD83D],
    &[0xDCA9],
    &[0xFFFF],
    &[0xD800, 0xDC00],
];

/// The hash of a buffer.
fn hash_of(buf: &Buf) -> u64 {
    let mut hasher = DefaultHasher::new();
    buf.hash(&mut hasher);
    hasher.finish()
}

/// Whether the buffers compare as `order` says. Both have the same hash if equal.
fn are_ordered(buf: &Buf, other: &Buf, order: Ordering) -> bool {
    let is_equal = order == Ordering::Equal;
    let is_less = order == Ordering::Less;
    buf.cmp(other) == order
        && (buf == other) == is_equal
        && (buf < other) == is_less
        && (!is_equal || hash_of(buf) == hash_of(other))
}

/// Whether the buffers of the units compare as `order` says.
fn is_order(alloc: Global, units: &[u16], others: &[u16], order: Ordering) -> bool {
    let buf = buf_of(alloc, units);
    let other = pushed_each(alloc, others);
    buf.unit_len() == units.len()
        && other.unit_len() == others.len()
        && are_ordered(&buf, &other, order)
        && buf.eq_units(others) == (order == Ordering::Equal)
        && buf.starts_with_at(0, &other) == units.starts_with(others)
        && buf.starts_with_units_at(0, others) == units.starts_with(others)
}

/// Whether the buffer of the units, which have this number in the list, compares with all others as the number does.
fn is_ordered(alloc: Global, units: &[u16], number: usize) -> bool {
    for other_number in 0..ORDERED.len() {
        let order = number.cmp(&other_number);
        if !is_order(alloc, units, &ORDERED[other_number], order) {
            return false;
        }
    }
    true
}

#[test]
fn buffers_compare_by_code_points(rt: HostRuntime) {
    for number in 0..ORDERED.len() {
        assert!(rt;
            is_ordered(rt.alloc(), &ORDERED[number], number),
            "list {number}"
        );
    }
}

/// The byte positions of the indexes from 0 to 5 of "a", a pair, "é" and a lone lead, whose bytes are 61, F0 9F 92 A9,
/// C3 A9 and ED A0 80. Index 2 is inside the pair, which begins at position 1.
static POSITIONS: [usize; 6] = [0, 1, 1, 5, 7, 10];

/// The numbers of units before the byte positions from 0 to 11 of the same string. The last one is past the end.
static BEFORE: [usize; 12] = [0, 1, 1, 1, 1, 3, 3, 4, 4, 4, 5, 5];

/// Whether the buffer has the positions of `POSITIONS` and `BEFORE`.
fn is_mapped(buf: &Buf) -> bool {
    for i in 0..POSITIONS.len() {
        if i > buf.unit_len() || buf.position_at(i) != POSITIONS[i] {
            return false;
        }
    }
    for position in 0..BEFORE.len() {
        if buf.unit_before(position) != BEFORE[position] {
            return false;
        }
    }
    buf.unit_before(usize::MAX) == 5
        && buf.starts_with_units_at(usize::MAX, &[])
        && !buf.starts_with_units_at(5, &[0xD800])
        && !buf.starts_with_units_at(2, &[0xDCA9, 0xD800])
}

#[test]
fn positions_of_a_buffer_are_rounded_down(rt: HostRuntime) {
    let alloc = rt.alloc();
    let mut buf = buf_of(alloc, &[0x61, 0xD83D, 0xDCA9, 0xE9, 0xD800]);
    let is_mapped_unmarked = is_mapped(&buf);
    buf.mark_units(alloc);
    assert!(rt; is_mapped_unmarked && is_mapped(&buf));
}

#[test]
fn a_buffer_has_56_bytes(rt: HostRuntime) {
    assert!(rt; size_of::<Buf>() <= 56);
}

/// The number of units of a long buffer.
const LENGTH: usize = 301;

/// The kind of the units of a long buffer.
#[derive(Clone, Copy)]
enum Kind {
    /// From U+0000 to U+007F, and then again from U+0000.
    Ascii,
    /// From U+4E00 on, each one more than the one before it: three bytes a unit.
    Wide,
    /// "a", and then pairs, whose leads have odd indexes: four bytes a pair.
    Pairs,
}

static KINDS: [Kind; 3] = [Kind::Ascii, Kind::Wide, Kind::Pairs];

/// The unit after `unit`, which is U+0000 or the last one appended.
fn next_unit(kind: Kind, unit: u16) -> u16 {
    match kind {
        Kind::Ascii => unit.wrapping_add(1) & 0x7F,
        Kind::Wide => unit.wrapping_add(1),
        Kind::Pairs if unit == 0xD83D => 0xDCA9,
        Kind::Pairs => 0xD83D,
    }
}

/// The first unit of a long buffer.
fn first_unit(kind: Kind) -> u16 {
    match kind {
        Kind::Ascii => 0,
        Kind::Wide => 0x4E00,
        Kind::Pairs => 0x61,
    }
}

/// The units of a long buffer; fewer if memory is refused.
fn long_units(alloc: Global, kind: Kind) -> Vec<u16> {
    let mut units = Vec::new(alloc);
    let mut unit = first_unit(kind);
    for _ in 0..LENGTH {
        let _ = units.push(unit);
        unit = next_unit(kind, unit);
    }
    units
}

/// The byte position of the unit at index `i`, or of its pair.
fn position_of(kind: Kind, i: usize) -> usize {
    match kind {
        Kind::Ascii => i,
        Kind::Wide => i.saturating_mul(3),
        Kind::Pairs if i == 0 => 0,
        Kind::Pairs => ((i - 1) / 2).saturating_mul(4).saturating_add(1),
    }
}

/// The number of units before the last boundary at or before a byte position.
fn units_before(kind: Kind, position: usize) -> usize {
    match kind {
        Kind::Ascii => position,
        Kind::Wide => position / 3,
        Kind::Pairs if position == 0 => 0,
        Kind::Pairs => ((position - 1) / 4).saturating_mul(2).saturating_add(1),
    }
}

/// Indexes near the multiples of 128, and near the ends.
static INDEXES: [usize; 13] = [0, 1, 2, 126, 127, 128, 129, 130, 255, 256, 257, 300, 301];

/// Whether `position_at` and `unit_before` agree with the kind, near the marks and at the end.
fn has_positions(buf: &Buf, kind: Kind) -> bool {
    for i in &INDEXES {
        let i = *i;
        let position = position_of(kind, i);
        if i > buf.unit_len() || buf.position_at(i) != position {
            return false;
        }
        for at in position..position.saturating_add(4) {
            let before = units_before(kind, at).min(LENGTH);
            if buf.unit_before(at) != before {
                return false;
            }
        }
    }
    true
}

/// Whether the buffer has the units of its kind, by each call.
fn has_long(alloc: Global, buf: &Buf, units: &[u16], kind: Kind) -> bool {
    for end in &INDEXES {
        for begin in &INDEXES {
            if !has_part(alloc, buf, units, *begin, *end) {
                return false;
            }
        }
    }
    buf_has_units(buf, units) && has_positions(buf, kind)
}

/// Whether the buffer has the units of its kind.
fn is_long(alloc: Global, buf: Buf, units: &[u16], kind: Kind) -> bool {
    has_long(alloc, &buf, units, kind)
}

/// Appends a string, as a text if `is_str`. Fails if it is then no text.
fn push_string(buf: &mut Buf, text: Wtf8<'_>, is_str: bool) -> Result<(), AllocError> {
    match text.as_str() {
        Some(value) if is_str => buf.push_str(value),
        None if is_str => Err(AllocError),
        _ => buf.push_wtf8(text),
    }
}

/// The buffer of a string, pushed at once to an empty one with marks kept, as a text if `is_str`. The empty one if that
/// fails.
fn pushed_string(alloc: Global, text: Wtf8<'_>, is_str: bool) -> Buf {
    let mut buf = IndexedBuf::new(alloc);
    buf.mark_units(alloc);
    let _ = push_string(&mut buf, text, is_str);
    buf
}

/// Whether a buffer with marks has the units of its kind after a string whose units are counted before is pushed.
fn is_pushed_counted(alloc: Global, text: Wtf8<'_>, units: &[u16], kind: Kind) -> bool {
    let mut buf = IndexedBuf::new(alloc);
    buf.mark_units(alloc);
    let is_pushed = buf.push_counted(text, text.unit_len()).is_ok();
    is_pushed && is_long(alloc, buf, units, kind)
}

/// Whether a buffer with marks has the units of its kind after these are pushed as one string and as one text.
fn is_pushed_string(alloc: Global, units: &[u16], kind: Kind) -> bool {
    let Ok(text) = Wtf8Buf::from_ill_formed_utf16(alloc, units) else {
        return false;
    };
    let view = text.as_wtf8();
    is_pushed_counted(alloc, view, units, kind)
        && is_long(alloc, pushed_string(alloc, view, false), units, kind)
        && is_long(alloc, pushed_string(alloc, view, true), units, kind)
}

/// Whether a copy was made and has the units of its kind.
fn is_long_copy(alloc: Global, copy: Result<Buf, AllocError>, units: &[u16], kind: Kind) -> bool {
    match copy {
        Ok(buf) => has_long(alloc, &buf, units, kind),
        Err(_) => false,
    }
}

/// Whether the buffer has the units of its kind, without marks or with those that it keeps, then with marks, and its
/// copy too.
fn is_long_again(alloc: Global, buf: Buf, units: &[u16], kind: Kind) -> bool {
    let mut buf = buf;
    let is_right = has_long(alloc, &buf, units, kind)
        && is_long_copy(alloc, buf.clone(), units, kind);
    buf.mark_units(alloc);
    is_right && has_long(alloc, &buf, units, kind)
}

/// Whether a buffer to which the units were pushed one by one, and one to which they were pushed at once, have these.
fn is_long_each_way(alloc: Global, units: &[u16], kind: Kind) -> bool {
    is_long_again(alloc, pushed_each(alloc, units), units, kind)
        && is_long_again(alloc, pushed_at_once(alloc, units), units, kind)
}

/// Whether a buffer that was cut to its first `n` units has these alone, and all again once the others are pushed.
fn is_regrown(alloc: Global, buf: &mut Buf, units: &[u16], kind: Kind, n: usize) -> bool {
    let (front, back) = units.split_at(n.min(units.len()));
    buf_has_units(buf, front)
        && has_units_from(buf, front, n / 2)
        && buf.push_units(back).is_ok()
        && has_long(alloc, buf, units, kind)
}

/// Cuts a buffer to its first `n` units. Whether it has these alone, and all again once the others are pushed.
fn is_cut(alloc: Global, buf: &mut Buf, units: &[u16], kind: Kind, n: usize) -> bool {
    if buf.unit_len() < n {
        return false;
    }
    buf.truncate_units(n);
    is_regrown(alloc, buf, units, kind, n)
}

/// Indexes about 128 before the end of a long buffer, and near its end. A pair is split by each even one.
static LAST_INDEXES: [usize; 6] = [172, 173, 174, 298, 299, 300];

/// Whether a buffer has its units and position from index `i` on, and if it is cut there.
fn is_right_from(alloc: Global, buf: &mut Buf, units: &[u16], kind: Kind, i: usize) -> bool {
    if i > buf.unit_len() || buf.position_at(i) != position_of(kind, i) {
        return false;
    }
    has_part(alloc, buf, units, i, LENGTH) && is_cut(alloc, buf, units, kind, i)
}

/// Whether a long buffer without marks has its units and positions from each of `LAST_INDEXES` on, and if it is cut
/// there.
fn is_right_at_end(alloc: Global, units: &[u16], kind: Kind) -> bool {
    let mut buf = buf_of(alloc, units);
    for i in &LAST_INDEXES {
        if !is_right_from(alloc, &mut buf, units, kind, *i) {
            return false;
        }
    }
    true
}

/// Cuts a buffer at the byte position of index `n`, or of its pair. Whether it has the units before alone, and all again
/// once the others are pushed.
fn is_cut_at_position(alloc: Global, buf: &mut Buf, units: &[u16], kind: Kind, n: usize) -> bool {
    let position = position_of(kind, n);
    if !buf.as_wtf8().is_code_point_boundary(position) {
        return false;
    }
    buf.truncate(position);
    is_regrown(alloc, buf, units, kind, units_before(kind, position))
}

/// Cuts a buffer at the mark of index `n`, or of its pair. Whether it has the units before alone, and all again once the
/// others are pushed.
fn is_cut_at_mark(alloc: Global, buf: &mut Buf, units: &[u16], kind: Kind, n: usize) -> bool {
    if buf.unit_len() < n {
        return false;
    }
    let view = buf.as_wtf8();
    let mark = view.mark_at(view.start_mark(), n);
    buf.truncate_at(mark);
    is_regrown(alloc, buf, units, kind, mark.units)
}

/// Empties a buffer. Whether it is empty, with the same capacity, and has the units again once they are pushed.
fn is_cleared(alloc: Global, buf: &mut Buf, units: &[u16], kind: Kind) -> bool {
    let capacity = buf.capacity();
    buf.clear();
    let is_empty = has_buf(alloc, buf, &[], "") && buf.capacity() == capacity;
    push_each(buf, units);
    is_empty && has_long(alloc, buf, units, kind)
}

/// Whether a long buffer, cut at each of `INDEXES` or emptied, has its units again once they are pushed.
fn is_shortened(alloc: Global, buf: &mut Buf, units: &[u16], kind: Kind) -> bool {
    for n in &INDEXES {
        if !is_cut(alloc, buf, units, kind, *n)
            || !is_cut_at_position(alloc, buf, units, kind, *n)
            || !is_cut_at_mark(alloc, buf, units, kind, *n)
        {
            return false;
        }
    }
    is_cleared(alloc, buf, units, kind)
}

/// Whether `is_shortened` holds without marks, and with them.
fn is_shortened_each_way(alloc: Global, units: &[u16], kind: Kind) -> bool {
    for is_marked in [false, true] {
        let mut buf = marked(alloc, units, is_marked);
        if !is_shortened(alloc, &mut buf, units, kind) {
            return false;
        }
    }
    true
}

/// Releases the spare capacity of a buffer. Whether none is left, and the buffer has its units.
fn is_shrunk(alloc: Global, buf: Buf, units: &[u16], kind: Kind) -> bool {
    let mut buf = buf;
    buf.shrink_to_fit();
    buf.capacity() == buf.as_wtf8().len() && has_long(alloc, &buf, units, kind)
}

/// Whether long buffers with spare capacity, without marks and with them, have their units without it.
fn is_shrunk_each_way(alloc: Global, units: &[u16], kind: Kind) -> bool {
    is_shrunk(alloc, pushed_each(alloc, units), units, kind)
        && is_shrunk(alloc, pushed_at_once(alloc, units), units, kind)
}

/// What is required of long buffers.
#[derive(Clone, Copy)]
enum Check {
    Made,
    PushedString,
    End,
    Shortened,
    Shrunk,
}

/// Whether long buffers of the units do what `check` requires.
fn is_checked(alloc: Global, units: &[u16], kind: Kind, check: Check) -> bool {
    match check {
        Check::Made => is_long_each_way(alloc, units, kind),
        Check::PushedString => is_pushed_string(alloc, units, kind),
        Check::End => is_right_at_end(alloc, units, kind),
        Check::Shortened => is_shortened_each_way(alloc, units, kind),
        Check::Shrunk => is_shrunk_each_way(alloc, units, kind),
    }
}

/// Whether long buffers of each kind do what `check` requires.
fn is_each_kind_checked(alloc: Global, check: Check) -> bool {
    for kind in &KINDS {
        let units = long_units(alloc, *kind);
        if units.len() != LENGTH || !is_checked(alloc, &units, *kind, check) {
            return false;
        }
    }
    true
}

#[test]
fn a_buffer_has_marks_of_a_string_pushed_at_once(rt: HostRuntime) {
    assert!(rt; is_each_kind_checked(rt.alloc(), Check::PushedString));
}

#[test]
fn a_long_buffer_finds_its_units(rt: HostRuntime) {
    assert!(rt; is_each_kind_checked(rt.alloc(), Check::Made));
}

#[test]
fn the_last_units_of_a_buffer_without_marks_are_found(rt: HostRuntime) {
    assert!(rt; is_each_kind_checked(rt.alloc(), Check::End));
}

#[test]
fn a_buffer_that_became_shorter_grows_again(rt: HostRuntime) {
    assert!(rt; is_each_kind_checked(rt.alloc(), Check::Shortened));
}

#[test]
fn a_buffer_without_spare_capacity_has_its_units(rt: HostRuntime) {
    assert!(rt; is_each_kind_checked(rt.alloc(), Check::Shrunk));
}

/// Whether the text has the units from index `begin` on, and no more.
fn text_has_units_from(text: &UnitText<Global>, units: &[u16], begin: usize) -> bool {
    if begin > text.unit_len() || begin > units.len() {
        return false;
    }
    has_units_left(text.units_from(begin), &units[begin..])
}

/// Whether a copy of the text equals it and has the units and bytes.
fn is_text_copied(alloc: Global, text: &UnitText<Global>, units: &[u16], dump: &str) -> bool {
    match text.clone() {
        Ok(copy) => copy == *text && has_text(alloc, &copy, units, dump),
        Err(_) => false,
    }
}

/// Whether the text of units pushed to an empty one in two parts, cut after index `cut`, has the units and bytes, also
/// from that index on, and its copy too.
fn is_text_in_parts(alloc: Global, units: &[u16], dump: &str, cut: usize) -> bool {
    let (front, back) = units.split_at(cut.min(units.len()));
    let mut text = UnitText::new(alloc);
    has_text(alloc, &text, &[], "")
        && text.push_units(front).is_ok()
        && text.push_units(back).is_ok()
        && has_text(alloc, &text, units, dump)
        && text_has_units_from(&text, units, cut)
        && is_text_copied(alloc, &text, units, dump)
}

#[test]
fn a_text_is_pushed_in_parts_and_copied(rt: HostRuntime) {
    for (units, dump) in &TEXTS {
        for cut in 0..=units.len() {
            assert!(rt; is_text_in_parts(rt.alloc(), units, dump, cut));
        }
    }
}
