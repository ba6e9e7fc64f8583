// Where code units and strings occur in buffers, short and long, by `find`, `rfind` and `divides_pair`.
use crate::shared::{Buf, KINDS, buf_of, units_of};
use std::alloc::Global;
use unit_text::UnitText;

/// "ab", two surrogate pairs, "a", a lone trail and a lone lead surrogate, "é", U+3042 and "a".
const ALL: [u16; 12] = [
    0x61, 0x62, 0xD83D, 0xDCA9, 0xD83D, 0xDCA9, 0x61, 0xDCA9, 0xD83D, 0xE9, 0x3042, 0x61,
];

static UNITS: [u16; 12] = ALL;

/// What is found of `units` in `UNITS` from `index` on, and at or before it.
type Row = (usize, &'static [u16], Option<usize>, Option<usize>);

/// As JavaScript's `indexOf` and `lastIndexOf` return them, but for no units past the end, where `indexOf` returns the
/// length.
static ROWS: [Row; 40] = [
    (0, &[], Some(0), Some(0)),
    (3, &[], Some(3), Some(3)),
    (12, &[], Some(12), Some(12)),
    (13, &[], None, Some(12)),
    (0, &[0x61], Some(0), Some(0)),
    (1, &[0x61], Some(6), Some(0)),
    (6, &[0x61], Some(6), Some(6)),
    (7, &[0x61], Some(11), Some(6)),
    (11, &[0x61], Some(11), Some(11)),
    (12, &[0x61], None, Some(11)),
    (0, &[0x61, 0x62], Some(0), Some(0)),
    (1, &[0x61, 0x62], None, Some(0)),
    (0, &[0x62, 0xD83D], Some(1), None),
    (2, &[0x62, 0xD83D], None, Some(1)),
    (0, &[0xD83D], Some(2), None),
    (3, &[0xD83D], Some(4), Some(2)),
    (2, &[0xDCA9], Some(3), None),
    (3, &[0xDCA9], Some(3), Some(3)),
    (4, &[0xDCA9], Some(5), Some(3)),
    (8, &[0xDCA9], None, Some(7)),
    (0, &[0xD83D, 0xDCA9], Some(2), None),
    (3, &[0xD83D, 0xDCA9], Some(4), Some(2)),
    (5, &[0xD83D, 0xDCA9], None, Some(4)),
    (0, &[0xDCA9, 0xD83D], Some(3), None),
    (4, &[0xDCA9, 0xD83D], Some(7), Some(3)),
    (0, &[0xDCA9, 0xD83D, 0xDCA9], Some(3), None),
    (0, &[0xDCA9, 0x61], Some(5), None),
    (12, &[0xD83D, 0xDCA9, 0x61], None, Some(4)),
    (7, &[0xDCA9, 0x61, 0xDCA9], None, Some(5)),
    (0, &[0xD83D, 0xE9], Some(8), None),
    (0, &[0x3042, 0x61], Some(10), None),
    (12, &[0x3042, 0x61], None, Some(10)),
    (0, &[0x61, 0x61], None, None),
    (12, &[0x3042, 0x61, 0x61], None, None),
    (12, &[0x63], None, None),
    (0, &[0x63], None, None),
    (0, &ALL, Some(0), Some(0)),
    (1, &ALL, None, Some(0)),
    (12, &ALL, None, Some(0)),
    (
        0,
        &[
            0x61, 0x62, 0xD83D, 0xDCA9, 0xD83D, 0xDCA9, 0x61, 0xDCA9, 0xD83D, 0xE9, 0x3042, 0x61,
            0x61,
        ],
        None,
        None,
    ),
];

/// Whether both calls of both directions return what the row says.
fn is_found(buf: &Buf, other: &Buf, &(index, units, first, last): &Row) -> bool {
    buf.find_units(index, units) == first
        && buf.find(index, other) == first
        && buf.rfind_units(index, units) == last
        && buf.rfind(index, other) == last
}

/// Whether the row holds of the buffer of `UNITS`, with marks and without.
fn is_row_right(alloc: Global, row: &Row) -> bool {
    let other = buf_of(alloc, row.1);
    let mut buf = buf_of(alloc, &UNITS);
    if !is_found(&buf, &other, row) {
        return false;
    }
    buf.mark_units(alloc);
    is_found(&buf, &other, row)
}

/// Whether the row holds of the text of `UNITS`.
fn is_row_right_of_text(alloc: Global, &(index, units, first, last): &Row) -> bool {
    let text = UnitText::from_wtf8(buf_of(alloc, &UNITS).into_buf());
    let other = UnitText::from_wtf8(buf_of(alloc, units).into_buf());
    text.find(index, &other) == first && text.rfind(index, &other) == last
}

#[test]
fn units_and_strings_are_found(rt: HostRuntime) {
    for number in 0..ROWS.len() {
        assert!(rt; is_row_right(rt.alloc(), &ROWS[number]), "row {number}");
        assert!(rt;
            is_row_right_of_text(rt.alloc(), &ROWS[number]),
            "row {number} of a text"
        );
    }
}

/// The indexes of `UNITS` that are inside a pair.
static DIVIDED: [bool; 14] = [
    false, false, false, true, false, true, false, false, false, false, false, false, false, false,
];

/// Whether the indexes of the buffer of `UNITS` divide a pair, or none.
fn are_divided(alloc: Global) -> bool {
    let buf = buf_of(alloc, &UNITS);
    for index in 0..DIVIDED.len() {
        if buf.divides_pair(index) != DIVIDED[index] {
            return false;
        }
    }
    !buf.divides_pair(usize::MAX)
}

#[test]
fn indexes_inside_a_pair_divide_it(rt: HostRuntime) {
    assert!(rt; are_divided(rt.alloc()));
}

/// Numbers of units, about the ends of parts of 64 and of 512 bytes, in units of one byte and of three, and about marks.
static LENGTHS: [usize; 18] = [
    0, 1, 6, 21, 22, 62, 63, 64, 65, 70, 128, 169, 170, 171, 511, 512, 513, 700,
];

/// The number of units before the only "b" of a text that are searched for with it.
static BEFORE: [usize; 6] = [0, 1, 5, 62, 63, 70];

/// Whether these units, which occur at `index` alone, are found there from both ends, and not after or before it.
fn is_found_once(buf: &Buf, units: &[u16], other: &Buf, index: usize) -> bool {
    let before = index.checked_sub(1);
    let after = index.saturating_add(1);
    let at = Some(index);
    buf.find_units(0, units) == at
        && buf.find(index, other) == at
        && buf.find_units(after, units).is_none()
        && buf.rfind_units(usize::MAX, units) == at
        && buf.rfind(index, other) == at
        && before.is_none_or(|last| buf.rfind(last, other).is_none())
}

/// Whether "b", which follows `n` units of `text`, is found with the units before it and two after it.
fn are_all_found(alloc: Global, text: &[u16], n: usize) -> bool {
    let mut buf = buf_of(alloc, text);
    buf.mark_units(alloc);
    for before in &BEFORE {
        let Some(begin) = n.checked_sub(*before) else {
            continue;
        };
        let Some(units) = text.get(begin..n.saturating_add(3)) else {
            return false;
        };
        if !is_found_once(&buf, units, &buf_of(alloc, units), begin) {
            return false;
        }
    }
    true
}

/// Whether "b" is found after `n` units that repeat `kind`, and before `n + 2` of them.
fn is_found_between(alloc: Global, kind: &[u16; 6], n: usize) -> bool {
    let mut text = units_of(alloc, kind, n);
    let after = units_of(alloc, kind, n.saturating_add(2));
    text.push(0x62).is_ok()
        && text.extend_from_slice(&after).is_ok()
        && are_all_found(alloc, &text, n)
}

#[test]
fn units_are_found_at_each_end_of_a_part(rt: HostRuntime) {
    for kind in &KINDS {
        for n in &LENGTHS {
            assert!(rt; is_found_between(rt.alloc(), kind, *n), "after {n}");
        }
    }
}
