// Marks by positions and by units, what iterators have left, and the size hints of the iterator over units. Scripts compare
// all steps of both iterators with the original crate.
use crate::examples::TEXT;
use crate::wrong::{
    Check, Failed, Made, Wrong, assert_row, each_number, expect, expect_bytes, made,
};
use std::alloc::Global;
use wtf8::{CodePoint, IllFormedUtf16CodeUnits, Wtf8, Wtf8Buf};

/// For each byte position of `TEXT` the last boundary at or before it, and the number of units before that.
static BOUNDARIES: [usize; 9] = [0, 1, 1, 3, 4, 4, 4, 4, 8];

static UNITS_BEFORE: [usize; 9] = [0, 1, 1, 2, 3, 3, 3, 3, 5];

/// Whether the mark before a position, counted from the start or from another mark, is that of the row, and is found
/// again by its number of units.
fn is_marked(text: Wtf8<'_>, position: usize, row: (usize, usize)) -> bool {
    if text.len() < position {
        return false;
    }
    let middle = text.mark_before(text.start_mark(), position / 2);
    let mark = text.mark_before(middle, position);
    let again = text.mark_at(text.start_mark(), mark.units);
    (mark.position, mark.units) == row && again.position == mark.position
}

#[test]
fn each_position_is_at_or_after_a_mark() -> Check {
    each_number!(position in 0..BOUNDARIES.len() => {
        let row = (BOUNDARIES[position], UNITS_BEFORE[position]);
        expect(is_marked(Wtf8::from_str(TEXT), position, row), Wrong::Outcome)
    })
}

/// For each number of units of `TEXT` the mark for it. Four split the pair, so theirs is before it.
static MARKS_OF_UNITS: [(usize, usize); 6] = [(0, 0), (1, 1), (3, 2), (4, 3), (4, 3), (8, 5)];

/// Fails unless each mark for at most the units before `position` is found back from the mark there.
fn expect_found_back(text: Wtf8<'_>, position: usize) -> Check {
    let from = text.mark_before(text.start_mark(), position.min(text.len()));
    for units in 0..MARKS_OF_UNITS.len() {
        if units <= from.units {
            let mark = text.mark_back(from, units);
            let is_right = (mark.position, mark.units) == MARKS_OF_UNITS[units];
            assert_row!(units, expect(is_right, Wrong::Outcome));
        }
    }
    Ok(())
}

#[test]
fn marks_are_found_back_from_later_ones() -> Check {
    for position in 0..9 {
        expect_found_back(Wtf8::from_str(TEXT), position)?;
    }
    Ok(())
}

/// Fails unless the view of an iterator has the bytes of `dump`, or there is none where `dump` is `None`.
fn expect_left(alloc: Global, left: Option<Wtf8<'_>>, dump: Option<&str>) -> Check {
    match (left, dump) {
        (None, None) => Ok(()),
        (Some(left), Some(dump)) => expect_bytes(alloc, left, dump),
        _ => Err(Failed::by(Wrong::Outcome)),
    }
}

/// Fails unless the iterator over code points has left what is after the two that it returned.
fn expect_points_left(alloc: Global, text: Wtf8<'_>) -> Check {
    let mut points = text.code_points();
    points.next();
    points.next();
    expect_bytes(alloc, points.as_wtf8(), "20 F0 9F 92 A9")
}

/// The bytes of what the iterator over the units of `TEXT` has left after each number of them, if it is no half of a pair.
static LEFT: [Option<&str>; 6] = [
    Some("61 C3 A9 20 F0 9F 92 A9"),
    Some("C3 A9 20 F0 9F 92 A9"),
    Some("20 F0 9F 92 A9"),
    Some("F0 9F 92 A9"),
    None,
    Some(""),
];

/// Fails unless the iterator over units has left what is after the ones that it returned.
fn expect_units_left(alloc: Global, text: Wtf8<'_>) -> Check {
    let mut units = text.to_ill_formed_utf16();
    let mut row = 0usize;
    for dump in &LEFT {
        assert_row!(row, expect_left(alloc, units.as_wtf8(), *dump));
        row = row.wrapping_add(1);
        units.next();
    }
    Ok(())
}

#[test]
fn iterators_show_what_they_have_left(rt: HostRuntime) -> Check {
    expect_points_left(rt.alloc(), Wtf8::from_str(TEXT))?;
    expect_units_left(rt.alloc(), Wtf8::from_str(TEXT))
}

/// Whether the last boundary of a text at or before a position is this one.
fn has_boundary_before(text: Wtf8<'_>, position: usize, boundary: usize) -> bool {
    if text.len() < position {
        return false;
    }
    text.boundary_before(position) == boundary
}

#[test]
fn last_boundary_before_a_position(rt: HostRuntime) {
    for position in 0..BOUNDARIES.len() {
        let boundary = BOUNDARIES[position];
        assert!(rt;
            has_boundary_before(Wtf8::from_str(TEXT), position, boundary),
            "{position}"
        );
    }
}

/// Whether the first surrogate of a text from a boundary on, and the position after it, are these, or there is none.
fn has_next_surrogate(text: Wtf8<'_>, begin: usize, surrogate: Option<(u32, usize)>) -> bool {
    if !text.is_code_point_boundary(begin) {
        return false;
    }
    match (text.next_surrogate(begin), surrogate) {
        (Some((point, end)), Some((number, position))) => {
            point.to_u32() == number && end == position
        }
        (None, None) => true,
        _ => false,
    }
}

/// Whether the surrogates of the string of `SURROGATES_IN_TEXT` are found from each boundary on.
fn has_next_surrogates(made: Made<Wtf8Buf<Global>>) -> bool {
    let buf = made!(made, false);
    for (begin, surrogate) in [
        (0, Some((0xDC00, 4))),
        (1, Some((0xDC00, 4))),
        (4, Some((0xDBFF, 17))),
        (7, Some((0xDBFF, 17))),
        (14, Some((0xDBFF, 17))),
        (17, None),
        (18, None),
    ] {
        if !has_next_surrogate(buf.as_wtf8(), begin, surrogate) {
            return false;
        }
    }
    true
}

/// A letter, a trail, three bytes, a pair, the last code point before the surrogates, a lead, a letter.
static SURROGATES_IN_TEXT: [u16; 8] = [0x61, 0xDC00, 0x4E2D, 0xD83D, 0xDCA9, 0xD7FF, 0xDBFF, 0x62];

#[test]
fn next_surrogate_after_a_position(rt: HostRuntime) {
    let made = Wtf8Buf::from_ill_formed_utf16(rt.alloc(), &SURROGATES_IN_TEXT);
    assert!(rt; has_next_surrogates(made), "a surrogate");
}

/// Whether a number is that of a code point of this encoded length.
fn has_len(number: u32, len: usize) -> bool {
    match CodePoint::from_u32(number) {
        Some(point) => point.encoded_len() == len,
        None => false,
    }
}

#[test]
fn encoded_lengths_are_those_of_table_3_6(rt: HostRuntime) {
    for (number, len) in [
        (0x00, 1),
        (0x7F, 1),
        (0x80, 2),
        (0x7FF, 2),
        (0x800, 3),
        (0xD800, 3),
        (0xFFFF, 3),
        (0x10000, 4),
        (0x10FFFF, 4),
    ] {
        assert!(rt; has_len(number, len), "{number}");
    }
}

/// Whether a number is that of a code point of this number of units.
fn has_units(number: u32, units: usize) -> bool {
    match CodePoint::from_u32(number) {
        Some(point) => point.len_utf16() == units,
        None => false,
    }
}

#[test]
fn numbers_of_units_are_those_of_table_3_5(rt: HostRuntime) {
    for (number, units) in [
        (0x00, 1),
        (0xD7FF, 1),
        (0xD800, 1),
        (0xDFFF, 1),
        (0xFFFF, 1),
        (0x10000, 2),
        (0x10FFFF, 2),
    ] {
        assert!(rt; has_units(number, units), "{number}");
    }
}

/// Whether the iterator yields `unit`, and has the size hint `hint` after it.
fn yields(
    units: &mut IllFormedUtf16CodeUnits<'_>,
    unit: Option<u16>,
    hint: (usize, Option<usize>),
) -> bool {
    units.next() == unit && units.size_hint() == hint
}

/// What one call of `next` returns, and the size hint after it.
type Moment = (Option<u16>, (usize, Option<usize>));

/// Texts with a surrogate pair, and each step of the iterator over their code units.
static MOMENTS: [(&str, [Moment; 4]); 2] = [
    (
        "\u{10000}",
        [
            (Some(0xD800), (1, Some(1))),
            (Some(0xDC00), (0, Some(0))),
            (None, (0, Some(0))),
            (None, (0, Some(0))),
        ],
    ),
    (
        "\u{1F4A9}a",
        [
            (Some(0xD83D), (2, Some(3))),
            (Some(0xDCA9), (1, Some(2))),
            (Some(0x61), (0, Some(0))),
            (None, (0, Some(0))),
        ],
    ),
];

/// Whether the iterator over the units of `text` takes these steps.
fn takes_steps(text: &str, moments: &[Moment; 4]) -> bool {
    let mut units = Wtf8::from_str(text).to_ill_formed_utf16();
    for (unit, hint) in moments {
        if !yields(&mut units, *unit, *hint) {
            return false;
        }
    }
    true
}

#[test]
fn a_pending_trail_counts_in_the_size_hint(rt: HostRuntime) {
    for (text, moments) in &MOMENTS {
        assert!(rt; takes_steps(text, moments), "{text}");
    }
}
