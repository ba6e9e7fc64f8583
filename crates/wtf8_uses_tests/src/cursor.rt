// Places in a text of "a", a surrogate pair and "é", which take bytes 0, 1 to 4 and 5 to 6.
use wtf8::Wtf8;
use wtf8_tests::wrong::{Check, Wrong, assert_row, expect};
use wtf8_uses::cursor::{Cursor, there_and_back};

const TEXT: &str = "a\u{1F4A9}\u{E9}";

/// The position and the number of units of a place that was moved to a byte position, and the length of the text after
/// it, if the text has that position.
fn moved(position: usize) -> Option<(usize, usize, usize)> {
    let mut cursor = Cursor::new(Wtf8::from_str(TEXT));
    if cursor.text.len() < position {
        return None;
    }
    cursor.advance_to(position);
    Some((cursor.mark.position, cursor.mark.units, cursor.rest().len()))
}

/// A byte position, and the place to which `moved` moves.
type Row = (usize, Option<(usize, usize, usize)>);

static ROWS: [Row; 7] = [
    (0, Some((0, 0, 7))),
    (1, Some((1, 1, 6))),
    (4, Some((1, 1, 6))),
    (5, Some((5, 3, 2))),
    (6, Some((5, 3, 2))),
    (7, Some((7, 4, 0))),
    (8, None),
];

#[test]
fn places_are_at_boundaries() -> Check {
    for row in &ROWS {
        let (position, place) = *row;
        let is_there = moved(position) == place;
        assert_row!(position, expect(is_there, Wrong::Outcome));
    }
    Ok(())
}

/// Whether `there_and_back` returns each boundary of the text.
fn comes_back(text: Wtf8<'_>, position: usize) -> bool {
    !text.is_code_point_boundary(position) || there_and_back(text, position) == position
}

#[test]
fn boundaries_are_found_again() -> Check {
    for position in [0, 1, 5, 7] {
        let is_found = comes_back(Wtf8::from_str(TEXT), position);
        assert_row!(position, expect(is_found, Wrong::Outcome));
    }
    Ok(())
}
