// Lines and columns of a string of four lines, the third empty, and byte positions.
use refusing::Refusing;
use std::alloc::{Allocator, Global};
use wtf8::Wtf8;
use wtf8_tests::wrong::{Check, Made, Wrong, expect, made};
use wtf8_uses::line_columns::{LineColumns, line_column_at, lines_of, mark_at_column};

/// In bytes 61 0A, F0 9F 92 A9 62 0A, 0A and C3 A9. The second line begins with a surrogate pair.
const TEXT: &str = "a\n\u{1F4A9}b\n\n\u{E9}";

/// A line, a column, and the byte position and the number of units there, if there is one.
static COLUMNS: [(usize, usize, Option<(usize, usize)>); 12] = [
    (0, 0, Some((0, 0))),
    (0, 1, Some((1, 1))),
    (1, 0, Some((2, 2))),
    (1, 1, Some((2, 2))),
    (1, 2, Some((6, 4))),
    (1, 3, Some((7, 5))),
    (2, 0, Some((8, 6))),
    (3, 0, Some((9, 7))),
    (3, 1, Some((11, 8))),
    (3, 2, None),
    (4, 0, None),
    (0, usize::MAX, None),
];

/// A byte position, and the line and the column there.
static POSITIONS: [(usize, usize, usize); 10] = [
    (0, 0, 0),
    (1, 0, 1),
    (2, 1, 0),
    (5, 1, 0),
    (6, 1, 2),
    (7, 1, 3),
    (8, 2, 0),
    (9, 3, 0),
    (10, 3, 0),
    (11, 3, 1),
];

/// The number of requests for a vector that grows to ten marks.
const REQUESTS: u64 = 3;

/// Whether each line and column has its position and number of units.
fn has_columns(lines: &LineColumns<'_, Global>) -> bool {
    for row in &COLUMNS {
        let (line, column, expected) = *row;
        let mark = mark_at_column(lines, line, column);
        if mark.map(|mark| (mark.position, mark.units)) != expected {
            return false;
        }
    }
    true
}

/// Whether each byte position has its line and column.
fn has_positions(lines: &LineColumns<'_, Global>) -> bool {
    for row in &POSITIONS {
        let (position, line, column) = *row;
        if lines.text.len() < position {
            return false;
        }
        let found = line_column_at(lines, position);
        if found.line != line || found.column != column {
            return false;
        }
    }
    true
}

/// Whether the lines of the text are as expected, both ways.
fn is_mapped(alloc: Global) -> Made<bool> {
    let lines = lines_of(alloc, Wtf8::from_str(TEXT))?;
    Ok(has_columns(&lines) && has_positions(&lines))
}

#[test]
fn columns_count_units(rt: HostRuntime) -> Check {
    let is_mapped = made!(is_mapped(rt.alloc()));
    expect(is_mapped, Wrong::Outcome)
}

/// Whether memory is refused where the lines of nine line feeds are found.
fn is_out_of_memory<A: Allocator>(alloc: A) -> bool {
    lines_of(alloc, Wtf8::from_str("\n\n\n\n\n\n\n\n\n")).is_err()
}

#[test]
fn each_refused_request_is_told(rt: HostRuntime) -> Check {
    let heap = Refusing::new(rt.alloc(), 0);
    for grants in 0..REQUESTS {
        heap.grant(grants);
        expect(is_out_of_memory(&heap), Wrong::Outcome)?;
    }
    heap.grant(REQUESTS);
    let are_found = !is_out_of_memory(&heap) && heap.grants_left() == 0;
    expect(are_found, Wrong::Outcome)
}
