//! Example strings with their bytes and code units, lists of units, strings built by single pushes, and checks of strings.
use crate::wrong::{Check, Failed, Made, Wrong, expect, expect_bytes, made};
use std::alloc::{Allocator, Global};
use wtf8::{CodePoint, Wtf8, Wtf8Buf};

/// A text with characters of one, two and four bytes; `TEXT_DUMP` is its bytes.
pub const TEXT: &str = "aé 💩";

pub const TEXT_DUMP: &str = "61 C3 A9 20 F0 9F 92 A9";

/// Code units, each pushed as a code point of its own; the code points of the string that they build, and its bytes.
type Row = (&'static [u16], &'static [u32], &'static str);

// Tables are statics: a constant would be proved again, with all its rows, in each function that reads it.

/// Lead and trail surrogates that join, and surrogates that stay lone.
pub static JOINING: [Row; 10] = [
    (&[0xD83D, 0xDCA9], &[0x1F4A9], "F0 9F 92 A9"),
    (
        &[0xD83D, 0x20, 0xDCA9],
        &[0xD83D, 0x20, 0xDCA9],
        "ED A0 BD 20 ED B2 A9",
    ),
    (&[0xD800, 0xDBFF], &[0xD800, 0xDBFF], "ED A0 80 ED AF BF"),
    (&[0xD800, 0xE000], &[0xD800, 0xE000], "ED A0 80 EE 80 80"),
    (&[0xD7FF, 0xDC00], &[0xD7FF, 0xDC00], "ED 9F BF ED B0 80"),
    (&[0x61, 0xDC00], &[0x61, 0xDC00], "61 ED B0 80"),
    (&[0xDC00], &[0xDC00], "ED B0 80"),
    (
        &[0xD83D, 0xD83D, 0xDCA9],
        &[0xD83D, 0x1F4A9],
        "ED A0 BD F0 9F 92 A9",
    ),
    (
        &[0xD83D, 0xDCA9, 0xDCA9],
        &[0x1F4A9, 0xDCA9],
        "F0 9F 92 A9 ED B2 A9",
    ),
    (&[0xDCA9, 0xD83D], &[0xDCA9, 0xD83D], "ED B2 A9 ED A0 BD"),
];

/// Lists of units with surrogates at both ends, and others.
pub static LISTS: [&[u16]; 6] = [
    &[],
    &[0xDCA9, 0x61, 0xE9, 0xFFFF, 0xD83D],
    &[0xD83D, 0xDCA9, 0x61, 0xDBFF, 0xDFFF],
    &[0xDC00, 0xD800, 0xDC00, 0xD800],
    &[0xD800, 0xD800, 0xDC00, 0xDC00],
    &[0x61, 0xE9, 0x20, 0xD83D, 0xD83D, 0xDCA9],
];

/// `letters` times "a", then characters of two, three and four bytes, another pair and a lone lead surrogate.
pub fn long_list(alloc: Global, letters: usize) -> Made<Vec<u16>> {
    let mut units = vec![in alloc; 0x61; letters]?;
    units.extend_from_slice(&[0xE9, 0xFFFF, 0xD83D, 0xDCA9, 0xDBFF, 0xDFFF, 0xD83D])?;
    Ok(units)
}

/// The code point of each of `units`. The surrogates of a pair are two code points.
pub fn points_of_units(alloc: Global, units: &[u16]) -> Made<Vec<CodePoint>> {
    let mut points = Vec::new(alloc);
    for unit in units {
        points.push(CodePoint::from_unit(*unit))?;
    }
    Ok(points)
}

/// The string that pushing `units` one by one builds.
pub fn joined<A: Allocator>(alloc: A, units: &[u16]) -> Made<Wtf8Buf<A>> {
    let mut text = Wtf8Buf::new(alloc);
    for unit in units {
        text.push(CodePoint::from_unit(*unit))?;
    }
    Ok(text)
}

/// The string that pushing the code points `numbers` one by one builds.
pub fn pushed<A: Allocator>(alloc: A, numbers: &[u32]) -> Result<Wtf8Buf<A>, Failed> {
    let mut text = Wtf8Buf::new(alloc);
    for number in numbers {
        let Some(point) = CodePoint::from_u32(*number) else {
            return Err(Failed::by(Wrong::Row));
        };
        if text.push(point).is_err() {
            return Err(Failed::by(Wrong::Memory));
        }
    }
    Ok(text)
}

/// Fails unless the string has the code units `expected`.
pub fn expect_units(alloc: Global, text: Wtf8<'_>, expected: &[u16]) -> Check {
    let found: Made<Vec<u16>> = text.to_ill_formed_utf16().collect(alloc);
    let units = made!(found);
    expect(units.as_slice() == expected, Wrong::Units)
}

/// Whether the string has the code points `expected`.
pub fn has_numbers(text: Wtf8<'_>, expected: &[u32]) -> bool {
    let mut points = text.code_points();
    for number in expected {
        let Some(point) = points.next() else {
            return false;
        };
        if point.to_u32() != *number {
            return false;
        }
    }
    points.next().is_none()
}

/// Fails unless `found` is true.
pub fn expect_true(found: Made<bool>) -> Check {
    let is_right = made!(found);
    expect(is_right, Wrong::Outcome)
}

/// Fails unless a string was made, and has the bytes of `dump`.
pub fn expect_made<A: Allocator + Drop>(
    alloc: Global,
    made: Made<Wtf8Buf<A>>,
    dump: &str,
) -> Check {
    let text = made!(made);
    expect_bytes(alloc, text.as_wtf8(), dump)
}
