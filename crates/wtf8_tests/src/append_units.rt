// `append_units` appends all code units of a string after a vector's own, and `write_units` writes them to the front of
// a slice, wherever a block of one kind ends.
use crate::wrong::{Check, Failed, Made, Wrong, assert_row, expect, made};
use refusing::{Lent, Refusing};
use std::alloc::{AllocError, Global};
use wtf8::{Wtf8, Wtf8Buf};

/// The units of a vector before `append_units` is called, and of a slice after the written ones.
static BEFORE: [u16; 2] = [0xDC00, 0x61];

/// Lists of units of each kind, written over or into a list of other units.
static OTHERS: [&[u16]; 7] = [
    &[0x61],
    &[0xE9],
    &[0x20AC],
    &[0xD83D],
    &[0xDCA9],
    &[0xD83D, 0xDCA9],
    &[0xD7FF, 0xE000, 0xDBFF, 0xDFFF, 0x7F, 0x80, 0x00],
];

/// `BEFORE` with the units of `text` appended, with all requests for memory granted.
fn appended<'a>(heap: Lent<'a>, text: Wtf8<'_>) -> Made<Vec<u16, Lent<'a>>> {
    heap.grant(u64::MAX);
    let mut grown = Vec::from_slice(heap, &BEFORE)?;
    text.append_units(&mut grown)?;
    Ok(grown)
}

/// `BEFORE` in a vector of capacity `count`, with no more requests for memory granted.
fn with_room<'a>(heap: Lent<'a>, count: usize) -> Made<Vec<u16, Lent<'a>>> {
    heap.grant(u64::MAX);
    let mut room = made!(Vec::with_capacity(heap, count), Err(AllocError));
    room.extend_from_slice(&BEFORE)?;
    heap.grant(0);
    Ok(room)
}

/// `BEFORE` with the units of `text` appended to a vector of capacity `count`, with no request for memory granted.
fn appended_in_room<'a>(heap: Lent<'a>, text: Wtf8<'_>, count: usize) -> Made<Vec<u16, Lent<'a>>> {
    let mut room = made!(with_room(heap, count), Err(AllocError));
    text.append_units(&mut room)?;
    Ok(room)
}

/// Fails unless `append_units`, without spare capacity and memory, changes nothing, and fails unless there are no units.
fn expect_failure(heap: Lent<'_>, text: Wtf8<'_>) -> Check {
    heap.grant(u64::MAX);
    let mut full = made!(Vec::from_slice(heap, &BEFORE));
    heap.grant(0);
    let is_refused = text.append_units(&mut full).is_err();
    let is_unchanged = full.as_slice() == BEFORE.as_slice();
    expect(
        is_unchanged && is_refused != text.is_empty(),
        Wrong::Outcome,
    )
}

/// Fails unless a vector was made, and has the units `whole`.
fn expect_whole(made: Made<Vec<u16, Lent<'_>>>, whole: &[u16]) -> Check {
    let found = made!(made);
    expect(found.as_slice() == whole, Wrong::Units)
}

/// Fails unless `append_units` makes `whole` with all requests for memory granted, and with none granted if the capacity
/// suffices, and leaves the vector unchanged if memory is refused.
fn expect_back(heap: Lent<'_>, text: Wtf8<'_>, whole: &[u16]) -> Check {
    expect_whole(appended(heap, text), whole)?;
    expect_whole(appended_in_room(heap, text, whole.len()), whole)?;
    expect_failure(heap, text)
}

/// `BEFORE` followed by `units`.
fn whole_of(alloc: Global, units: &[u16]) -> Made<Vec<u16>> {
    let mut whole = Vec::from_slice(alloc, &BEFORE)?;
    whole.extend_from_slice(units)?;
    Ok(whole)
}

/// `count` zeros, then `BEFORE`.
fn zeros_of(alloc: Global, count: usize) -> Made<Vec<u16>> {
    let mut slice = Vec::new(alloc);
    slice.resize(count, 0)?;
    slice.extend_from_slice(&BEFORE)?;
    Ok(slice)
}

/// Whether `write_units` returns the number of `units`, writes them, and leaves `BEFORE` after them unchanged.
fn writes_to(slice: &mut [u16], text: Wtf8<'_>, units: &[u16]) -> bool {
    if slice.len() < text.unit_len() {
        return false;
    }
    let count = text.write_units(slice);
    let (front, rest) = slice.split_at(units.len().min(slice.len()));
    count == units.len() && front == units && rest == BEFORE.as_slice()
}

/// Fails unless `write_units` returns the number of `units`, writes them, and leaves the rest of a slice unchanged.
fn expect_written(alloc: Global, text: Wtf8<'_>, units: &[u16]) -> Check {
    match zeros_of(alloc, units.len()) {
        Ok(mut slice) => expect(writes_to(&mut slice, text, units), Wrong::Units),
        Err(_) => Err(Failed::by(Wrong::Memory)),
    }
}

/// Fails unless `append_units` appends the units of `text` if there is memory or capacity, and else leaves the vector
/// unchanged, and `write_units` writes them.
fn expect_each_way(alloc: Global, text: Wtf8<'_>, units: &[u16]) -> Check {
    let whole = made!(whole_of(alloc, units));
    let heap = Refusing::new(alloc, u64::MAX);
    expect_back(&heap, text, &whole)?;
    expect_written(alloc, text, units)
}

/// Fails unless the units of their string come back by `append_units` and `write_units`.
fn expect_units_back(alloc: Global, units: Made<Vec<u16>>) -> Check {
    let units = made!(units);
    expect_string_back(alloc, &units)
}

/// Fails unless the units of their string come back by `append_units` and `write_units`.
fn expect_string_back(alloc: Global, units: &[u16]) -> Check {
    let text = made!(Wtf8Buf::from_ill_formed_utf16(alloc, units));
    expect_each_way(alloc, text.as_wtf8(), units)
}

/// `length` times `unit`, with `other` written over the units from index `at` on.
fn overwritten(
    alloc: Global,
    unit: u16,
    length: usize,
    other: &[u16],
    at: usize,
) -> Made<Vec<u16>> {
    let mut units = Vec::new(alloc);
    units.resize(at, unit)?;
    units.extend_from_slice(other)?;
    units.resize(length.max(units.len()), unit)?;
    Ok(units)
}

/// Fails unless lists of `length` times `unit`, overwritten from each index on by each of `OTHERS`, come back.
fn expect_overwritten_back(alloc: Global, unit: u16, length: usize) -> Check {
    for at in 0..length {
        for other in &OTHERS {
            expect_units_back(alloc, overwritten(alloc, unit, length, other, at))?;
        }
    }
    Ok(())
}

#[test]
fn all_units_are_appended_and_written(rt: HostRuntime) -> Check {
    let alloc = rt.alloc();
    for length in 0..=50 {
        for unit in [0x61, 0x80, 0x07FF, 0x0800, 0xFFFF, 0xD7FF, 0xD800, 0xDFFF] {
            assert_row!(length, expect_overwritten_back(alloc, unit, length));
        }
    }
    Ok(())
}

/// Fails unless lists of `length` times `unit` come back with each of `OTHERS` written over them: about 64, 96 or 192
/// units before the end, where `write_units` begins to count the units of a long string of each encoded length.
fn expect_long_back(alloc: Global, unit: u16, length: usize) -> Check {
    for distance in [62, 63, 64, 65, 95, 96, 97, 191, 192, 193] {
        let at = length.saturating_sub(distance);
        for other in &OTHERS {
            expect_units_back(alloc, overwritten(alloc, unit, length, other, at))?;
        }
    }
    Ok(())
}

#[test]
fn units_of_long_strings_are_appended_and_written(rt: HostRuntime) -> Check {
    let alloc = rt.alloc();
    for unit in [0x61, 0x80, 0x0800, 0xD7FF, 0xD800, 0xDFFF] {
        for length in [63, 64, 127, 128, 400] {
            assert_row!(length, expect_long_back(alloc, unit, length));
        }
    }
    Ok(())
}

/// Strings of four bytes and two units: code points, with the units that Python's "utf-16" codec gives.
static FOURS: [(&str, [u16; 2]); 9] = [
    ("\u{10000}", [0xD800, 0xDC00]),
    ("\u{10FFFF}", [0xDBFF, 0xDFFF]),
    ("\u{1F4A9}", [0xD83D, 0xDCA9]),
    ("\u{103FF}", [0xD800, 0xDFFF]),
    ("\u{10400}", [0xD801, 0xDC00]),
    ("\u{FFC00}", [0xDBBF, 0xDC00]),
    ("\u{100000}", [0xDBC0, 0xDC00]),
    ("\u{2F9AB}", [0xD87E, 0xDDAB]),
    ("\u{5ABCD}", [0xD92A, 0xDFCD]),
];

/// Units end where those of `FOURS` do, but there are code points of three bytes and of one.
static THREES_BEFORE_ASCII: [(&str, [u16; 2]); 3] = [
    ("\u{20AC}a", [0x20AC, 0x61]),
    ("\u{1F4A9}", [0xD83D, 0xDCA9]),
    ("\u{FFFD}\u{0}", [0xFFFD, 0x00]),
];

/// Appends the first `count` of `pieces`, over and over, to a string, and their units to a list.
fn push_pieces(
    text: &mut Wtf8Buf<Global>,
    units: &mut Vec<u16>,
    pieces: &[(&str, [u16; 2])],
    count: usize,
) -> Made<()> {
    for (piece, pair) in pieces.iter().cycle().take(count) {
        text.push_str(piece)?;
        units.extend_from_slice(pair)?;
    }
    Ok(())
}

/// Fails unless the units of the first `count` of `pieces`, over and over, then the unit `last`, are appended and written.
fn expect_pieces(alloc: Global, pieces: &[(&str, [u16; 2])], count: usize, last: u16) -> Check {
    let mut text = Wtf8Buf::new(alloc);
    let mut units = Vec::new(alloc);
    let is_pushed = push_pieces(&mut text, &mut units, pieces, count).is_ok()
        && text.push_unit(last).is_ok()
        && units.push(last).is_ok();
    if !is_pushed {
        return Err(Failed::by(Wrong::Memory));
    }
    expect_each_way(alloc, text.as_wtf8(), &units)
}

#[test]
fn full_blocks_of_four_bytes_are_appended_and_written(rt: HostRuntime) -> Check {
    let alloc = rt.alloc();
    for count in [7, 8, 9, 15, 16, 17, 24, 25, 97, 120] {
        for last in [0x61, 0xD800, 0xDBFF, 0xDC00, 0xDFFF, 0xE9, 0x20AC] {
            assert_row!(count, expect_pieces(alloc, &FOURS, count, last));
            assert_row!(
                count,
                expect_pieces(alloc, &THREES_BEFORE_ASCII, count, last)
            );
        }
    }
    Ok(())
}
