// Each call of a string on one example, and strings built from arrays and options of code points. Scripts compare the calls
// with the original crate on many strings.
use crate::examples::{JOINING, TEXT, TEXT_DUMP, expect_made, expect_units, has_numbers, joined};
use crate::wrong::{Check, Failed, Made, Wrong, each_row, expect, expect_bytes, made};
use std::alloc::{AllocError, Allocator, Global};
use std::borrow::CowStr;
use wtf8::{Build, CodePoint, Wtf8, Wtf8Buf};

/// The code points, units and bytes of `TEXT` followed by a lone lead surrogate.
static NUMBERS: [u32; 5] = [0x61, 0xE9, 0x20, 0x1F4A9, 0xD83D];

static UNITS: [u16; 6] = [0x61, 0xE9, 0x20, 0xD83D, 0xDCA9, 0xD83D];

const DUMP: &str = "61 C3 A9 20 F0 9F 92 A9 ED A0 BD";

/// Appends the trail of a pair, and a lead.
fn append_trail_and_lead(alloc: Global, text: &mut Wtf8Buf<Global>) -> Made<()> {
    let trail = made!(
        Wtf8Buf::from_ill_formed_utf16(alloc, &[0xDCA9]),
        Err(AllocError)
    );
    text.push_wtf8(trail.as_wtf8())?;
    text.extend([CodePoint::from_unit(0xD83D)])
}

/// Appends the units of `UNITS` after the first one, by each call that appends.
fn append_each(alloc: Global, text: &mut Wtf8Buf<Global>) -> Made<()> {
    let is_pushed = text.push_char('é').is_ok()
        && text.push_str(" ").is_ok()
        && text.push(CodePoint::from_unit(0xD83D)).is_ok();
    if !is_pushed {
        return Err(AllocError);
    }
    append_trail_and_lead(alloc, text)
}

/// The string of `UNITS`, by each call that appends.
fn appended(alloc: Global) -> Made<Wtf8Buf<Global>> {
    let mut text = made!(Wtf8Buf::from_str(alloc, "a"), Err(AllocError));
    append_each(alloc, &mut text)?;
    Ok(text)
}

/// Fails unless the string is that of `UNITS`.
fn expect_string(alloc: Global, string: &Wtf8Buf<Global>) -> Check {
    expect_bytes(alloc, string.as_wtf8(), DUMP)?;
    expect_units(alloc, string.as_wtf8(), &UNITS)?;
    expect(has_numbers(string.as_wtf8(), &NUMBERS), Wrong::Outcome)
}

/// Fails unless a string was made, and is that of `UNITS`.
fn expect_made_string(alloc: Global, made: Made<Wtf8Buf<Global>>) -> Check {
    let text = made!(made);
    expect_string(alloc, &text)
}

#[test]
fn each_call_that_appends_keeps_the_units_before(rt: HostRuntime) -> Check {
    let alloc = rt.alloc();
    let text = made!(appended(alloc));
    expect_string(alloc, &text)?;
    expect_made_string(alloc, text.clone())
}

/// Appends the units of `UNITS` after the first one, by the calls that append units.
fn push_units(text: &mut Wtf8Buf<Global>) -> Made<()> {
    text.push_ill_formed_utf16(&UNITS[1..4])?;
    text.push_ill_formed_utf16(&UNITS[4..5])?;
    text.push_unit(0xD83D)
}

/// The string of `UNITS`, by the calls that append units.
fn pushed_as_units(alloc: Global) -> Made<Wtf8Buf<Global>> {
    let mut text = made!(Wtf8Buf::from_str(alloc, "a"), Err(AllocError));
    push_units(&mut text)?;
    Ok(text)
}

/// Appends a string by two slices of it, cut after its fourth unit.
fn push_slices(text: &mut Wtf8Buf<Global>, whole: Wtf8<'_>) -> Made<()> {
    let end = whole.unit_len();
    text.push_unit_slice(whole.slice_units(0, 4.min(end)))?;
    text.push_unit_slice(whole.slice_units(4.min(end), end))
}

/// The string of `UNITS`, by slices of it that are cut inside its pair.
fn pushed_as_slices(alloc: Global) -> Made<Wtf8Buf<Global>> {
    let whole = made!(
        Wtf8Buf::from_ill_formed_utf16(alloc, &UNITS),
        Err(AllocError)
    );
    let mut text = Wtf8Buf::new(alloc);
    push_slices(&mut text, whole.as_wtf8())?;
    Ok(text)
}

/// Whether `write_units` writes `UNITS` to the front of a slice, and leaves its rest unchanged.
fn writes_units(text: Wtf8<'_>) -> bool {
    let mut slice = [0x7A; 8];
    if slice.len() < text.unit_len() {
        return false;
    }
    let count = text.write_units(&mut slice);
    count == 6 && slice == [0x61, 0xE9, 0x20, 0xD83D, 0xDCA9, 0xD83D, 0x7A, 0x7A]
}

/// Whether a string with a surrogate comes back from `into_string`.
fn is_no_text(text: Wtf8Buf<Global>) -> bool {
    text.into_string().is_err()
}

#[test]
fn units_are_pushed_and_written(rt: HostRuntime) -> Check {
    let alloc = rt.alloc();
    expect_made_string(alloc, pushed_as_units(alloc))?;
    expect_made_string(alloc, pushed_as_slices(alloc))?;
    let text = made!(pushed_as_units(alloc));
    expect(writes_units(text.as_wtf8()), Wrong::Units)?;
    // A lone surrogate was pushed, so this is no text.
    expect(is_no_text(text), Wrong::Outcome)
}

/// The string of the code points of `UNITS`, collected from the string itself.
fn collected(alloc: Global) -> Made<Wtf8Buf<Global>> {
    let text = Wtf8Buf::from_ill_formed_utf16(alloc, &UNITS)?;
    Wtf8Buf::from_iter(alloc, text.as_wtf8().code_points())
}

#[test]
fn code_points_of_a_string_give_it_again(rt: HostRuntime) -> Check {
    let alloc = rt.alloc();
    expect_made_string(alloc, collected(alloc))
}

/// Whether a number is that of a code point with this character.
fn has_character(number: u32, character: Option<char>) -> bool {
    match CodePoint::from_u32(number) {
        Some(point) => point.to_u32() == number && point.to_char() == character,
        None => false,
    }
}

#[test]
fn a_code_point_is_a_number_up_to_10ffff(rt: HostRuntime) {
    for (number, character) in [
        (0x61, Some('a')),
        (0xD7FF, Some('\u{D7FF}')),
        (0xD800, None),
        (0x10FFFF, Some('\u{10FFFF}')),
    ] {
        assert!(rt; has_character(number, character), "{number}");
    }
    assert!(rt; CodePoint::from_u32(0x110000).is_none());
}

/// Whether a string without surrogates converts to `TEXT`, borrowed and owned.
fn is_text(string: Wtf8Buf<Global>) -> bool {
    if string.as_wtf8().as_str() != Some(TEXT) {
        return false;
    }
    match string.into_string() {
        Ok(text) => text.as_str() == TEXT,
        Err(_) => false,
    }
}

/// Fails unless the lossy text of the view is `text`, borrowed from the view if `is_borrowed`, else copied.
fn expect_lossy(alloc: Global, view: Wtf8<'_>, text: &str, is_borrowed: bool) -> Check {
    let lossy = made!(view.to_string_lossy(alloc));
    let is_right = matches!(lossy, CowStr::Borrowed(_)) == is_borrowed && lossy.as_str() == text;
    expect(is_right, Wrong::Bytes)
}

/// Whether `write_lossy` writes the lossy text of `UNITS` to the front of a slice, and leaves its rest unchanged.
fn writes_lossy(text: Wtf8<'_>) -> bool {
    let mut slice = [0x7A; 12];
    if slice.len() < text.len() {
        return false;
    }
    let count = text.write_lossy(&mut slice);
    let lossy = [
        0x61, 0xC3, 0xA9, 0x20, 0xF0, 0x9F, 0x92, 0xA9, 0xEF, 0xBF, 0xBD, 0x7A,
    ];
    count == 11 && slice == lossy
}

#[test]
fn a_string_without_surrogates_is_a_text(rt: HostRuntime) -> Check {
    let text = made!(String::from_str(rt.alloc(), TEXT));
    expect(is_text(Wtf8Buf::from_string(text)), Wrong::Bytes)?;
    expect_lossy(rt.alloc(), Wtf8::from_str(TEXT), TEXT, true)
}

/// Fails unless the view of `UNITS` is no text, and `text` with its surrogate replaced.
fn expect_replaced(alloc: Global, view: Wtf8<'_>, text: &str) -> Check {
    expect_lossy(alloc, view, text, false)?;
    expect(view.as_str().is_none() && writes_lossy(view), Wrong::Bytes)
}

/// Whether a string becomes the lossy text `text`.
fn becomes_lossy(string: Wtf8Buf<Global>, text: &str) -> bool {
    string.into_string_lossy().as_str() == text
}

#[test]
fn a_lossy_text_has_replacements(rt: HostRuntime) -> Check {
    let text = made!(appended(rt.alloc()));
    expect_replaced(rt.alloc(), text.as_wtf8(), "aé 💩\u{FFFD}")?;
    expect(becomes_lossy(text, "aé 💩\u{FFFD}"), Wrong::Bytes)
}

/// Fails unless the parts of `TEXT` at a boundary have their bytes, and inside a code point there is none.
fn expect_parts(alloc: Global, text: Wtf8<'_>) -> Check {
    if text.is_code_point_boundary(5) || !text.is_code_point_boundary(4) {
        return Err(Failed::by(Wrong::Row));
    }
    expect_bytes(alloc, text.slice_to(4), "61 C3 A9 20")?;
    expect_bytes(alloc, text.slice_from(4), "F0 9F 92 A9")?;
    expect_bytes(alloc, text.slice(4, 4), "")
}

#[test]
fn parts_have_the_bytes_between_their_positions(rt: HostRuntime) -> Check {
    expect_parts(rt.alloc(), Wtf8::from_str(TEXT))
}

/// Appends a trail. Fails unless the string then has the bytes of `dump`.
fn expect_trail_pushed(alloc: Global, text: &mut Wtf8Buf<Global>, dump: &str) -> Check {
    match text.push(CodePoint::from_unit(0xDCA9)) {
        Ok(()) => expect_bytes(alloc, text.as_wtf8(), dump),
        Err(_) => Err(Failed::by(Wrong::Memory)),
    }
}

/// Truncates `TEXT` to its first four units. Fails unless it then ends with a lead that a trail joins.
fn expect_truncated(alloc: Global, text: &mut Wtf8Buf<Global>) -> Check {
    if text.as_wtf8().unit_len() != 5 {
        return Err(Failed::by(Wrong::Outcome));
    }
    text.truncate_units(4);
    expect_bytes(alloc, text.as_wtf8(), "61 C3 A9 20 ED A0 BD")?;
    expect_trail_pushed(alloc, text, TEXT_DUMP)
}

#[test]
fn a_string_is_truncated_inside_a_pair(rt: HostRuntime) -> Check {
    let mut text = made!(Wtf8Buf::from_str(rt.alloc(), TEXT));
    expect_truncated(rt.alloc(), &mut text)
}

/// Whether `clear` empties a string and keeps its capacity.
fn clears(text: &mut Wtf8Buf<Global>) -> bool {
    let capacity = text.capacity();
    text.clear();
    text.is_empty() && text.as_wtf8().is_empty() && text.len() == 0 && text.capacity() == capacity
}

#[test]
fn a_cleared_string_is_empty_and_begins_anew(rt: HostRuntime) -> Check {
    let mut text = made!(appended(rt.alloc()));
    assert!(rt; !text.is_empty() && !text.as_wtf8().is_empty());
    assert!(rt; clears(&mut text));
    expect_trail_pushed(rt.alloc(), &mut text, "ED B2 A9")
}

/// Whether the units of "ab" are found by their indexes, by both calls.
fn has_letters(text: Wtf8<'_>) -> bool {
    text.len() == 2
        && text.unit_len() == 2
        && text.ascii_unit_at(1) == 0x62
        && text.as_ascii_str() == "ab"
        && text.unit_at(1) == Some(0x62)
        && text.ascii_byte_at(0) == 0x61
        && text.unit_at(2).is_none()
}

#[test]
fn units_of_ascii_are_found(rt: HostRuntime) {
    assert!(rt; has_letters(Wtf8::from_str("ab")));
}

/// Whether U+FFFF is before U+10000 in the order of code points, and after it in that of code units.
fn is_ordered(last: Wtf8<'_>, pair: Wtf8<'_>) -> bool {
    last < pair && last != pair && pair.cmp_units(&last).is_lt()
}

#[test]
fn the_order_of_code_points_is_not_that_of_units(rt: HostRuntime) {
    assert!(rt; is_ordered(Wtf8::from_str("\u{FFFF}"), Wtf8::from_str("\u{10000}")));
}

/// Whether an iterator that outlives its view yields the units D83D and 62.
fn yields_back(text: Wtf8<'_>) -> bool {
    let mut units = {
        let view = text;
        view.to_ill_formed_utf16()
    };
    units.next() == Some(0xD83D) && units.next() == Some(0x62) && units.next().is_none()
}

#[test]
fn an_iterator_outlives_its_view(rt: HostRuntime) -> Check {
    let text = made!(Wtf8Buf::from_ill_formed_utf16(rt.alloc(), &[0xD83D, 0x62]));
    expect(yields_back(text.as_wtf8()), Wrong::Units)
}

/// Whether a slice that outlives its view is "b".
fn keeps_back(text: Wtf8<'_>) -> bool {
    let back = {
        let view = text;
        if !view.is_code_point_boundary(4) {
            return false;
        }
        view.slice_from(4)
    };
    back == Wtf8::from_str("b")
}

#[test]
fn a_slice_outlives_its_view(rt: HostRuntime) -> Check {
    let text = made!(Wtf8Buf::from_ill_formed_utf16(rt.alloc(), &[0x61, 0xD83D, 0x62]));
    expect(keeps_back(text.as_wtf8()), Wrong::Bytes)
}

/// Whether a string has a boundary at its start and none at `usize::MAX`.
fn ends_before_max(text: Wtf8<'_>) -> bool {
    text.is_code_point_boundary(0) && !text.is_code_point_boundary(usize::MAX)
}

/// Fails unless the string of the units has a boundary at its start and none at `usize::MAX`.
fn expect_end_before_max(alloc: Global, units: &[u16]) -> Check {
    let text = made!(Wtf8Buf::from_ill_formed_utf16(alloc, units));
    expect(ends_before_max(text.as_wtf8()), Wrong::Outcome)
}

#[test]
fn usize_max_is_no_boundary(rt: HostRuntime) -> Check {
    for text in ["", TEXT] {
        expect(ends_before_max(Wtf8::from_str(text)), Wrong::Outcome)?;
    }
    each_row!((units, _, _) in JOINING => expect_end_before_max(rt.alloc(), units))
}

/// Whether a list of an extension by a lead and one by its trail and "a" is applied.
fn extends_twice(text: &mut Wtf8Buf<Global>) -> bool {
    let front = [CodePoint::from_unit(0xD83D)];
    let back = [CodePoint::from_unit(0xDCA9), CodePoint::from_unit(0x61)];
    text.apply_all(&[Build::Extend(&front), Build::Extend(&back)]) == Ok(0)
}

#[test]
fn two_extensions_join(rt: HostRuntime) -> Check {
    let mut text = Wtf8Buf::new(rt.alloc());
    expect(extends_twice(&mut text), Wrong::Outcome)?;
    expect_bytes(rt.alloc(), text.as_wtf8(), "F0 9F 92 A9 61")
}

/// The string collected from one array of code points and extended by another.
fn of_arrays(
    alloc: Global,
    collected: [CodePoint; 2],
    extension: [CodePoint; 2],
) -> Made<Wtf8Buf<Global>> {
    let mut text = Wtf8Buf::from_iter(alloc, collected)?;
    text.extend(extension)?;
    Ok(text)
}

#[test]
fn arrays_are_taken(rt: HostRuntime) -> Check {
    let alloc = rt.alloc();
    let [a, b] = ['a', 'b'].map(CodePoint::from_char);
    let pair = [CodePoint::from_unit(0xD83D), CodePoint::from_unit(0xDCA9)];
    let text = of_arrays(alloc, [a, pair[0]], [pair[1], b]);
    expect_made(alloc, text, "61 F0 9F 92 A9 62")
}

/// Extends `text` by no code point, then by `point`.
fn extend_by_options<A: Allocator>(text: &mut Wtf8Buf<A>, point: CodePoint) -> Made<()> {
    text.extend(None)?;
    text.extend(Some(point))
}

/// The string of D83D, extended by DCA9.
fn of_options(alloc: Global) -> Made<Wtf8Buf<Global>> {
    let mut text = joined(alloc, &[0xD83D])?;
    extend_by_options(&mut text, CodePoint::from_unit(0xDCA9))?;
    Ok(text)
}

#[test]
fn an_option_is_taken(rt: HostRuntime) -> Check {
    let alloc = rt.alloc();
    expect_made(alloc, of_options(alloc), "F0 9F 92 A9")
}
