// Texts and strings cut at each code unit, whose parts are joined again.
use crate::shared::{has_units, string_of};
use std::alloc::Global;
use unit_text::UnitText;
use wtf8::Wtf8;
use wtf8_tests::examples::{JOINING, LISTS};
use wtf8_tests::wrong::{Check, Failed, Wrong, assert_row, each_row, expect, expect_bytes, made};
use wtf8_uses::cuts::{cut_and_joined, is_equal_after_cut};
use wtf8_uses::unit_slices::cut_at_units_and_joined;

/// Fails unless `cut_and_joined` returns the text of `units` and the bytes of `dump`.
fn expect_joined(
    alloc: Global,
    text: &UnitText<Global>,
    units: &[u16],
    dump: &str,
    index: usize,
) -> Check {
    if index > text.unit_len() {
        return Err(Failed::by(Wrong::Row));
    }
    let whole = made!(cut_and_joined(alloc, alloc, text, index));
    if !has_units(whole.as_wtf8(), units) {
        return Err(Failed::by(Wrong::Units));
    }
    expect_bytes(alloc, whole.as_wtf8(), dump)
}

/// Fails unless `is_equal_after_cut` is true at unit index `index`.
fn expect_whole(alloc: Global, text: &UnitText<Global>, index: usize) -> Check {
    if index <= text.unit_len() && made!(is_equal_after_cut(alloc, alloc, text, index)) {
        return Ok(());
    }
    Err(Failed::by(Wrong::Outcome))
}

/// Fails unless the text of `units`, cut at each unit index and joined by both callers, is whole again.
fn expect_whole_anywhere(alloc: Global, units: &[u16], dump: &str) -> Check {
    let text = made!(UnitText::from_units(alloc, units));
    for index in 0..=units.len() {
        expect_whole(alloc, &text, index)?;
        expect_joined(alloc, &text, units, dump, index)?;
    }
    Ok(())
}

#[test]
fn cut_and_joined_texts_are_equal_to_the_whole(rt: HostRuntime) -> Check {
    each_row!((units, _, dump) in JOINING => expect_whole_anywhere(rt.alloc(), units, dump))
}

/// Fails unless the text, truncated to `n` units and joined with the rest, is whole again.
fn expect_rejoined(alloc: Global, text: Wtf8<'_>, n: usize) -> Check {
    if n > text.unit_len() {
        return Err(Failed::by(Wrong::Row));
    }
    let whole = made!(cut_at_units_and_joined(alloc, text, n));
    expect(whole.as_wtf8() == text, Wrong::Outcome)
}

/// Fails unless the string of `units`, cut at each number of units and joined, is whole again.
fn cut_everywhere(alloc: Global, units: &[u16]) -> Check {
    let text = made!(string_of(alloc, units));
    for n in 0..=units.len() {
        expect_rejoined(alloc, text.as_wtf8(), n)?;
    }
    Ok(())
}

#[test]
fn a_string_cut_at_any_index_and_joined_is_equal(rt: HostRuntime) -> Check {
    let alloc = rt.alloc();
    for row in 0..JOINING.len() {
        assert_row!(row, cut_everywhere(alloc, JOINING[row].0));
    }
    for index in 0..LISTS.len() {
        let row = JOINING.len().wrapping_add(index);
        assert_row!(row, cut_everywhere(alloc, LISTS[index]));
    }
    Ok(())
}
