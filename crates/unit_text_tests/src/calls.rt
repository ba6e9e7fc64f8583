// Each call of a text on one example. Scripts compare the calls with a JavaScript engine's strings on many texts.
use crate::shared::{has_bytes, has_text, slice_of, text_of};
use std::alloc::Global;
use std::cmp::Ordering;
use std::collections::HashMap;
use unit_text::UnitText;

/// The units and bytes of "a", a surrogate pair, "é" and a lone lead surrogate.
static UNITS: [u16; 5] = [0x61, 0xD83D, 0xDCA9, 0xE9, 0xD800];

const DUMP: &str = "61 F0 9F 92 A9 C3 A9 ED A0 80";

/// Whether the trail of the pair, then "é" and the lone lead can be appended.
fn is_rest_appended(alloc: Global, text: &mut UnitText<Global>) -> bool {
    let trail = text_of(alloc, &[0xDCA9]);
    let lead = text_of(alloc, &[0xD800]);
    text.push_wtf8(trail.as_wtf8()).is_ok()
        && text.push_str("é").is_ok()
        && text.concat(&lead).is_ok()
}

/// Whether the text of `UNITS`, made again of its string, is the same.
fn is_made_again(alloc: Global, text: UnitText<Global>) -> bool {
    let again = UnitText::from_wtf8(text.into_wtf8());
    has_text(alloc, &again, &UNITS, DUMP)
}

/// Whether the text of `UNITS`, by each call that appends, has these, and also if it is made again of its string.
fn is_appended(alloc: Global) -> bool {
    let Ok(mut text) = UnitText::from_str(alloc, "a") else {
        return false;
    };
    text.mark_units(alloc);
    text.push(0xD83D).is_ok()
        && is_rest_appended(alloc, &mut text)
        && has_text(alloc, &text, &UNITS, DUMP)
        && is_made_again(alloc, text)
}

#[test]
fn each_call_that_appends_keeps_the_units_before(rt: HostRuntime) {
    assert!(rt; is_appended(rt.alloc()));
}

/// Whether the slice from unit `begin` to before unit `end` has the bytes of `dump`, and occurs at `begin` and not at
/// the index after it.
fn is_slice(alloc: Global, text: &UnitText<Global>, begin: usize, end: usize, dump: &str) -> bool {
    let Ok(slice) = slice_of(alloc, text, begin, end) else {
        return false;
    };
    text.starts_with_at(begin, &slice)
        && text.starts_with_at(begin.saturating_add(1), &slice) == (begin == end)
        && has_bytes(alloc, slice.as_wtf8(), dump)
}

/// Whether the text of `UNITS` has its slices, of which some have half of its pair.
fn has_slices(alloc: Global, text: &UnitText<Global>) -> bool {
    is_slice(alloc, text, 0, 2, "61 ED A0 BD")
        && is_slice(alloc, text, 2, 3, "ED B2 A9")
        && is_slice(alloc, text, 2, 2, "")
        && is_slice(alloc, text, 0, 5, DUMP)
}

#[test]
fn a_slice_that_divides_a_pair_has_its_half(rt: HostRuntime) {
    let alloc = rt.alloc();
    assert!(rt; has_slices(alloc, &text_of(alloc, &UNITS)));
}

/// Whether the text of U+E000 is after that of U+10000 by units and before it by code points.
fn is_ordered(private: &UnitText<Global>, pair: &UnitText<Global>) -> bool {
    private.cmp_units(pair) == Ordering::Greater
        && pair.cmp_units(private) == Ordering::Less
        && private.cmp_units(private) == Ordering::Equal
        && private.as_wtf8() < pair.as_wtf8()
        && private != pair
}

/// Whether `is_ordered` holds of the two texts.
fn are_ordered(alloc: Global) -> bool {
    let private = UnitText::from_str(alloc, "\u{E000}");
    let pair = UnitText::from_str(alloc, "\u{10000}");
    match (private, pair) {
        (Ok(private), Ok(pair)) => is_ordered(&private, &pair),
        _ => false,
    }
}

#[test]
fn the_order_of_units_is_not_that_of_code_points(rt: HostRuntime) {
    assert!(rt; are_ordered(rt.alloc()));
}

/// Whether the map has 1 for the text.
fn is_key(map: &HashMap<UnitText<Global>, i32>, key: &UnitText<Global>) -> bool {
    map.get(key).copied() == Some(1)
}

#[test]
fn a_map_has_a_text_by_its_units(rt: HostRuntime) {
    let alloc = rt.alloc();
    let mut map = HashMap::new(alloc);
    let is_inserted = map.insert(text_of(alloc, &UNITS), 1).is_ok();
    assert!(rt;
        is_inserted
            && is_key(&map, &text_of(alloc, &UNITS))
            && !is_key(&map, &text_of(alloc, &[0x61]))
    );
}
