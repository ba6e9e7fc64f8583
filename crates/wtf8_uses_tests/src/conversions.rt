// Conversions, JSON texts, environment blocks, counts of units, and comparison without ASCII case.
use crate::shared::{LEAD, TRAIL, string_of};
use refusing::Refusing;
use std::alloc::{Allocator, Global};
use wtf8::Wtf8;
use wtf8_tests::wrong::{Check, Failed, Made, Wrong, each_row, expect, made};
use wtf8_uses::ascii_case::eq_ignore_ascii_case;
use wtf8_uses::environment::{Variable, environment_block};
use wtf8_uses::json::{append_json_bytes, append_json_text, json_text};
use wtf8_uses::{round_trips, units, well_formed};

/// Fails unless `units_round_trip` returns the units of `list`.
fn expect_units_again(alloc: Global, list: &[u16]) -> Check {
    let again = made!(round_trips::units_round_trip(alloc, list));
    expect(again.as_slice() == list, Wrong::Units)
}

/// Whether `string_round_trip` returns `text`, of which `owned` is a copy.
fn comes_back(owned: String, text: &str) -> bool {
    match round_trips::string_round_trip(owned) {
        Ok(again) => again.as_str() == text,
        Err(_) => false,
    }
}

/// Fails unless `text_round_trip` and `string_round_trip` return `text`.
fn expect_text_again(alloc: Global, text: &str) -> Check {
    let owned = made!(String::from_str(alloc, text));
    let is_same = round_trips::text_round_trip(text) == Some(text);
    expect(comes_back(owned, text) && is_same, Wrong::Bytes)
}

/// Fails unless `lossy_twice` of the string of `list` is `text`.
fn expect_lossy(alloc: Global, list: &[u16], text: &str) -> Check {
    let lossy = round_trips::lossy_twice(string_of(alloc, list)?);
    expect(lossy.as_str() == text, Wrong::Bytes)
}

#[test]
fn round_trips_return_their_input(rt: HostRuntime) -> Check {
    let alloc = rt.alloc();
    expect_units_again(alloc, &[TRAIL, LEAD, TRAIL, 0x41, LEAD])?;
    expect_text_again(alloc, "aé 💩")?;
    expect_lossy(alloc, &[0x41, LEAD], "A\u{FFFD}")
}

/// Whether the text of "a" and a pair has these units by index, and no fourth one.
fn has_each_unit(text: Wtf8<'_>) -> bool {
    for (index, unit) in [(1, Some(LEAD)), (2, Some(TRAIL)), (3, None)] {
        if units::nth_unit(text, index) != unit {
            return false;
        }
    }
    true
}

#[test]
fn units_are_counted() -> Check {
    let text = Wtf8::from_str("a💩");
    if units::unit_count(text) != 3 {
        return Err(Failed::by(Wrong::Units));
    }
    if !has_each_unit(text) {
        return Err(Failed::by(Wrong::Units));
    }
    let is_next = units::next_unit(text, 0) == Some(LEAD) && units::next_unit(text, 2).is_none();
    expect(is_next, Wrong::Units)
}

/// Fails unless the well-formed text of `broken` is `text`.
fn expect_mended(alloc: Global, broken: Wtf8<'_>, text: &str) -> Check {
    let mended = made!(well_formed::well_formed_text(alloc, broken));
    expect(mended.as_str() == text, Wrong::Bytes)
}

#[test]
fn lone_surrogates_are_mended(rt: HostRuntime) -> Check {
    let alloc = rt.alloc();
    let broken = made!(string_of(alloc, &[0x61, TRAIL, LEAD, TRAIL]));
    expect_mended(alloc, broken.as_wtf8(), "a\u{FFFD}💩")
}

/// The number of requests for a text that grows to twelve bytes, and for a full vector to which they are appended.
const REQUESTS: u64 = 3;

/// Units, and their JSON text as an engine's `JSON.stringify` returns it.
static JSON_ROWS: [(&[u16], &str); 6] = [
    (&[], "\"\""),
    (&[0x61, 0x22, 0x62, 0x5C, 0x63, 0x2F], "\"a\\\"b\\\\c/\""),
    (
        &[
            0x00, 0x07, 0x08, 0x09, 0x0A, 0x0B, 0x0C, 0x0D, 0x1F, 0x20, 0x7F,
        ],
        "\"\\u0000\\u0007\\b\\t\\n\\u000b\\f\\r\\u001f \u{7F}\"",
    ),
    (&[LEAD, TRAIL], "\"💩\""),
    (&[TRAIL, LEAD], "\"\\udca9\\ud83d\""),
    (
        &[0x61, 0xD800, 0xE9, 0xDFFF, 0x2028],
        "\"a\\ud800é\\udfff\u{2028}\"",
    ),
];

/// Fails unless the JSON text is `text`, and the one of "a" and a tab is appended to it.
fn expect_appended<A: Allocator>(json: &mut String<A>, text: &str) -> Check {
    expect(json.as_str() == text, Wrong::Bytes)?;
    made!(append_json_text(json, Wtf8::from_str("a\t")));
    let is_appended = json.as_str().strip_prefix(text) == Some("\"a\\t\"");
    expect(is_appended, Wrong::Bytes)
}

/// Fails unless the JSON text of the string of `units` is `text`, to which another one can be appended.
fn expect_json(alloc: Global, units: &[u16], text: &str) -> Check {
    let string = made!(string_of(alloc, units));
    let mut json = made!(json_text(alloc, string.as_wtf8()));
    expect_appended(&mut json, text)
}

/// Whether JSON text is appended to bytes after 2C, as `text`.
fn is_appended(alloc: Global, string: Wtf8<'_>, text: &str) -> Made<bool> {
    let mut bytes = Vec::new(alloc);
    bytes.push(0x2C)?;
    append_json_bytes(alloc, &mut bytes, string)?;
    Ok(bytes.as_slice().strip_prefix(&[0x2C]) == Some(text.as_bytes()))
}

#[test]
fn json_bytes_follow_others(rt: HostRuntime) -> Check {
    let alloc = rt.alloc();
    let string = made!(string_of(alloc, &[0x61, LEAD, 0xE9]));
    let is_there = made!(is_appended(alloc, string.as_wtf8(), "\"a\\ud83dé\""));
    expect(is_there, Wrong::Bytes)
}

/// Whether JSON text is refused, for want of memory, after the bytes 2C, which stay.
fn is_kept_in_bytes<A: Allocator, B: Allocator>(alloc: A, out: &mut Vec<u8, B>) -> bool {
    append_json_bytes(alloc, out, Wtf8::from_str("\n\n\n\n\n")).is_err()
        && out.as_slice() == [0x2C].as_slice()
}

/// Fails unless JSON text is refused at each of its requests, and appended if all are granted.
fn expect_kept_in_bytes<B: Allocator>(heap: &Refusing<Global>, out: &mut Vec<u8, B>) -> Check {
    for grants in 0..REQUESTS {
        heap.grant(grants);
        expect(is_kept_in_bytes(heap, out), Wrong::Outcome)?;
    }
    heap.grant(REQUESTS);
    let is_appended = !is_kept_in_bytes(heap, out) && heap.grants_left() == 0;
    expect(is_appended, Wrong::Outcome)
}

#[test]
fn refused_json_bytes_are_left_out(rt: HostRuntime) -> Check {
    let heap = Refusing::new(rt.alloc(), 1);
    let mut out = made!(Vec::from_slice(&heap, &[0x2C]));
    expect_kept_in_bytes(&heap, &mut out)
}

/// Whether JSON text is refused, for want of memory, after "ab", which stays.
fn is_kept<A: Allocator>(json: &mut String<A>, string: Wtf8<'_>) -> bool {
    append_json_text(json, string).is_err() && json.as_str() == "ab"
}

/// Fails unless JSON text of the string is refused, after "ab", at the request after the one that is granted.
fn expect_cut_off(heap: &Refusing<Global>, string: Wtf8<'_>) -> Check {
    let mut json = made!(String::from_str(heap, "ab"));
    heap.grant(1);
    let is_cut_off = is_kept(&mut json, string) && heap.grants_left() == 0;
    expect(is_cut_off, Wrong::Outcome)
}

#[test]
fn refused_json_text_is_cut_off(rt: HostRuntime) -> Check {
    let alloc = rt.alloc();
    let Ok(string) = string_of(alloc, &[0x1F; 40]) else {
        return Err(Failed::by(Wrong::Memory));
    };
    let heap = Refusing::new(alloc, 1);
    expect_cut_off(&heap, string.as_wtf8())
}

#[test]
fn json_texts_are_those_of_an_engine(rt: HostRuntime) -> Check {
    each_row!((units, text) in JSON_ROWS => expect_json(rt.alloc(), units, text))
}

/// Fails unless the block of the variables has `units`.
fn expect_block(alloc: Global, variables: &[Variable<'_>], units: &[u16]) -> Check {
    let block = made!(environment_block(alloc, variables));
    expect(block.as_slice() == units, Wrong::Units)
}

/// Fails unless the blocks of two variables, of which the first one has `value`, and of none are as expected.
fn expect_blocks(alloc: Global, value: Wtf8<'_>) -> Check {
    let variables = [
        Variable {
            name: Wtf8::from_str("a"),
            value,
        },
        Variable {
            name: Wtf8::from_str("=C:"),
            value: Wtf8::from_str(""),
        },
    ];
    let units: [u16; 11] = [0x61, 0x3D, LEAD, 0x3D, 0, 0x3D, 0x43, 0x3A, 0x3D, 0, 0];
    expect_block(alloc, &variables, &units)?;
    expect_block(alloc, &[], &[0])
}

#[test]
fn an_environment_is_one_block(rt: HostRuntime) -> Check {
    let alloc = rt.alloc();
    let value = made!(string_of(alloc, &[LEAD, 0x3D]));
    expect_blocks(alloc, value.as_wtf8())
}

/// Two texts, and whether they are equal if the case of ASCII letters is ignored.
static CASES: [(&str, &str, bool); 5] = [
    ("aZé[@", "Azé[@", true),
    ("é", "É", false),
    ("@", "`", false),
    ("[", "{", false),
    ("", "", true),
];

/// Fails unless `is_equal` says whether `text` equals the string of `units` if the case of ASCII letters is ignored.
fn expect_case(alloc: Global, text: Wtf8<'_>, units: &[u16], is_equal: bool) -> Check {
    let other = made!(string_of(alloc, units));
    let is_found = eq_ignore_ascii_case(text, other.as_wtf8());
    expect(is_found == is_equal, Wrong::Outcome)
}

/// Fails unless each row of `CASES` has two texts that are equal, or not, if the case of ASCII letters is ignored.
fn expect_cases() -> Check {
    each_row!((text, other, is_equal) in CASES => {
        let found = eq_ignore_ascii_case(Wtf8::from_str(text), Wtf8::from_str(other));
        expect(found == is_equal, Wrong::Outcome)
    })
}

/// Fails unless "A" and a lead are equal to "a" and a lead, but not to "a".
fn expect_capital(alloc: Global, capital: Wtf8<'_>) -> Check {
    expect_case(alloc, capital, &[0x61, LEAD], true)?;
    expect_case(alloc, capital, &[0x61], false)
}

#[test]
fn ascii_letters_are_equal_in_both_cases(rt: HostRuntime) -> Check {
    let alloc = rt.alloc();
    expect_cases()?;
    let capital = made!(string_of(alloc, &[0x41, LEAD]));
    expect_capital(alloc, capital.as_wtf8())
}
