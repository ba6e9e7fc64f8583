// JSON strings that are read. Their units, and which texts are malformed, are from `JSON.parse` of Node 20; the text
// after a string, positions and causes are worked out by hand.
use crate::shared::{LEAD, TRAIL, has_units, string_of};
use refusing::Refusing;
use std::alloc::{Allocator, Global};
use wtf8::Wtf8;
use wtf8_tests::wrong::{Check, Wrong, each_row, expect, made};
use wtf8_uses::json_reader::{JsonCause, JsonError, read_json_string};

/// A text, the units of the JSON string at its front, and the text after it.
static STRINGS: [(&str, &[u16], &str); 11] = [
    ("\"\"", &[], ""),
    ("\"a/é💩\" \"", &[0x61, 0x2F, 0xE9, LEAD, TRAIL], " \""),
    (
        "\"\\\"\\\\\\/\\b\\f\\n\\r\\t\"",
        &[0x22, 0x5C, 0x2F, 0x08, 0x0C, 0x0A, 0x0D, 0x09],
        "",
    ),
    (
        "\"\\u0000\\u001f\\u0020\\u00Ff\\uABCD\\uefEF\"",
        &[0x00, 0x1F, 0x20, 0xFF, 0xABCD, 0xEFEF],
        "",
    ),
    ("\"\\ud83d\\udca9\"", &[LEAD, TRAIL], ""),
    ("\"\\udca9\\ud83d\"", &[TRAIL, LEAD], ""),
    ("\"\\uD83Dx\\uDca9\"", &[LEAD, 0x78, TRAIL], ""),
    ("\"💩\\udca9\"", &[LEAD, TRAIL, TRAIL], ""),
    ("\" \u{7F}\u{2028}\"", &[0x20, 0x7F, 0x2028], ""),
    ("\"\\\\\"\"", &[0x5C], "\""),
    ("\"\\u0041B\"é", &[0x41, 0x42], "é"),
];

/// A text, the byte at which it is malformed, and the cause.
static MALFORMED: [(&str, usize, JsonCause); 32] = [
    ("", 0, JsonCause::NotOpened),
    ("a", 0, JsonCause::NotOpened),
    ("'a'", 0, JsonCause::NotOpened),
    ("é\"", 0, JsonCause::NotOpened),
    ("\"", 1, JsonCause::NotClosed),
    ("\"a", 2, JsonCause::NotClosed),
    ("\"\\\"", 3, JsonCause::NotClosed),
    ("\"💩\\ud83d", 11, JsonCause::NotClosed),
    ("\"é\\", 3, JsonCause::Escape),
    ("\"\\u", 1, JsonCause::Escape),
    ("\"\\u12", 1, JsonCause::Escape),
    ("\"\\u123", 1, JsonCause::Escape),
    ("\"\\u123g\"", 1, JsonCause::Escape),
    ("\"\\u 123\"", 1, JsonCause::Escape),
    ("\"\\u+123\"", 1, JsonCause::Escape),
    ("\"\\x41\"", 1, JsonCause::Escape),
    ("\"\\U0041\"", 1, JsonCause::Escape),
    ("\"\\\u{0}\"", 1, JsonCause::Escape),
    ("\"\\v\"", 1, JsonCause::Escape),
    ("\"\\1\"", 1, JsonCause::Escape),
    ("\"\\'\"", 1, JsonCause::Escape),
    ("\"\\ud83d\\u\"", 7, JsonCause::Escape),
    ("\"\\ud83d\\", 7, JsonCause::Escape),
    ("\"\\u00\\u0041\"", 1, JsonCause::Escape),
    ("\"\\uD83\"", 1, JsonCause::Escape),
    ("\"\\u004１\"", 1, JsonCause::Escape),
    ("\"\\/\\é\"", 3, JsonCause::Escape),
    ("\"a\n\"", 2, JsonCause::ControlCharacter),
    ("\"\u{0}\"", 1, JsonCause::ControlCharacter),
    ("\"\u{1F}\"", 1, JsonCause::ControlCharacter),
    ("\"\t", 1, JsonCause::ControlCharacter),
    ("\"💩\r", 5, JsonCause::ControlCharacter),
];

/// Whether the text begins with a JSON string of `units`, and `rest` follows it.
fn is_read(alloc: Global, text: Wtf8<'_>, units: &[u16], rest: &str) -> bool {
    match read_json_string(alloc, text) {
        Ok((string, after)) => {
            has_units(string.as_wtf8(), units) && after == Wtf8::from_str(rest)
        }
        Err(_) => false,
    }
}

/// Whether the text is malformed at the byte `position` by `cause`.
fn is_refused(alloc: Global, text: &str, position: usize, cause: JsonCause) -> bool {
    match read_json_string(alloc, Wtf8::from_str(text)) {
        Err(
            JsonError::Malformed {
                position: found,
                cause: why,
            },
        ) => found == position && why == cause,
        _ => false,
    }
}

/// Fails unless each row of `STRINGS` is read.
fn expect_all_read(alloc: Global) -> Check {
    each_row!((text, units, rest) in STRINGS => {
        expect(is_read(alloc, Wtf8::from_str(text), units, rest), Wrong::Outcome)
    })
}

#[test]
fn strings_are_read_as_an_engine_does(rt: HostRuntime) -> Check {
    let alloc = rt.alloc();
    expect_all_read(alloc)?;
    let lone = made!(string_of(alloc, &[0x22, TRAIL, LEAD, 0x22]));
    let is_read = is_read(alloc, lone.as_wtf8(), &[TRAIL, LEAD], "");
    expect(is_read, Wrong::Outcome)
}

#[test]
fn malformed_strings_are_refused(rt: HostRuntime) -> Check {
    each_row!((text, position, cause) in MALFORMED => {
        expect(is_refused(rt.alloc(), text, position, cause), Wrong::Outcome)
    })
}

/// The number of requests for a string that grows to twenty bytes.
const REQUESTS: u64 = 3;

/// Whether memory is refused where a string of twenty bytes is read.
fn is_out_of_memory<A: Allocator>(alloc: A) -> bool {
    matches!(
        read_json_string(alloc, Wtf8::from_str("\"aaaaaaaaaaaaaaaaaaaa\"")),
        Err(JsonError::Memory)
    )
}

#[test]
fn each_refused_request_is_told(rt: HostRuntime) -> Check {
    let heap = Refusing::new(rt.alloc(), 0);
    for grants in 0..REQUESTS {
        heap.grant(grants);
        expect(is_out_of_memory(&heap), Wrong::Outcome)?;
    }
    heap.grant(REQUESTS);
    let is_read = !is_out_of_memory(&heap) && heap.grants_left() == 0;
    expect(is_read, Wrong::Outcome)
}
