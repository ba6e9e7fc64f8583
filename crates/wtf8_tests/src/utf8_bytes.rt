// Strings of bytes that are UTF-8, what is said of bytes that are not, and bytes read with U+FFFD for each part that is
// not. What is wrong is as CPython's decoder says.
use crate::sinks::Sink;
use crate::wrong::{Check, Wrong, each_row, expect, made};
use std::alloc::Global;
use std::fmt::Write;
use wtf8::{CodePoint, TextError, Utf8Error, Wtf8, Wtf8Buf, from_utf8};

/// Bytes, how many at their front are UTF-8, and how many after these are wrong together. The `Display` output of the
/// error is that of Rust's `str::Utf8Error`.
#[derive(Clone, Copy)]
struct NoText {
    bytes: &'static [u8],
    valid: usize,
    wrong: Option<usize>,
    display: &'static str,
}

static NO_TEXTS: [NoText; 7] = [
    NoText {
        bytes: b"ab\xC3",
        valid: 2,
        wrong: None,
        display: "incomplete utf-8 byte sequence from index 2",
    },
    NoText {
        bytes: b"\xE4\xB8\xAD\xF0\x9F\x92a",
        valid: 3,
        wrong: Some(3),
        display: "invalid utf-8 sequence of 3 bytes from index 3",
    },
    NoText {
        bytes: b"a\xED\xA0\x80",
        valid: 1,
        wrong: Some(1),
        display: "invalid utf-8 sequence of 1 bytes from index 1",
    },
    NoText {
        bytes: b"The quick brown fox jumps over the lazy dog, and over the fence \xFF",
        valid: 64,
        wrong: Some(1),
        display: "invalid utf-8 sequence of 1 bytes from index 64",
    },
    NoText {
        bytes: b"\xE8\x8C\xB6\xE8\x8C\xB6\xE8\x8C\xB6\xE8\x8C\xB6\xE8\x8C\xB6\xE8\x8C\xB6\xE8\x8C",
        valid: 18,
        wrong: None,
        display: "incomplete utf-8 byte sequence from index 18",
    },
    NoText {
        bytes: b"caf\xC3\xA9 caf\xC3\xA9 caf\xC3\xA9 caf\xC3\xA9 caf\xC3\xA9 caf\xC3\xA9\xF0\x9F\x92",
        valid: 35,
        wrong: None,
        display: "incomplete utf-8 byte sequence from index 35",
    },
    NoText {
        bytes: b"The quick brown fox jumps over the lazy dog, \xE2\x80\x99\xE2\x80 and over the fence and away",
        valid: 48,
        wrong: Some(2),
        display: "invalid utf-8 sequence of 2 bytes from index 48",
    },
];

const TEXT: &str = "Съешь же ещё этих мягких французских булок, да выпей чаю: 茶 💩";

fn is_error(error: Utf8Error, row: &NoText) -> bool {
    error.valid_up_to() == row.valid && error.error_len() == row.wrong
}

/// Whether a call said of the bytes what the row says.
fn is_told(outcome: Result<(), TextError>, row: &NoText) -> bool {
    match outcome {
        Err(TextError::NotUtf8(error)) => is_error(error, row),
        _ => false,
    }
}

fn displays(alloc: Global, error: Utf8Error, expected: &str) -> bool {
    let mut sink = Sink::new(alloc, 0);
    write!(sink, "{error}").is_ok() && sink.has_taken(expected)
}

fn is_found(alloc: Global, row: &NoText) -> bool {
    match from_utf8(row.bytes) {
        Ok(_) => false,
        Err(error) => is_error(error, row) && displays(alloc, error, row.display),
    }
}

/// The outcome of making a string of the bytes.
fn made_of(alloc: Global, bytes: &[u8]) -> Result<(), TextError> {
    match Wtf8Buf::from_utf8(alloc, bytes) {
        Ok(_) => Ok(()),
        Err(error) => Err(error),
    }
}

fn expect_told(alloc: Global, row: &NoText) -> Check {
    let mut text = Wtf8Buf::new(alloc);
    expect(is_found(alloc, row), Wrong::Outcome)?;
    expect(is_told(made_of(alloc, row.bytes), row), Wrong::Outcome)?;
    expect(is_told(text.push_utf8(row.bytes), row), Wrong::Outcome)
}

fn is_text_twice(text: Wtf8<'_>) -> bool {
    match text.as_str() {
        Some(found) => found.len() == 2 * TEXT.len()
            && found.starts_with(TEXT)
            && found.ends_with(TEXT),
        None => false,
    }
}

/// Whether a view of the text is equal to it, and not to its front.
fn equals_itself(view: Wtf8<'_>) -> bool {
    let text = TEXT.as_bytes();
    view.eq_utf8(text) && !view.eq_utf8(&text[..text.len().saturating_sub(1)])
}

/// Whether a text begins with its front, and with no bytes that end within a code point.
fn begins_with_fronts() -> bool {
    let view = Wtf8::from_str("a💩b");
    view.starts_with_utf8("a💩".as_bytes())
        && !view.starts_with_utf8(b"a\xF0\x9F")
        && !view.starts_with_utf8(b"b")
}

/// Whether texts are compared by their units, D83D DCA9 before E000, and bytes that are not UTF-8 come last.
fn are_in_order() -> bool {
    let view = Wtf8::from_str("a💩b");
    view.cmp_with_utf8("a💩b".as_bytes()).is_eq()
        && view.cmp_with_utf8("a\u{E000}".as_bytes()).is_lt()
        && view.cmp_with_utf8(b"a").is_gt()
        && view.cmp_with_utf8(b"a\xFF").is_lt()
}

/// Whether a string of a lone surrogate is equal to its bytes: they are no text.
fn equals_surrogate(alloc: Global) -> bool {
    let mut text = Wtf8Buf::new(alloc);
    text.push_unit(0xD83D).is_ok() && text.as_wtf8().eq_utf8(b"\xED\xA0\xBD")
}

/// Whether a string of the text, followed by it once more, is the text twice.
fn is_made_and_pushed(alloc: Global) -> bool {
    let mut text = made!(Wtf8Buf::from_utf8(alloc, TEXT.as_bytes()), false);
    text.push_utf8(TEXT.as_bytes()).is_ok() && is_text_twice(text.as_wtf8())
}

/// Whether texts are compared with bytes of UTF-8 and of a surrogate.
fn has_bytes_of_text(alloc: Global) -> bool {
    equals_itself(Wtf8::from_str(TEXT))
        && begins_with_fronts()
        && are_in_order()
        && !equals_surrogate(alloc)
}

/// Fails unless each call says of the bytes of `NO_TEXTS` what their row says.
fn expect_all_told(alloc: Global) -> Check {
    each_row!(row in NO_TEXTS => expect_told(alloc, &row))
}

#[test]
fn bytes_of_utf8_are_taken_and_others_told(rt: HostRuntime) -> Check {
    expect(is_made_and_pushed(rt.alloc()), Wrong::Bytes)?;
    expect(has_bytes_of_text(rt.alloc()), Wrong::Outcome)?;
    expect_all_told(rt.alloc())
}

/// Bytes, their text as CPython's `bytes.decode` gives it with `errors="replace"`, the number of bytes before an unfinished code point at the end, and the text
/// of these bytes. CPython's incremental decoder keeps the bytes from `used` on.
type Row = (&'static [u8], &'static str, usize, &'static str);

static ROWS: [Row; 17] = [
    (b"", "", 0, ""),
    (b"abc", "abc", 3, "abc"),
    (
        b"caf\xC3\xA9 \xE8\x8C\xB6 \xF0\x9F\x92\xA9",
        "café 茶 💩",
        14,
        "café 茶 💩",
    ),
    (b"\xFF", "\u{FFFD}", 1, "\u{FFFD}"),
    (b"ab\xC3", "ab\u{FFFD}", 2, "ab"),
    (b"\xE4\xB8\xAD\xF0\x9F\x92a", "中\u{FFFD}a", 7, "中\u{FFFD}a"),
    (
        b"a\xED\xA0\x80b",
        "a\u{FFFD}\u{FFFD}\u{FFFD}b",
        5,
        "a\u{FFFD}\u{FFFD}\u{FFFD}b",
    ),
    (
        b"\xF0\x80\x80\x80",
        "\u{FFFD}\u{FFFD}\u{FFFD}\u{FFFD}",
        4,
        "\u{FFFD}\u{FFFD}\u{FFFD}\u{FFFD}",
    ),
    (
        b"\xC3\xC3\xA9\x80",
        "\u{FFFD}é\u{FFFD}",
        4,
        "\u{FFFD}é\u{FFFD}",
    ),
    (
        b"\xF4\x90\x80\xE8\x8C",
        "\u{FFFD}\u{FFFD}\u{FFFD}\u{FFFD}",
        3,
        "\u{FFFD}\u{FFFD}\u{FFFD}",
    ),
    (
        b"\xF0\x9F\x92\xF0\x9F\x92\xA9\xF0\x9F",
        "\u{FFFD}💩\u{FFFD}",
        7,
        "\u{FFFD}💩",
    ),
    (
        b"The quick brown fox jumps over the lazy dog, and over the fence \xFF and away \xE2\x80\x99\xE2\x80",
        "The quick brown fox jumps over the lazy dog, and over the fence \u{FFFD} and away ’\u{FFFD}",
        78,
        "The quick brown fox jumps over the lazy dog, and over the fence \u{FFFD} and away ’",
    ),
    (
        b"\xE8\x8C\xB6\xE8\x8C\xB6\xE8\x8C\xB6\xE8\x8C\xB6\xE8\x8C\xB6\xE8\x8C\xB6\xE8\x8C\xB6\xE8\x8C\xB6\xE8\x8C\xB6\xE8\x8C\xB6\xE8\x8C\xB6\xE8\x8C\xB6\xE8\x8C\xB6\xE8\x8C\xE8\x8C\xB6\xE8\x8C\xB6\xE8\x8C\xB6\xF0\x9F\x92",
        "茶茶茶茶茶茶茶茶茶茶茶茶茶\u{FFFD}茶茶茶\u{FFFD}",
        50,
        "茶茶茶茶茶茶茶茶茶茶茶茶茶\u{FFFD}茶茶茶",
    ),
    (
        b"\x80\xBF\xC0\xAF\xE0\x80\xAF\xF5\xFE",
        "\u{FFFD}\u{FFFD}\u{FFFD}\u{FFFD}\u{FFFD}\u{FFFD}\u{FFFD}\u{FFFD}\u{FFFD}",
        9,
        "\u{FFFD}\u{FFFD}\u{FFFD}\u{FFFD}\u{FFFD}\u{FFFD}\u{FFFD}\u{FFFD}\u{FFFD}",
    ),
    (
        b"\xE2\x82\xE2\x82\xACX\xE0\xA0",
        "\u{FFFD}€X\u{FFFD}",
        6,
        "\u{FFFD}€X",
    ),
    (
        b"ab\xFFcd\xFF\xE8\x8C\xFFe\xF0\x9F\x92\xFFfghijklm\xC3\xA9\xE8\x8C\xB6\xFFnopq\xE8\x8C\xB6\xF0\x9F\x92\xA9\xFFr\xE2\x80\x99\xF0\x9F\x92",
        "ab\u{FFFD}cd\u{FFFD}\u{FFFD}\u{FFFD}e\u{FFFD}\u{FFFD}fghijklmé茶\u{FFFD}nopq茶💩\u{FFFD}r’\u{FFFD}",
        44,
        "ab\u{FFFD}cd\u{FFFD}\u{FFFD}\u{FFFD}e\u{FFFD}\u{FFFD}fghijklmé茶\u{FFFD}nopq茶💩\u{FFFD}r’",
    ),
    (
        b"\xFF\xE8\x8C\xB6\xE8\x8C\xB6\xE8\x8C\xB6\xE8\x8C\xB6\xE8\x8C\xB6\xE8\x8C\xB6\xFF\xFF\xED\xA0\x80\xF4\x90\xE0\x80ab\xC0\xAF\xC3\xA9cdef\xE8\x8C",
        "\u{FFFD}茶茶茶茶茶茶\u{FFFD}\u{FFFD}\u{FFFD}\u{FFFD}\u{FFFD}\u{FFFD}\u{FFFD}\u{FFFD}\u{FFFD}ab\u{FFFD}\u{FFFD}écdef\u{FFFD}",
        38,
        "\u{FFFD}茶茶茶茶茶茶\u{FFFD}\u{FFFD}\u{FFFD}\u{FFFD}\u{FFFD}\u{FFFD}\u{FFFD}\u{FFFD}\u{FFFD}ab\u{FFFD}\u{FFFD}écdef",
    ),
];

fn is_text(text: &Wtf8Buf<Global>, expected: &str) -> bool {
    match text.as_wtf8().as_str() {
        Some(found) => found == expected,
        None => false,
    }
}

/// Whether the bytes of a row are appended as their text.
fn is_pushed(alloc: Global, &(bytes, decoded, ..): &Row) -> bool {
    let mut text = Wtf8Buf::new(alloc);
    text.push_utf8_lossy(bytes).is_ok() && is_text(&text, decoded)
}

/// Whether all of a row's bytes but an unfinished code point are appended.
fn is_part_pushed(alloc: Global, &(bytes, _, before, part): &Row) -> bool {
    let mut text = Wtf8Buf::new(alloc);
    match text.push_utf8_lossy_part(bytes) {
        Ok(used) => used == before && is_text(&text, part),
        Err(_) => false,
    }
}

/// Whether a lead before the bytes stays one.
fn leaves_lead(alloc: Global, &(bytes, decoded, ..): &Row) -> bool {
    let mut text = Wtf8Buf::new(alloc);
    let lead = CodePoint::from_unit(0xD83D);
    text.push(lead).is_ok()
        && text.push_utf8_lossy(bytes).is_ok()
        && text.as_wtf8().unit_at(0) == Some(0xD83D)
        && text.len() == decoded.len().wrapping_add(3)
}

fn expect_read(alloc: Global, row: &Row) -> Check {
    expect(is_pushed(alloc, row), Wrong::Bytes)?;
    expect(is_part_pushed(alloc, row), Wrong::Bytes)?;
    expect(leaves_lead(alloc, row), Wrong::Units)
}

#[test]
fn bytes_are_read_with_replacement(rt: HostRuntime) -> Check {
    each_row!(row in ROWS => expect_read(rt.alloc(), &row))
}
