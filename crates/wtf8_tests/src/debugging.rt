// `Debug` output of strings and code points: it ignores width, precision and flags, and ends at a refused write.
use crate::displaying::long_text;
use crate::examples::pushed;
use crate::sinks::Sink;
use crate::wrong::{Check, Failed, Made, Wrong, assert_row, made};
use std::alloc::{AllocError, Global};
use std::fmt::{Debug, Write};
use wtf8::CodePoint;

/// Code points of strings, and the strings' debug output.
static STRINGS: [(&[u32], &str); 8] = [
    (&[], "\"\""),
    (&[0x61, 0x22, 0x62], "\"a\"b\""),
    (&[0x61, 0xE9, 0x20, 0x1F4A9, 0xD800], "\"aé 💩\\u{D800}\""),
    (&[0xD800], "\"\\u{D800}\""),
    (&[0x07, 0xDEAD, 0x07], "\"\u{7}\\u{DEAD}\u{7}\""),
    (&[0xABCD, 0xDABC], "\"\u{ABCD}\\u{DABC}\""),
    (&[0x0A, 0x5C, 0x27, 0x00], "\"\n\\'\0\""),
    (
        &[0x5C, 0x75, 0x7B, 0x44, 0x38, 0x30, 0x30, 0x7D],
        "\"\\u{D800}\"",
    ),
];

/// Code points, and their debug output.
static POINTS: [(u32, &str); 12] = [
    (0, "U+0000"),
    (0x07, "U+0007"),
    (0x61, "U+0061"),
    (0xFFF, "U+0FFF"),
    (0x1000, "U+1000"),
    (0xABCD, "U+ABCD"),
    (0xD800, "U+D800"),
    (0xDEAD, "U+DEAD"),
    (0xFFFF, "U+FFFF"),
    (0x10000, "U+10000"),
    (0x1F4A9, "U+1F4A9"),
    (0x10FFFF, "U+10FFFF"),
];

/// Writes the debug output, with a width, a precision and flags if `is_styled`, to a sink that refuses write number
/// `refused`. Fails unless it ends there, or is `expected` if no write is refused. Returns the number of writes.
fn writes_of<T: Debug>(
    alloc: Global,
    value: &T,
    is_styled: bool,
    refused: u32,
    expected: &str,
) -> Result<u32, Failed> {
    let mut sink = Sink::new(alloc, refused);
    let is_ok = if is_styled {
        write!(sink, "{value:<+#03000.3?}").is_ok()
    } else {
        write!(sink, "{value:?}").is_ok()
    };
    sink.expect_end(is_ok, expected)
}

/// Refuses each write of the debug output in turn. Fails unless the output ends there.
fn expect_ends<T: Debug>(alloc: Global, value: &T, expected: &str) -> Check {
    for is_styled in [false, true] {
        let writes = writes_of(alloc, value, is_styled, u32::MAX, expected)?;
        for refused in 1..=writes {
            writes_of(alloc, value, is_styled, refused, expected)?;
        }
    }
    Ok(())
}

/// Fails unless the debug output of the string of these code points, and of its view, ends at each refused write.
fn expect_string_ends(alloc: Global, numbers: &[u32], expected: &str) -> Check {
    let text = pushed(alloc, numbers)?;
    expect_ends(alloc, &text, expected)?;
    expect_ends(alloc, &text.as_wtf8(), expected)
}

/// Fails unless the debug output of the code point ends at each refused write.
fn expect_point_ends(alloc: Global, number: u32, expected: &str) -> Check {
    let Some(point) = CodePoint::from_u32(number) else {
        return Err(Failed::by(Wrong::Row));
    };
    expect_ends(alloc, &point, expected)
}

#[test]
fn a_debug_text_shows_surrogates_by_number_and_ends_at_a_refused_write(rt: HostRuntime) -> Check {
    let alloc = rt.alloc();
    let mut row = 0usize;
    for (numbers, expected) in &STRINGS {
        assert_row!(row, expect_string_ends(alloc, numbers, expected));
        row = row.wrapping_add(1);
    }
    for (number, expected) in &POINTS {
        assert_row!(row, expect_point_ends(alloc, *number, expected));
        row = row.wrapping_add(1);
    }
    Ok(())
}

/// `text` in quotation marks.
fn quoted(alloc: Global, text: &str) -> Made<String> {
    let mut quoted = made!(String::from_str(alloc, "\""), Err(AllocError));
    let is_quoted = quoted.push_str(text).is_ok() && quoted.push('"').is_ok();
    if !is_quoted {
        return Err(AllocError);
    }
    Ok(quoted)
}

/// Fails unless the debug output of a long string with the code point `number`, shown as `shown`, ends at each refused
/// write.
fn expect_long_ends(alloc: Global, number: u32, shown: &str) -> Check {
    let (numbers, text) = made!(long_text(alloc, 160, number, shown));
    let quoted = made!(quoted(alloc, &text));
    expect_string_ends(alloc, &numbers, &quoted)
}

#[test]
fn a_long_debug_text_ends_at_a_refused_write(rt: HostRuntime) -> Check {
    let alloc = rt.alloc();
    expect_long_ends(alloc, 0xDEAD, "\\u{DEAD}")?;
    expect_long_ends(alloc, 0x07, "\u{7}")
}
