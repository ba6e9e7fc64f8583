// `Debug` output of texts through a sink that refuses a write, and of a buffer.
use crate::shared::buf_of;
use std::alloc::Global;
use std::fmt::Write;
use unit_text::UnitText;
use wtf8_tests::sinks::Sink;
use wtf8_tests::wrong::{Failed, Wrong};

/// Writes the debug output, with a sign and a width if `is_styled`, to a sink that refuses write number `refused`.
/// Fails unless it ends there, or is `expected` if no write is refused. Returns the number of writes.
fn writes_of(
    alloc: Global,
    text: &UnitText<Global>,
    is_styled: bool,
    refused: u32,
    expected: &str,
) -> Result<u32, Failed> {
    let mut sink = Sink::new(alloc, refused);
    let is_ok = if is_styled {
        write!(sink, "{text:+3000?}").is_ok()
    } else {
        write!(sink, "{text:?}").is_ok()
    };
    if is_ok != sink.has_taken(expected) {
        return Err(Failed::by(Wrong::Outcome));
    }
    sink.expect_end(is_ok, expected)
}

/// Refuses each write of the debug output in turn. Whether the output ends there.
fn is_ended(alloc: Global, text: &UnitText<Global>, is_styled: bool, expected: &str) -> bool {
    let Ok(writes) = writes_of(alloc, text, is_styled, u32::MAX, expected) else {
        return false;
    };
    for refused in 1..=writes {
        if writes_of(alloc, text, is_styled, refused, expected).is_err() {
            return false;
        }
    }
    true
}

/// Whether `is_ended` holds of the text of the units, with a sign and a width and without.
fn is_each_ended(alloc: Global, units: &[u16], expected: &str) -> bool {
    match UnitText::from_units(alloc, units) {
        Ok(text) => {
            is_ended(alloc, &text, false, expected) && is_ended(alloc, &text, true, expected)
        }
        Err(_) => false,
    }
}

/// The units of a text of more than a thousand bytes, and its debug output; less of them if memory is refused.
fn long_text(alloc: Global) -> (Vec<u16>, String) {
    let mut units = Vec::new(alloc);
    let mut expected = String::new(alloc);
    let _ = expected.push_str("\"");
    for _ in 0..150 {
        let _ = units.extend_from_slice(&[0x61, 0xDEAD, 0x3042]);
        let _ = expected.push_str("a\\u{DEAD}\u{3042}");
    }
    let _ = expected.push_str("\"");
    (units, expected)
}

/// Whether `is_each_ended` holds of the long text.
fn is_long_ended(alloc: Global) -> bool {
    let (units, expected) = long_text(alloc);
    units.len() == 450 && is_each_ended(alloc, &units, &expected)
}

/// Whether `is_each_ended` holds of short texts.
fn are_short_ended(alloc: Global) -> bool {
    is_each_ended(alloc, &[], "\"\"")
        && is_each_ended(alloc, &[0xD83D, 0xDCA9], "\"\u{1F4A9}\"")
        && is_each_ended(
            alloc,
            &[0x61, 0xE9, 0x20, 0xD83D, 0xDCA9, 0xD800],
            "\"a\u{E9} \u{1F4A9}\\u{D800}\"",
        )
        && is_each_ended(alloc, &[0x07, 0xDEAD, 0x07], "\"\u{7}\\u{DEAD}\u{7}\"")
}

#[test]
fn a_debug_text_ends_at_a_refused_write(rt: HostRuntime) {
    let alloc = rt.alloc();
    assert!(rt; are_short_ended(alloc) && is_long_ended(alloc));
}

#[test]
fn a_buffer_has_the_debug_text_of_its_view(rt: HostRuntime) {
    let alloc = rt.alloc();
    let buf = buf_of(alloc, &[0x61, 0xD83D, 0xDCA9, 0xD800]);
    let mut sink = Sink::new(alloc, u32::MAX);
    assert!(rt; write!(sink, "{buf:?}").is_ok() && sink.has_taken("\"a\u{1F4A9}\\u{D800}\""));
}
