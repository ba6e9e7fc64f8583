// `Display` output of strings: with a width, a fill and a precision, and through a sink that refuses a write.
use crate::examples::{expect_true, pushed};
use crate::sinks::Sink;
use crate::wrong::{Check, Failed, Made, each_number, each_row, made};
use std::alloc::{AllocError, Global};
use std::fmt;
use std::fmt::{Display, Write};
use wtf8::Wtf8Buf;

/// Code points of strings, and their `Display` output by `{}`, `{:>8}`, `{:*^8.1}`, `{:*<6.2}` and `{:+4}`, equal to
/// the output of the Rust library's own WTF-8 type.
static STYLED: [(&[u32], [&str; 5]); 6] = [
    (&[], ["", "        ", "********", "******", "    "]),
    (
        &[0x61, 0x62, 0x63],
        ["abc", "     abc", "***a****", "ab****", "abc "],
    ),
    (
        &[0xD83D, 0xDCA9],
        ["💩", "       💩", "***💩****", "💩*****", "💩   "],
    ),
    (&[0xD83D], ["\u{FFFD}"; 5]),
    (&[0x61, 0xD83D, 0x62], ["a\u{FFFD}b"; 5]),
    (&[0xDCA9, 0xD83D], ["\u{FFFD}\u{FFFD}"; 5]),
];

/// Takes `left` writes, each followed by `|`, refuses the next one, and takes all after that.
#[derive(Drop)]
struct Parts {
    taken: String,
    left: usize,
}

impl Write for Parts {
    fn write_str(&mut self, s: &str) -> fmt::Result {
        if self.left == 0 {
            self.left = usize::MAX;
            return Err(fmt::Error);
        }
        self.left -= 1;
        self.taken.write_str(s)?;
        self.taken.write_str("|")
    }
}

/// The first `left` parts, each followed by `|`.
fn with_bars(alloc: Global, parts: &[&str], left: usize) -> Made<String> {
    let mut text = String::new(alloc);
    for part in parts.iter().take(left) {
        let is_pushed = text.push_str(part).is_ok() && text.push_str("|").is_ok();
        if !is_pushed {
            return Err(AllocError);
        }
    }
    Ok(text)
}

/// Whether a sink that refuses the write after the first `left` takes just the first `left` parts of `value`, and the
/// call fails if there are more.
fn takes<T: Display>(alloc: Global, value: &T, left: usize, parts: &[&str]) -> Made<bool> {
    let taken = String::new(alloc);
    let mut sink = Parts { taken, left };
    let is_ok = write!(sink, "{value}").is_ok();
    Ok(sink.taken == with_bars(alloc, parts, left)? && is_ok == (parts.len() <= left))
}

/// Whether the string and its view are written in these parts, and end at each refused write.
fn writes_in_parts(alloc: Global, text: &Wtf8Buf<Global>, parts: &[&str]) -> Made<bool> {
    for left in 0..parts.len().saturating_add(2) {
        if !takes(alloc, text, left, parts)? || !takes(alloc, &text.as_wtf8(), left, parts)? {
            return Ok(false);
        }
    }
    Ok(true)
}

/// Code points of strings, and the single writes by which the Rust library's own WTF-8 type displays them.
static IN_PARTS: [(&[u32], &[&str]); 5] = [
    (&[0x61, 0x62], &["ab"]),
    (&[0xD83D, 0xDCA9], &["💩"]),
    (&[0xD83D], &["", "\u{FFFD}", ""]),
    (&[0x61, 0xD83D, 0x62], &["a", "\u{FFFD}", "b"]),
    (
        &[0x61, 0xDCA9, 0xD83D, 0x62],
        &["a", "\u{FFFD}", "", "\u{FFFD}", "b"],
    ),
];

/// Fails unless the string of these code points, and its view, are written in these parts.
fn expect_parts(alloc: Global, numbers: &[u32], parts: &[&str]) -> Check {
    let text = pushed(alloc, numbers)?;
    expect_true(writes_in_parts(alloc, &text, parts))
}

#[test]
fn a_lossy_text_is_written_in_parts(rt: HostRuntime) -> Check {
    let alloc = rt.alloc();
    each_row!((numbers, parts) in IN_PARTS => expect_parts(alloc, numbers, parts))
}

/// Displays `value` in format number `style` of `STYLED` to a sink that refuses write number `refused`. Fails unless
/// the output ends there, or is `expected` if no write is refused. Returns the number of writes.
fn writes_of<T: Display>(
    alloc: Global,
    value: &T,
    style: usize,
    refused: u32,
    expected: &str,
) -> Result<u32, Failed> {
    let mut sink = Sink::new(alloc, refused);
    let is_ok = match style {
        0 => write!(sink, "{value}").is_ok(),
        1 => write!(sink, "{value:>8}").is_ok(),
        2 => write!(sink, "{value:*^8.1}").is_ok(),
        3 => write!(sink, "{value:*<6.2}").is_ok(),
        _ => write!(sink, "{value:+4}").is_ok(),
    };
    sink.expect_end(is_ok, expected)
}

/// Refuses each write in each format in turn. Fails unless the output ends there.
fn expect_ends<T: Display>(alloc: Global, value: &T, expected: [&str; 5]) -> Check {
    let mut style = 0usize;
    for expected in expected {
        let writes = writes_of(alloc, value, style, u32::MAX, expected)?;
        for refused in 1..=writes {
            writes_of(alloc, value, style, refused, expected)?;
        }
        style = style.wrapping_add(1);
    }
    Ok(())
}

/// Fails unless the output of the string of these code points, and of its view, ends at each refused write.
fn expect_string_ends(alloc: Global, numbers: &[u32], expected: [&str; 5]) -> Check {
    let text = pushed(alloc, numbers)?;
    expect_ends(alloc, &text, expected)?;
    expect_ends(alloc, &text.as_wtf8(), expected)
}

#[test]
fn a_text_is_filled_a_lossy_text_is_not_and_both_end_at_a_refused_write(rt: HostRuntime) -> Check {
    each_row!((numbers, expected) in STYLED => expect_string_ends(rt.alloc(), numbers, expected))
}

/// "a", a code point and U+3042, repeated `times` times: as code points, and as a text with `shown` for the code point.
pub fn long_text(alloc: Global, times: u32, number: u32, shown: &str) -> Made<(Vec<u32>, String)> {
    let mut numbers = Vec::new(alloc);
    let mut text = String::new(alloc);
    for _ in 0..times {
        let is_pushed = numbers.extend_from_slice(&[0x61, number, 0x3042]).is_ok()
            && text.push('a').is_ok()
            && text.push_str(shown).is_ok()
            && text.push('\u{3042}').is_ok();
        if !is_pushed {
            return Err(AllocError);
        }
    }
    Ok((numbers, text))
}

#[test]
fn a_long_text_ends_at_a_refused_write(rt: HostRuntime) -> Check {
    let alloc = rt.alloc();
    let (numbers, text) = made!(long_text(alloc, 160, 0x1F4A9, "💩"));
    let whole = text.as_str();
    let expected = [whole, whole, "***a****", "a💩****", whole];
    expect_string_ends(alloc, &numbers, expected)
}

#[test]
fn a_long_lossy_text_ends_at_a_refused_write(rt: HostRuntime) -> Check {
    let alloc = rt.alloc();
    let (numbers, text) = made!(long_text(alloc, 160, 0xDEAD, "\u{FFFD}"));
    let whole = text.as_str();
    let expected = [whole, whole, whole, whole, whole];
    expect_string_ends(alloc, &numbers, expected)
}

/// The number of letters of `around_a_surrogate`.
const LETTERS: usize = 100;

/// "a" `LETTERS` times with a lone surrogate after the first `length`: its code points, and its lossy text.
fn around_a_surrogate(alloc: Global, length: usize) -> Made<(Vec<u32>, String)> {
    let mut numbers = Vec::new(alloc);
    let mut text = String::new(alloc);
    for index in 0..=LETTERS {
        let is_letter = index != length;
        let (number, shown) = if is_letter {
            (0x61, 'a')
        } else {
            (0xDEAD, '\u{FFFD}')
        };
        let is_pushed = numbers.push(number).is_ok() && text.push(shown).is_ok();
        if !is_pushed {
            return Err(AllocError);
        }
    }
    Ok((numbers, text))
}

/// Fails unless the string of these code points, and its view, are displayed as `expected`.
fn expect_displayed(alloc: Global, numbers: &[u32], expected: &str) -> Check {
    let text = pushed(alloc, numbers)?;
    writes_of(alloc, &text, 0, u32::MAX, expected)?;
    match writes_of(alloc, &text.as_wtf8(), 0, u32::MAX, expected) {
        Ok(_) => Ok(()),
        Err(failed) => Err(failed),
    }
}

#[test]
fn texts_of_each_length_around_a_surrogate_are_written(rt: HostRuntime) -> Check {
    each_number!(length in 0..=LETTERS => {
        let (numbers, text) = made!(around_a_surrogate(rt.alloc(), length));
        expect_displayed(rt.alloc(), &numbers, &text)
    })
}
