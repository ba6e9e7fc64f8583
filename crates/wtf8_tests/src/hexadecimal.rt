// Hex dumps of texts of each length up to 65 bytes, as blocks are written at once, and dumps appended to a vector.
use crate::examples::expect_true;
use crate::wrong::{Check, Failed, Made, Wrong, each_number, each_row, made};
use std::alloc::Global;
use wtf8::Wtf8;

const TEXT: &str = "The quick brown fox jumps over the lazy dog: 0123456789 @[]^_{|}~";

const DUMP: &str =
    "54 68 65 20 71 75 69 63 6B 20 62 72 6F 77 6E 20 66 6F 78 20 6A 75 6D 70 73 20 6F 76 65 72 20 74 68 65 20 6C 61 7A 79 20 64 6F 67 3A 20 30 31 32 33 34 35 36 37 38 39 20 40 5B 5D 5E 5F 7B 7C 7D 7E";

/// Whether the dump of `text`, a prefix of `TEXT`, is the prefix of `DUMP` with three characters a byte.
fn is_prefix(alloc: Global, text: &str) -> Made<bool> {
    let dump = Wtf8::from_str(text).hex_dump(alloc)?;
    let length = text.len().saturating_mul(3).saturating_sub(1);
    Ok(DUMP.starts_with(dump.as_str()) && dump.len() == length)
}

#[test]
fn dumps_of_all_prefixes_are_prefixes(rt: HostRuntime) -> Check {
    let alloc = rt.alloc();
    each_number!(n in 0..66 => {
        let text = made!(str::from_utf8(&TEXT.as_bytes()[..n]), Err(Failed::by(Wrong::Row)));
        expect_true(is_prefix(alloc, text))
    })
}

/// Whether "before:" is `expected` once the dump of `text` is appended.
fn appends_dump(alloc: Global, text: &str, expected: &str) -> Made<bool> {
    let mut out = Vec::from_slice(alloc, b"before:")?;
    Wtf8::from_str(text).append_hex_dump(&mut out)?;
    Ok(out.as_slice() == expected.as_bytes())
}

/// Texts, and "before:" with their dumps appended.
static APPENDED: [(&str, &str); 3] = [
    ("", "before:"),
    ("\u{0}\u{7F}", "before:00 7F"),
    (
        "é漢💩é漢💩",
        "before:C3 A9 E6 BC A2 F0 9F 92 A9 C3 A9 E6 BC A2 F0 9F 92 A9",
    ),
];

#[test]
fn a_dump_is_appended_after_a_text(rt: HostRuntime) -> Check {
    each_row!((text, expected) in APPENDED => expect_true(appends_dump(rt.alloc(), text, expected)))
}
