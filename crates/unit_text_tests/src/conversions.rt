// Texts made of strings and of `&str`, and grown by both: the requests for memory, and what a refused one leaves.
use crate::memory::{Append, Appended, Made, MakeText, are_appended, are_right};
use crate::shared::has_bytes;
use refusing::Refusing;
use std::alloc::Global;
use unit_text::UnitText;
use wtf8::Wtf8Buf;

/// Whether the string of a trail and a lead becomes a text and a string again without a request.
fn is_converted(alloc: Global) -> bool {
    let heap = Refusing::new(alloc, 9);
    let Ok(string) = Wtf8Buf::from_ill_formed_utf16(&heap, &[0xDCA9, 0xD83D]) else {
        return false;
    };
    heap.grant(0);
    let again = UnitText::from_wtf8(string).into_wtf8();
    heap.requests() == 0 && has_bytes(alloc, again.as_wtf8(), "ED B2 A9 ED A0 BD")
}

#[test]
fn a_string_becomes_a_text_and_a_string_again_without_a_request(rt: HostRuntime) {
    assert!(rt; is_converted(rt.alloc()));
}

const LETTERS: &str = "abcdefghijklmnopqrstuvwxyzabcdefghijklmn";

/// The bytes of "a" and a lead.
const FRONT_DUMP: &str = "61 ED A0 BD";

/// 40 letters, as a `&str` and as a view, after "a" and a lead.
static REFUSED: [Appended; 2] = [
    (
        (&[0x61, 0xD83D], FRONT_DUMP),
        Append::Str(LETTERS),
        (42, 2, FRONT_DUMP),
        (1, 4 + 40),
    ),
    (
        (&[0x61, 0xD83D], FRONT_DUMP),
        Append::View(LETTERS),
        (42, 2, FRONT_DUMP),
        (1, 4 + 40),
    ),
];

#[test]
fn a_refused_string_is_not_appended(rt: HostRuntime) {
    assert!(rt; are_appended(rt.alloc(), &REFUSED));
}

/// A text of a `&str`, and of an empty one.
static STRS: [Made; 2] = [
    ((&[], ""), MakeText::FromStr("aé"), ("61 C3 A9", 1, 3)),
    ((&[], ""), MakeText::FromStr(""), ("", 0, 0)),
];

#[test]
fn a_refused_str_makes_no_text(rt: HostRuntime) {
    assert!(rt; are_right(rt.alloc(), &STRS));
}
