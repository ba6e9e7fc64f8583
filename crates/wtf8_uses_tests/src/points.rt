// Strings as sequences of code points.
use crate::shared::{LEAD, TRAIL, expect_made, string_of};
use std::alloc::Global;
use wtf8::{Wtf8, Wtf8Buf};
use wtf8_tests::wrong::{Check, Failed, Wrong, expect, expect_bytes, made};
use wtf8_uses::points;

const WHOLE: &str = "ED B2 A9 F0 9F 92 A9 41 ED A0 BD";

/// Fails unless a text has four code points, one of them supplementary.
fn expect_counts(text: Wtf8<'_>) -> Check {
    match (points::point_count(text), points::supplementary_count(text)) {
        (4, 1) => Ok(()),
        _ => Err(Failed::by(Wrong::Outcome)),
    }
}

/// Fails unless a text has two leading code points in common with `front`, none with `back`, and all with both.
fn expect_common(
    alloc: Global,
    text: Wtf8<'_>,
    front: &mut Wtf8Buf<Global>,
    back: Wtf8<'_>,
) -> Check {
    let with_front = points::common_points(text, front.as_wtf8());
    let with_back = points::common_points(text, back);
    made!(points::push_points(front, back));
    let with_both = points::common_points(front.as_wtf8(), text);
    match (with_front, with_back, with_both) {
        (2, 0, 4) => expect_bytes(alloc, front.as_wtf8(), WHOLE),
        _ => Err(Failed::by(Wrong::Outcome)),
    }
}

/// Fails unless the points of a text after its first two are the expected ones, none is supplementary, and both parts
/// join to the text again.
fn expect_back(alloc: Global, text: Wtf8<'_>, front: &mut Wtf8Buf<Global>) -> Check {
    let back = made!(points::points_after(alloc, text, 2));
    expect_bytes(alloc, back.as_wtf8(), "41 ED A0 BD")?;
    let count = points::supplementary_count(back.as_wtf8());
    expect(count == 0, Wrong::Outcome)?;
    expect_common(alloc, text, front, back.as_wtf8())
}

/// Fails unless a text splits into its first two code points and the rest, and these join to the text again.
fn expect_halves(alloc: Global, text: Wtf8<'_>) -> Check {
    let mut front = made!(points::first_points(alloc, text, 2));
    expect_bytes(alloc, front.as_wtf8(), "ED B2 A9 F0 9F 92 A9")?;
    expect_back(alloc, text, &mut front)
}

/// Fails unless both copies of a text by its code points have the bytes of `WHOLE`.
fn expect_copies(alloc: Global, text: Wtf8<'_>) -> Check {
    expect_made(alloc, points::copy_by_points(alloc, text), WHOLE)?;
    expect_made(alloc, points::collect_points(alloc, text), WHOLE)
}

/// Fails unless the copies, the counts and the halves of a text are as expected.
fn expect_points(alloc: Global, text: Wtf8<'_>) -> Check {
    expect_copies(alloc, text)?;
    expect_counts(text)?;
    expect_halves(alloc, text)
}

#[test]
fn a_string_is_copied_by_its_code_points(rt: HostRuntime) -> Check {
    let alloc = rt.alloc();
    let text = made!(string_of(alloc, &[TRAIL, LEAD, TRAIL, 0x41, LEAD]));
    expect_points(alloc, text.as_wtf8())
}

#[test]
fn supplementary_code_points_begin_at_10000() -> Check {
    let count = points::supplementary_count(Wtf8::from_str("\u{FFFF}\u{10000}"));
    expect(count == 1, Wrong::Outcome)
}
