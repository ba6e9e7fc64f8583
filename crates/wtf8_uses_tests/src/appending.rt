// Strings and lists of calls that are appended, and strings that are joined and cut.
use crate::shared::{LEAD, PAIR_DUMP, TRAIL, expect_made, string_of};
use std::alloc::Global;
use wtf8::{Build, Stopped, Wtf8, Wtf8Buf};
use wtf8_tests::wrong::{Check, Failed, Wrong, assert_row, expect, expect_bytes, made};
use wtf8_uses::{appending, joining, paths, refusals};

/// Appends the two surrogates of the pair, and then nothing.
fn append_halves(alloc: Global, text: &mut Wtf8Buf<Global>) -> Check {
    let lead = made!(string_of(alloc, &[LEAD]));
    let trail = made!(string_of(alloc, &[TRAIL]));
    made!(refusals::push_both(text, lead.as_wtf8(), trail.as_wtf8()));
    made!(appending::push_nothing(text));
    Ok(())
}

/// Fails unless the text, cut at position 1 and joined, has the bytes of `dump`.
fn expect_cut(alloc: Global, text: Wtf8<'_>, dump: &str) -> Check {
    if !text.is_code_point_boundary(1) {
        return Err(Failed::by(Wrong::Row));
    }
    let whole = joining::cut_at_boundary_and_joined(alloc, text, 1);
    expect_made(alloc, whole, dump)
}

/// Appends the two surrogates of the pair to "a". Fails unless the bytes are right, also cut and joined.
fn expect_halves_appended(alloc: Global, text: &mut Wtf8Buf<Global>) -> Check {
    append_halves(alloc, text)?;
    expect_bytes(alloc, text.as_wtf8(), "61 F0 9F 92 A9")?;
    expect_cut(alloc, text.as_wtf8(), "61 F0 9F 92 A9")
}

#[test]
fn a_pair_is_appended_by_its_halves(rt: HostRuntime) -> Check {
    let alloc = rt.alloc();
    let mut text = made!(Wtf8Buf::from_str(alloc, "a"));
    expect_halves_appended(alloc, &mut text)
}

/// Appends a string to another. Fails unless it then has the bytes of `dump`.
fn expect_appended(
    alloc: Global,
    string: &mut Wtf8Buf<Global>,
    other: &Wtf8Buf<Global>,
    dump: &str,
) -> Check {
    made!(appending::append_string(string, other));
    expect_bytes(alloc, string.as_wtf8(), dump)
}

/// Appends a trail and "a" twice. Fails unless the bytes are right each time.
fn expect_appended_twice(alloc: Global, string: &mut Wtf8Buf<Global>) -> Check {
    let other = made!(string_of(alloc, &[TRAIL, 0x61]));
    expect_appended(alloc, string, &other, "F0 9F 92 A9 61")?;
    expect_appended(alloc, string, &other, "F0 9F 92 A9 61 ED B2 A9 61")
}

#[test]
fn a_string_is_appended_to_another(rt: HostRuntime) -> Check {
    let alloc = rt.alloc();
    let mut string = made!(string_of(alloc, &[LEAD]));
    expect_appended_twice(alloc, &mut string)
}

/// Whether the same calls, applied to two empty strings, leave equal ones, the first of them "é".
fn are_alike(alloc: Global) -> bool {
    let mut string = Wtf8Buf::new(alloc);
    let mut other = Wtf8Buf::new(alloc);
    let calls = [
        Build::PushStr("é/"),
        Build::Truncate(1),
        Build::TruncateUnits(1),
    ];
    let is_alike = appending::apply_to_equals(&mut string, &mut other, &calls);
    matches!(is_alike, Ok(true)) && string.as_wtf8().as_str() == Some("é")
}

#[test]
fn the_same_calls_leave_equal_strings(rt: HostRuntime) -> Check {
    expect(are_alike(rt.alloc()), Wrong::Outcome)
}

/// Applies two lists of calls, and returns whether each has one refused truncation.
fn apply_both(string: &mut Wtf8Buf<Global>) -> Result<bool, Stopped> {
    let first = [Build::PushStr("a💩"), Build::Truncate(2)];
    let second = [Build::TruncateUnits(2), Build::TruncateUnits(9)];
    let refused = appending::apply_both(string, &first, &second)?;
    Ok(refused == (1, 1))
}

/// Fails unless `apply_both` returns true, and leaves the string of "a" and a lead.
fn expect_both_applied(string: &mut Wtf8Buf<Global>) -> Check {
    expect(matches!(apply_both(string), Ok(true)), Wrong::Outcome)?;
    let is_right = string.len() == 4 && string.as_wtf8().unit_at(1) == Some(LEAD);
    expect(is_right, Wrong::Units)
}

#[test]
fn two_lists_are_applied_as_one(rt: HostRuntime) -> Check {
    let mut string = Wtf8Buf::new(rt.alloc());
    expect_both_applied(&mut string)
}

#[test]
fn equal_units_build_equal_strings(rt: HostRuntime) -> Check {
    let calls = [Build::PushStr("ab"), Build::PushChar('c')];
    let others = [Build::PushChar('a'), Build::PushStr("bc")];
    let is_alike = appending::build_equals(rt.alloc(), &calls, &others);
    expect(matches!(is_alike, Ok(true)), Wrong::Outcome)
}

#[test]
fn lists_are_joined(rt: HostRuntime) -> Check {
    let alloc = rt.alloc();
    expect_made(alloc, joining::joined(alloc, &[LEAD], &[TRAIL]), PAIR_DUMP)?;
    expect_made(
        alloc,
        paths::join(alloc, &[LEAD], &[TRAIL, 0x61]),
        "F0 9F 92 A9 61",
    )?;
    expect_made(
        alloc,
        joining::joined(alloc, &[TRAIL], &[LEAD]),
        "ED B2 A9 ED A0 BD",
    )
}

#[test]
fn a_part_has_its_length_in_bytes(rt: HostRuntime) -> Check {
    let text = Wtf8::from_str("é/💩");
    if !text.is_code_point_boundary(2) || !text.is_code_point_boundary(3) {
        return Err(Failed::by(Wrong::Row));
    }
    expect_bytes(rt.alloc(), joining::part_of_len(text, 2, 1), "2F")
}

#[test]
fn the_part_after_an_ascii_byte_is_whole(rt: HostRuntime) -> Check {
    let part = joining::after_ascii_byte(Wtf8::from_str("é/💩"), 2);
    expect_bytes(rt.alloc(), part, PAIR_DUMP)
}

/// Fails unless the path, cut at its first slash and joined, is unchanged.
fn expect_kept(alloc: Global, path: Wtf8<'_>) -> Check {
    let whole = made!(joining::cut_at_slash_and_joined(alloc, path));
    expect(whole.as_wtf8() == path, Wrong::Outcome)
}

#[test]
fn a_path_is_cut_and_joined(rt: HostRuntime) -> Check {
    let mut row = 0usize;
    for path in ["a/b/c", "/", "", "no slash", "é/💩"] {
        assert_row!(row, expect_kept(rt.alloc(), Wtf8::from_str(path)));
        row = row.wrapping_add(1);
    }
    Ok(())
}
