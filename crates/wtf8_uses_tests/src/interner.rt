// The interner.
use crate::shared::{LEAD, string_of};
use std::alloc::Global;
use wtf8::Wtf8;
use wtf8_tests::wrong::{Check, Failed, Wrong, assert_row, expect, expect_bytes, made};
use wtf8_uses::interner::Interner;

/// Fails unless the interner returns `number` for `string`.
fn expect_number(interner: &mut Interner, string: Wtf8<'_>, number: usize) -> Check {
    let found = made!(interner.number(string));
    expect(found == number, Wrong::Outcome)
}

/// Fails unless the string with this number has the bytes of `dump`, or there is none if `dump` is `None`.
fn expect_string(alloc: Global, interner: &Interner, number: usize, dump: Option<&str>) -> Check {
    match (interner.string(number), dump) {
        (Some(string), Some(dump)) => expect_bytes(alloc, string, dump),
        (None, None) => Ok(()),
        _ => Err(Failed::by(Wrong::Outcome)),
    }
}

/// Fails unless the interner returns 0 for `first`, the next number for each other string, and these numbers again.
/// "Aa" and "BB" have the same hash.
fn expect_numbers(interner: &mut Interner, first: Wtf8<'_>) -> Check {
    for _ in 0..2 {
        expect_number(interner, first, 0)?;
        for (text, number) in [("", 1), ("Aa", 2), ("BB", 3)] {
            let outcome = expect_number(interner, Wtf8::from_str(text), number);
            assert_row!(number, outcome);
        }
    }
    expect(interner.len() == 4, Wrong::Outcome)
}

/// The bytes of each number's string, up to a number that has none.
static DUMPS: [Option<&str>; 5] = [
    Some("ED A0 BD"),
    Some(""),
    Some("41 61"),
    Some("42 42"),
    None,
];

/// Fails unless the interner has the strings of `DUMPS`.
fn expect_strings(alloc: Global, interner: &Interner) -> Check {
    for number in 0..DUMPS.len() {
        assert_row!(
            number,
            expect_string(alloc, interner, number, DUMPS[number])
        );
    }
    Ok(())
}

/// Fails unless the interner numbers a string, which is a lead, and others, and returns them by their numbers.
fn expect_interned(alloc: Global, first: Wtf8<'_>) -> Check {
    let mut interner = Interner::new(alloc);
    expect_numbers(&mut interner, first)?;
    expect_strings(alloc, &interner)
}

#[test]
fn a_string_keeps_its_number(rt: HostRuntime) -> Check {
    let alloc = rt.alloc();
    let first = made!(string_of(alloc, &[LEAD]));
    expect_interned(alloc, first.as_wtf8())
}
