// Strings that are sorted, searched in a table, and keys of a map.
ghost use Rattle.std.specs.Prelude.{IfOk};
ghost use Rattle.wtf8_uses.specs.Sorted.{AreInPointOrder};

use crate::shared::{LEAD, TRAIL, string_of};
use std::alloc::Global;
use std::collections::HashMap;
use std::hash::{BuildHasherDefault, FoldHasher};
use wtf8::{Wtf8, Wtf8Buf};
use wtf8_tests::wrong::{Check, Failed, Made, Wrong, expect, expect_bytes, made};
use wtf8_uses::{joining, maps, sorting, table};

/// Fails unless two views have the bytes of U+E000 and U+10000, which are in code point order. By code units the order
/// is the other way round.
fn expect_in_order(alloc: Global, first: Wtf8<'_>, second: Wtf8<'_>) -> Check {
    expect_bytes(alloc, first, "EE 80 80")?;
    expect_bytes(alloc, second, "F0 90 80 80")
}

/// Two views, sorted.
fn sorted_views<'a>(alloc: Global, first: Wtf8<'a>, second: Wtf8<'a>) -> Made<Vec<Wtf8<'a>>> {
    let mut views = Vec::new(alloc);
    views.push(first)?;
    views.push(second)?;
    sorting::sort_views(&mut views)?;
    Ok(views)
}

/// Fails unless the two views, sorted, are as `expect_in_order` requires.
fn expect_sorted(alloc: Global, first: Wtf8<'_>, second: Wtf8<'_>) -> Check {
    let views = made!(sorted_views(alloc, first, second));
    match views.as_slice() {
        [first, second] => expect_in_order(alloc, *first, *second),
        _ => Err(Failed::by(Wrong::Outcome)),
    }
}

#[test]
fn views_are_sorted(rt: HostRuntime) -> Check {
    let alloc = rt.alloc();
    let first = made!(string_of(alloc, &[0xD800, 0xDC00]));
    let second = made!(string_of(alloc, &[0xE000]));
    expect_sorted(alloc, first.as_wtf8(), second.as_wtf8())
}

/// Appends the string of `units`.
fn push_string(alloc: Global, strings: &mut Vec<Wtf8Buf<Global>>, units: &[u16]) -> Made<()> {
    strings.push(Wtf8Buf::from_ill_formed_utf16(alloc, units)?)?;
    Ok(())
}

/// The strings of U+10000 and U+E000, sorted.
fn sorted(alloc: Global) -> Made<Vec<Wtf8Buf<Global>>>
    ensures { IfOk result (λ strings. AreInPointOrder strings.items) }
{
    let mut strings = Vec::new(alloc);
    push_string(alloc, &mut strings, &[0xD800, 0xDC00])?;
    push_string(alloc, &mut strings, &[0xE000])?;
    sorting::sort_strings(&mut strings)?;
    Ok(strings)
}

/// Fails unless the strings are as `expect_in_order` requires.
fn expect_strings(alloc: Global, strings: &[Wtf8Buf<Global>]) -> Check {
    match strings {
        [first, second] => expect_in_order(alloc, first.as_wtf8(), second.as_wtf8()),
        _ => Err(Failed::by(Wrong::Outcome)),
    }
}

/// Fails unless the search in a sorted table for the string of these units returns `index`, also by its view.
fn expect_index(
    alloc: Global,
    table: &[Wtf8Buf<Global>],
    units: &[u16],
    index: Result<usize, usize>,
) -> Check
    requires { AreInPointOrder table.now }
{
    let string = made!(string_of(alloc, units));
    let by_view = table::search_table_for_view(table, string.as_wtf8());
    let is_found = table::search_table(table, &string) == index && by_view == index;
    expect(is_found, Wrong::Outcome)
}

/// Fails unless the strings of U+10000, U+F000 and U+0061 are found in the sorted table, or the index to insert them
/// at.
fn expect_found(alloc: Global, table: &[Wtf8Buf<Global>]) -> Check
    requires { AreInPointOrder table.now }
{
    expect_index(alloc, table, &[0xD800, 0xDC00], Ok(1))?;
    expect_index(alloc, table, &[0xF000], Err(1))?;
    expect_index(alloc, table, &[0x61], Err(0))?;
    expect_strings(alloc, table)
}

#[test]
fn strings_are_sorted_and_found(rt: HostRuntime) -> Check {
    let alloc = rt.alloc();
    let strings = made!(sorted(alloc));
    expect_found(alloc, strings.as_slice())
}

/// The strings of these texts.
fn strings_of(alloc: Global, texts: &[&str]) -> Made<Vec<Wtf8Buf<Global>>> {
    let mut strings = Vec::new(alloc);
    for text in texts {
        strings.push(Wtf8Buf::from_str(alloc, text)?)?;
    }
    Ok(strings)
}

/// Whether the strings are `texts`, in this order.
fn are_texts(strings: &[Wtf8Buf<Global>], texts: &[&str]) -> bool {
    let mut index = 0usize;
    for string in strings {
        let Some(text) = texts.get(index) else {
            return false;
        };
        if string.as_wtf8().as_str() != Some(*text) {
            return false;
        }
        index = index.wrapping_add(1);
    }
    index == texts.len()
}

#[test]
fn repeated_strings_are_dropped(rt: HostRuntime) -> Check {
    let mut strings = made!(strings_of(rt.alloc(), &["b", "b", "a", "", "", "", "b"]));
    sorting::drop_repeated(&mut strings);
    expect(are_texts(&strings, &["b", "a", "", "b"]), Wrong::Bytes)
}

/// Whether a map finds the value of a pair's string by `same`.
fn is_found(alloc: Global, same: &Wtf8Buf<Global>) -> Made<bool> {
    let mut map = HashMap::new(alloc);
    let key = joining::joined(alloc, &[LEAD], &[TRAIL])?;
    let found = maps::insert_and_get(&mut map, key, same, 7)?;
    Ok(found == Some(7))
}

/// Whether a string and the view of "💩" have the same hash.
fn are_alike(same: &Wtf8Buf<Global>) -> bool {
    let hashers: BuildHasherDefault<FoldHasher> = BuildHasherDefault::new();
    maps::hashes_agree(&hashers, same, Wtf8::from_str("💩"))
}

#[test]
fn a_map_finds_equal_strings(rt: HostRuntime) -> Check {
    let alloc = rt.alloc();
    let same = made!(Wtf8Buf::from_str(alloc, "💩"));
    expect(are_alike(&same), Wrong::Outcome)?;
    let is_found = made!(is_found(alloc, &same));
    expect(is_found, Wrong::Outcome)
}
