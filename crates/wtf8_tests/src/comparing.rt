// Strings compared with lists of units, and the library's sort, and an ordered map, of strings. Scripts compare the order of
// many strings with the original crate.
use crate::examples::{LISTS, joined, long_list};
use crate::wrong::{Check, Failed, Made, Wrong, assert_row, expect, in_row, made};
use std::alloc::Global;
use std::collections::BTreeMap;
use wtf8::{Wtf8, Wtf8Buf};

/// Whether the string compares with `others` as the slice of its units does.
fn compares(view: Wtf8<'_>, own: &[u16], others: &[u16]) -> bool {
    view.cmp_with_units(others) == own.cmp(&others)
        && view.eq_units(others) == (own == others)
        && view.starts_with_units(others) == own.starts_with(others)
}

/// Fails unless the string of the units `own` compares with `others` as the slices do.
fn expect_compared(alloc: Global, own: &[u16], others: &[u16]) -> Check {
    let text = made!(Wtf8Buf::from_ill_formed_utf16(alloc, own));
    expect(compares(text.as_wtf8(), own, others), Wrong::Outcome)
}

#[test]
fn strings_compare_as_their_units(rt: HostRuntime) -> Check {
    for own in &LISTS {
        for others in &LISTS {
            expect_compared(rt.alloc(), own, others)?;
        }
    }
    Ok(())
}

/// Fails unless a string compares with its units, with those after the first one and with the first `count` as the
/// slices do.
fn expect_parts_compared(alloc: Global, units: &[u16], count: usize) -> Check {
    let Some((_, back)) = units.split_first() else {
        return Err(Failed::by(Wrong::Units));
    };
    let (front, _) = units.split_at(count.min(units.len()));
    expect_compared(alloc, units, units)?;
    expect_compared(alloc, units, back)?;
    expect_compared(alloc, units, front)
}

/// Fails unless a string of several parts is equal to its units, and not to its units without the last one.
#[test]
fn long_strings_compare_as_their_units(rt: HostRuntime) -> Check {
    for letters in 500..530_usize {
        let Ok(units) = long_list(rt.alloc(), letters) else {
            return in_row(letters, Err(Failed::by(Wrong::Memory)));
        };
        assert_row!(letters, expect_parts_compared(rt.alloc(), &units, letters));
    }
    Ok(())
}

/// The number of rows of `TABLE`.
const ROWS: usize = 14;

/// The code units of strings, in ascending order of the strings.
static TABLE: [&[u16]; ROWS] = [
    &[],
    &[0x00],
    &[0x61],
    &[0x61, 0x00],
    &[0x7F],
    &[0x80],
    &[0xD7FF],
    &[0xD800],
    &[0xD83D],
    &[0xDFFF],
    &[0xE000],
    &[0xFFFF],
    &[0xD800, 0xDC00],
    &[0xD83D, 0xDCA9],
];

/// Row `index` of the shuffled table: row 5 * `index`, modulo `ROWS`, of the table.
fn row(index: usize) -> &'static [u16] {
    TABLE[index.wrapping_mul(5) % ROWS]
}

/// The strings of the shuffled table.
fn shuffled(alloc: Global) -> Made<Vec<Wtf8Buf<Global>>> {
    let mut strings = Vec::new(alloc);
    for index in 0..ROWS {
        strings.push(joined(alloc, row(index))?)?;
    }
    Ok(strings)
}

/// Fails unless there is a string, and it has the code units `units`.
fn expect_string(alloc: Global, string: Option<&Wtf8Buf<Global>>, units: &[u16]) -> Check {
    let expected = made!(joined(alloc, units));
    match string {
        Some(string) => expect(expected == *string, Wrong::Outcome),
        None => Err(Failed::by(Wrong::Outcome)),
    }
}

/// Fails unless the strings are the table's, in its order.
fn expect_table(alloc: Global, strings: &[Wtf8Buf<Global>]) -> Check {
    for row in 0..TABLE.len() {
        assert_row!(row, expect_string(alloc, strings.get(row), &TABLE[row]));
    }
    expect(strings.len() == ROWS, Wrong::Outcome)
}

#[test]
fn strings_are_sorted(rt: HostRuntime) -> Check {
    let mut strings = made!(shuffled(rt.alloc()));
    strings.sort()?;
    expect_table(rt.alloc(), &strings)
}

type Ordered = BTreeMap<Wtf8Buf<Global>, usize>;

/// An ordered map from the shuffled strings to their indexes.
fn ordered(alloc: Global) -> Made<Ordered> {
    let mut map = BTreeMap::new(alloc);
    for index in 0..ROWS {
        map.insert(joined(alloc, row(index))?, index)?;
    }
    Ok(map)
}

/// Fails unless an ordered map has this index, or none, for the string of these code units.
fn expect_index(alloc: Global, map: &Ordered, units: &[u16], index: Option<usize>) -> Check {
    let string = made!(joined(alloc, units));
    expect(map.get(&string).copied() == index, Wrong::Outcome)
}

/// Fails unless an ordered map has the index of each shuffled string, and none for another string.
fn expect_indexes(alloc: Global, map: &Ordered) -> Check {
    for index in 0..ROWS {
        assert_row!(index, expect_index(alloc, map, row(index), Some(index)));
    }
    expect_index(alloc, map, &[0xDCA9, 0xD83D], None)
}

#[test]
fn strings_are_found_in_an_ordered_map(rt: HostRuntime) -> Check {
    expect_indexes(rt.alloc(), &ordered(rt.alloc())?)
}
