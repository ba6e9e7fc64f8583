// All occurrences replaced. Expected values are what `replaceAll` of Node.js 18 returned.
use crate::shared::has_units;
use std::alloc::Global;
use unit_text::UnitText;
use wtf8_tests::wrong::{Check, Made, Wrong, each_row, expect, made};
use wtf8_uses::string_prototype::replace_all;

/// A text, what is looked for, what takes its place, and the text that results, all in code units.
type Replacement = [&'static [u16]; 4];

static REPLACEMENTS: [Replacement; 9] = [
    [
        &[0x61, 0x62, 0x61, 0x62, 0x63, 0x61, 0x62],
        &[0x61, 0x62],
        &[0x78],
        &[0x78, 0x78, 0x63, 0x78],
    ],
    [&[0x61, 0x61, 0x61], &[0x61, 0x61], &[0x62], &[0x62, 0x61]],
    [
        &[0x61, 0x62, 0x63],
        &[],
        &[0x2D],
        &[0x2D, 0x61, 0x2D, 0x62, 0x2D, 0x63, 0x2D],
    ],
    [&[], &[], &[0x2D], &[0x2D]],
    [&[], &[0x61], &[0x62], &[]],
    [&[0x61, 0x62, 0x63], &[0x64], &[0x78], &[0x61, 0x62, 0x63]],
    [
        &[0x61, 0xD83D, 0xDCA9, 0x62],
        &[0xD83D],
        &[0x78],
        &[0x61, 0x78, 0xDCA9, 0x62],
    ],
    [
        &[0x61, 0xD83D, 0x61],
        &[0x61],
        &[0xDCA9],
        &[0xDCA9, 0xD83D, 0xDCA9],
    ],
    [
        &[0xD83D, 0xDCA9],
        &[],
        &[0x24, 0x26],
        &[0x24, 0x26, 0xD83D, 0x24, 0x26, 0xDCA9, 0x24, 0x26],
    ],
];

/// Fails unless a text was made, and has these units.
fn expect_whole(made: Made<UnitText<Global>>, units: &[u16]) -> Check {
    let whole = made!(made);
    expect(has_units(whole.as_wtf8(), units), Wrong::Units)
}

/// Fails unless `replace_all` returns the units of the row, whose text `text` is.
fn expect_replaced_in(
    alloc: Global,
    text: &UnitText<Global>,
    [_, search, other, whole]: Replacement,
) -> Check {
    let search = made!(UnitText::from_units(alloc, search));
    let other = made!(UnitText::from_units(alloc, other));
    expect_whole(replace_all(alloc, text, &search, &other), whole)
}

/// Fails unless `replace_all` returns the units of the row.
fn expect_replaced(alloc: Global, row: Replacement) -> Check {
    let text = made!(UnitText::from_units(alloc, row[0]));
    expect_replaced_in(alloc, &text, row)
}

#[test]
fn all_occurrences_are_replaced(rt: HostRuntime) -> Check {
    each_row!(replacement in REPLACEMENTS => expect_replaced(rt.alloc(), replacement))
}
