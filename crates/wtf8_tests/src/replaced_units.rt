// Code units replaced in the middle of a string, by code units and by a string.
use crate::examples::{LISTS, expect_units, long_list};
use crate::unit_edits::{EDITS, Edit};
use crate::wrong::{Check, Made, Wrong, each_number, each_row, expect, expect_bytes, made};
use std::alloc::{AllocError, Allocator, Global};
use wtf8::{Wtf8, Wtf8Buf};

/// Replaces units, at marks that are found from the start and from the end.
pub fn replace<A: Allocator>(
    text: &mut Wtf8Buf<A>,
    (begin, end): (usize, usize),
    new: &[u16],
) -> Made<()> {
    let view = text.as_wtf8();
    let last = view.mark_before(view.start_mark(), view.len());
    if end < begin || last.units < end {
        return Err(AllocError);
    }
    let from = view.mark_at(view.start_mark(), begin);
    let to = view.mark_back(last, end);
    text.replace_units_at(from, begin, to, end, new)
}

/// Replaces units by a string, at marks that are found from the start.
fn replace_by_string<A: Allocator>(
    text: &mut Wtf8Buf<A>,
    (begin, end): (usize, usize),
    new: Wtf8<'_>,
) -> Made<()> {
    let view = text.as_wtf8();
    if end < begin || view.unit_len() < end {
        return Err(AllocError);
    }
    let from = view.mark_at(view.start_mark(), begin);
    let to = view.mark_at(view.start_mark(), end);
    text.replace_at(from, begin, to, end, new)
}

/// The string of the units, in which the units from `begin` to before `end` are replaced by units.
fn replaced(
    alloc: Global,
    units: &[u16],
    range: (usize, usize),
    new: &[u16],
) -> Made<Wtf8Buf<Global>> {
    let mut text = made!(
        Wtf8Buf::from_ill_formed_utf16(alloc, units),
        Err(AllocError)
    );
    replace(&mut text, range, new)?;
    Ok(text)
}

/// The string of the units, in which the units from `begin` to before `end` are replaced by a string.
fn replaced_by_view(
    alloc: Global,
    units: &[u16],
    range: (usize, usize),
    new: Wtf8<'_>,
) -> Made<Wtf8Buf<Global>> {
    let mut text = made!(
        Wtf8Buf::from_ill_formed_utf16(alloc, units),
        Err(AllocError)
    );
    replace_by_string(&mut text, range, new)?;
    Ok(text)
}

/// The string of the units, in which the units from `begin` to before `end` are replaced by the string of the new ones.
fn replaced_by_string(
    alloc: Global,
    units: &[u16],
    range: (usize, usize),
    new: &[u16],
) -> Made<Wtf8Buf<Global>> {
    match Wtf8Buf::from_ill_formed_utf16(alloc, new) {
        Ok(new) => replaced_by_view(alloc, units, range, new.as_wtf8()),
        Err(_) => Err(AllocError),
    }
}

/// Fails unless a string was made, and has the units and the bytes of the row after its edit.
fn expect_edited(
    alloc: Global,
    made: Made<Wtf8Buf<Global>>,
    (edited, dump): (&[u16], &str),
) -> Check {
    let text = made!(made);
    expect_units(alloc, text.as_wtf8(), edited)?;
    expect_bytes(alloc, text.as_wtf8(), dump)
}

fn expect_edit(alloc: Global, ((units, range, new), edited): Edit) -> Check {
    expect_edited(alloc, replaced(alloc, units, range, new), edited)
}

#[test]
fn replaced_units_have_the_bytes_of_the_rows(rt: HostRuntime) -> Check {
    each_row!(edit in EDITS => expect_edit(rt.alloc(), edit))
}

fn expect_edit_by_string(alloc: Global, ((units, range, new), edited): Edit) -> Check {
    expect_edited(alloc, replaced_by_string(alloc, units, range, new), edited)
}

#[test]
fn strings_in_place_of_units_have_the_bytes_of_the_rows(rt: HostRuntime) -> Check {
    each_row!(edit in EDITS => expect_edit_by_string(rt.alloc(), edit))
}

/// The units, with others in place of the ones from `begin` to before `end`.
fn spliced(
    alloc: Global,
    units: &[u16],
    (begin, end): (usize, usize),
    new: &[u16],
) -> Made<Vec<u16>> {
    let mut all = made!(
        Vec::from_slice(alloc, units.split_at(begin.min(units.len())).0),
        Err(AllocError)
    );
    all.extend_from_slice(new)?;
    all.extend_from_slice(units.split_at(end.min(units.len())).1)?;
    Ok(all)
}

/// Fails unless a string was made, and is equal to `whole`.
fn expect_equal(made: Made<Wtf8Buf<Global>>, whole: &Wtf8Buf<Global>) -> Check {
    let text = made!(made);
    expect(text == *whole, Wrong::Bytes)
}

/// Fails unless a string was made, has the code units `expected`, and is equal to `whole`.
fn expect_whole(
    alloc: Global,
    made: Made<Wtf8Buf<Global>>,
    expected: &[u16],
    whole: &Wtf8Buf<Global>,
) -> Check {
    let text = made!(made);
    expect_units(alloc, text.as_wtf8(), expected)?;
    expect(text == *whole, Wrong::Bytes)
}

/// Fails unless the string of the units is that of `expected` after a replacement of the units from `begin` to before
/// `end`, by units and by the string of these.
fn expect_replaced_as(
    alloc: Global,
    units: &[u16],
    range: (usize, usize),
    new: &[u16],
    expected: &[u16],
) -> Check {
    let whole = made!(Wtf8Buf::from_ill_formed_utf16(alloc, expected));
    expect_whole(alloc, replaced(alloc, units, range, new), expected, &whole)?;
    expect_equal(replaced_by_string(alloc, units, range, new), &whole)
}

/// Fails unless the string of the units has all units, and the bytes of their string, after a replacement of the units from
/// `begin` to before `end`.
fn expect_replaced(alloc: Global, units: &[u16], range: (usize, usize), new: &[u16]) -> Check {
    let expected = made!(spliced(alloc, units, range, new));
    expect_replaced_as(alloc, units, range, new, &expected)
}

/// Replaces each part of the units by each of the lists.
fn expect_each_part(alloc: Global, units: &[u16]) -> Check {
    for begin in 0..=units.len() {
        for end in begin..=units.len() {
            for new in &LISTS {
                expect_replaced(alloc, units, (begin, end), new)?;
            }
        }
    }
    Ok(())
}

#[test]
fn each_part_of_a_list_is_replaced(rt: HostRuntime) -> Check {
    each_row!(units in LISTS => expect_each_part(rt.alloc(), units))
}

/// Inserts units at each index, and removes the unit there and after it, of a string whose rest has more than a block.
fn expect_moved(alloc: Global, units: &[u16]) -> Check {
    for begin in 0..units.len() {
        expect_replaced(alloc, units, (begin, begin), &[0xDC00, 0x3042, 0xD800])?;
        expect_replaced(alloc, units, (begin, begin.wrapping_add(1)), &[])?;
    }
    Ok(())
}

/// Moves the end of a string of `letters` letters and other units, by few units and by many.
fn expect_moves(alloc: Global, letters: usize) -> Check {
    let units = made!(long_list(alloc, letters));
    let text = made!(long_list(alloc, 600));
    expect_moved(alloc, &units)?;
    expect_replaced(alloc, &units, (1, units.len()), &text)
}

#[test]
fn bytes_after_replaced_units_move(rt: HostRuntime) -> Check {
    each_number!(letters in [50, 60, 130] => expect_moves(rt.alloc(), letters))
}
