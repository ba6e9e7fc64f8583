// Texts that grow by single units, with marks and without, and their requests for memory refused in turn.
use crate::shared::{has_bytes, has_units, text_of};
use refusing::{Lent, Refusal, Refusing};
use std::alloc::{Allocator, Global};
use unit_text::UnitText;

/// A text to which 300 units are pushed.
type Row = ([u16; 6], bool, u64, u64);

/// If the units begin with a trail, every even index but 0 splits a surrogate pair.
static ROWS: [Row; 6] = [
    ([0x61; 6], true, 7, 0),
    ([0x3042; 6], false, 8, 0),
    ([0x3042; 6], true, 8, 1),
    ([0xDCA9, 0xD83D, 0xDCA9, 0xD83D, 0xDCA9, 0xD83D], true, 8, 1),
    ([0xE9, 0xD83D, 0xDCA9, 0xE9, 0xD83D, 0xDCA9], true, 8, 1),
    ([0x61, 0x3042, 0xDCA9, 0xD83D, 0xDCA9, 0xD83D], false, 8, 0),
];

/// The number of units to push.
const LENGTH: usize = 300;

/// Indexes of pushes after which a text is checked, near the ones after which a mark is added.
static CHECKED: [usize; 7] = [0, 126, 127, 128, 129, 255, 256];

/// Whether a text equals another one and has its bytes.
fn is_same<A: Allocator>(alloc: Global, text: &UnitText<A>, other: &UnitText<A>) -> bool {
    match other.as_wtf8().hex_dump(alloc) {
        Ok(dump) => *text == *other && has_bytes(alloc, text.as_wtf8(), dump.as_str()),
        Err(_) => false,
    }
}

/// Whether a text has `units` by index, and equals the text made of them at once.
fn is_made<'a>(alloc: Global, heap: Lent<'a>, text: &UnitText<Lent<'a>>, units: &[u16]) -> bool {
    heap.grant(u64::MAX);
    has_units(text, units) && is_same(alloc, text, &text_of(heap, units))
}

/// Pushes units that repeat `kind` to an empty text, and to `units` the ones not refused. Whether the text has them at
/// each check.
fn is_pushed<A: Allocator>(text: &mut UnitText<A>, units: &mut Vec<u16>, kind: &[u16; 6]) -> bool {
    for at in 0..LENGTH {
        let unit = kind[at % 6];
        if text.push(unit).is_ok() {
            let _ = units.push(unit);
        }
        if CHECKED.contains(&at) && !has_units(text, units) {
            return false;
        }
    }
    true
}

/// Pushes units that repeat `kind` to an empty text. Returns the number of refused pushes, or None unless the text has
/// the units of all other pushes.
fn refused_of<'a>(
    alloc: Global,
    heap: Lent<'a>,
    text: &mut UnitText<Lent<'a>>,
    kind: &[u16; 6],
) -> Option<u64> {
    let mut units = Vec::new(alloc);
    if !is_pushed(text, &mut units, kind) || !is_made(alloc, heap, text, &units) {
        return None;
    }
    Some(LENGTH.saturating_sub(units.len()) as u64)
}

/// Pushes units that repeat `kind` to an empty text, with `granted` requests granted, and the following ones, or the
/// next one alone, refused. Returns the number of refused pushes, or None unless the text has the units of all other
/// pushes.
fn refused_after(
    alloc: Global,
    &(kind, is_marked, ..): &Row,
    granted: u64,
    refusal: Refusal,
) -> Option<u64> {
    // One request is granted, for the box of the marks' vector.
    let heap = Refusing::new(alloc, 1);
    let mut text = UnitText::new(&heap);
    if is_marked {
        text.mark_units(&heap);
    }
    heap.refuse_after(granted, refusal);
    refused_of(alloc, &heap, &mut text, &kind)
}

/// Refuses each request of the pushes in turn. Whether a refused growth refuses one push, and a refused mark none.
fn is_each_refused(alloc: Global, row: &Row) -> bool {
    let (.., growths, marks) = *row;
    let mut refused = 0u64;
    // None is refused if all requests are granted.
    for granted in 0..=growths.wrapping_add(marks) {
        if refused_after(alloc, row, granted, Refusal::ForGood).is_none() {
            return false;
        }
        match refused_after(alloc, row, granted, Refusal::Once) {
            Some(left_out) => refused = refused.wrapping_add(left_out),
            None => return false,
        }
    }
    refused == growths
}

#[test]
fn pushed_units_are_found(rt: HostRuntime) {
    for index in 0..ROWS.len() {
        assert!(rt; is_each_refused(rt.alloc(), &ROWS[index]), "row {index}");
    }
}
