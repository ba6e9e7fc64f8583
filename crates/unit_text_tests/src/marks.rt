// Texts with marks: the requests for these, and texts grown by pieces while requests are refused.
use crate::shared::{KINDS, has_units, text_of, units_of};
use refusing::{REFUSALS, Refusal, Refusing};
use std::alloc::{Allocator, Global};
use unit_text::UnitText;

/// Unit indexes on both sides of marks.
static INDEXES: [usize; 14] = [
    0, 1, 126, 127, 128, 129, 130, 255, 256, 257, 384, 385, 599, 600,
];

/// Whether the slice from unit `begin` to before unit `end` is that part of `units`, if there is such a range.
fn has_between<A: Allocator + Drop>(
    alloc: A,
    text: &UnitText<A>,
    units: &[u16],
    begin: usize,
    end: usize,
) -> bool {
    if begin > end || end > text.unit_len() || end > units.len() {
        return true;
    }
    match text.slice_units(alloc, begin, end) {
        Ok(part) => has_units(&part, &units[begin..end]),
        Err(_) => false,
    }
}

/// Whether the text has `units`, and each slice between two of `INDEXES` has its part of them.
fn is_found<A: Allocator + Copy + Drop>(alloc: A, text: &UnitText<A>, units: &[u16]) -> bool {
    for end in &INDEXES {
        for begin in &INDEXES {
            if !has_between(alloc, text, units, *begin, *end) {
                return false;
            }
        }
    }
    has_units(text, units)
}

/// Whether the text has `length` units that repeat `kind`, and slices of it have their part of them.
fn has_kind<A: Allocator + Copy + Drop>(
    alloc: Global,
    text_alloc: A,
    text: &UnitText<A>,
    kind: &[u16; 6],
    length: usize,
) -> bool {
    is_found(text_alloc, text, &units_of(alloc, kind, length))
}

/// Six units to repeat, the number of units of a text, and of requests of `mark_units`: one for the box of the marks'
/// vector, and one more if there are any marks.
static REQUESTS: [([u16; 6], usize, u64); 5] = [
    ([0x61; 6], 600, 1),
    ([0x3042; 6], 0, 1),
    ([0x3042; 6], 128, 1),
    ([0x3042; 6], 129, 2),
    ([0x3042; 6], 600, 2),
];

/// Whether `mark_units` makes this number of requests for the text of `length` units that repeat `kind`.
fn is_requested(alloc: Global, kind: &[u16; 6], length: usize, requests: u64) -> bool {
    let heap = Refusing::new(alloc, u64::MAX);
    let mut text = text_of(&heap, &units_of(alloc, kind, length));
    heap.grant(u64::MAX);
    text.mark_units(&heap);
    text.unit_len() == length && heap.requests() == requests
}

#[test]
fn marks_ask_for_what_they_need(rt: HostRuntime) {
    for (kind, length, requests) in &REQUESTS {
        assert!(rt;
            is_requested(rt.alloc(), kind, *length, *requests),
            "{length} units"
        );
    }
}

/// Appends a text ten times and returns how many of these calls were not refused.
fn times_appended<A: Allocator>(text: &mut UnitText<A>, piece: &UnitText<A>) -> usize {
    let mut times = 0usize;
    for _ in 0..10 {
        if text.concat(piece).is_ok() {
            times = times.wrapping_add(1);
        }
    }
    times
}

/// Grows a text with marks by a piece of 60 units, and returns the number of units appended.
fn grow<A: Allocator + Copy>(alloc: A, text: &mut UnitText<A>, piece: &UnitText<A>) -> usize {
    text.mark_units(alloc);
    let times = times_appended(text, piece);
    text.mark_units(alloc);
    times.wrapping_mul(60)
}

/// Whether a text with marks that grows by pieces of 60 units that repeat `kind` has all that were appended, with
/// `granted` requests granted, and the following ones, or the next one alone, refused.
fn is_left(
    alloc: Global,
    kind: &[u16; 6],
    piece_units: &[u16],
    granted: u64,
    refusal: Refusal,
) -> bool {
    let heap = Refusing::new(alloc, u64::MAX);
    let piece = text_of(&heap, piece_units);
    let mut text = UnitText::new(&heap);
    heap.refuse_after(granted, refusal);
    let grown = grow(&heap, &mut text, &piece);
    heap.grant(u64::MAX);
    has_kind(alloc, &heap, &text, kind, grown)
}

/// Whether `is_left` holds of the kind with each number of requests granted.
fn is_kind_left(alloc: Global, kind: &[u16; 6]) -> bool {
    let piece_units = units_of(alloc, kind, 60);
    for granted in 0..12 {
        for refusal in REFUSALS {
            if !is_left(alloc, kind, &piece_units, granted, refusal) {
                return false;
            }
        }
    }
    piece_units.len() == 60
}

#[test]
fn refused_marks_are_left_out(rt: HostRuntime) {
    for row in 0..KINDS.len() {
        assert!(rt; is_kind_left(rt.alloc(), &KINDS[row]), "row {row}");
    }
}
