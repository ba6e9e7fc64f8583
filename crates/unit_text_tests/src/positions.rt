// Byte positions of units and back, and texts that become shorter, with marks and without.
use crate::shared::{KINDS, has_units, text_of, units_of};
use refusing::Refusing;
use std::alloc::{Allocator, Global};
use unit_text::UnitText;

/// "a", a surrogate pair, "é" and a lone lead surrogate: in bytes 61, F0 9F 92 A9, C3 A9 and ED A0 80.
static UNITS: [u16; 5] = [0x61, 0xD83D, 0xDCA9, 0xE9, 0xD800];

/// The byte positions of the indexes from 0 to 5 of `UNITS`. Index 2 is inside the pair, which begins at position 1.
static POSITIONS: [usize; 6] = [0, 1, 1, 5, 7, 10];

/// The numbers of units before the byte positions from 0 to 11 of `UNITS`. The last one is past the end.
static BEFORE: [usize; 12] = [0, 1, 1, 1, 1, 3, 3, 4, 4, 4, 5, 5];

/// Whether the units have these byte positions, by both calls.
fn is_mapped<A: Allocator>(text: &UnitText<A>) -> bool {
    for i in 0..POSITIONS.len() {
        if i > text.unit_len() || text.position_at(i) != POSITIONS[i] {
            return false;
        }
    }
    for position in 0..BEFORE.len() {
        if text.unit_before(position) != BEFORE[position] {
            return false;
        }
    }
    text.unit_before(usize::MAX) == 5
}

#[test]
fn positions_are_rounded_down(rt: HostRuntime) {
    assert!(rt; is_mapped(&text_of(rt.alloc(), &UNITS)));
}

/// Whether a pair of `units` is split after `i` units.
fn is_split(units: &[u16], i: usize) -> bool {
    if i == 0 || units.len() <= i {
        return false;
    }
    (0xD800..0xDC00).contains(&units[i - 1]) && (0xDC00..0xE000).contains(&units[i])
}

/// The number of bytes by which the text of `units` grows at index `i`: of a pair four at its lead.
fn bytes_at(units: &[u16], i: usize) -> usize {
    if is_split(units, i) {
        return 0;
    }
    match units.get(i) {
        None => 0,
        Some(0..=0x7F) => 1,
        Some(0x80..=0x7FF) => 2,
        Some(_) if is_split(units, i.saturating_add(1)) => 4,
        Some(_) => 3,
    }
}

/// Whether the text has the byte positions of `units`, each the sum of the bytes before it, by both calls.
fn has_positions<A: Allocator>(text: &UnitText<A>, units: &[u16]) -> bool {
    let mut position = 0usize;
    let mut pair = 0usize;
    for i in 0..units.len() {
        let begin = if is_split(units, i) { pair } else { position };
        let before = if is_split(units, i) {
            i.saturating_sub(1)
        } else {
            i
        };
        if text.position_at(i.min(text.unit_len())) != begin || text.unit_before(begin) != before {
            return false;
        }
        pair = position;
        position = position.wrapping_add(bytes_at(units, i));
    }
    text.position_at(text.unit_len()) == position && text.unit_before(position) == units.len()
}

/// Whether a text, cut to its first `n` units, has these alone, and then the others again if they are pushed.
fn is_cut<A: Allocator>(text: &mut UnitText<A>, units: &[u16], n: usize) -> bool {
    let (front, back) = units.split_at(n.min(units.len()));
    if text.unit_len() < front.len() {
        return false;
    }
    text.truncate_units(front.len());
    if !has_units(text, front) {
        return false;
    }
    for unit in back {
        if text.push(*unit).is_err() {
            return false;
        }
    }
    has_positions(text, units) && has_units(text, units)
}

/// Whether a text with marks has the positions of its 600 units that repeat `kind`, also after it is cut to `n` units
/// and grows again.
fn is_right(alloc: Global, kind: &[u16; 6], n: usize) -> bool {
    let units = units_of(alloc, kind, 600);
    let mut text = text_of(alloc, &units);
    text.mark_units(alloc);
    units.len() == 600 && has_positions(&text, &units) && is_cut(&mut text, &units, n)
}

#[test]
fn a_long_text_has_positions_by_its_marks(rt: HostRuntime) {
    for kind in &KINDS {
        for n in [0, 1, 127, 128, 129, 257, 385, 599, 600] {
            assert!(rt; is_right(rt.alloc(), kind, n), "cut to {n}");
        }
    }
}

/// Whether the text of `UNITS` has their positions, and its first two units once it is cut to them.
fn is_cut_to_two<A: Allocator>(text: &mut UnitText<A>) -> bool {
    if text.unit_len() != 5 || !is_mapped(text) {
        return false;
    }
    text.truncate_units(2);
    has_units(text, &[0x61, 0xD83D])
}

#[test]
fn positions_and_shorter_texts_request_no_memory(rt: HostRuntime) {
    let heap = Refusing::new(rt.alloc(), u64::MAX);
    let mut text = text_of(&heap, &UNITS);
    heap.grant(0);
    assert!(rt; is_cut_to_two(&mut text) && heap.requests() == 0);
}
