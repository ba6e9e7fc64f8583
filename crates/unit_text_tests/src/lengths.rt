// Texts of each length: each call succeeds if its requests are granted, and requests no more bytes than it needs.
use crate::shared::{slice_of, text_of};
use refusing::{Lent, Refusing};
use std::alloc::Global;
use unit_text::UnitText;
use wtf8_tests::room::{ABOUT_POWERS, KINDS, NO_ROOM, Room};

/// Lengths in units to try besides each length from 0 to 300.
static LONG: [usize; 4] = [1000, 5000, 20_000, 70_000];

/// `length` units that repeat `kind`; fewer if memory is refused.
fn units_of(alloc: Global, kind: &[u16; 8], length: usize) -> Vec<u16> {
    let mut units = Vec::new(alloc);
    for at in 0..length {
        let _ = units.push(kind[at % 8]);
    }
    units
}

/// The number of bytes of a lone surrogate, 3, if unit index `index` splits a surrogate pair, else 0.
fn half_at(kind: &[u16; 8], length: usize, index: usize) -> usize {
    if index == 0 || length <= index {
        return 0;
    }
    let before = kind[(index - 1) % 8];
    let after = kind[index % 8];
    let is_divided = before == 0xD83D && after == 0xDCA9;
    if is_divided { 3 } else { 0 }
}

/// The memory that a slice of `len` bytes requests: for a split-off trail, for whole code points, and for a lead.
fn room_between(kind: &[u16; 8], length: usize, begin: usize, end: usize, len: usize) -> Room {
    let mut room = NO_ROOM;
    if begin == end {
        return room;
    }
    let front = half_at(kind, length, begin);
    let back = half_at(kind, length, end);
    room.append(front);
    room.append(len.saturating_sub(front).saturating_sub(back));
    room.append(back);
    room
}

/// Whether the slice from unit `begin` to before unit `end` makes the requests that `room_between` expects.
fn is_slice<'a>(
    heap: Lent<'a>,
    text: &UnitText<Lent<'a>>,
    kind: &[u16; 8],
    begin: usize,
    end: usize,
) -> bool {
    heap.grant(u64::MAX);
    let Ok(slice) = slice_of(heap, text, begin, end) else {
        return false;
    };
    let room = room_between(kind, text.unit_len(), begin, end, slice.as_wtf8().len());
    heap.requests() == room.requests && heap.bytes() == room.bytes
}

/// Whether five slices of a text of `length` units request what they need.
fn has_slices<'a>(
    heap: Lent<'a>,
    text: &UnitText<Lent<'a>>,
    kind: &[u16; 8],
    length: usize,
) -> bool {
    let half = length / 2;
    is_slice(heap, text, kind, 0, length)
        && is_slice(heap, text, kind, half, length)
        && is_slice(heap, text, kind, length.min(1), length)
        && is_slice(heap, text, kind, 0, length.saturating_sub(1))
        && is_slice(heap, text, kind, half, half)
}

/// Whether a text is appended to a copy of it with at most one request, for at most the bytes of both, or 16.
fn is_twice<'a>(heap: Lent<'a>, text: &UnitText<Lent<'a>>) -> bool {
    let Ok(mut front) = slice_of(heap, text, 0, text.unit_len()) else {
        return false;
    };
    let most = front.as_wtf8().len().saturating_mul(2).max(16);
    heap.grant(u64::MAX);
    front.concat(text).is_ok() && heap.requests() <= 1 && heap.bytes() <= most
}

/// Whether slices of the text of `length` units that repeat `kind`, and appending these to a copy, request what they
/// need.
fn is_length_done(alloc: Global, kind: &[u16; 8], length: usize) -> bool {
    let heap = Refusing::new(alloc, u64::MAX);
    let text = text_of(&heap, &units_of(alloc, kind, length));
    text.unit_len() == length && has_slices(&heap, &text, kind, length) && is_twice(&heap, &text)
}

#[test]
fn each_call_is_done_at_each_length(rt: HostRuntime) {
    for kind in &KINDS {
        for length in 0..=300 {
            assert!(rt; is_length_done(rt.alloc(), kind, length), "{length} units");
        }
        for length in &LONG {
            assert!(rt; is_length_done(rt.alloc(), kind, *length), "{length} units");
        }
    }
}

#[test]
fn each_call_is_done_about_powers_of_two(rt: HostRuntime) {
    for (unit, lengths) in &ABOUT_POWERS {
        for length in *lengths {
            assert!(rt;
                is_length_done(rt.alloc(), &[*unit; 8], *length),
                "{length} units"
            );
        }
    }
}
