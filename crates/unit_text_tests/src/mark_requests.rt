// The requests for memory of the marks of a text that grows.
use refusing::{Lent, Refusing};
use std::alloc::{Allocator, Global};
use unit_text::UnitText;

/// Lengths in units of a growing text, and the number of requests for its marks up to each: one for the box of their
/// vector, before the text grows, and one each time that the vector needs room. The text has a mark for each multiple of
/// 128 below its length; the vector has room for four at first, and then for twice that number.
static REQUESTS_BY_LENGTH: [(usize, u64); 6] = [
    (128, 1),
    (129, 2),
    (640, 2),
    (641, 3),
    (1152, 3),
    (1153, 4),
];

/// How a text grows.
#[derive(Clone, Copy)]
enum Growth {
    Push,
    Concat,
    PushStr,
}

/// Pushes `count` units of three bytes each, as characters if `is_str`, except those for which memory is refused.
fn push_units<A: Allocator>(text: &mut UnitText<A>, count: usize, is_str: bool) {
    for _ in 0..count {
        let _ = if is_str {
            text.push_str("あ")
        } else {
            text.push(0x3042)
        };
    }
}

/// Appends `count` units of three bytes each at once, unless memory is refused.
fn append_text<A: Allocator + Drop>(alloc: A, text: &mut UnitText<A>, count: usize) {
    let mut piece = UnitText::new(alloc);
    push_units(&mut piece, count, false);
    let _ = text.concat(&piece);
}

/// Appends `count` units of three bytes each.
fn grow<A: Allocator + Drop>(alloc: A, text: &mut UnitText<A>, count: usize, growth: Growth) {
    match growth {
        Growth::Push => push_units(text, count, false),
        Growth::Concat => append_text(alloc, text, count),
        Growth::PushStr => push_units(text, count, true),
    }
}

/// Whether the text, grown to a length, has made the requests of its marks that are due by then.
fn is_requested<'a>(
    heap: Lent<'a>,
    marks: Lent<'a>,
    text: &mut UnitText<Lent<'a>>,
    growth: Growth,
    (length, requests): (usize, u64),
) -> bool {
    let count = length.saturating_sub(text.unit_len());
    grow(heap, text, count, growth);
    text.unit_len() == length && marks.requests() == requests
}

/// Whether `is_requested` holds of the text at each length.
fn is_each_requested<'a>(
    heap: Lent<'a>,
    marks: Lent<'a>,
    text: &mut UnitText<Lent<'a>>,
    growth: Growth,
) -> bool {
    for row in &REQUESTS_BY_LENGTH {
        if !is_requested(heap, marks, text, growth, *row) {
            return false;
        }
    }
    true
}

/// Grows a text that keeps marks from the start, and whose marks have an allocator of their own.
fn is_grown(alloc: Global, growth: Growth) -> bool {
    let heap = Refusing::new(alloc, u64::MAX);
    let marks = Refusing::new(alloc, u64::MAX);
    let mut text = UnitText::new(&heap);
    text.mark_units(&marks);
    is_each_requested(&heap, &marks, &mut text, growth)
}

#[test]
fn a_growing_text_asks_for_room_for_marks(rt: HostRuntime) {
    for growth in [Growth::Push, Growth::Concat, Growth::PushStr] {
        assert!(rt; is_grown(rt.alloc(), growth));
    }
}

#[test]
fn a_text_whose_box_of_marks_was_refused_asks_for_none(rt: HostRuntime) {
    let alloc = rt.alloc();
    let heap = Refusing::new(alloc, u64::MAX);
    let marks = Refusing::new(alloc, 0);
    let mut text = UnitText::new(&heap);
    text.mark_units(&marks);
    let is_refused = marks.requests() == 1;
    marks.grant(u64::MAX);
    push_units(&mut text, 129, false);
    assert!(rt; is_refused && text.unit_len() == 129 && marks.requests() == 0);
}
