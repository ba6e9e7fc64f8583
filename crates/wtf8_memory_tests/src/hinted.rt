// Iterators whose lower size hint is wrong, or whose upper one is far above it.
use refusing::{Lent, REFUSALS, Refusing};
use std::alloc::{AllocError, Allocator, Global};
use std::cell::Cell;
use wtf8::{CodePoint, Wtf8, Wtf8Buf};
use wtf8_tests::examples::{expect_units, joined};
use wtf8_tests::wrong::{Check, Failed, Made, Wrong, assert_row, expect, expect_bytes, made};

/// Yields a code point `left` times, with size hints that the test chooses, of which the lower one may be wrong. Counts
/// the items that are taken.
#[derive(Drop)]
struct Hinted<'a> {
    point: CodePoint,
    left: u32,
    hint: usize,
    upper: Option<usize>,
    taken: &'a Cell<u32>,
}

impl<'a> Iterator for Hinted<'a> {
    type Item = CodePoint;

    ghost use Rattle.std.specs.Prelude.{◌+◌};
    ghost use Rattle.std.specs.Iterator.{at_most};

    ghost remaining = { λ s. at_most (s.left + s.hint) };

    fn next(&mut self) -> Option<CodePoint> {
        if self.left == 0 {
            return None;
        }
        self.left -= 1;
        self.taken.set(self.taken.get().wrapping_add(1));
        Some(self.point)
    }

    fn size_hint(&self) -> (usize, Option<usize>) {
        // The upper hint is correct: it is at least the number of items left.
        let most = self.hint.checked_add(self.left as usize);
        match (most, self.upper) {
            (Some(most), Some(upper)) => (self.hint, Some(most.max(upper))),
            _ => (self.hint, None),
        }
    }
}

/// U+DCA9, `left` times, with the lower size hint `hint` and the upper one `upper`.
fn items(left: u32, hint: usize, upper: Option<usize>, taken: &Cell<u32>) -> Hinted<'_> {
    let point = CodePoint::from_unit(0xDCA9);
    Hinted {
        point,
        left,
        hint,
        upper,
        taken,
    }
}

/// U+DCA9, `left` times, with the lower size hint `hint` and no upper one.
fn trails(left: u32, hint: usize, taken: &Cell<u32>) -> Hinted<'_> {
    items(left, hint, None, taken)
}

/// The unit D83D if `has_lead`, then `left` times DCA9.
fn expected_units(alloc: Global, left: u32, has_lead: bool) -> Made<Vec<u16>> {
    let mut units = Vec::new(alloc);
    if has_lead {
        units.push(0xD83D)?;
    }
    for _ in 0..left {
        units.push(0xDCA9)?;
    }
    Ok(units)
}

/// Fails unless `left` items were taken, and the string has `left` times the unit DCA9, after a lead if `has_lead`.
fn expect_trails(
    alloc: Global,
    text: Wtf8<'_>,
    left: u32,
    has_lead: bool,
    taken: &Cell<u32>,
) -> Check {
    if taken.take() != left {
        return Err(Failed::by(Wrong::Outcome));
    }
    let expected = made!(expected_units(alloc, left, has_lead));
    expect_units(alloc, text, &expected)
}

/// Appends the items to a string.
fn extended<A: Allocator + Drop>(string: Wtf8Buf<A>, items: Hinted<'_>) -> Made<Wtf8Buf<A>> {
    let mut text = string;
    text.extend(items)?;
    Ok(text)
}

/// The string that `from_iter` makes of the items if `front` is `None`, or else the string of these units extended by
/// the items.
fn collected<A: Allocator + Drop>(
    alloc: A,
    front: Option<&[u16]>,
    items: Hinted<'_>,
) -> Made<Wtf8Buf<A>> {
    match front {
        None => Wtf8Buf::from_iter(alloc, items),
        Some(units) => extended(joined(alloc, units)?, items),
    }
}

/// Fails unless `from_iter`, or `extend` of a lead surrogate if `has_lead`, takes all items, whatever the lower hint.
fn expect_collected(
    alloc: Global,
    (left, hint): (u32, usize),
    has_lead: bool,
    taken: &Cell<u32>,
) -> Check {
    let lead: &[u16] = &[0xD83D];
    let front = if has_lead { Some(lead) } else { None };
    let text = made!(collected(alloc, front, trails(left, hint, taken)));
    expect_trails(alloc, text.as_wtf8(), left, has_lead, taken)
}

#[test]
fn a_lower_hint_may_be_false(rt: HostRuntime) -> Check {
    let taken = Cell::new(0);
    let mut row = 0usize;
    for items in [(1000, 0), (2, 5), (0, 3)] {
        for has_lead in [false, true] {
            assert_row!(row, expect_collected(rt.alloc(), items, has_lead, &taken));
        }
        row = row.wrapping_add(1);
    }
    Ok(())
}

/// Extends a string by `left` items with the lower hint `hint`. Returns whether that succeeds just if `is_extended`, no
/// item is taken, there is room for 50 bytes, and `requests` requests were made so far.
fn is_reserved<A: Allocator>(
    heap: Lent<'_>,
    text: &mut Wtf8Buf<A>,
    (left, hint, is_extended): (u32, usize, bool),
    requests: u64,
    taken: &Cell<u32>,
) -> bool {
    let is_done = text.extend(trails(left, hint, taken)).is_ok();
    is_done == is_extended
        && 50 <= text.capacity()
        && heap.requests() == requests
        && taken.get() == 0
}

/// Fails unless room for the lower hint is reserved first: for 50 by the one request that is granted, and for 51 by the
/// next one, whose refusal leaves the string empty before an item is taken.
fn expect_reserved_first(alloc: Global, heap: Lent<'_>, taken: &Cell<u32>) -> Check {
    let mut text = Wtf8Buf::new(heap);
    let is_right = is_reserved(heap, &mut text, (0, 50, true), 1, taken)
        && is_reserved(heap, &mut text, (1, 51, false), 2, taken);
    if !is_right {
        return Err(Failed::by(Wrong::Requests));
    }
    expect_bytes(alloc, text.as_wtf8(), "")
}

#[test]
fn room_for_the_lower_hint_is_reserved_first(rt: HostRuntime) -> Check {
    let alloc = rt.alloc();
    let taken = Cell::new(0);
    let heap = Refusing::new(alloc, 0);
    for refusal in REFUSALS {
        heap.refuse_after(1, refusal);
        expect_reserved_first(alloc, &heap, &taken)?;
    }
    Ok(())
}

/// A number of code points U+DCA9, a lower and an upper hint, and the number of requests that they make, and of the bytes in
/// them.
type Upper = (u32, usize, usize, u64, usize);

/// The requests are for the lower hint, then for at least eight bytes and twice the capacity each time.
static UPPER_ROWS: [Upper; 6] = [
    (0, 0, 1000, 0, 0),
    (1, 0, 1000, 1, 8),
    (1, 1, 1000, 1, 8),
    (10, 10, 100_000, 3, 10 + 20 + 40),
    (10, 9, usize::MAX, 3, 9 + 18 + 36),
    (10, 100, usize::MAX, 1, 100),
];

/// The items of a row.
fn items_of((n, lower, upper, ..): Upper, taken: &Cell<u32>) -> Hinted<'_> {
    items(n, lower, Some(upper), taken)
}

/// The length in bytes of the string that `collected` makes of the items of a row.
fn len_of<A: Allocator + Drop>(
    heap: A,
    front: Option<&[u16]>,
    row: Upper,
    taken: &Cell<u32>,
) -> Made<usize> {
    let text = made!(
        collected(heap, front, items_of(row, taken)),
        Err(AllocError)
    );
    Ok(text.len())
}

/// Fails unless `from_iter` if `front` is `None`, or else `extend` of the string of these units, which are none, takes
/// all items of the row, three bytes each, with its requests and bytes.
fn expect_upper(heap: Lent<'_>, front: Option<&[u16]>, row: Upper, taken: &Cell<u32>) -> Check {
    let (n, _, _, requests, bytes) = row;
    heap.grant(99);
    let len = len_of(heap, front, row, taken);
    let are_taken = taken.take() == n && len == Ok(n as usize * 3);
    let are_made = heap.requests() == requests && heap.bytes() == bytes;
    expect(are_taken && are_made, Wrong::Requests)
}

#[test]
fn no_room_is_reserved_for_the_upper_hint(rt: HostRuntime) -> Check {
    let taken = Cell::new(0);
    let heap = Refusing::new(rt.alloc(), 0);
    for index in 0..UPPER_ROWS.len() {
        let row = UPPER_ROWS[index];
        assert_row!(index, expect_upper(&heap, None, row, &taken));
        assert_row!(index, expect_upper(&heap, Some(&[]), row, &taken));
    }
    Ok(())
}

/// Whether a lower hint of `usize::MAX` is refused both by `extend` and by `from_iter`.
fn are_refused(alloc: Global, text: &mut Wtf8Buf<Global>, taken: &Cell<u32>) -> bool {
    let is_extended = text.extend(trails(2, usize::MAX, taken)).is_ok();
    let is_made = Wtf8Buf::from_iter(alloc, trails(2, usize::MAX, taken)).is_ok();
    !is_extended && !is_made
}

/// Fails unless a lower hint of `usize::MAX` is refused before an item is taken, and leaves "a".
fn expect_too_large(alloc: Global, taken: &Cell<u32>) -> Check {
    let mut text = made!(Wtf8Buf::from_str(alloc, "a"));
    let is_refused = are_refused(alloc, &mut text, taken) && taken.get() == 0;
    if !is_refused {
        return Err(Failed::by(Wrong::Outcome));
    }
    expect_bytes(alloc, text.as_wtf8(), "61")
}

#[test]
fn no_item_is_taken_if_the_hint_is_too_large(rt: HostRuntime) -> Check {
    let taken = Cell::new(0);
    expect_too_large(rt.alloc(), &taken)
}
