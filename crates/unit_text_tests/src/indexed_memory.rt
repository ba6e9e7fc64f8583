// Requests for memory of buffers that find their code units, each refused in turn.
use crate::memory::{Append, Appended, Made, MakeText, are_appended, are_right};
use crate::shared::Push::{Char, Point, Slice, Str, Unit, Units, View};
use crate::shared::{
    Push, buf_has_units, buf_of, has_buf, has_bytes, push_each, push_to, with_room,
};
use refusing::{Lent, REFUSALS, Refusal, Refusing};
use std::alloc::{AllocError, Allocator, Global};
use unit_text::IndexedBuf;

/// "a" and a lone lead, and their four bytes.
const FRONT: [u16; 2] = [0x61, 0xD83D];

const FRONT_DUMP: &str = "61 ED A0 BD";

/// "a" and a pair, and their five bytes.
const PAIR: [u16; 3] = [0x61, 0xD83D, 0xDCA9];

const PAIR_DUMP: &str = "61 F0 9F 92 A9";

/// A call that appends to `FRONT`, and after it the units and the bytes; the number of bytes by which the string grows, and
/// of requests without spare capacity. `push_units` first reserves a byte for each unit, and then what its units need.
type Row = (Push, (&'static [u16], &'static str), (usize, u64));

/// Calls that append one code point, or nothing, then several code points, and then slices whose trail in front
/// completes the pair, alone or before other code points, that have a lead at the end, or that are empty. Each part of
/// a slice is appended separately, and a growth is at least to twice the capacity, which is four bytes at first.
static PUSHES: [Row; 16] = [
    (Point(0xDCA9), (&PAIR, PAIR_DUMP), (1, 1)),
    (Unit(0xDCA9), (&PAIR, PAIR_DUMP), (1, 1)),
    (
        Unit(0xE9),
        (&[0x61, 0xD83D, 0xE9], "61 ED A0 BD C3 A9"),
        (2, 1),
    ),
    (
        Char('💩'),
        (&[0x61, 0xD83D, 0xD83D, 0xDCA9], "61 ED A0 BD F0 9F 92 A9"),
        (4, 1),
    ),
    (Units(&[0xDCA9]), (&PAIR, PAIR_DUMP), (1, 1)),
    (Str(""), (&FRONT, FRONT_DUMP), (0, 0)),
    (Units(&[]), (&FRONT, FRONT_DUMP), (0, 0)),
    (View(&[]), (&FRONT, FRONT_DUMP), (0, 0)),
    (
        Str("aé💩"),
        (
            &[0x61, 0xD83D, 0x61, 0xE9, 0xD83D, 0xDCA9],
            "61 ED A0 BD 61 C3 A9 F0 9F 92 A9",
        ),
        (7, 1),
    ),
    (
        Units(&[0xDCA9, 0xE000, 0xE000]),
        (
            &[0x61, 0xD83D, 0xDCA9, 0xE000, 0xE000],
            "61 F0 9F 92 A9 EE 80 80 EE 80 80",
        ),
        (7, 2),
    ),
    (
        View(&[0xDCA9, 0xE9]),
        (&[0x61, 0xD83D, 0xDCA9, 0xE9], "61 F0 9F 92 A9 C3 A9"),
        (3, 1),
    ),
    (Slice(&[0xD83D, 0xDCA9], 1, 2), (&PAIR, PAIR_DUMP), (1, 1)),
    (
        Slice(&[0xD83D, 0xDCA9, 0xE9], 1, 3),
        (&[0x61, 0xD83D, 0xDCA9, 0xE9], "61 F0 9F 92 A9 C3 A9"),
        (3, 1),
    ),
    (
        Slice(&[0xD83D, 0xDCA9, 0xE000, 0xD83D, 0xDCA9], 1, 4),
        (
            &[0x61, 0xD83D, 0xDCA9, 0xE000, 0xD83D],
            "61 F0 9F 92 A9 EE 80 80 ED A0 BD",
        ),
        (7, 2),
    ),
    (
        Slice(&[0xE9, 0xD83D, 0xDCA9], 0, 2),
        (&[0x61, 0xD83D, 0xE9, 0xD83D], "61 ED A0 BD C3 A9 ED A0 BD"),
        (5, 2),
    ),
    (Slice(&[0xD83D, 0xDCA9], 1, 1), (&FRONT, FRONT_DUMP), (0, 0)),
];

/// The buffer of `FRONT` with `spare` bytes of spare capacity.
fn with_spare(heap: Lent<'_>, spare: usize) -> IndexedBuf<Lent<'_>> {
    heap.grant(1);
    let mut buf = with_room(heap, spare.saturating_add(4));
    push_each(&mut buf, &FRONT);
    buf
}

/// Whether the buffer has the units and bytes of `FRONT`.
fn has_front<A: Allocator>(alloc: Global, buf: &IndexedBuf<A>) -> bool {
    has_buf(alloc, buf, &FRONT, FRONT_DUMP)
}

/// Whether the buffer has the units and bytes after the row's call if `is_pushed`, and else those of `FRONT`.
fn has_row<A: Allocator>(
    alloc: Global,
    buf: &IndexedBuf<A>,
    &(_, (units, dump), _): &Row,
    is_pushed: bool,
) -> bool {
    if is_pushed {
        return has_buf(alloc, buf, units, dump);
    }
    has_front(alloc, buf)
}

/// Makes the row's call. Whether it succeeds just if `is_pushed`, makes these requests of `heap`, and changes nothing if
/// it fails.
fn is_right<A: Allocator>(
    alloc: Global,
    heap: Lent<'_>,
    buf: &mut IndexedBuf<A>,
    row: &Row,
    (is_pushed, requests): Outcome,
) -> bool {
    push_to(alloc, buf, row.0).is_ok() == is_pushed
        && heap.requests() == requests
        && has_row(alloc, buf, row, is_pushed)
}

/// The spare capacity of the buffer of `FRONT` to which a row's call appends, whether it has marks, the number of the call's
/// requests that are granted, and which are refused after them.
type Setup = (usize, bool, u64, Refusal);

/// Whether a call succeeds, and the number of its requests.
type Outcome = (bool, u64);

/// Whether the row's call does what `is_right` requires.
fn is_right_after(alloc: Global, heap: Lent<'_>, row: &Row, setup: Setup, end: Outcome) -> bool {
    let (spare, is_marked, granted, refusal) = setup;
    let mut buf = with_spare(heap, spare);
    if is_marked {
        heap.grant(1);
        buf.mark_units(heap);
    }
    heap.refuse_after(granted, refusal);
    is_right(alloc, heap, &mut buf, row, end)
}

/// Whether the row's call, with every request refused, appends its units without a request if their bytes fit, and else
/// changes nothing: at each spare capacity, up to one byte more than the row's call needs, with marks and without.
fn is_right_in_each_room(alloc: Global, heap: Lent<'_>, row: &Row) -> bool {
    let growth = row.2.0;
    for spare in 0..=growth.saturating_add(1) {
        let is_pushed = growth <= spare;
        for is_marked in [false, true] {
            let setup = (spare, is_marked, 0, Refusal::ForGood);
            if !is_right_after(alloc, heap, row, setup, (is_pushed, u64::from(!is_pushed))) {
                return false;
            }
        }
    }
    true
}

/// Whether the row's call, without spare capacity, makes its requests if all are granted, and fails and changes nothing
/// at each that is refused.
fn is_each_refused(alloc: Global, heap: Lent<'_>, row: &Row) -> bool {
    let count = row.2.1;
    let setup = (0, false, 9, Refusal::ForGood);
    if !is_right_after(alloc, heap, row, setup, (true, count)) {
        return false;
    }
    for refusal in REFUSALS {
        for granted in 0..count {
            let setup = (0, false, granted, refusal);
            if !is_right_after(alloc, heap, row, setup, (false, granted.wrapping_add(1))) {
                return false;
            }
        }
    }
    true
}

/// The number of units of three bytes before `FRONT` in a long buffer. The unit after `FRONT` has index 256, where the
/// second mark is, or one unit before if that index splits a pair.
const WIDE: usize = 254;

/// The allocators of a buffer's bytes and of its marks.
type Heaps<'a> = (Lent<'a>, Lent<'a>);

/// The number of bytes of the long buffer that `FRONT` ends.
const LONG_FRONT_LEN: usize = 254 * 3 + 4;

/// Units of three bytes, and then `units`; fewer if memory is refused.
fn after_wide(alloc: Global, units: &[u16]) -> Vec<u16> {
    let mut all = Vec::new(alloc);
    let _ = all.resize(WIDE, 0x3042);
    let _ = all.extend_from_slice(units);
    all
}

/// The buffer of the long list that `FRONT` ends, with `spare` bytes of spare capacity, and with the one mark that it
/// needs, by two requests of `marks`: for the box of the marks' vector and for the mark.
fn long_with_spare<'a>(
    alloc: Global,
    (heap, marks): Heaps<'a>,
    spare: usize,
) -> IndexedBuf<Lent<'a>> {
    let mut buf = with_room(heap, spare.saturating_add(LONG_FRONT_LEN));
    push_each(&mut buf, &after_wide(alloc, &FRONT));
    buf.mark_units(marks);
    buf
}

/// Pushes "a" to the buffer of the units with all requests granted. Whether one is made for the mark that is missing,
/// and the buffer has the units and "a".
fn has_one_more<A: Allocator>(
    (heap, marks): Heaps<'_>,
    buf: &mut IndexedBuf<A>,
    units: &mut Vec<u16>,
) -> bool {
    heap.grant(9);
    marks.grant(9);
    buf.push_unit(0x61).is_ok()
        && units.push(0x61).is_ok()
        && marks.requests() == 1
        && buf_has_units(buf, units)
}

/// Whether a long buffer that ends with `units` has all its units, and a later call adds the mark that is missing.
fn is_ended<A: Allocator>(
    alloc: Global,
    (heap, marks): Heaps<'_>,
    buf: &mut IndexedBuf<A>,
    units: &[u16],
) -> bool {
    let mut all = after_wide(alloc, units);
    buf_has_units(buf, &all) && has_one_more((heap, marks), buf, &mut all)
}

/// Makes the row's call with every request refused. If its bytes fit, whether it appends its units, though a mark is
/// refused. Else whether it changes nothing and asks for no mark. A later call has to add the mark that is then missing.
fn is_unmarked<A: Allocator>(
    alloc: Global,
    (heap, marks): Heaps<'_>,
    buf: &mut IndexedBuf<A>,
    &(push, (units, _), (growth, _)): &Row,
    is_fitting: bool,
) -> bool {
    let is_pushed = push_to(alloc, buf, push).is_ok();
    let growth = if is_fitting { growth } else { 0 };
    let units = if is_fitting { units } else { &FRONT };
    is_pushed == is_fitting
        && (heap.requests() == 0) == is_fitting
        && marks.requests() == u64::from(growth > 0)
        && buf.as_wtf8().len() == LONG_FRONT_LEN.saturating_add(growth)
        && is_ended(alloc, (heap, marks), buf, units)
}

/// Whether the row's call does what `is_unmarked` requires on a long buffer with marks and `spare` bytes of spare
/// capacity.
fn is_right_on_long(alloc: Global, row: &Row, spare: usize) -> bool {
    let heap = Refusing::new(alloc, 1);
    let marks = Refusing::new(alloc, 2);
    let mut buf = long_with_spare(alloc, (&heap, &marks), spare);
    heap.grant(0);
    marks.grant(0);
    is_unmarked(alloc, (&heap, &marks), &mut buf, row, row.2.0 <= spare)
}

/// What is required of each row's call.
#[derive(Clone, Copy)]
enum Check {
    /// It makes no request just if it fits.
    Room,
    /// It fails at each refusal and changes nothing.
    Refusals,
    /// On a long buffer, with the spare capacity that it needs, a refused mark doesn't refuse it.
    Marks,
    /// On a long buffer, with one byte too little of spare capacity, it changes nothing.
    TooLong,
}

/// Whether the row's call does what `check` requires.
fn is_checked(alloc: Global, heap: Lent<'_>, row: &Row, check: Check) -> bool {
    let growth = row.2.0;
    match check {
        Check::Room => is_right_in_each_room(alloc, heap, row),
        Check::Refusals => is_each_refused(alloc, heap, row),
        Check::Marks => is_right_on_long(alloc, row, growth),
        Check::TooLong => is_right_on_long(alloc, row, growth.saturating_sub(1)),
    }
}

/// Whether the call of each row does what `check` requires.
fn are_checked(alloc: Global, check: Check) -> bool {
    let heap = Refusing::new(alloc, 0);
    for row in &PUSHES {
        if !is_checked(alloc, &heap, row, check) {
            return false;
        }
    }
    true
}

#[test]
fn a_push_makes_no_request_just_if_it_fits(rt: HostRuntime) {
    assert!(rt; are_checked(rt.alloc(), Check::Room));
}

#[test]
fn a_push_fails_at_each_refusal_and_changes_nothing(rt: HostRuntime) {
    assert!(rt; are_checked(rt.alloc(), Check::Refusals));
}

#[test]
fn a_refused_mark_refuses_no_push(rt: HostRuntime) {
    assert!(rt; are_checked(rt.alloc(), Check::Marks));
}

#[test]
fn a_refused_push_changes_no_long_buffer(rt: HostRuntime) {
    assert!(rt; are_checked(rt.alloc(), Check::TooLong));
}

/// The number of bytes of the long buffer of `PAIR`.
const LONG_LEN: usize = 254 * 3 + 5;

/// Releases the spare capacity of the long buffer of `PAIR`, which is 100 bytes. Whether that makes a request for the
/// bytes and one for the marks, and the capacity is the length if `is_granted` and else as before.
fn is_shrunk<A: Allocator>(
    (heap, marks): Heaps<'_>,
    buf: &mut IndexedBuf<A>,
    is_granted: bool,
) -> bool {
    buf.shrink_to_fit();
    let spare = if is_granted { 0 } else { 100 };
    heap.requests() == 1 && marks.requests() == 1 && buf.capacity() == LONG_LEN + spare
}

/// Appends 127 units, for which no mark is missing if the marks before are kept, and then the first unit that needs a
/// third mark, with each request for a mark refused. Whether the last push alone makes one, if `is_full`: else the list
/// of marks has room.
fn has_next_mark<A: Allocator>(
    (heap, marks): Heaps<'_>,
    buf: &mut IndexedBuf<A>,
    is_full: bool,
) -> bool {
    heap.grant(u64::MAX);
    marks.grant(0);
    push_each(buf, &[0x3042; 127]);
    marks.requests() == 0 && buf.push_unit(0x3042).is_ok() && (marks.requests() == 1) == is_full
}

/// Empties a buffer. Whether it then releases all its memory without a request.
fn is_released<A: Allocator>((heap, marks): Heaps<'_>, buf: &mut IndexedBuf<A>) -> bool {
    heap.grant(0);
    marks.grant(0);
    buf.clear();
    buf.shrink_to_fit();
    buf.capacity() == 0 && heap.requests() == 0 && marks.requests() == 0
}

/// Whether a long buffer has its units after its spare capacity is released, and after each push that follows, and
/// releases all its memory once it is emptied. `units` are its units.
fn is_right_shrunk<A: Allocator>(
    (heap, marks): Heaps<'_>,
    buf: &mut IndexedBuf<A>,
    (is_granted, is_full): (bool, bool),
    units: &mut Vec<u16>,
) -> bool {
    is_shrunk((heap, marks), buf, is_granted)
        && buf_has_units(buf, units)
        && has_next_mark((heap, marks), buf, is_full)
        && units.resize(WIDE + 131, 0x3042).is_ok()
        && buf_has_units(buf, units)
        && is_released((heap, marks), buf)
}

/// Whether `shrink_to_fit` of the long buffer of `PAIR`, with 100 bytes of spare capacity and with its two marks in a
/// list that has room for four, releases the spare capacity of its bytes and of its marks, each if that is granted.
fn is_each_shrunk(alloc: Global, granted: (bool, bool), refusal: Refusal) -> bool {
    let heap = Refusing::new(alloc, 1);
    let marks = Refusing::new(alloc, 2);
    let mut buf = long_with_spare(alloc, (&heap, &marks), 101);
    marks.grant(1);
    push_each(&mut buf, &[0xDCA9]);
    heap.refuse_after(u64::from(granted.0), refusal);
    marks.refuse_after(u64::from(granted.1), refusal);
    let mut units = after_wide(alloc, &PAIR);
    is_right_shrunk((&heap, &marks), &mut buf, granted, &mut units)
}

#[test]
fn a_buffer_releases_spare_capacity_if_that_is_granted(rt: HostRuntime) {
    for granted in [(false, false), (false, true), (true, false), (true, true)] {
        for refusal in REFUSALS {
            assert!(rt; is_each_shrunk(rt.alloc(), granted, refusal));
        }
    }
}

/// Whether the buffer has `units`, and after a push of `FRONT` these too.
fn is_before_front<A: Allocator>(buf: &mut IndexedBuf<A>, units: &mut Vec<u16>) -> bool {
    buf_has_units(buf, units)
        && buf.push_units(&FRONT).is_ok()
        && units.extend_from_slice(&FRONT).is_ok()
        && buf_has_units(buf, units)
}

/// Asks for marks of a long buffer with `granted` requests granted. Whether the buffer has its units then, and after a
/// push.
fn is_long_marked(alloc: Global, granted: u64, refusal: Refusal) -> bool {
    let heap = Refusing::new(alloc, 9);
    let marks = Refusing::new(alloc, 0);
    let mut units = after_wide(alloc, &[0xD83D, 0xD83D, 0xDCA9]);
    let mut buf = buf_of(&heap, &units);
    marks.refuse_after(granted, refusal);
    buf.mark_units(&marks);
    heap.grant(9);
    units.len() == WIDE + 3 && is_before_front(&mut buf, &mut units)
}

#[test]
fn marks_that_are_refused_change_nothing(rt: HostRuntime) {
    for refusal in REFUSALS {
        for granted in 0..4 {
            assert!(rt;
                is_long_marked(rt.alloc(), granted, refusal),
                "{granted} granted"
            );
        }
    }
}

/// A call that makes a buffer.
#[derive(Clone, Copy)]
enum Make {
    Capacity(usize),
    Units(&'static [u16]),
    Clone,
}

/// Calls that make a buffer, and the number of their requests. Units request their bytes at once, or first a byte for each:
/// 64 to 128 if the first 64 are ASCII, more if the first one is.
static MAKES: [(Make, u64); 8] = [
    (Make::Capacity(0), 0),
    (Make::Capacity(8), 1),
    (Make::Units(&[]), 0),
    (Make::Units(&[0xE000; 6]), 1),
    (Make::Units(&[0xE000; 17]), 1),
    (
        Make::Units(&[
            0x61, 0x61, 0x61, 0x61, 0x61, 0x61, 0x61, 0x61, 0x61, 0x61, 0x61, 0x61, 0x61, 0x61,
            0x61, 0x61, 0x61, 0x61, 0x61, 0x61, 0x61, 0x61, 0x61, 0x61, 0x61, 0x61, 0x61, 0x61,
            0x61, 0x61, 0x61, 0x61, 0xE000,
        ]),
        1,
    ),
    (
        Make::Units(&[
            0x61, 0x61, 0x61, 0x61, 0x61, 0x61, 0x61, 0x61, 0x61, 0x61, 0x61, 0x61, 0x61, 0x61,
            0x61, 0x61, 0x61, 0x61, 0x61, 0x61, 0x61, 0x61, 0x61, 0x61, 0x61, 0x61, 0x61, 0x61,
            0x61, 0x61, 0x61, 0x61, 0x61, 0x61, 0x61, 0x61, 0x61, 0x61, 0x61, 0x61, 0x61, 0x61,
            0x61, 0x61, 0x61, 0x61, 0x61, 0x61, 0x61, 0x61, 0x61, 0x61, 0x61, 0x61, 0x61, 0x61,
            0x61, 0x61, 0x61, 0x61, 0x61, 0x61, 0x61, 0x61, 0xE000,
        ]),
        2,
    ),
    (Make::Clone, 1),
];

/// The buffer that the call makes, by a clone of `other` where it is one.
fn make_buf<A: Allocator + Clone + Drop>(
    heap: A,
    other: &IndexedBuf<A>,
    make: Make,
) -> Result<IndexedBuf<A>, AllocError> {
    match make {
        Make::Capacity(n) => IndexedBuf::with_capacity(heap, n),
        Make::Units(units) => IndexedBuf::from_units(heap, units),
        Make::Clone => other.clone(),
    }
}

/// Whether the call makes a buffer just if `is_made`, with these requests.
fn is_make<'a>(
    heap: Lent<'a>,
    other: &IndexedBuf<Lent<'a>>,
    make: Make,
    (is_made, requests): Outcome,
) -> bool {
    make_buf(heap, other, make).is_ok() == is_made && heap.requests() == requests
}

/// Whether each call of `MAKES` makes its requests, and makes no buffer if one of them is refused.
fn is_each_made<'a>(heap: Lent<'a>, other: &IndexedBuf<Lent<'a>>) -> bool {
    for (make, requests) in &MAKES {
        let (make, requests) = (*make, *requests);
        for refusal in REFUSALS {
            for granted in 0..requests {
                heap.refuse_after(granted, refusal);
                if !is_make(heap, other, make, (false, granted.wrapping_add(1))) {
                    return false;
                }
            }
        }
        heap.grant(requests);
        if !is_make(heap, other, make, (true, requests)) {
            return false;
        }
    }
    true
}

#[test]
fn a_buffer_is_made_of_the_memory_that_it_needs(rt: HostRuntime) {
    let alloc = rt.alloc();
    let heap = Refusing::new(alloc, 9);
    let other = with_spare(&heap, 0);
    assert!(rt; is_each_made(&heap, &other) && has_front(alloc, &other));
}

/// Reserves `additional` bytes in the buffer of `FRONT`, which has two bytes of spare capacity. Whether that succeeds
/// just if `is_reserved`, makes the requests of `heap`, and changes no unit.
fn is_reserve<A: Allocator>(
    alloc: Global,
    heap: Lent<'_>,
    buf: &mut IndexedBuf<A>,
    additional: usize,
    (is_reserved, requests): Outcome,
) -> bool {
    let is_ok = buf.reserve(additional).is_ok();
    let most = if is_ok { additional.max(2) } else { 2 };
    is_ok == is_reserved
        && heap.requests() == requests
        && buf.capacity() >= most.saturating_add(4)
        && has_front(alloc, buf)
}

/// Whether `is_reserve` holds with `granted` requests granted.
fn is_right_reserve(alloc: Global, (additional, granted): (usize, u64), outcome: Outcome) -> bool {
    let heap = Refusing::new(alloc, 1);
    let mut buf = with_spare(&heap, 2);
    heap.grant(granted);
    is_reserve(alloc, &heap, &mut buf, additional, outcome)
}

#[test]
fn spare_capacity_is_reserved_once(rt: HostRuntime) {
    let alloc = rt.alloc();
    assert!(rt;
        is_right_reserve(alloc, (0, 0), (true, 0))
            && is_right_reserve(alloc, (2, 0), (true, 0))
            && is_right_reserve(alloc, (3, 0), (false, 1))
            && is_right_reserve(alloc, (3, 1), (true, 1))
            && is_right_reserve(alloc, (300, 1), (true, 1))
    );
}

/// Cuts the buffer of `PAIR` inside the pair and empties it. Whether it has the right bytes before and after each call.
fn is_shorter<A: Allocator>(alloc: Global, buf: &mut IndexedBuf<A>) -> bool {
    if buf.unit_len() < 2 || !has_buf(alloc, buf, &PAIR, PAIR_DUMP) {
        return false;
    }
    buf.truncate_units(2);
    let is_front = has_front(alloc, buf);
    buf.clear();
    is_front && has_buf(alloc, buf, &[], "")
}

/// Takes the string of the buffer of `PAIR` and makes a buffer of it again, with which `is_shorter` has to hold.
fn is_made_again<A: Allocator + Drop>(alloc: Global, buf: IndexedBuf<A>) -> bool {
    let mut again = IndexedBuf::from_buf(buf.into_buf());
    is_shorter(alloc, &mut again)
}

/// Whether an empty buffer has no bytes.
fn is_new_empty<A: Allocator + Drop>(alloc: Global, heap: A) -> bool {
    let empty = IndexedBuf::new(heap);
    has_bytes(alloc, empty.as_wtf8(), "")
}

#[test]
fn calls_that_append_nothing_make_no_request(rt: HostRuntime) {
    let alloc = rt.alloc();
    let heap = Refusing::new(alloc, 9);
    let buf = buf_of(&heap, &PAIR);
    heap.grant(0);
    assert!(rt; is_made_again(alloc, buf) && is_new_empty(alloc, &heap) && heap.requests() == 0);
}

/// A copy of a text.
static COPY: [Made; 1] = [((&FRONT, FRONT_DUMP), MakeText::Clone, (FRONT_DUMP, 1, 4))];

/// Units pushed to a text with a capacity of eight bytes, which need more than twice that, and no units.
static PUSHED: [Appended; 2] = [
    (
        (&FRONT, FRONT_DUMP),
        Append::Units(&[0xE000; 6]),
        (8, 3, "61 ED A0 BD EE 80 80"),
        (1, 22),
    ),
    (
        (&FRONT, FRONT_DUMP),
        Append::Units(&[]),
        (2, 2, FRONT_DUMP),
        (0, 0),
    ),
];

#[test]
fn a_text_is_unchanged_if_a_copy_or_units_are_refused(rt: HostRuntime) {
    let alloc = rt.alloc();
    assert!(rt; are_right(alloc, &COPY) && are_appended(alloc, &PUSHED));
}
