// Lists of building calls that stop at a refused request for memory.
use crate::shared::{FULL, call_each, full};
use refusing::{Lent, REFUSALS, Refusal, Refusing};
use std::alloc::{AllocError, Allocator, Global};
use wtf8::{Build, CodePoint, Wtf8, Wtf8Buf};
use wtf8_tests::examples::{expect_made, joined};
use wtf8_tests::wrong::{Check, Failed, Made, Wrong, assert_row, expect, expect_bytes, made};

/// The string that the calls build, each made by the method of its name.
fn folded(alloc: Global, calls: &[Build<'_>]) -> Made<Wtf8Buf<Global>> {
    let mut text = Wtf8Buf::new(alloc);
    call_each(&mut text, calls)?;
    Ok(text)
}

/// A number of requests that are granted; the index of the call at which a list then stops, how many of its code points are
/// appended if it is an extension, and the bytes that it leaves.
type Stop = (u64, usize, usize, &'static str);

/// `every_call` makes four requests for memory: for the first push, which grows to eight bytes, for the character, for
/// the second code point of the extension, and for the reserved 30 bytes.
static STOPS: [Stop; 4] = [
    (0, 0, 0, ""),
    (1, 4, 0, "F0 9F 92 A9 62 C3 A9 20"),
    (2, 5, 1, "F0 9F 92 A9 62 C3 A9 20 F0 9F 92 A9 E0 A0 80"),
    (
        3,
        6,
        0,
        "F0 9F 92 A9 62 C3 A9 20 F0 9F 92 A9 E0 A0 80 E0 A0 80 E0 A0 80",
    ),
];

/// Appends the first `taken` code points of the call, if it is an extension.
fn extend_by<A: Allocator>(
    text: &mut Wtf8Buf<A>,
    call: Option<&Build<'_>>,
    taken: usize,
) -> Made<()> {
    match call {
        Some(Build::Extend(points)) => text.extend(points.iter().copied().take(taken)),
        _ => Ok(()),
    }
}

/// The string built by the calls before the refused one, made as methods, and, if that one is an extension, by the code
/// points that it appended.
fn before(alloc: Global, calls: &[Build<'_>], (_, done, taken, _): Stop) -> Made<Wtf8Buf<Global>> {
    let mut text = made!(
        folded(alloc, calls.get(..done).unwrap_or(calls)),
        Err(AllocError)
    );
    extend_by(&mut text, calls.get(done), taken)?;
    Ok(text)
}

/// Whether `apply_all` stops at the call with index `done`.
fn stops_at<A: Allocator>(text: &mut Wtf8Buf<A>, calls: &[Build<'_>], done: usize) -> bool {
    match text.apply_all(calls) {
        Ok(_) => false,
        Err(stopped) => stopped.done == done,
    }
}

/// Fails unless the list stops at call `stop.done` with its first refused request, and leaves the bytes of `stop.dump`.
fn expect_stop(
    alloc: Global,
    heap: Lent<'_>,
    calls: &[Build<'_>],
    (granted, done, _, dump): Stop,
    refusal: Refusal,
) -> Check {
    heap.refuse_after(granted, refusal);
    let mut text = Wtf8Buf::new(heap);
    let is_stopped = stops_at(&mut text, calls, done);
    let is_counted = heap.requests() == granted.wrapping_add(1);
    expect(is_stopped && is_counted, Wrong::Requests)?;
    expect_bytes(alloc, text.as_wtf8(), dump)
}

/// Fails unless the list stops at each of its requests, refused for good or once, with the bytes of the calls before.
fn expect_stops(alloc: Global, heap: Lent<'_>, calls: &[Build<'_>]) -> Check {
    for row in 0..STOPS.len() {
        let stop = STOPS[row];
        assert_row!(row, expect_made(alloc, before(alloc, calls, stop), stop.3));
        for refusal in REFUSALS {
            assert_row!(row, expect_stop(alloc, heap, calls, stop, refusal));
        }
    }
    Ok(())
}

/// Whether a list is applied to its end, with `refused` of its truncations refused.
fn applies_all<A: Allocator>(text: &mut Wtf8Buf<A>, calls: &[Build<'_>], refused: usize) -> bool {
    match text.apply_all(calls) {
        Ok(found) => found == refused,
        Err(_) => false,
    }
}

/// Fails unless the list makes four requests if all are granted, three of its truncations are refused, and it builds
/// the bytes of `dump`.
fn expect_applied(alloc: Global, heap: Lent<'_>, calls: &[Build<'_>], dump: &str) -> Check {
    heap.grant(9);
    let mut text = Wtf8Buf::new(heap);
    let is_applied = applies_all(&mut text, calls, 3) && heap.grants_left() == 5;
    if !is_applied {
        return Err(Failed::by(Wrong::Requests));
    }
    expect_bytes(alloc, text.as_wtf8(), dump)
}

/// A list with each kind of call. `joining` begins with a trail surrogate; `points` is the extension.
fn every_call<'a>(joining: Wtf8<'a>, points: &'a [CodePoint]) -> [Build<'a>; 13] {
    [
        Build::Push(CodePoint::from_unit(0xD83D)),
        Build::PushWtf8(joining),
        Build::Truncate(3),
        Build::PushStr("é "),
        Build::PushChar('💩'),
        Build::Extend(points),
        Build::Reserve(30),
        Build::Truncate(4),
        Build::Truncate(5),
        Build::TruncateUnits(3),
        Build::TruncateUnits(1),
        Build::Push(CodePoint::from_unit(0xDCA9)),
        Build::Push(CodePoint::from_unit(0x61)),
    ]
}

/// Fails unless the list of `every_call` stops at each request that is refused, and is applied if all are granted.
fn expect_every_call(alloc: Global, heap: Lent<'_>, joining: Wtf8<'_>) -> Check {
    let points = [CodePoint::from_unit(0x0800); 3];
    let calls = every_call(joining, &points);
    expect_stops(alloc, heap, &calls)?;
    expect_applied(alloc, heap, &calls, "F0 9F 92 A9 61")?;
    expect_made(alloc, folded(alloc, &calls), "F0 9F 92 A9 61")
}

#[test]
fn a_list_of_every_call_stops_at_each_request(rt: HostRuntime) -> Check {
    let alloc = rt.alloc();
    let heap = Refusing::new(alloc, 0);
    let joining = made!(joined(alloc, &[0xDCA9, 0x62]));
    expect_every_call(alloc, &heap, joining.as_wtf8())
}

/// Whether a list stops at its first push, which makes its only request, if that is refused.
fn stops_at_push<A: Allocator>(heap: Lent<'_>, text: &mut Wtf8Buf<A>, refusal: Refusal) -> bool {
    let calls = [
        Build::Reserve(0),
        Build::Push(CodePoint::from_unit(0xDCA9)),
        Build::Push(CodePoint::from_unit(0x61)),
    ];
    heap.refuse_after(0, refusal);
    stops_at(text, &calls, 1) && heap.requests() == 1
}

/// Fails unless a list stops at a refused push and leaves "a" and D83D.
fn expect_push_refused<A: Allocator>(
    alloc: Global,
    heap: Lent<'_>,
    text: &mut Wtf8Buf<A>,
) -> Check {
    for refusal in REFUSALS {
        if !stops_at_push(heap, text, refusal) {
            return Err(Failed::by(Wrong::Outcome));
        }
        expect_bytes(alloc, text.as_wtf8(), FULL)?;
    }
    Ok(())
}

/// Fails unless a list stops at a refused push, on a string without spare capacity, and leaves that unchanged.
fn expect_push_refused_where_full(alloc: Global, heap: Lent<'_>) -> Check {
    let mut text = made!(full(heap));
    expect_push_refused(alloc, heap, &mut text)
}

#[test]
fn a_list_stops_at_the_refused_push(rt: HostRuntime) -> Check {
    let alloc = rt.alloc();
    let heap = Refusing::new(alloc, 1);
    expect_push_refused_where_full(alloc, &heap)
}

/// Whether an extension that needs more than the capacity, which is the number of the code points, stops, with the code
/// points appended that fit.
fn keeps_part<A: Allocator>(text: &mut Wtf8Buf<A>, points: &[CodePoint]) -> bool {
    let is_stopped = stops_at(text, &[Build::Extend(points)], 0);
    let view = text.as_wtf8();
    is_stopped
        && text.capacity() == points.len()
        && view.len() == text.capacity() / 3 * 3
        && view.to_ill_formed_utf16().next() == Some(0x0800)
}

/// Fails unless an extension of a string of small capacity stops, with the code points appended that fit.
fn expect_extension_stopped(heap: Lent<'_>) -> Check {
    let mut text = made!(Wtf8Buf::with_capacity(heap, 4));
    let points = [CodePoint::from_unit(0x0800); 4];
    expect(keeps_part(&mut text, &points), Wrong::Outcome)
}

#[test]
fn a_stopped_extension_keeps_the_code_points_that_fit(rt: HostRuntime) -> Check {
    let heap = Refusing::new(rt.alloc(), 1);
    expect_extension_stopped(&heap)
}
