// Calls that grow a string: the requests for memory that each makes, and what it leaves if one of them is refused.
use crate::shared::{
    Change, FULL, expect_granted, expect_refused, expect_steps, filled, full, push_letters,
    succeeds,
};
use refusing::{Lent, REFUSALS, Refusal, Refusing};
use std::alloc::{AllocError, Allocator, Global};
use wtf8::{Build, CodePoint, Wtf8, Wtf8Buf};
use wtf8_tests::examples::{TEXT, joined};
use wtf8_tests::wrong::{Check, Failed, Made, Wrong, assert_row, expect, expect_bytes, made};

/// A building call. `build_of` adds the views and the code points that a test makes.
#[derive(Clone, Copy)]
enum Call {
    /// `Build::Push` of a unit, and of a character.
    Unit(u16),
    Point(char),
    Char(char),
    Str(&'static str),
    /// `Build::PushWtf8` of a text, and of `trails`.
    View(&'static str),
    Trails,
    /// `Build::Extend` by `joining`, and by `points`.
    Joining,
    Points,
    Reserve(usize),
}

/// A call on a string whose four bytes, "a" and D83D, fill its capacity; the bytes after it if all its requests are granted;
/// the number of bytes in these; and for each request the bytes after the call if that is the first one refused.
type Row = (Call, &'static str, usize, &'static [&'static str]);

/// Calls that make one request, to twice the capacity or to what is needed, whichever is more; then calls that make no
/// request and leave the string unchanged; and last an extension by three code points of three bytes. Reserving three
/// bytes grows the capacity to eight, which fits the first of these code points but not the second.
static ROWS: [Row; 17] = [
    (Call::Unit(0x61), "61 ED A0 BD 61", 8, &[FULL]),
    (Call::Unit(0xDCA9), "61 F0 9F 92 A9", 8, &[FULL]),
    (Call::Unit(0xD83D), "61 ED A0 BD ED A0 BD", 8, &[FULL]),
    (Call::Point('a'), "61 ED A0 BD 61", 8, &[FULL]),
    (Call::Point('é'), "61 ED A0 BD C3 A9", 8, &[FULL]),
    (Call::Point('あ'), "61 ED A0 BD E3 81 82", 8, &[FULL]),
    (Call::Point('💩'), "61 ED A0 BD F0 9F 92 A9", 8, &[FULL]),
    (Call::Char('💩'), "61 ED A0 BD F0 9F 92 A9", 8, &[FULL]),
    (
        Call::Str(TEXT),
        "61 ED A0 BD 61 C3 A9 20 F0 9F 92 A9",
        12,
        &[FULL],
    ),
    (Call::View("ab"), "61 ED A0 BD 61 62", 8, &[FULL]),
    (Call::Trails, "61 F0 9F 92 A9 ED B2 A9 62", 9, &[FULL]),
    (Call::Joining, "61 F0 9F 92 A9 62", 8, &[FULL]),
    (Call::Reserve(1000), FULL, 1004, &[FULL]),
    (Call::Str(""), FULL, 0, &[]),
    (Call::View(""), FULL, 0, &[]),
    (Call::Reserve(0), FULL, 0, &[]),
    (
        Call::Points,
        "61 ED A0 BD E0 A0 80 E0 A0 80 E0 A0 80",
        24,
        &[FULL, "61 ED A0 BD E0 A0 80"],
    ),
];

/// The call of a row. `trails` has the units DCA9, DCA9 and 62.
fn build_of<'a>(
    call: Call,
    trails: Wtf8<'a>,
    joining: &'a [CodePoint; 2],
    points: &'a [CodePoint; 3],
) -> Build<'a> {
    match call {
        Call::Unit(unit) => Build::Push(CodePoint::from_unit(unit)),
        Call::Point(c) => Build::Push(CodePoint::from_char(c)),
        Call::Char(c) => Build::PushChar(c),
        Call::Str(text) => Build::PushStr(text),
        Call::View(text) => Build::PushWtf8(Wtf8::from_str(text)),
        Call::Trails => Build::PushWtf8(trails),
        Call::Joining => Build::Extend(joining),
        Call::Points => Build::Extend(points),
        Call::Reserve(additional) => Build::Reserve(additional),
    }
}

/// Fails unless a trail surrogate is refused after "a" and D83D, an empty text is not, and the string is unchanged after
/// both.
fn expect_full_kept(alloc: Global, heap: Lent<'_>) -> Check {
    let mut text = made!(full(heap));
    heap.grant(0);
    let trail = Build::Push(CodePoint::from_unit(0xDCA9));
    let rows = [
        (Change::Method(trail), None, FULL),
        (Change::Method(Build::PushStr("")), Some(true), FULL),
    ];
    expect_steps(alloc, &mut text, &rows)
}

#[test]
fn an_empty_text_is_pushed_after_a_refused_trail(rt: HostRuntime) -> Check {
    let alloc = rt.alloc();
    let heap = Refusing::new(alloc, 0);
    expect_full_kept(alloc, &heap)
}

/// Refuses each request of the change in turn. Fails unless the change ends there and leaves the bytes of the row.
fn expect_kept(
    alloc: Global,
    heap: Lent<'_>,
    change: Change<'_>,
    refused: &[&str],
    refusal: Refusal,
) -> Check {
    let mut granted = 0u64;
    for dump in refused {
        expect_refused(alloc, heap, change, (granted, refusal), dump)?;
        granted = granted.wrapping_add(1);
    }
    Ok(())
}

/// Fails unless the row's call, made in this way, makes its requests if all are granted and `refusal` is `None`, or ends
/// at each of them that is refused.
fn expect_change(
    alloc: Global,
    heap: Lent<'_>,
    change: Change<'_>,
    (_, dump, requested, refused): Row,
    refusal: Option<Refusal>,
) -> Check {
    match refusal {
        None => {
            let requests = (refused.len() as u64, requested);
            expect_granted(alloc, heap, change, requests, dump)
        }
        Some(refusal) => expect_kept(alloc, heap, change, refused, refusal),
    }
}

/// Fails unless the row's call, made as a method and through `apply`, does what `expect_change` requires.
fn expect_row(
    alloc: Global,
    heap: Lent<'_>,
    call: Build<'_>,
    row: Row,
    refusal: Option<Refusal>,
) -> Check {
    expect_change(alloc, heap, Change::Method(call), row, refusal)?;
    expect_change(alloc, heap, Change::Apply(call), row, refusal)
}

/// Fails unless each row's call does what `expect_row` requires. `trails` has the units DCA9, DCA9 and 62.
fn expect_rows(alloc: Global, heap: Lent<'_>, trails: Wtf8<'_>, refusal: Option<Refusal>) -> Check {
    let joining = [CodePoint::from_unit(0xDCA9), CodePoint::from_unit(0x62)];
    let points = [CodePoint::from_unit(0x0800); 3];
    for index in 0..ROWS.len() {
        let call = build_of(ROWS[index].0, trails, &joining, &points);
        assert_row!(index, expect_row(alloc, heap, call, ROWS[index], refusal));
    }
    Ok(())
}

/// Fails unless each row's call, made as a method and through `apply`, does what `expect_change` requires.
fn expect_table(alloc: Global, refusal: Option<Refusal>) -> Check {
    let trails = made!(joined(alloc, &[0xDCA9, 0xDCA9, 0x62]));
    let heap = Refusing::new(alloc, 0);
    expect_rows(alloc, &heap, trails.as_wtf8(), refusal)
}

#[test]
fn a_growing_call_makes_its_requests_and_no_other(rt: HostRuntime) -> Check {
    expect_table(rt.alloc(), None)
}

#[test]
fn a_refused_request_leaves_the_string_unchanged(rt: HostRuntime) -> Check {
    for refusal in REFUSALS {
        expect_table(rt.alloc(), Some(refusal))?;
    }
    Ok(())
}

/// Fails unless there is room for 1,000 more bytes after they are reserved.
fn expect_reserved(heap: Lent<'_>, change: Change<'_>) -> Check {
    let mut text = made!(full(heap));
    heap.grant(1);
    let is_reserved = succeeds(&mut text, change) && 1004 <= text.capacity();
    expect(is_reserved, Wrong::Outcome)
}

#[test]
fn reserve_gives_the_capacity(rt: HostRuntime) -> Check {
    let heap = Refusing::new(rt.alloc(), 0);
    let call = Build::Reserve(1000);
    expect_reserved(&heap, Change::Method(call))?;
    expect_reserved(&heap, Change::Apply(call))
}

/// Fails unless reserving `usize::MAX` bytes is refused, as a method and through `apply`, and leaves "a".
fn expect_refused_room(alloc: Global) -> Check {
    let mut text = made!(Wtf8Buf::from_str(alloc, "a"));
    let call = Build::Reserve(usize::MAX);
    let rows = [
        (Change::Method(call), None, "61"),
        (Change::Apply(call), None, "61"),
    ];
    expect_steps(alloc, &mut text, &rows)
}

#[test]
fn reserving_usize_max_bytes_is_refused(rt: HostRuntime) -> Check {
    let alloc = rt.alloc();
    let is_made = Wtf8Buf::with_capacity(alloc, usize::MAX).is_ok();
    if is_made {
        return Err(Failed::by(Wrong::Outcome));
    }
    expect_refused_room(alloc)
}

/// Calls `shrink_to_fit`. Fails unless the capacity is then `capacity` and the string is unchanged.
fn expect_shrunk<A: Allocator>(alloc: Global, text: &mut Wtf8Buf<A>, capacity: usize) -> Check {
    text.shrink_to_fit();
    if text.capacity() != capacity {
        return Err(Failed::by(Wrong::Outcome));
    }
    expect_bytes(alloc, text.as_wtf8(), FULL)
}

/// Clears and shrinks a string, and returns whether its capacity is then 0.
fn releases<A: Allocator>(text: &mut Wtf8Buf<A>) -> bool {
    text.clear();
    text.shrink_to_fit();
    text.capacity() == 0 && text.is_empty()
}

/// Fails unless `shrink_to_fit` releases the spare capacity if memory is granted, and all capacity of an empty string.
fn expect_released(alloc: Global, heap: Lent<'_>, text: &mut Wtf8Buf<Lent<'_>>) -> Check {
    // If the smaller block is refused, the capacity stays. Else it is the length, and an empty string keeps none.
    let mut row = 0usize;
    for (granted, capacity) in [(0, 100), (1, 4), (1, 4)] {
        heap.grant(granted);
        assert_row!(row, expect_shrunk(alloc, text, capacity));
        row = row.wrapping_add(1);
    }
    heap.grant(0);
    expect(releases(text), Wrong::Outcome)
}

/// Fails unless a string with a capacity of 100 bytes releases what it does not need, if memory is granted.
fn expect_hundred_released(alloc: Global, heap: Lent<'_>) -> Check {
    let mut text = made!(filled(heap, 100));
    expect_released(alloc, heap, &mut text)
}

#[test]
fn shrink_to_fit_releases_spare_capacity(rt: HostRuntime) -> Check {
    let alloc = rt.alloc();
    let heap = Refusing::new(alloc, u64::MAX);
    expect_hundred_released(alloc, &heap)
}

/// The capacity of a string of `length` bytes after `shrink_to_fit`.
fn shrunk_capacity(alloc: Global, length: usize) -> Made<usize> {
    let mut text = made!(Wtf8Buf::with_capacity(alloc, 100), Err(AllocError));
    push_letters(&mut text, length)?;
    text.shrink_to_fit();
    Ok(text.capacity())
}

#[test]
fn shrink_to_fit_leaves_no_spare_capacity_at_each_length(rt: HostRuntime) -> Check {
    for length in 0..=70 {
        let is_shrunk = shrunk_capacity(rt.alloc(), length) == Ok(length);
        assert_row!(length, expect(is_shrunk, Wrong::Outcome));
    }
    Ok(())
}
