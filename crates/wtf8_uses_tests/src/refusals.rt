// Pushes to a string that is unchanged if memory for all of them is refused.
use crate::shared::{LEAD, TRAIL, string_of};
use refusing::Refusing;
use std::alloc::{Allocator, Global};
use wtf8::{Build, CodePoint, Wtf8, Wtf8Buf};
use wtf8_tests::wrong::{Check, Wrong, expect, expect_bytes, made};
use wtf8_uses::refusals;

/// Pushes "a" and "b" by a list of calls. Fails unless the string then has the bytes of `dump`.
fn expect_list(alloc: Global, string: &mut Wtf8Buf<Global>, dump: &str) -> Check {
    let calls = [Build::PushChar('a'), Build::PushStr("b")];
    made!(refusals::push_list(string, &calls, 2));
    expect_bytes(alloc, string.as_wtf8(), dump)
}

/// Pushes a trail and "é" to a lead, and then a list of calls. Fails unless the bytes are right after each step.
fn expect_pushed(alloc: Global, string: &mut Wtf8Buf<Global>) -> Check {
    let trail = made!(string_of(alloc, &[TRAIL]));
    made!(refusals::push_both(string, trail.as_wtf8(), Wtf8::from_str("é")));
    expect_bytes(alloc, string.as_wtf8(), "F0 9F 92 A9 C3 A9")?;
    expect_list(alloc, string, "F0 9F 92 A9 C3 A9 61 62")
}

/// Fails unless "é" and a trail are pushed to a lead as two code points.
fn expect_two_points(alloc: Global) -> Check {
    let mut both = made!(string_of(alloc, &[LEAD]));
    let trail = CodePoint::from_unit(TRAIL);
    made!(refusals::push_two_points(&mut both, CodePoint::from_char('é'), trail));
    expect_bytes(alloc, both.as_wtf8(), "ED A0 BD C3 A9 ED B2 A9")
}

#[test]
fn memory_is_reserved_once_for_all_pushes(rt: HostRuntime) -> Check {
    let alloc = rt.alloc();
    let mut string = made!(string_of(alloc, &[LEAD]));
    expect_pushed(alloc, &mut string)?;
    let is_kept = refusals::is_kept_by_a_refusal(&mut string, CodePoint::from_char('c'));
    expect(matches!(is_kept, Ok(true)), Wrong::Outcome)?;
    expect_two_points(alloc)
}

/// "a" twenty times.
const TWENTY: &str = "aaaaaaaaaaaaaaaaaaaa";

/// Whether `push_both` of two texts of 20 bytes each succeeds.
fn are_pushed<A: Allocator>(string: &mut Wtf8Buf<A>) -> bool {
    let text = Wtf8::from_str(TWENTY);
    refusals::push_both(string, text, text).is_ok()
}

/// Fails unless both texts are pushed just if the one request for their 40 bytes is granted.
fn expect_reserved<A: Allocator>(heap: &Refusing<Global>, string: &mut Wtf8Buf<A>) -> Check {
    expect(!are_pushed(string) && string.is_empty(), Wrong::Outcome)?;
    heap.grant(1);
    expect(are_pushed(string) && string.len() == 40, Wrong::Outcome)?;
    expect(heap.requests() == 1 && heap.bytes() == 40, Wrong::Requests)
}

#[test]
fn both_strings_are_pushed_into_the_reserved_room(rt: HostRuntime) -> Check {
    let heap = Refusing::new(rt.alloc(), 0);
    let mut string = Wtf8Buf::new(&heap);
    expect_reserved(&heap, &mut string)
}

/// Whether `push_two_points` of two code points of four bytes each succeeds.
fn are_points_pushed<A: Allocator>(string: &mut Wtf8Buf<A>) -> bool {
    let point = CodePoint::from_char('💩');
    refusals::push_two_points(string, point, point).is_ok()
}

/// Whether `push_list` of two pushes of four bytes each succeeds.
fn is_list_pushed<A: Allocator>(string: &mut Wtf8Buf<A>) -> bool {
    let calls = [Build::PushChar('💩'), Build::PushChar('💩')];
    refusals::push_list(string, &calls, 8).is_ok()
}

#[test]
fn nothing_is_pushed_without_room_for_all(rt: HostRuntime) -> Check {
    let heap = Refusing::new(rt.alloc(), 1);
    let mut string = made!(Wtf8Buf::with_capacity(&heap, 7));
    let is_pushed = are_points_pushed(&mut string) || is_list_pushed(&mut string);
    expect(!is_pushed && string.is_empty(), Wrong::Outcome)
}

#[test]
fn room_for_all_is_enough(rt: HostRuntime) -> Check {
    let heap = Refusing::new(rt.alloc(), 1);
    let mut string = made!(Wtf8Buf::with_capacity(&heap, 8));
    let are_two = are_points_pushed(&mut string);
    string.clear();
    let is_pushed = are_two && is_list_pushed(&mut string);
    expect(
        is_pushed && string.len() == 8 && heap.requests() == 1,
        Wrong::Requests,
    )
}
