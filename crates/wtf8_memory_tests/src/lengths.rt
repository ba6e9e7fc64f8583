// Calls that request memory, on strings of each length: each succeeds if all its requests are granted, requests the
// expected number of bytes, and fails at each request that is refused.
use crate::samples::{Call, Sample, expect_refused, sample_with, succeeds};
use refusing::{Lent, Refusing};
use std::alloc::{AllocError, Global};
use wtf8_tests::room::{ABOUT_POWERS, KINDS, NO_ROOM, Room};
use wtf8_tests::wrong::{Check, Failed, Made, Wrong, assert_row, made};

/// The number of lengths that `length_at` has.
const LENGTHS: usize = 305;

/// The length in units with this index: each from 0 to 300, then longer ones.
fn length_at(index: usize) -> usize {
    match index {
        301 => 1000,
        302 => 5000,
        303 => 20_000,
        304 => 70_000,
        _ => index,
    }
}

/// `length` units that repeat `kind`.
fn units_of(alloc: Global, kind: &[u16; 8], length: usize) -> Made<Vec<u16>> {
    let mut units = Vec::new(alloc);
    for at in 0..length {
        units.push(kind[at % 8])?;
    }
    Ok(units)
}

/// The sample of `length` units that repeat `kind`.
fn sample_of<'a>(
    alloc: Global,
    heap: Lent<'a>,
    kind: &[u16; 8],
    length: usize,
) -> Made<Sample<Lent<'a>>> {
    let units = made!(units_of(alloc, kind, length), Err(AllocError));
    heap.grant(u64::MAX);
    sample_with(alloc, heap, units)
}

static CALLS: [Call; 18] = [
    Call::WithCapacity,
    Call::FromStr,
    Call::FromUnits,
    Call::FromIter,
    Call::Clone,
    Call::Reserve,
    Call::PushEach,
    Call::PushStr,
    Call::PushWtf8,
    Call::JoinWtf8,
    Call::Extend,
    Call::ApplyExtend,
    Call::ApplyAll,
    Call::ToStringLossy,
    Call::HexDump,
    Call::AppendHexDump,
    Call::AppendUnits,
    Call::AppendUnitsTwice,
];

/// The memory of a string of `len` bytes, empty or with a lead at its end, to which the sample is appended as a view.
fn room_with_view(len: usize, sample: &Sample<Lent<'_>>) -> Room {
    let mut room = NO_ROOM;
    room.append(len);
    let begins_with_trail = match sample.units.first() {
        Some(unit) => 0xDC00 <= *unit && *unit <= 0xDFFF,
        None => false,
    };
    let is_joined = 0 < len && begins_with_trail;
    let count = sample.text.as_wtf8().len();
    room.append(if is_joined {
        count.saturating_sub(2)
    } else {
        count
    });
    room
}

/// `room` after an extension by the sample, which reserves a byte for each unit and then pushes them one by one.
fn room_extended(mut room: Room, sample: &Sample<Lent<'_>>) -> Room {
    let before = if room.len == 0 {
        None
    } else {
        sample.units.last()
    };
    room.reserve(sample.units.len());
    room.push_each(before.copied().unwrap_or(0), &sample.units);
    room
}

/// The memory of a string to which the units are pushed one by one.
fn room_pushed(sample: &Sample<Lent<'_>>) -> Room {
    let mut room = NO_ROOM;
    room.push_each(0, &sample.units);
    room
}

/// The memory of `count` bytes that are requested at once; no request if `count` is 0.
fn room_of(count: usize) -> Room {
    Room {
        len: count,
        capacity: count,
        requests: u64::from(0 < count),
        bytes: count,
    }
}

/// The memory of `count` bytes appended to an empty vector.
fn room_appended(count: usize) -> Room {
    let mut room = NO_ROOM;
    room.append(count);
    room
}

/// The memory of `count` bytes appended to an empty vector twice.
fn room_appended_twice(count: usize) -> Room {
    let mut room = room_appended(count);
    room.append(count);
    room
}

/// The number of bytes that a call requests or appends at once, of a string of `count` units, its text if it has one and
/// its `len` bytes; 0 for a call that does neither.
fn bytes_of(call: Call, count: usize, text: Option<&str>, len: usize) -> usize {
    match call {
        Call::WithCapacity | Call::Reserve => count,
        Call::FromStr | Call::PushStr => text.unwrap_or("").len(),
        Call::FromUnits | Call::Clone | Call::PushWtf8 => len,
        Call::ToStringLossy if text.is_none() => len,
        Call::HexDump | Call::AppendHexDump => len.saturating_mul(3),
        Call::AppendUnits | Call::AppendUnitsTwice => count.saturating_mul(2),
        _ => 0,
    }
}

/// The memory that a call requests, which is not `FromUnits` of a string with other than one byte for each unit.
fn room_after(call: Call, sample: &Sample<Lent<'_>>) -> Room {
    let view = sample.text.as_wtf8();
    let bytes = bytes_of(call, sample.units.len(), view.as_str(), view.len());
    match call {
        Call::FromIter | Call::Extend | Call::ApplyExtend => room_extended(NO_ROOM, sample),
        Call::PushEach => room_pushed(sample),
        Call::JoinWtf8 => room_with_view(3, sample),
        Call::ApplyAll => room_extended(room_with_view(0, sample), sample),
        Call::AppendUnitsTwice => room_appended_twice(bytes),
        Call::Reserve | Call::PushStr | Call::PushWtf8 | Call::AppendHexDump | Call::AppendUnits =>
            room_appended(bytes),
        _ => room_of(bytes),
    }
}

/// Whether a string made of units requested its bytes alone, or first one byte for each unit: it has no spare capacity.
fn is_exact(sample: &Sample<Lent<'_>>, requests: u64, bytes: usize) -> bool {
    let len = sample.text.as_wtf8().len();
    let both = len.saturating_add(sample.units.len());
    (requests == 1 && bytes == len) || (requests == 2 && bytes == both)
}

/// Whether a call requested the memory that it must. One that makes a string of units may request a byte for each first,
/// which depends on the blocks in which they are encoded.
fn is_as_needed(call: Call, sample: &Sample<Lent<'_>>, requests: u64, bytes: usize) -> bool {
    let is_in_blocks = matches!(call, Call::FromUnits)
        && sample.text.as_wtf8().len() != sample.units.len();
    if is_in_blocks {
        return is_exact(sample, requests, bytes);
    }
    let room = room_after(call, sample);
    bytes == room.bytes && requests == room.requests
}

/// Fails unless the call succeeds if all is granted, with the expected number of requests and of bytes. Returns the
/// number of requests.
fn expect_granted<'a>(
    heap: Lent<'a>,
    call: Call,
    sample: &Sample<Lent<'a>>,
) -> Result<u64, Failed> {
    heap.grant(u64::MAX);
    if !succeeds(heap, call, sample) {
        return Err(Failed::by(Wrong::Outcome));
    }
    let (requests, bytes) = (heap.requests(), heap.bytes());
    if !is_as_needed(call, sample, requests, bytes) {
        return Err(Failed::by(Wrong::Requests));
    }
    Ok(requests)
}

/// Fails unless each call on a sample succeeds if all is granted, with the expected number of requests and of bytes, and, if
/// `is_refused`, fails at each request that is refused.
fn expect_calls<'a>(heap: Lent<'a>, sample: &Sample<Lent<'a>>, is_refused: bool) -> Check {
    for call in &CALLS {
        let call = *call;
        let requests = expect_granted(heap, call, sample)?;
        if is_refused {
            expect_refused(heap, call, sample, requests)?;
        }
    }
    Ok(())
}

/// Fails unless `expect_calls` succeeds on `length` units that repeat `kind`.
fn expect_length(
    alloc: Global,
    heap: Lent<'_>,
    (kind, length): (&[u16; 8], usize),
    is_refused: bool,
) -> Check {
    let sample = made!(sample_of(alloc, heap, kind, length));
    expect_calls(heap, &sample, is_refused)
}

#[test]
fn each_call_is_done_at_each_length(rt: HostRuntime) -> Check {
    let alloc = rt.alloc();
    let heap = Refusing::new(alloc, 0);
    for kind in &KINDS {
        for index in 0..LENGTHS {
            let length = length_at(index);
            assert_row!(length, expect_length(alloc, &heap, (kind, length), false));
        }
    }
    Ok(())
}

#[test]
fn each_call_is_done_about_powers_of_two(rt: HostRuntime) -> Check {
    let alloc = rt.alloc();
    let heap = Refusing::new(alloc, 0);
    for (unit, lengths) in &ABOUT_POWERS {
        for length in *lengths {
            assert_row!(
                *length,
                expect_length(alloc, &heap, (&[*unit; 8], *length), false)
            );
        }
    }
    Ok(())
}

/// The lengths in units at which each request is refused in turn.
static REFUSED: [usize; 15] = [0, 1, 2, 3, 8, 15, 16, 17, 31, 32, 33, 64, 100, 300, 1000];

#[test]
fn each_call_fails_at_each_refusal(rt: HostRuntime) -> Check {
    let alloc = rt.alloc();
    let heap = Refusing::new(alloc, 0);
    for kind in &KINDS {
        for length in &REFUSED {
            let length = *length;
            assert_row!(length, expect_length(alloc, &heap, (kind, length), true));
        }
    }
    Ok(())
}
