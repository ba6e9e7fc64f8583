// Calls that make a string or a text: the requests for memory that each makes, and that it fails if one of them is
// refused.
use crate::samples::{Call, Sample, expect_refused, sample_with, succeeds};
use crate::shared::push_letters;
use refusing::{Lent, Refusing};
use std::alloc::{AllocError, Global};
use wtf8::Wtf8Buf;
use wtf8_tests::examples::expect_units;
use wtf8_tests::wrong::{Check, Failed, Made, Wrong, each_number, each_row, made};

/// A call, the units of a string that it is made on, of which `WithCapacity` takes the number, and the number of requests, and
/// of the bytes in them.
type Row = (Call, &'static [u16], u64, usize);

/// A growing string requests the greatest of eight bytes, twice its capacity and what is needed. A string made of units
/// requests just its bytes, or, if there are 32 units or more and the first is ASCII, one for each unit first.
static ROWS: [Row; 22] = [
    (Call::WithCapacity, &[0x61], 1, 1),
    (Call::WithCapacity, &[0x61; 1000], 1, 1000),
    (Call::FromStr, &[0x61], 1, 1),
    (Call::FromUtf8, &[0x4E2D], 1, 3),
    (Call::FromUtf8, &[0x61; 100], 1, 100),
    (Call::PushUtf8, &[0x4E2D], 1, 8),
    (Call::PushUtf8, &[0xE9; 100], 1, 200),
    (Call::FromUnits, &[0x61, 0x62], 1, 2),
    (Call::FromUnits, &[0xE000, 0xE000], 1, 6),
    (Call::FromUnits, &[0xD83D, 0xDCA9, 0x61], 1, 5),
    (Call::FromUnits, &[0xE000; 8], 1, 24),
    (Call::FromUnits, &[0xE000; 9], 1, 27),
    (Call::FromUnits, &[0xE000; 16], 1, 48),
    (Call::FromUnits, &[0xE000; 17], 1, 51),
    (Call::FromUnits, &[0xE9; 8], 1, 16),
    (Call::FromUnits, &[0xE9; 16], 1, 32),
    (
        Call::FromUnits,
        &[
            0x61, 0xE000, 0x61, 0xE000, 0x61, 0xE000, 0x61, 0xE000, 0x61, 0xE000, 0x61, 0xE000,
            0x61, 0xE000, 0x61, 0xE000,
        ],
        1,
        32,
    ),
    (Call::FromIter, &[0xE000, 0xE000], 1, 8),
    (Call::FromIter, &[0xE000, 0xE000, 0xE000], 2, 8 + 16),
    (Call::Clone, &[0x61, 0xD83D], 1, 4),
    (Call::ToStringLossy, &[0x61, 0xD83D], 1, 4),
    (Call::HexDump, &[0x61, 0xD83D], 1, 12),
];

/// Fails unless the call succeeds if all is granted, with the requests and bytes of the row.
fn expect_granted<'a>(
    heap: Lent<'a>,
    (call, _, requests, bytes): Row,
    sample: &Sample<Lent<'a>>,
) -> Check {
    heap.grant(9);
    let is_done = succeeds(heap, call, sample);
    if !is_done || heap.requests() != requests || heap.bytes() != bytes {
        return Err(Failed::by(Wrong::Requests));
    }
    Ok(())
}

/// Fails unless the row's call makes the requests of the row, or fails at each of them if `is_refused`.
fn expect_call<'a>(heap: Lent<'a>, row: Row, sample: &Sample<Lent<'a>>, is_refused: bool) -> Check {
    let (call, _, requests, _) = row;
    if is_refused {
        return expect_refused(heap, call, sample, requests);
    }
    expect_granted(heap, row, sample)
}

/// The sample of these units.
fn sample_of<'a>(alloc: Global, heap: Lent<'a>, units: &[u16]) -> Made<Sample<Lent<'a>>> {
    heap.grant(9);
    sample_with(alloc, heap, Vec::from_slice(alloc, units)?)
}

/// Fails unless the row's call on a string of its units is as `expect_call` says, and leaves the string unchanged.
fn expect_row(alloc: Global, heap: Lent<'_>, row: Row, is_refused: bool) -> Check {
    let (_, units, ..) = row;
    let sample = made!(sample_of(alloc, heap, units));
    expect_call(heap, row, &sample, is_refused)?;
    expect_units(alloc, sample.text.as_wtf8(), units)
}

/// Fails unless each row's call is as `expect_row` says.
fn expect_rows(alloc: Global, is_refused: bool) -> Check {
    let heap = Refusing::new(alloc, 0);
    each_row!(row in ROWS => expect_row(alloc, &heap, row, is_refused))
}

#[test]
fn a_making_call_makes_its_requests_and_no_other(rt: HostRuntime) -> Check {
    expect_rows(rt.alloc(), false)
}

#[test]
fn a_making_call_fails_at_each_refusal(rt: HostRuntime) -> Check {
    expect_rows(rt.alloc(), true)
}

/// The capacity of a clone.
fn cloned_capacity(text: &Wtf8Buf<Lent<'_>>) -> Made<usize> {
    let copy = made!(text.clone(), Err(AllocError));
    Ok(copy.capacity())
}

/// Fails unless a clone of the sample's text requests just its `letters` bytes, at once, and fails if that is refused.
fn expect_clone<'a>(heap: Lent<'a>, sample: &Sample<Lent<'a>>, letters: usize) -> Check {
    heap.grant(9);
    let capacity = cloned_capacity(&sample.text);
    let requests = u64::from(0 < letters);
    if capacity != Ok(letters) || heap.requests() != requests || heap.bytes() != letters {
        return Err(Failed::by(Wrong::Requests));
    }
    expect_refused(heap, Call::Clone, sample, requests)
}

/// The sample of `letters` times "a", with a capacity of at least 200 bytes.
fn sample_of_letters<'a>(alloc: Global, heap: Lent<'a>, letters: usize) -> Made<Sample<Lent<'a>>> {
    let mut sample = made!(sample_of(alloc, heap, &[]), Err(AllocError));
    sample.text.reserve(200)?;
    push_letters(&mut sample.text, letters)?;
    Ok(sample)
}

/// Fails unless a clone of a string of `letters` bytes, with a capacity of at least 200, makes one request for its
/// bytes alone, or none if it is empty.
fn expect_cloned(alloc: Global, heap: Lent<'_>, letters: usize) -> Check {
    let sample = made!(sample_of_letters(alloc, heap, letters));
    expect_clone(heap, &sample, letters)
}

#[test]
fn a_clone_has_no_spare_capacity(rt: HostRuntime) -> Check {
    let alloc = rt.alloc();
    let heap = Refusing::new(alloc, 0);
    each_number!(letters in [0, 1, 31, 32, 33, 64, 100, 199, 200] => expect_cloned(alloc, &heap, letters))
}
