// A string, the units and the code points that it is made of, and each call that requests memory on them.
use crate::shared::{Change, call_each, changes};
use refusing::{Lent, REFUSALS};
use std::alloc::{AllocError, Allocator, Global};
use wtf8::{Build, CodePoint, Wtf8, Wtf8Buf};
use wtf8_tests::examples::points_of_units;
use wtf8_tests::wrong::{Check, Made, Wrong, expect, made};

/// A string with spare capacity, and the units and the code points that it is made of.
#[derive(Drop)]
pub struct Sample<A: Allocator> {
    pub units: Vec<u16>,
    pub points: Vec<CodePoint>,
    pub text: Wtf8Buf<A>,
}

/// The string of these units, with 64 more bytes reserved.
fn text_of<A: Allocator + Drop>(heap: A, units: &[u16]) -> Made<Wtf8Buf<A>> {
    let mut text = made!(Wtf8Buf::from_ill_formed_utf16(heap, units), Err(AllocError));
    text.reserve(64)?;
    Ok(text)
}

/// The sample of these units.
pub fn sample_with<A: Allocator + Drop>(
    alloc: Global,
    heap: A,
    units: Vec<u16>,
) -> Made<Sample<A>> {
    let points = made!(points_of_units(alloc, &units), Err(AllocError));
    let text = made!(text_of(heap, &units), Err(AllocError));
    Ok(Sample {
        units,
        points,
        text,
    })
}

/// A call that requests memory.
#[derive(Clone, Copy)]
pub enum Call {
    WithCapacity,
    FromStr,
    FromUtf8,
    FromUnits,
    FromIter,
    Clone,
    Reserve,
    PushEach,
    PushStr,
    PushUtf8,
    PushWtf8,
    JoinWtf8,
    Extend,
    ApplyExtend,
    ApplyAll,
    ToStringLossy,
    HexDump,
    AppendHexDump,
    AppendUnits,
    AppendUnitsTwice,
}

/// Pushes code points one by one.
fn push_each<A: Allocator>(text: &mut Wtf8Buf<A>, points: &[CodePoint]) -> Made<()> {
    for point in points {
        text.push(*point)?;
    }
    Ok(())
}

/// Whether a lead surrogate, then a view, are appended.
fn joins<A: Allocator>(text: &mut Wtf8Buf<A>, view: Wtf8<'_>) -> bool {
    let lead = CodePoint::from_unit(0xD83D);
    call_each(text, &[Build::Push(lead), Build::PushWtf8(view)]).is_ok()
}

/// Whether a list of calls that appends a view, then code points, is applied.
fn applies<A: Allocator>(text: &mut Wtf8Buf<A>, view: Wtf8<'_>, points: &[CodePoint]) -> bool {
    let calls = [Build::PushWtf8(view), Build::Extend(points)];
    text.apply_all(&calls).is_ok()
}

/// The change of a call that is a single one; of any other call the one through `apply`.
fn change_of<'a>(call: Call, view: Wtf8<'a>, count: usize, points: &'a [CodePoint]) -> Change<'a> {
    match call {
        Call::Reserve => Change::Method(Build::Reserve(count)),
        Call::PushStr => Change::Method(Build::PushStr(view.as_str().unwrap_or(""))),
        Call::PushWtf8 => Change::Method(Build::PushWtf8(view)),
        Call::Extend => Change::Method(Build::Extend(points)),
        _ => Change::Apply(Build::Extend(points)),
    }
}

/// Whether the call on an empty string succeeds.
fn appends<A: Allocator>(text: &mut Wtf8Buf<A>, call: Call, sample: &Sample<A>) -> bool {
    let view = sample.text.as_wtf8();
    let points = sample.points.as_slice();
    match call {
        Call::PushEach => push_each(text, points).is_ok(),
        Call::PushUtf8 => text
            .push_utf8(view.as_str().unwrap_or("").as_bytes())
            .is_ok(),
        Call::JoinWtf8 => joins(text, view),
        Call::ApplyAll => applies(text, view, points),
        _ => changes(text, change_of(call, view, sample.units.len(), points)).is_some(),
    }
}

/// Appends the units of a view to a vector twice.
fn append_twice<A: Allocator>(units: &mut Vec<u16, A>, view: Wtf8<'_>) -> Made<()> {
    view.append_units(units)?;
    view.append_units(units)
}

/// Whether a string was made.
fn is_made<A: Allocator + Drop, E: Drop>(made: Result<Wtf8Buf<A>, E>) -> bool {
    made.is_ok()
}

/// Whether a call that makes a string succeeds.
fn makes<A: Allocator + Drop>(heap: A, call: Call, sample: &Sample<A>) -> bool {
    match call {
        Call::WithCapacity => is_made(Wtf8Buf::with_capacity(heap, sample.units.len())),
        Call::FromStr => {
            let text = sample.text.as_wtf8().as_str();
            is_made(Wtf8Buf::from_str(heap, text.unwrap_or("")))
        }
        Call::FromUtf8 => {
            let text = sample.text.as_wtf8().as_str();
            is_made(Wtf8Buf::from_utf8(heap, text.unwrap_or("").as_bytes()))
        }
        Call::FromUnits => is_made(Wtf8Buf::from_ill_formed_utf16(heap, &sample.units)),
        _ => is_made(Wtf8Buf::from_iter(heap, sample.points.iter().copied())),
    }
}

/// Whether a call that writes a text or the units succeeds.
fn writes<A: Allocator + Drop>(heap: A, call: Call, view: Wtf8<'_>) -> bool {
    match call {
        Call::ToStringLossy => view.to_string_lossy(heap).is_ok(),
        Call::HexDump => view.hex_dump(heap).is_ok(),
        Call::AppendHexDump => view.append_hex_dump(&mut Vec::new(heap)).is_ok(),
        Call::AppendUnits => view.append_units(&mut Vec::new(heap)).is_ok(),
        _ => append_twice(&mut Vec::new(heap), view).is_ok(),
    }
}

/// Whether the call succeeds.
pub fn succeeds<A: Allocator + Clone + Drop>(heap: A, call: Call, sample: &Sample<A>) -> bool {
    match call {
        Call::Clone => is_made(sample.text.clone()),
        Call::WithCapacity | Call::FromStr | Call::FromUtf8 | Call::FromUnits | Call::FromIter =>
            makes(heap, call, sample),
        Call::ToStringLossy
        | Call::HexDump
        | Call::AppendHexDump
        | Call::AppendUnits
        | Call::AppendUnitsTwice => writes(heap, call, sample.text.as_wtf8()),
        _ => appends(&mut Wtf8Buf::new(heap), call, sample),
    }
}

/// Refuses each request of the call in turn, for good and once. Fails unless the call fails and makes no more requests.
pub fn expect_refused<'a>(
    heap: Lent<'a>,
    call: Call,
    sample: &Sample<Lent<'a>>,
    requests: u64,
) -> Check {
    for refusal in REFUSALS {
        for granted in 0..requests {
            heap.refuse_after(granted, refusal);
            let is_done = succeeds(heap, call, sample);
            let is_counted = heap.requests() == granted.wrapping_add(1);
            expect(!is_done && is_counted, Wrong::Requests)?;
        }
    }
    Ok(())
}
