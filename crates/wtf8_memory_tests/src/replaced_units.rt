// Code units replaced in the middle of a string, by units and by a string: at each spare capacity, with every request for
// memory refused.
use refusing::{Lent, Refusing};
use std::alloc::{AllocError, Allocator, Global};
use wtf8::{Wtf8, Wtf8Buf};
use wtf8_tests::examples::expect_units;
use wtf8_tests::unit_edits::{EDITS, Edit};
use wtf8_tests::wrong::{Check, Failed, Made, Wrong, each_row, expect, expect_bytes, made};

/// Replaces the units of a row, by the string if one is given.
fn replace<A: Allocator>(
    text: &mut Wtf8Buf<A>,
    ((_, (begin, end), other), _): Edit,
    new: Option<Wtf8<'_>>,
) -> Made<()> {
    let view = text.as_wtf8();
    if end < begin || view.unit_len() < end {
        return Err(AllocError);
    }
    let from = view.mark_at(view.start_mark(), begin);
    let to = view.mark_at(view.start_mark(), end);
    match new {
        Some(new) => text.replace_at(from, begin, to, end, new),
        None => text.replace_units_at(from, begin, to, end, other),
    }
}

/// The string of the row's units, with a capacity of `capacity` bytes, or of what they need.
fn with_capacity<'a>(
    heap: Lent<'a>,
    ((units, ..), _): Edit,
    capacity: usize,
) -> Result<Wtf8Buf<Lent<'a>>, Failed> {
    heap.grant(2);
    let mut text = made!(Wtf8Buf::with_capacity(heap, capacity));
    match text.push_ill_formed_utf16(units) {
        Ok(()) => Ok(text),
        Err(_) => Err(Failed::by(Wrong::Memory)),
    }
}

/// Fails unless the row's units are replaced without a request if the new bytes, of which the dump has `len`, fit, and
/// otherwise the string stays as it was.
fn expect_replaced(
    alloc: Global,
    heap: Lent<'_>,
    edit: Edit,
    new: Option<Wtf8<'_>>,
    (len, capacity): (usize, usize),
) -> Check {
    let ((units, ..), (_, dump)) = edit;
    let mut text = made!(with_capacity(heap, edit, capacity));
    let fits = len <= text.capacity();
    heap.grant(0);
    if replace(&mut text, edit, new).is_ok() != fits {
        return Err(Failed::by(Wrong::Outcome));
    }
    expect((heap.requests() == 0) == fits, Wrong::Requests)?;
    if fits {
        return expect_bytes(alloc, text.as_wtf8(), dump);
    }
    expect_units(alloc, text.as_wtf8(), units)
}

/// Fails unless the row's units are replaced just if the bytes fit, at each capacity up to what is needed.
fn expect_row(alloc: Global, heap: Lent<'_>, edit: Edit) -> Check {
    let ((_, _, other), (_, dump)) = edit;
    let len = dump.len().wrapping_add(1) / 3;
    let new = made!(Wtf8Buf::from_ill_formed_utf16(alloc, other));
    for capacity in 0..=len {
        expect_replaced(alloc, heap, edit, None, (len, capacity))?;
        expect_replaced(alloc, heap, edit, Some(new.as_wtf8()), (len, capacity))?;
    }
    Ok(())
}

#[test]
fn units_are_replaced_without_a_request_just_if_they_fit(rt: HostRuntime) -> Check {
    let alloc = rt.alloc();
    let heap = Refusing::new(alloc, 0);
    each_row!(edit in EDITS => expect_row(alloc, &heap, edit))
}
