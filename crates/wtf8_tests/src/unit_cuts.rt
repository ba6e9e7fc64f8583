// Truncation to every number of code units.
use crate::examples::{JOINING, LISTS, expect_made, expect_units, long_list};
use crate::wrong::{Check, Failed, Wrong, assert_row, each_number, made};
use refusing::{Lent, REFUSALS, Refusal, Refusing};
use std::alloc::{Allocator, Global};
use wtf8::{Build, Wtf8Buf};

/// The call that truncates.
#[derive(Clone, Copy)]
enum Cut {
    Apply,
    TruncateUnits,
    TruncateUnitsAt,
}

/// Truncates the string to `n` code units at the mark for `n`, found back from the end, if it has at least `n`.
fn cut_at_mark<A: Allocator>(text: &mut Wtf8Buf<A>, n: usize) {
    let view = text.as_wtf8();
    let end = view.mark_before(view.start_mark(), view.len());
    if n <= end.units {
        let mark = view.mark_back(end, n);
        text.truncate_units_at(mark, n);
    }
}

/// Truncates the string of `units` to `n` code units, by a method only if it has at least `n`. Returns whether `apply`,
/// if it is called, says whether there were at least `n`.
fn cuts<A: Allocator>(text: &mut Wtf8Buf<A>, units: &[u16], n: usize, cut: Cut) -> bool {
    match cut {
        Cut::Apply => text.apply(Build::TruncateUnits(n)) == Ok(n <= units.len()),
        Cut::TruncateUnits => {
            if n <= text.as_wtf8().unit_len() {
                text.truncate_units(n);
            }
            true
        }
        Cut::TruncateUnitsAt => {
            cut_at_mark(text, n);
            true
        }
    }
}

/// Whether truncation with every request refused, or the first alone, has the right result and makes no request.
fn cuts_without_memory(
    heap: Lent<'_>,
    text: &mut Wtf8Buf<Lent<'_>>,
    units: &[u16],
    n: usize,
    cut: Cut,
    refusal: Refusal,
) -> bool {
    heap.refuse_after(0, refusal);
    cuts(text, units, n, cut) && heap.requests() == 0
}

/// Truncates the string of `units` to `n` with every request refused or the first
/// alone. Fails unless the result is right, without a request, and leaves the first `n` units, or all.
fn expect_cut(
    alloc: Global,
    heap: Lent<'_>,
    units: &[u16],
    n: usize,
    cut: Cut,
    refusal: Refusal,
) -> Check {
    heap.grant(1_000);
    let mut text = made!(Wtf8Buf::from_ill_formed_utf16(heap, units));
    if !cuts_without_memory(heap, &mut text, units, n, cut, refusal) {
        return Err(Failed::by(Wrong::Outcome));
    }
    expect_units(alloc, text.as_wtf8(), &units[..n.min(units.len())])
}

/// Fails unless truncation to `n` units is right.
fn expect_cut_at(alloc: Global, heap: Lent<'_>, units: &[u16], n: usize) -> Check {
    for refusal in REFUSALS {
        for cut in [Cut::Apply, Cut::TruncateUnits, Cut::TruncateUnitsAt] {
            expect_cut(alloc, heap, units, n, cut, refusal)?;
        }
    }
    Ok(())
}

/// Fails unless truncation to each number of units, up to two past the end, is right.
fn expect_each_cut(alloc: Global, units: &[u16]) -> Check {
    let heap = Refusing::new(alloc, 0);
    for n in 0..units.len().saturating_add(3) {
        expect_cut_at(alloc, &heap, units, n)?;
    }
    Ok(())
}

#[test]
fn truncate_units_keeps_the_first_units_without_memory(rt: HostRuntime) -> Check {
    let alloc = rt.alloc();
    for row in 0..JOINING.len() {
        let (units, _, dump) = JOINING[row];
        let made = Wtf8Buf::from_ill_formed_utf16(alloc, units);
        assert_row!(row, expect_made(alloc, made, dump));
        assert_row!(row, expect_each_cut(alloc, units));
    }
    for index in 0..LISTS.len() {
        let row = JOINING.len().wrapping_add(index);
        assert_row!(row, expect_each_cut(alloc, LISTS[index]));
    }
    Ok(())
}

#[test]
fn truncate_units_is_right_near_block_edges(rt: HostRuntime) -> Check {
    let alloc = rt.alloc();
    each_number!(letters in 20..36 => {
        let units = made!(long_list(alloc, letters));
        expect_each_cut(alloc, &units)
    })
}

/// Whether four of five truncations of "a" and a pair are refused: to more units than are left, and within a lead.
fn refuses_four(text: &mut Wtf8Buf<Global>) -> bool {
    let calls = [
        Build::TruncateUnits(4),
        Build::TruncateUnits(2),
        Build::TruncateUnits(3),
        Build::Truncate(3),
        Build::PushStr("b"),
        Build::TruncateUnits(usize::MAX),
    ];
    matches!(text.apply_all(&calls), Ok(4))
}

#[test]
fn refused_truncations_are_counted(rt: HostRuntime) -> Check {
    let alloc = rt.alloc();
    let mut text = made!(Wtf8Buf::from_str(alloc, "a💩"));
    assert!(rt; refuses_four(&mut text));
    expect_units(alloc, text.as_wtf8(), &[0x61, 0xD83D, 0x62])
}
