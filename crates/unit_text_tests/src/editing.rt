// Units inserted, removed and replaced at any index of a buffer, by units and by a string, with and without marks, and with
// memory refused.
use crate::shared::{KINDS, buf_has_units, buf_of, has_buf, units_of};
use refusing::{Lent, Refusing};
use std::alloc::{AllocError, Allocator, Global};
use unit_text::IndexedBuf;
use wtf8::Wtf8;
use wtf8_tests::unit_edits::{EDITS, Edit};

/// Makes the row's edit, by the call with the fewest arguments, or by a string of its new units. Fails also if the row's indexes
/// are past the end.
fn edit<A: Allocator>(
    buf: &mut IndexedBuf<A>,
    ((_, (begin, end), other), _): Edit,
    new: Option<Wtf8<'_>>,
) -> Result<(), AllocError> {
    if end < begin || buf.unit_len() < end {
        return Err(AllocError);
    }
    match new {
        Some(new) if begin == end => buf.insert(begin, new),
        Some(new) => buf.replace(begin, end, new),
        None if begin == end => buf.insert_units(begin, other),
        None if other.is_empty() => buf.remove_units(begin, end),
        None => buf.replace_units(begin, end, other),
    }
}

/// Whether the row's edit leaves its units and its bytes.
fn is_edited(alloc: Global, row: Edit, new: Option<Wtf8<'_>>) -> bool {
    let ((units, ..), (edited, dump)) = row;
    let mut buf = buf_of(alloc, units);
    edit(&mut buf, row, new).is_ok() && has_buf(alloc, &buf, edited, dump)
}

/// Whether the row's edit of a string without spare capacity is made just if its bytes fit, and else changes nothing, if
/// every request is refused.
fn is_refused_or_fits(heap: Lent<'_>, row: Edit, new: Option<Wtf8<'_>>) -> bool {
    let ((units, ..), (edited, dump)) = row;
    heap.grant(9);
    let mut buf = buf_of(heap, units);
    let fits = dump.len().wrapping_add(1) / 3 <= buf.capacity();
    heap.grant(0);
    let is_made = edit(&mut buf, row, new).is_ok();
    let units = if fits { edited } else { units };
    is_made == fits && (heap.requests() == 0) == fits && buf_has_units(&buf, units)
}

/// Whether the row's edit is right by units, or by a string of these.
fn is_right(alloc: Global, heap: Lent<'_>, row: Edit, is_string: bool) -> bool {
    let string = buf_of(alloc, row.0.2);
    let new = if is_string {
        Some(string.as_wtf8())
    } else {
        None
    };
    is_edited(alloc, row, new) && is_refused_or_fits(heap, row, new)
}

#[test]
fn each_edit_leaves_the_units_of_its_row(rt: HostRuntime) {
    let heap = Refusing::new(rt.alloc(), 0);
    for row in &EDITS {
        assert!(rt; is_right(rt.alloc(), &heap, *row, false));
    }
}

#[test]
fn each_string_that_is_put_in_leaves_the_units_of_its_row(rt: HostRuntime) {
    let heap = Refusing::new(rt.alloc(), 0);
    for row in &EDITS {
        assert!(rt; is_right(rt.alloc(), &heap, *row, true));
    }
}

/// Replaces units of the list as `replace_units` does of a buffer; the indexes are in order, and at most its length.
fn splice(alloc: Global, units: &[u16], (begin, end): (usize, usize), new: &[u16]) -> Vec<u16> {
    let mut spliced = Vec::new(alloc);
    let _ = spliced.extend_from_slice(units.split_at(begin.min(units.len())).0);
    let _ = spliced.extend_from_slice(new);
    let _ = spliced.extend_from_slice(units.split_at(end.min(units.len())).1);
    spliced
}

/// Whether a marked buffer of the units has the right ones after its units from `begin` to before `end` were replaced, by
/// units or by a string of these.
fn is_spliced(
    alloc: Global,
    units: &[u16],
    (begin, end): (usize, usize),
    new: &[u16],
    is_string: bool,
) -> bool {
    let mut buf = buf_of(alloc, units);
    buf.mark_units(alloc);
    if end < begin || buf.unit_len() < end {
        return false;
    }
    let text = buf_of(alloc, new);
    let made = if is_string {
        buf.replace(begin, end, text.as_wtf8())
    } else {
        buf.replace_units(begin, end, new)
    };
    made.is_ok() && buf_has_units(&buf, &splice(alloc, units, (begin, end), new))
}

/// Whether a marked buffer of units that repeat `kind` finds its units after edits about its marks.
fn is_marked_anew(alloc: Global, kind: &[u16; 6]) -> bool {
    let units = units_of(alloc, kind, 400);
    let new = [0xDC00, 0x3042, 0xD800];
    for begin in [0usize, 1, 127, 128, 129, 130, 256, 399, 400] {
        for count in [0usize, 1, 2, 140] {
            let range = (begin, begin.saturating_add(count).min(400));
            let is_right = is_spliced(alloc, &units, range, &new, false)
                && is_spliced(alloc, &units, range, &units, false)
                && is_spliced(alloc, &units, range, &[], false)
                && is_spliced(alloc, &units, range, &new, true)
                && is_spliced(alloc, &units, range, &units, true);
            if !is_right {
                return false;
            }
        }
    }
    true
}

#[test]
fn units_after_an_edit_are_found_by_marks(rt: HostRuntime) {
    for kind in &KINDS {
        assert!(rt; is_marked_anew(rt.alloc(), kind));
    }
}
