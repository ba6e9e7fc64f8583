// Requests for memory of calls on a text: their number, the bytes in them, and what a refused one leaves.
use crate::memory::MakeText::{FromUnits, Slice};
use crate::shared::{has_bytes, has_text, slice_of, text_of};
use refusing::{Lent, REFUSALS, Refusal, Refusing};
use std::alloc::{AllocError, Allocator, Global};
use unit_text::UnitText;
use wtf8::Wtf8;

/// A call that makes a text.
#[derive(Clone, Copy)]
pub enum MakeText {
    FromUnits(&'static [u16]),
    FromStr(&'static str),
    /// `slice_units` from one index to before another.
    Slice(usize, usize),
    Clone,
}

/// The units of a text and its bytes, a call on it that makes a text, and of that the bytes, the number of requests, and the
/// number of bytes in them. A growth is to the greatest of eight bytes, twice the capacity and what is needed.
pub type Made = (
    (&'static [u16], &'static str),
    MakeText,
    (&'static str, u64, usize),
);

/// Makes the call. Fails too if a `Slice` has no range of the text's units.
fn make<A: Allocator + Clone + Drop>(
    heap: A,
    text: &UnitText<A>,
    make: MakeText,
) -> Result<UnitText<A>, AllocError> {
    match make {
        MakeText::FromUnits(units) => UnitText::from_units(heap, units),
        MakeText::FromStr(value) => UnitText::from_str(heap, value),
        MakeText::Slice(begin, end) => slice_of(heap, text, begin, end),
        MakeText::Clone => text.clone(),
    }
}

/// Refuses each request of the row's call in turn. Whether the call fails and makes no more requests.
fn is_unmade<'a>(
    heap: Lent<'a>,
    text: &UnitText<Lent<'a>>,
    (_, call, (_, requests, _)): Made,
) -> bool {
    for refusal in REFUSALS {
        for granted in 0..requests {
            heap.refuse_after(granted, refusal);
            if make(heap, text, call).is_ok() || heap.requests() != granted.wrapping_add(1) {
                return false;
            }
        }
    }
    true
}

/// Whether the row's call made its text, with its requests.
fn is_made<'a>(
    alloc: Global,
    heap: Lent<'a>,
    made: Result<UnitText<Lent<'a>>, AllocError>,
    (_, _, (dump, requests, bytes)): Made,
) -> bool {
    match made {
        Ok(made) => {
            heap.requests() == requests
                && heap.bytes() == bytes
                && has_bytes(alloc, made.as_wtf8(), dump)
        }
        Err(_) => false,
    }
}

/// Whether the row's call fails at each of its requests that is refused, makes its text if `grants` requests are
/// granted, and leaves the text of its units as it was.
fn is_right_make(alloc: Global, row: Made, grants: u64) -> bool {
    let ((units, bytes), call, _) = row;
    let heap = Refusing::new(alloc, 9);
    let text = text_of(&heap, units);
    let is_refused = is_unmade(&heap, &text, row);
    heap.grant(grants);
    let made = make(&heap, &text, call);
    is_made(alloc, &heap, made, row) && is_refused && has_text(alloc, &text, units, bytes)
}

/// Whether `is_right_make` holds with just the requests granted that the row's call makes, and with more.
pub fn is_right(alloc: Global, row: Made) -> bool {
    is_right_make(alloc, row, row.2.1) && is_right_make(alloc, row, 9)
}

/// Whether `is_right` holds of each row.
pub fn are_right(alloc: Global, rows: &[Made]) -> bool {
    for row in rows {
        if !is_right(alloc, *row) {
            return false;
        }
    }
    true
}

/// The bytes of six times U+E000.
const SIX_DUMP: &str = "EE 80 80 EE 80 80 EE 80 80 EE 80 80 EE 80 80 EE 80 80";

/// No units, and no slice of them.
static NO_UNITS: [Made; 2] = [
    ((&[], ""), FromUnits(&[]), ("", 0, 0)),
    ((&[], ""), Slice(0, 0), ("", 0, 0)),
];

#[test]
fn no_units_ask_for_no_memory(rt: HostRuntime) {
    assert!(rt; are_right(rt.alloc(), &NO_UNITS));
}

/// The empty slice inside a pair.
static EMPTY_SLICE: Made = ((&[0xD83D, 0xDCA9], "F0 9F 92 A9"), Slice(1, 1), ("", 0, 0));

#[test]
fn an_empty_slice_asks_for_no_memory(rt: HostRuntime) {
    assert!(rt; is_right(rt.alloc(), EMPTY_SLICE));
}

/// Slices of units of three bytes, and slices that split surrogate pairs.
static SLICES: [Made; 7] = [
    ((&[0xE000; 6], SIX_DUMP), Slice(0, 6), (SIX_DUMP, 1, 18)),
    (
        (&[0xE000; 6], SIX_DUMP),
        Slice(3, 6),
        ("EE 80 80 EE 80 80 EE 80 80", 1, 9),
    ),
    ((&[0xE000; 6], SIX_DUMP), Slice(2, 3), ("EE 80 80", 1, 8)),
    ((&[0xE000; 6], SIX_DUMP), Slice(3, 3), ("", 0, 0)),
    (
        (&[0xD83D, 0xDCA9], "F0 9F 92 A9"),
        Slice(1, 2),
        ("ED B2 A9", 1, 8),
    ),
    (
        (&[0xD83D, 0xDCA9, 0xD83D, 0xDCA9], "F0 9F 92 A9 F0 9F 92 A9"),
        Slice(1, 3),
        ("ED B2 A9 ED A0 BD", 1, 8),
    ),
    (
        (
            &[
                0xD83D, 0xDCA9, 0xD83D, 0xDCA9, 0xD83D, 0xDCA9, 0xD83D, 0xDCA9,
            ],
            "F0 9F 92 A9 F0 9F 92 A9 F0 9F 92 A9 F0 9F 92 A9",
        ),
        Slice(1, 7),
        ("ED B2 A9 F0 9F 92 A9 F0 9F 92 A9 ED A0 BD", 2, 8 + 16),
    ),
];

#[test]
fn a_slice_asks_for_what_it_needs(rt: HostRuntime) {
    for index in 0..SLICES.len() {
        assert!(rt; is_right(rt.alloc(), SLICES[index]), "row {index}");
    }
}

/// Texts of units, whose bytes are requested at once.
static TEXTS: [Made; 2] = [
    ((&[], ""), FromUnits(&[0xE000; 6]), (SIX_DUMP, 1, 18)),
    (
        (&[], ""),
        FromUnits(&[0xE000; 17]),
        (
            "EE 80 80 EE 80 80 EE 80 80 EE 80 80 EE 80 80 EE 80 80 EE 80 80 EE 80 80 EE 80 80 EE 80 80 EE 80 80 EE 80 80 EE 80 80 EE 80 80 EE 80 80 EE 80 80 EE 80 80",
            1,
            51,
        ),
    ),
];

#[test]
fn a_text_of_units_asks_for_what_it_needs(rt: HostRuntime) {
    assert!(rt; are_right(rt.alloc(), &TEXTS));
}

/// A call that appends to a text.
#[derive(Clone, Copy)]
pub enum Append {
    Units(&'static [u16]),
    Str(&'static str),
    /// `push_wtf8`.
    View(&'static str),
    /// `concat` of the text of these units.
    Concat(&'static [u16]),
}

/// The units of a text and its bytes, and a call that appends to it; after it the number of units, a number of units at the
/// front, and their bytes; and the number of requests, and of the bytes in them.
pub type Appended = (
    (&'static [u16], &'static str),
    Append,
    (usize, usize, &'static str),
    (u64, usize),
);

/// The units of the text that the call appends, if it does.
fn piece_of(append: Append) -> &'static [u16] {
    match append {
        Append::Concat(units) => units,
        _ => &[],
    }
}

/// Makes the call, of which `piece` is the text of its `piece_of`.
fn append_to<A: Allocator>(
    text: &mut UnitText<A>,
    append: Append,
    piece: &UnitText<A>,
) -> Result<(), AllocError> {
    match append {
        Append::Units(units) => text.push_units(units),
        Append::Str(value) => text.push_str(value),
        Append::View(value) => text.push_wtf8(Wtf8::from_str(value)),
        Append::Concat(_) => text.concat(piece),
    }
}

/// Whether the text has the units and the bytes that the row's call leaves.
fn is_end<'a>(
    alloc: Global,
    heap: Lent<'a>,
    text: &UnitText<Lent<'a>>,
    (_, _, (unit_len, n, dump), _): Appended,
) -> bool {
    heap.grant(9);
    match slice_of(heap, text, 0, n) {
        Ok(front) => { text.unit_len() == unit_len && has_bytes(alloc, front.as_wtf8(), dump) }
        Err(_) => false,
    }
}

/// Whether the row's call, after `granted` requests, made all of its own if `is_granted`, and else one more than these.
fn is_counted(
    heap: Lent<'_>,
    (_, _, _, (requests, bytes)): Appended,
    granted: u64,
    is_granted: bool,
) -> bool {
    if is_granted {
        return heap.requests() == requests && heap.bytes() == bytes;
    }
    heap.requests() == granted.wrapping_add(1) && (requests > 1 || heap.bytes() == bytes)
}

/// Makes the row's call. Whether it appends its units if its requests are all granted, and else changes nothing, makes no
/// more requests, and appends its units if it is then made again.
fn is_right_call<'a>(
    alloc: Global,
    heap: Lent<'a>,
    text: &mut UnitText<Lent<'a>>,
    (row, granted): (Appended, u64),
    piece: &UnitText<Lent<'a>>,
) -> bool {
    let ((units, dump), call, _, (requests, _)) = row;
    let is_granted = requests <= granted;
    if append_to(text, call, piece).is_ok() != is_granted
        || !is_counted(heap, row, granted, is_granted)
    {
        return false;
    }
    if !is_granted {
        let is_kept = has_text(alloc, text, units, dump);
        heap.grant(9);
        if !is_kept || append_to(text, call, piece).is_err() {
            return false;
        }
    }
    piece.unit_len() == piece_of(call).len() && is_end(alloc, heap, text, row)
}

/// Whether `is_right_call` holds with `granted` requests granted, and the following ones, or the next one alone, refused.
fn is_right_append(alloc: Global, row: Appended, granted: u64, refusal: Refusal) -> bool {
    let ((units, _), call, ..) = row;
    let heap = Refusing::new(alloc, 9);
    let mut text = text_of(&heap, units);
    let piece = text_of(&heap, piece_of(call));
    heap.refuse_after(granted, refusal);
    is_right_call(alloc, &heap, &mut text, (row, granted), &piece)
}

/// Whether each row's call appends its units with just its requests granted, and with more, and changes nothing if one of
/// them is refused.
pub fn are_appended(alloc: Global, rows: &[Appended]) -> bool {
    for row in rows {
        for refusal in REFUSALS {
            for granted in 0..=row.3.0 {
                if !is_right_append(alloc, *row, granted, refusal) {
                    return false;
                }
            }
            if !is_right_append(alloc, *row, 9, refusal) {
                return false;
            }
        }
    }
    true
}

/// The empty text, appended to a lead.
static NOTHING: [Appended; 1] = [(
    (&[0xD83D], "ED A0 BD"),
    Append::Concat(&[]),
    (1, 1, "ED A0 BD"),
    (0, 0),
)];

#[test]
fn the_empty_text_asks_for_no_memory(rt: HostRuntime) {
    assert!(rt; are_appended(rt.alloc(), &NOTHING));
}

/// 100 trail surrogates after "a" and a lead, which need 302 bytes.
static TRAILS: [Appended; 1] = [(
    (&[0x61, 0xD83D], "61 ED A0 BD"),
    Append::Concat(&[0xDCA9; 100]),
    (102, 3, "61 F0 9F 92 A9"),
    (1, 302),
)];

#[test]
fn a_refused_text_is_not_appended(rt: HostRuntime) {
    assert!(rt; are_appended(rt.alloc(), &TRAILS));
}
