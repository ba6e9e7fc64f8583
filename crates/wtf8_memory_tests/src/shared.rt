// Strings and calls that several test modules use.
use refusing::{Lent, REFUSALS, Refusal};
use std::alloc::{Allocator, Global};
use wtf8::{Build, CodePoint, UnitSlice, Wtf8Buf};
use wtf8_tests::wrong::{Check, Failed, Made, Wrong, assert_row, expect_bytes, made};

/// The bytes of "a" and D83D.
pub const FULL: &str = "61 ED A0 BD";

/// A string of "a" and D83D with a capacity of `capacity` bytes.
pub fn filled<A: Allocator + Drop>(alloc: A, capacity: usize) -> Result<Wtf8Buf<A>, Failed> {
    let mut text = made!(Wtf8Buf::with_capacity(alloc, capacity));
    let calls = [
        Build::PushChar('a'),
        Build::Push(CodePoint::from_unit(0xD83D)),
    ];
    made!(call_each(&mut text, &calls));
    Ok(text)
}

/// A string of "a" and D83D, whose four bytes fill its capacity.
pub fn full(heap: Lent<'_>) -> Result<Wtf8Buf<Lent<'_>>, Failed> {
    heap.grant(1);
    filled(heap, 4)
}

/// Appends `length` times "a".
pub fn push_letters<A: Allocator>(text: &mut Wtf8Buf<A>, length: usize) -> Made<()> {
    for _ in 0..length {
        text.push_char('a')?;
    }
    Ok(())
}

/// Truncates to a byte position, if that is a boundary.
fn truncate<A: Allocator>(text: &mut Wtf8Buf<A>, position: usize) {
    if text.as_wtf8().is_code_point_boundary(position) {
        text.truncate(position);
    }
}

/// Truncates to `n` code units, if the string has at least `n`.
fn truncate_units<A: Allocator>(text: &mut Wtf8Buf<A>, n: usize) {
    if n <= text.as_wtf8().unit_len() {
        text.truncate_units(n);
    }
}

/// Makes a call by the method of its name; a truncation only at a boundary, or to a number of units that are there.
pub fn call_named<A: Allocator>(text: &mut Wtf8Buf<A>, call: Build<'_>) -> Made<()> {
    match call {
        Build::Push(code_point) => text.push(code_point),
        Build::PushChar(c) => text.push_char(c),
        Build::PushStr(piece) => text.push_str(piece),
        Build::PushWtf8(piece) => text.push_wtf8(piece),
        Build::Extend(points) => text.extend(points.iter().copied()),
        Build::Reserve(additional) => text.reserve(additional),
        Build::Truncate(position) => {
            truncate(text, position);
            Ok(())
        }
        Build::TruncateUnits(n) => {
            truncate_units(text, n);
            Ok(())
        }
    }
}

/// Makes calls one after another, each by the method of its name.
pub fn call_each<A: Allocator>(text: &mut Wtf8Buf<A>, calls: &[Build<'_>]) -> Made<()> {
    for call in calls {
        call_named(text, *call)?;
    }
    Ok(())
}

/// A change of a string.
#[derive(Clone, Copy)]
pub enum Change<'a> {
    /// A building call, by the method of its name.
    Method(Build<'a>),
    /// A building call, by `apply`.
    Apply(Build<'a>),
    /// `push_unit`.
    PushUnit(u16),
    /// `push_ill_formed_utf16`.
    PushUnits(&'a [u16]),
    /// `push_unit_slice`.
    PushSlice(UnitSlice<'a>),
    /// `push_utf8_lossy`.
    PushLossy(&'a [u8]),
    /// `push_utf8_lossy_part`, and the number of bytes that it uses.
    PushLossyPart(&'a [u8], usize),
    /// `clear`.
    Clear,
}

/// `Some(true)` for a change that was made, or `None` for one whose request was refused.
fn outcome_of(returned: Made<()>) -> Option<bool> {
    match returned {
        Ok(()) => Some(true),
        Err(_) => None,
    }
}

/// Makes a change. Returns whether it was made, which `apply` denies of a truncation, or `None` if a request was refused; of
/// part of some bytes whether it used the right number.
pub fn changes<A: Allocator>(text: &mut Wtf8Buf<A>, change: Change<'_>) -> Option<bool> {
    match change {
        Change::Method(call) => outcome_of(call_named(text, call)),
        Change::Apply(call) => text.apply(call).ok(),
        Change::PushUnit(unit) => outcome_of(text.push_unit(unit)),
        Change::PushUnits(units) => outcome_of(text.push_ill_formed_utf16(units)),
        Change::PushSlice(slice) => outcome_of(text.push_unit_slice(slice)),
        Change::PushLossy(bytes) => outcome_of(text.push_utf8_lossy(bytes)),
        Change::PushLossyPart(bytes, used) => match text.push_utf8_lossy_part(bytes) {
            Ok(found) => Some(found == used),
            Err(_) => None,
        },
        Change::Clear => {
            text.clear();
            Some(true)
        }
    }
}

/// Makes a change, and returns whether it was made.
pub fn succeeds<A: Allocator>(text: &mut Wtf8Buf<A>, change: Change<'_>) -> bool {
    matches!(changes(text, change), Some(true))
}

/// A change, what `changes` returns for it, and the bytes after it.
pub type Step<'a> = (Change<'a>, Option<bool>, &'static str);

/// Fails unless a change comes to what its row says, and leaves the bytes of the row.
pub fn expect_step<A: Allocator>(alloc: Global, text: &mut Wtf8Buf<A>, row: Step<'_>) -> Check {
    let (change, outcome, dump) = row;
    if changes(text, change) != outcome {
        return Err(Failed::by(Wrong::Outcome));
    }
    expect_bytes(alloc, text.as_wtf8(), dump)
}

/// Fails unless each change in turn does what its row says.
pub fn expect_steps<A: Allocator>(
    alloc: Global,
    text: &mut Wtf8Buf<A>,
    rows: &[Step<'_>],
) -> Check {
    let mut index = 0usize;
    for row in rows {
        assert_row!(index, expect_step(alloc, text, *row));
        index = index.wrapping_add(1);
    }
    Ok(())
}

/// Makes a change of the string of "a" and D83D, whose four bytes fill its capacity. Fails unless it is made, with this number of
/// requests, and of bytes in them, and leaves the bytes of `dump`.
pub fn expect_granted(
    alloc: Global,
    heap: Lent<'_>,
    change: Change<'_>,
    (requests, bytes): (u64, usize),
    dump: &str,
) -> Check {
    let mut text = made!(full(heap));
    heap.grant(9);
    let is_changed = succeeds(&mut text, change);
    if !is_changed || heap.requests() != requests || heap.bytes() != bytes {
        return Err(Failed::by(Wrong::Requests));
    }
    expect_bytes(alloc, text.as_wtf8(), dump)
}

/// Makes a change of the same string. Fails unless it fails at the request after `granted` ones, which is refused, and leaves the
/// bytes of `dump`.
pub fn expect_refused(
    alloc: Global,
    heap: Lent<'_>,
    change: Change<'_>,
    (granted, refusal): (u64, Refusal),
    dump: &str,
) -> Check {
    let mut text = made!(full(heap));
    heap.refuse_after(granted, refusal);
    let is_changed = succeeds(&mut text, change);
    if is_changed || heap.requests() != granted.wrapping_add(1) {
        return Err(Failed::by(Wrong::Requests));
    }
    expect_bytes(alloc, text.as_wtf8(), dump)
}

/// Fails unless the change fails at each of its requests that is refused, and leaves the string as it was.
pub fn expect_each_refused(
    alloc: Global,
    heap: Lent<'_>,
    change: Change<'_>,
    requests: u64,
) -> Check {
    for refusal in REFUSALS {
        for granted in 0..requests {
            expect_refused(alloc, heap, change, (granted, refusal), FULL)?;
        }
    }
    Ok(())
}
