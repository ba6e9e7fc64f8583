// Units pushed to a string: at each spare capacity, with every request for memory refused, and with each refused in
// turn.
use crate::shared::{Change, FULL, expect_each_refused, expect_granted, succeeds};
use refusing::{Lent, Refusing};
use std::alloc::{AllocError, Allocator, Global};
use wtf8::{Wtf8, Wtf8Buf};
use wtf8_tests::examples::{JOINING, LISTS, expect_units, long_list};
use wtf8_tests::room::NO_ROOM;
use wtf8_tests::wrong::{
    Check, Failed, Made, Wrong, assert_row, each_number, expect, in_row, made,
};

/// A lead and its trail, by which a split between them joins.
static PAIR: [u16; 2] = [0xD83D, 0xDCA9];

/// Units of three bytes with a pair among them, then units of two bytes: a block of sixteen and six units more.
static WIDE: [u16; 22] = [
    0x3042, 0x3042, 0x3042, 0x3042, 0x3042, 0x3042, 0x3042, 0x3042, 0x3042, 0xD83D, 0xDCA9, 0x3042,
    0xE9, 0xE9, 0xE9, 0xE9, 0xE9, 0xE9, 0xE9, 0xE9, 0xE9, 0xDC00,
];

/// "a" and 17 units of three bytes. At most 12 units take a path of their own.
static FEW: [u16; 18] = [
    0x61, 0x3042, 0x3042, 0x3042, 0x3042, 0x3042, 0x3042, 0x3042, 0x3042, 0x3042, 0x3042, 0x3042,
    0x3042, 0x3042, 0x3042, 0x3042, 0x3042, 0x3042,
];

/// The length in bytes of the string of these units.
fn byte_len(units: &[u16]) -> usize {
    let mut room = NO_ROOM;
    room.push_each(0, units);
    room.len
}

/// Appends units one by one.
fn push_each<A: Allocator>(text: &mut Wtf8Buf<A>, units: &[u16]) -> Made<()> {
    for unit in units {
        text.push_unit(*unit)?;
    }
    Ok(())
}

/// The string of the units, pushed one by one to a capacity of just its bytes and `spare` more. Fails if that makes a
/// request besides the first one.
fn with_spare<'a>(
    heap: Lent<'a>,
    units: &[u16],
    spare: usize,
) -> Result<Wtf8Buf<Lent<'a>>, Failed> {
    let capacity = byte_len(units).wrapping_add(spare);
    heap.grant(1);
    let mut text = made!(Wtf8Buf::with_capacity(heap, capacity));
    heap.grant(0);
    made!(push_each(&mut text, units));
    Ok(text)
}

/// The number of bytes by which the string of `units` is longer than that of `front`, its first ones.
fn growth_of(front: &[u16], units: &[u16]) -> usize {
    byte_len(units).wrapping_sub(byte_len(front))
}

/// Makes a change of the string of `front`, which has `spare` bytes of spare capacity, with every request refused. The
/// change appends the rest of `units`. Fails unless that is done without a request if the bytes fit, and else changes
/// nothing.
fn expect_pushed(
    alloc: Global,
    heap: Lent<'_>,
    (front, spare): (&[u16], usize),
    change: Change<'_>,
    units: &[u16],
) -> Check {
    let mut text = made!(with_spare(heap, front, spare));
    let fits = growth_of(front, units) <= spare;
    let is_pushed = succeeds(&mut text, change);
    if is_pushed != fits {
        return Err(Failed::by(Wrong::Outcome));
    }
    expect((heap.requests() == 0) == fits, Wrong::Requests)?;
    expect_units(alloc, text.as_wtf8(), if fits { units } else { front })
}

/// Fails unless pushes of the units from index `cut` on, by `push_ill_formed_utf16` and by `push_unit_slice` of `whole`,
/// the string of all of them, do what `expect_pushed` requires at each spare capacity up to one byte more than they
/// need.
fn expect_cut(alloc: Global, heap: Lent<'_>, units: &[u16], whole: Wtf8<'_>, cut: usize) -> Check {
    let (front, back) = units.split_at(cut.min(units.len()));
    let end = whole.unit_len();
    let slice = whole.slice_units(cut.min(end), end);
    for spare in 0..=growth_of(front, units).saturating_add(1) {
        let start = (front, spare);
        expect_pushed(alloc, heap, start, Change::PushUnits(back), units)?;
        expect_pushed(alloc, heap, start, Change::PushSlice(slice), units)?;
    }
    Ok(())
}

/// Fails unless pushes from each index on do what `expect_cut` requires.
fn expect_each_push(alloc: Global, heap: Lent<'_>, units: &[u16]) -> Check {
    let whole = made!(Wtf8Buf::from_ill_formed_utf16(alloc, units));
    for cut in 0..=units.len() {
        expect_cut(alloc, heap, units, whole.as_wtf8(), cut)?;
    }
    Ok(())
}

/// A pair, `letters` times "a", and units of each kind.
fn around_letters(alloc: Global, letters: usize) -> Made<Vec<u16>> {
    let mut units = made!(Vec::from_slice(alloc, &PAIR), Err(AllocError));
    let list = made!(long_list(alloc, letters), Err(AllocError));
    units.extend_from_slice(&list)?;
    Ok(units)
}

/// Fails unless `expect_each_push` succeeds for `letters` times "a" among other units.
fn expect_letters(alloc: Global, heap: Lent<'_>, letters: usize) -> Check {
    let units = made!(around_letters(alloc, letters));
    expect_each_push(alloc, heap, &units)
}

/// Fails unless `expect_each_push` succeeds for each list of the tables.
fn expect_tables(alloc: Global, heap: Lent<'_>) -> Check {
    for row in 0..JOINING.len() {
        assert_row!(row, expect_each_push(alloc, heap, JOINING[row].0));
    }
    for index in 0..LISTS.len() {
        let row = JOINING.len().wrapping_add(index);
        assert_row!(row, expect_each_push(alloc, heap, LISTS[index]));
    }
    let row = JOINING.len().wrapping_add(LISTS.len());
    in_row(row, expect_each_push(alloc, heap, &WIDE))
}

/// Fails unless the units of `FEW` after "a", of each number, do what `expect_pushed` requires, about 48 spare bytes.
fn expect_few(alloc: Global, heap: Lent<'_>) -> Check {
    for count in 1..=FEW.len() {
        let (units, _) = FEW.split_at(count);
        let (front, back) = units.split_at(1);
        for spare in 46..=50 {
            expect_pushed(alloc, heap, (front, spare), Change::PushUnits(back), units)?;
        }
    }
    Ok(())
}

#[test]
fn few_units_are_pushed_without_a_request_just_if_they_fit(rt: HostRuntime) -> Check {
    let alloc = rt.alloc();
    let heap = Refusing::new(alloc, 0);
    expect_few(alloc, &heap)
}

#[test]
fn units_are_pushed_without_a_request_just_if_they_fit(rt: HostRuntime) -> Check {
    let alloc = rt.alloc();
    let heap = Refusing::new(alloc, 0);
    expect_tables(alloc, &heap)?;
    each_number!(letters in [7, 8, 9, 16, 17, 32, 33, 40] => expect_letters(alloc, &heap, letters))
}

/// Units that are pushed to "a" and D83D, whose four bytes fill the capacity, the bytes after it, and the number of requests,
/// and of the bytes in them.
type Row = (&'static [u16], &'static str, u64, usize);

/// A trail that joins requests a byte. The bytes of other units are requested at once. Each request is for the greatest of
/// eight bytes, twice the capacity and what is needed.
static ROWS: [Row; 8] = [
    (&[], FULL, 0, 0),
    (&[0x61], "61 ED A0 BD 61", 1, 8),
    (&[0xDCA9], "61 F0 9F 92 A9", 1, 8),
    (&[0xD83D], "61 ED A0 BD ED A0 BD", 1, 8),
    (&[0xDCA9, 0xDCA9], "61 F0 9F 92 A9 ED B2 A9", 1, 8),
    (
        &[0xDCA9, 0xE000, 0xE000],
        "61 F0 9F 92 A9 EE 80 80 EE 80 80",
        2,
        8 + 16,
    ),
    (
        &[
            0xE000, 0xE000, 0xE000, 0xE000, 0xE000, 0xE000, 0xE000, 0xE000, 0xE000,
        ],
        "61 ED A0 BD EE 80 80 EE 80 80 EE 80 80 EE 80 80 EE 80 80 EE 80 80 EE 80 80 EE 80 80 EE 80 80",
        1,
        31,
    ),
    (
        &[0xE000; 17],
        "61 ED A0 BD EE 80 80 EE 80 80 EE 80 80 EE 80 80 EE 80 80 EE 80 80 EE 80 80 EE 80 80 EE 80 80 EE 80 80 EE 80 80 EE 80 80 EE 80 80 EE 80 80 EE 80 80 EE 80 80 EE 80 80",
        1,
        55,
    ),
];

/// A push of the units, by `push_unit` if there is one and `is_single`.
fn push_of(units: &[u16], is_single: bool) -> Change<'_> {
    match units {
        [unit] if is_single => Change::PushUnit(*unit),
        _ => Change::PushUnits(units),
    }
}

/// Fails unless the row's push makes its requests, and fails at each of them that is refused.
fn expect_row(
    alloc: Global,
    heap: Lent<'_>,
    (units, dump, requests, bytes): Row,
    is_single: bool,
) -> Check {
    let push = push_of(units, is_single);
    expect_granted(alloc, heap, push, (requests, bytes), dump)?;
    expect_each_refused(alloc, heap, push, requests)
}

#[test]
fn a_push_of_units_fails_at_each_refusal_and_changes_nothing(rt: HostRuntime) -> Check {
    let alloc = rt.alloc();
    let heap = Refusing::new(alloc, 0);
    for index in 0..ROWS.len() {
        let row = ROWS[index];
        assert_row!(index, expect_row(alloc, &heap, row, true));
        assert_row!(index, expect_row(alloc, &heap, row, false));
    }
    Ok(())
}
