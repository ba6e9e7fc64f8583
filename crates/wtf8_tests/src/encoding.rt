// `encoded_len` counts the bytes of the string that is made of the same units, and `encode_front` encodes lists of units
// part by part.
use crate::examples::{LISTS, long_list};
use crate::wrong::{Check, Made, Wrong, assert_row, each_number, each_row, expect, made};
use std::alloc::Global;
use wtf8::{Wtf8Buf, encode_front, encoded_len};

/// Units, and the number of bytes of their string: Unicode 3.9, Table 3-6, and three bytes for a lone surrogate.
static ROWS: [(&[u16], usize); 18] = [
    (&[], 0),
    (&[0x00], 1),
    (&[0x7F], 1),
    (&[0x80], 2),
    (&[0x07FF], 2),
    (&[0x0800], 3),
    (&[0xD7FF], 3),
    (&[0xD800], 3),
    (&[0xDBFF], 3),
    (&[0xDC00], 3),
    (&[0xDFFF], 3),
    (&[0xE000], 3),
    (&[0xFFFF], 3),
    (&[0xD83D, 0xDCA9], 4),
    (&[0xDCA9, 0xD83D], 6),
    (&[0xD83D, 0xD83D, 0xDCA9], 7),
    (&[0xD83D, 0xDCA9, 0xDCA9], 7),
    (&[0xDBFF, 0xDFFF, 0x61, 0xE9, 0xD83D], 10),
];

/// Units that repeat, and the number of bytes of each repetition.
static REPEATED: [(&[u16], usize); 8] = [
    (&[0x61], 1),
    (&[0xE9], 2),
    (&[0x3042], 3),
    (&[0xD83D], 3),
    (&[0xDCA9], 3),
    (&[0xD83D, 0xDCA9], 4),
    (&[0x61, 0xD83D, 0xDCA9], 5),
    (&[0xD83D, 0x61, 0xDCA9], 7),
];

/// Numbers of repetitions: up to several blocks, then more than are added up at once.
static TIMES: [usize; 26] = [
    0, 1, 2, 3, 4, 5, 6, 7, 8, 9, 10, 11, 15, 16, 17, 18, 20, 21, 31, 32, 33, 34, 65, 16_384,
    16_385, 40_000,
];

/// `front` letters, and `times` times the units.
fn repeated(alloc: Global, front: usize, units: &[u16], times: usize) -> Made<Vec<u16>> {
    let mut all = vec![in alloc; 0x61; front]?;
    for _ in 0..times {
        all.extend_from_slice(units)?;
    }
    Ok(all)
}

#[test]
fn each_kind_of_unit_is_counted(_rt: HostRuntime) -> Check {
    each_row!((units, len) in ROWS => expect(encoded_len(units) == len, Wrong::Outcome))
}

/// Fails unless the repetitions have the number of bytes that they must, after up to three letters.
fn expect_repeated(alloc: Global, units: &[u16], len: usize, times: usize) -> Check {
    for front in 0..4_usize {
        let all = made!(repeated(alloc, front, units, times));
        let whole = front.wrapping_add(len.wrapping_mul(times));
        assert_row!(times, expect(encoded_len(&all) == whole, Wrong::Outcome));
    }
    Ok(())
}

#[test]
fn repeated_units_are_counted(rt: HostRuntime) -> Check {
    for (units, len) in &REPEATED {
        for times in &TIMES {
            expect_repeated(rt.alloc(), units, *len, *times)?;
        }
    }
    Ok(())
}

/// Fails unless `encoded_len` is the length of the string that is made of the units.
fn expect_len(alloc: Global, units: &[u16]) -> Check {
    let text = made!(Wtf8Buf::from_ill_formed_utf16(alloc, units));
    expect(text.len() == encoded_len(units), Wrong::Outcome)
}

/// Fails unless `encoded_len` is the length of the string of a long list.
fn expect_long_len(alloc: Global, letters: usize) -> Check {
    let units = made!(long_list(alloc, letters));
    expect_len(alloc, &units)
}

#[test]
fn strings_have_the_counted_length(rt: HostRuntime) -> Check {
    for list in &LISTS {
        expect_len(rt.alloc(), list)?;
    }
    each_number!(letters in 0..70_usize => expect_long_len(rt.alloc(), letters))
}

/// Units, and the bytes of their string: Unicode 3.9, Table 3-6, and the three bytes of a lone surrogate.
static ENCODED: [(&[u16], &[u8]); 7] = [
    (&[], &[]),
    (&[0x61, 0xE9, 0x4E2D], &[0x61, 0xC3, 0xA9, 0xE4, 0xB8, 0xAD]),
    (
        &[0xD83D, 0xDCA9, 0xD83D],
        &[0xF0, 0x9F, 0x92, 0xA9, 0xED, 0xA0, 0xBD],
    ),
    (&[0xDCA9, 0x61], &[0xED, 0xB2, 0xA9, 0x61]),
    (
        &[
            0x61, 0x62, 0x63, 0x64, 0x65, 0x66, 0x67, 0x68, 0x69, 0xE9, 0x6A,
        ],
        &[
            0x61, 0x62, 0x63, 0x64, 0x65, 0x66, 0x67, 0x68, 0x69, 0xC3, 0xA9, 0x6A,
        ],
    ),
    (
        &[0x4E2D, 0x4E2D, 0x4E2D, 0x4E2D, 0xD83D, 0xDCA9],
        &[
            0xE4, 0xB8, 0xAD, 0xE4, 0xB8, 0xAD, 0xE4, 0xB8, 0xAD, 0xE4, 0xB8, 0xAD, 0xF0, 0x9F,
            0x92, 0xA9,
        ],
    ),
    (&[0x61; 32], &[0x61; 32]),
];

/// Whether the bytes of the parts of the list, one after the other, are these, if each part is encoded into `out`.
fn are_parts(units: &[u16], bytes: &[u8], out: &mut [u8]) -> bool {
    if out.len() < 4 {
        return false;
    }
    let mut rest = units;
    let mut left = bytes;
    // Each part has a unit or more.
    for _ in 0..units.len() {
        let front = encode_front(rest, out);
        if left.len() < front.bytes || out[..front.bytes] != left[..front.bytes] {
            return false;
        }
        let (_, after) = rest.split_at(front.units);
        rest = after;
        left = &left[front.bytes..];
    }
    rest.is_empty() && left.is_empty()
}

/// Whether the bytes of the parts of the list are these, if a part has at most 4, 24 or 53.
fn are_parts_of_each_size(units: &[u16], bytes: &[u8]) -> bool {
    are_parts(units, bytes, &mut [0; 4])
        && are_parts(units, bytes, &mut [0; 24])
        && are_parts(units, bytes, &mut [0; 53])
}

#[test]
fn parts_are_encoded(_rt: HostRuntime) -> Check {
    each_row!((units, bytes) in ENCODED => expect(are_parts_of_each_size(units, bytes), Wrong::Bytes))
}
