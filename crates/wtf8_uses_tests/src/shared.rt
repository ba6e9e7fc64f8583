// Strings and checks that several test modules use.
use std::alloc::Global;
use wtf8::{Wtf8, Wtf8Buf};
use wtf8_tests::wrong::{Check, Failed, Made, expect_bytes, made};

/// The code units of U+1F4A9; `PAIR_DUMP` is its bytes.
pub const LEAD: u16 = 0xD83D;

pub const TRAIL: u16 = 0xDCA9;

pub const PAIR_DUMP: &str = "F0 9F 92 A9";

/// The string of these units.
pub fn string_of(alloc: Global, units: &[u16]) -> Result<Wtf8Buf<Global>, Failed> {
    Ok(made!(Wtf8Buf::from_ill_formed_utf16(alloc, units)))
}

/// Fails unless a string was made, and has the bytes of `dump`.
pub fn expect_made(alloc: Global, returned: Made<Wtf8Buf<Global>>, dump: &str) -> Check {
    let string = made!(returned);
    expect_bytes(alloc, string.as_wtf8(), dump)
}

/// Whether the string has `units` by index, and no more.
pub fn has_units(text: Wtf8<'_>, units: &[u16]) -> bool {
    let mut index = 0usize;
    for unit in units {
        if text.unit_at(index) != Some(*unit) {
            return false;
        }
        index = index.wrapping_add(1);
    }
    text.unit_len() == units.len()
}
