// Decodes 32 bytes of any kinds of code points at once. The unit whose encoding ends at a byte is computed from that
// byte and the three before it, in 8-bit lanes; where none ends, what is computed is dropped when lanes are packed.
ghost use Rattle.std.specs.Prelude.{◌≡◌, ◌-◌, ◌<◌, ◌≤◌, List, Bool, length, take, drop, IsTrue};
ghost use lib.Lanes.{Each1, mask_l};
ghost use Rattle.wtf8.specs.private.UnitEnds.{by_position, bytes_one_before, bytes_two_before, low_byte, high_of_two, high_byte, low_of_any, high_of_any};
ghost use Rattle.wtf8.specs.private.UnitEnds.{set_lanes, words, joined_words, picked};

use std::simd::prelude::*;

/// The number of positions that are decoded together.
pub(crate) const POSITIONS: usize = 32;

/// The least lead byte of a supplementary code point.
pub(crate) const FIRST_OF_FOUR: u8 = 0xF0;

/// Moves each byte up by one lane; below, by two. Lane 32 is the first of another vector.
const UP_BY_ONE: [usize; 32] = [
    32, 0, 1, 2, 3, 4, 5, 6, 7, 8, 9, 10, 11, 12, 13, 14, 15, 16, 17, 18, 19, 20, 21, 22, 23, 24,
    25, 26, 27, 28, 29, 30,
];

const UP_BY_TWO: [usize; 32] = [
    32, 33, 0, 1, 2, 3, 4, 5, 6, 7, 8, 9, 10, 11, 12, 13, 14, 15, 16, 17, 18, 19, 20, 21, 22, 23,
    24, 25, 26, 27, 28, 29,
];

const LAST_LANE: [u8; 32] = [
    0, 0, 0, 0, 0, 0, 0, 0, 0, 0, 0, 0, 0, 0, 0, 0, 0, 0, 0, 0, 0, 0, 0, 0, 0, 0, 0, 0, 0, 0, 0,
    255,
];

/// Shuffle indices: low and high bytes of positions 0 to 7 by turns; below, of 8 to 15, 16 to 23 and 24 to 31.
const WORDS_FROM_0: [usize; 16] = [0, 32, 1, 33, 2, 34, 3, 35, 4, 36, 5, 37, 6, 38, 7, 39];

const WORDS_FROM_8: [usize; 16] = [8, 40, 9, 41, 10, 42, 11, 43, 12, 44, 13, 45, 14, 46, 15, 47];

const WORDS_FROM_16: [usize; 16] = [
    16, 48, 17, 49, 18, 50, 19, 51, 20, 52, 21, 53, 22, 54, 23, 55,
];

const WORDS_FROM_24: [usize; 16] = [
    24, 56, 25, 57, 26, 58, 27, 59, 28, 60, 29, 61, 30, 62, 31, 63,
];

/// The low and the high byte of the unit that ends at each position, and the mask of the positions at which one ends.
#[derive(Clone, Copy)]
pub(crate) struct UnitEnds {
    pub(crate) low: u8x32,
    pub(crate) high: u8x32,
    pub(crate) ends: u64,
}

#[inline(always)]
fn bytes_before(bytes: u8x32) -> (u8x32, u8x32)
    ensures one { result.0 ≡ bytes_one_before bytes }
    ensures two { result.1 ≡ bytes_two_before bytes }
{
    let none = u8x32::splat(0);
    (
        bytes.shuffle(none, UP_BY_ONE),
        bytes.shuffle(none, UP_BY_TWO),
    )
}

/// Whether all bytes are less than `limit`: below E0 no lead byte of three or four bytes, below F0 none of four. Tested
/// by the differences that the positions of ends are computed from: a comparison takes one to three instructions more.
#[inline(always)]
fn are_below(bytes: u8x32, limit: u8) -> bool
    requires { 0x80 ≤ limit }
    ensures { IsTrue result → Each1 (λ b. b < limit) bytes }
{
    bytes
        .saturating_sub(u8x32::splat(limit - 0x80))
        .simd_ge(u8x32::splat(0x80))
        .to_bitmask()
        == 0
}

/// The low and the high byte of the unit of one or two bytes that ends at each position.
#[inline(always)]
fn units_of_two(bytes: u8x32, one_before: u8x32) -> (u8x32, u8x32)
    requires { one_before ≡ bytes_one_before bytes }
    ensures low { result.0 ≡ by_position (λ z y x b. low_byte x b) 0 0 0 bytes }
    ensures high { result.1 ≡ by_position (λ z y x b. high_of_two x b) 0 0 0 bytes }
{
    let lead = bytes
        .simd_lt(u8x32::splat(0x80))
        .select(u8x32::splat(0), one_before);
    (
        bytes % u8x32::splat(128) + lead * u8x32::splat(64),
        lead / u8x32::splat(4) % u8x32::splat(16),
    )
}

/// Takes the low and high bytes of units of up to three bytes. The third of four ends a lead, the fourth a trail. The
/// excess is an argument, since LLVM replaces one that is computed here by two comparisons: 4 to 8% more instructions
/// for supplementary code points.
#[inline(always)]
fn units_of_four(bytes: u8x32, excess: u8x32, low: u8x32, high: u8x32) -> (u8x32, u8x32)
    requires excess { excess ≡ by_position (λ z y x b. y - 0x70) 0 0 0 bytes }
    requires low { low ≡ by_position (λ z y x b. low_byte x b) 0 0 0 bytes }
    requires high { high ≡ by_position (λ z y x b. high_byte y x b) 0 0 0 bytes }
    ensures low { result.0 ≡ by_position (λ z y x b. low_of_any y x b) 0 0 0 bytes }
    ensures high { result.1 ≡ by_position high_of_any 0 0 0 bytes }
{
    let least = u8x32::splat(0x80);
    let leads = excess.simd_ge(least);
    let trails = excess.shuffle(u8x32::splat(0), UP_BY_ONE).simd_ge(least);
    let offset = high.saturating_sub(u8x32::splat(4));
    let lead_low = low / u8x32::splat(16) + offset * u8x32::splat(16);
    let lead_high = u8x32::splat(0xD8) + offset / u8x32::splat(16);
    let trail_high = u8x32::splat(0xDC) + high % u8x32::splat(4);
    let no_lead = trails.select(trail_high, high);
    (
        leads.select(lead_low, low),
        leads.select(lead_high, no_lead),
    )
}

/// The positions at which a unit ends: all but those of lead bytes and of the second of three or four bytes. For these
/// the greater of the byte less 0x40 and the byte before less 0x60, each at least 0, is 0x80 or more.
#[inline(always)]
pub(crate) fn end_positions(bytes: u8x32) -> u64
    ensures { Each1 (λ b. b < 0xF0) (bytes_two_before bytes) → result ≡ mask_l (set_lanes 0 0 bytes) }
{
    let (one_before, _) = bytes_before(bytes);
    bytes
        .saturating_sub(u8x32::splat(0x40))
        .simd_max(one_before.saturating_sub(u8x32::splat(0x60)))
        .simd_lt(u8x32::splat(0x80))
        .to_bitmask()
}

/// The positions at which a unit ends, but for a lead in the last lane, whose trail is beyond the block.
#[inline(always)]
fn ends_of_four(bytes: u8x32, one_before: u8x32, two_before: u8x32) -> u64
    requires one { one_before ≡ bytes_one_before bytes }
    requires two { two_before ≡ bytes_two_before bytes }
    ensures { result ≡ mask_l (set_lanes 0 0 bytes) }
{
    let last_lead = two_before
        .saturating_sub(u8x32::splat(0x70))
        .simd_min(u8x32::from_array(LAST_LANE));
    bytes
        .saturating_sub(u8x32::splat(0x40))
        .simd_max(one_before.saturating_sub(u8x32::splat(0x60)))
        .simd_max(last_lead)
        .simd_lt(u8x32::splat(0x80))
        .to_bitmask()
}

/// The units that end at the positions of a block that begins with a code point, but for a lead in the last lane.
#[inline(always)]
pub(crate) fn unit_ends(bytes: u8x32) -> UnitEnds
    ensures low { result.low ≡ by_position (λ z y x b. low_of_any y x b) 0 0 0 bytes }
    ensures high { result.high ≡ by_position high_of_any 0 0 0 bytes }
    ensures ends { result.ends ≡ mask_l (set_lanes 0 0 bytes) }
{
    let (one_before, two_before) = bytes_before(bytes);
    let (low, high) = units_of_two(bytes, one_before);
    if are_below(one_before, 0xE0) {
        return UnitEnds {
            low,
            high,
            ends: end_positions(bytes),
        };
    }
    // The high byte of units of up to three bytes. The low byte is the same.
    let high = high + two_before.saturating_sub(u8x32::splat(0xE0)) * u8x32::splat(16);
    if are_below(two_before, 0xF0) {
        return UnitEnds {
            low,
            high,
            ends: end_positions(bytes),
        };
    }
    // By how much the byte two positions before each byte exceeds 0x70: 0x80 or more where it leads four bytes.
    let excess = two_before.saturating_sub(u8x32::splat(FIRST_OF_FOUR - 0x80));
    let (low, high) = units_of_four(bytes, excess, low, high);
    UnitEnds {
        low,
        high,
        ends: ends_of_four(bytes, one_before, two_before),
    }
}

#[inline(always)]
pub(crate) fn interleave(low: u8x32, high: u8x32) -> (u8x16, u8x16, u8x16, u8x16)
    ensures first { words result.0 ≡ take 8 (joined_words low high) }
    ensures second { words result.1 ≡ take 8 (drop 8 (joined_words low high)) }
    ensures third { words result.2 ≡ take 8 (drop 8 (drop 8 (joined_words low high))) }
    ensures fourth { words result.3 ≡ drop 8 (drop 8 (drop 8 (joined_words low high))) }
{
    (
        low.shuffle(high, WORDS_FROM_0),
        low.shuffle(high, WORDS_FROM_8),
        low.shuffle(high, WORDS_FROM_16),
        low.shuffle(high, WORDS_FROM_24),
    )
}
