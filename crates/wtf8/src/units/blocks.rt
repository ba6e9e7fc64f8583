// Decodes blocks of WTF-8 code points of one encoded length to code units.
ghost use Rattle.std.specs.Prelude.{◌≡◌, ◌*◌, ◌/◌, ◌<◌, ◌≤◌, ◌++◌, length, drop, get_or, IsTrue, IfSome};
ghost use lib.Lanes.{Each1};
ghost use Rattle.wtf8.specs.private.EncodedBytes.{BeginsWithPoints, BeginsWithUnits, map_run, unit_of_two, unit_of_three, pairs_of_fours};

use std::simd::prelude::*;

/// Shuffle indices for bytes 0 to 15 and 8 to 23: the lead bytes of eight three-byte code points, twice each; below,
/// their third and second bytes.
const FIRSTS_OF_THREES: [usize; 16] = [0, 0, 3, 3, 6, 6, 9, 9, 12, 12, 15, 15, 26, 26, 29, 29];

const OTHERS_OF_THREES: [usize; 16] = [2, 1, 5, 4, 8, 7, 11, 10, 14, 13, 25, 24, 28, 27, 31, 30];

/// Shuffle indices: the first two bytes of eight four-byte code points; below, their last two.
const FRONTS_OF_FOURS: [usize; 16] = [0, 1, 4, 5, 8, 9, 12, 13, 16, 17, 20, 21, 24, 25, 28, 29];

const BACKS_OF_FOURS: [usize; 16] = [2, 3, 6, 7, 10, 11, 14, 15, 18, 19, 22, 23, 26, 27, 30, 31];

/// Leads and trails by turns.
const INTERLEAVE: [usize; 16] = [0, 8, 1, 9, 2, 10, 3, 11, 4, 12, 5, 13, 6, 14, 7, 15];

/// Code points of one encoded length, of `WIDTH` bytes and `UNITS` units each, which have `N` units in `BYTES` bytes.
pub(crate) trait EncodedLength<
    const N: usize,
    const BYTES: usize,
    const WIDTH: usize,
    const UNITS: usize,
> {
    /// Returns the units of the first `BYTES` bytes, or `None` if not all code points in them have this length.
    fn read(bytes: &[u8]) -> Option<[u16; N]>
        requires { BYTES ≤ length bytes.now }
        ensures { IfSome result (λ units. (length units ≡ N) × BeginsWithUnits bytes.now units BYTES × BeginsWithPoints bytes.now units BYTES WIDTH UNITS) };
}

pub(crate) struct TwoBytes;

/// Code points of three bytes, surrogates included.
pub(crate) struct ThreeBytes;

/// Code points of four bytes, with two units each.
pub(crate) struct FourBytes;

#[inline(always)]
pub(crate) fn widen<const N: usize>(block: Simd<u8, N>) -> [u16; N]
    requires lanes { N ≤ u64.BITS }
    ensures { result ≡ block.entry }
{
    block.cast::<u16>().to_array()
}

#[inline(always)]
fn all_have_prefix<const N: usize>(lanes: Simd<u16, N>, size: u16, prefix: u16) -> bool
    requires lanes { N ≤ u64.BITS }
    requires size { 0 < size }
    ensures { IsTrue result → Each1 (λ b. b / size ≡ prefix) lanes.entry }
{
    let kinds = lanes / Simd::splat(size);
    kinds.simd_ne(Simd::splat(prefix)).to_bitmask() == 0
}

/// Decodes sixteen two-byte code points by words. Returns their lead bytes, not checked here, and their units.
#[inline(always)]
fn read_sixteen_twos(bytes: u8x32) -> (u16x16, [u16; 16])
    ensures firsts { result.0 ≡ map_run 2 (λ w. get_or w 0 0) 16 bytes }
    ensures units { result.1 ≡ map_run 2 unit_of_two 16 bytes }
{
    let words = u16x16::from_le_bytes(bytes);
    let high = words % u16x16::splat(32) * u16x16::splat(64);
    let low = words / u16x16::splat(256) % u16x16::splat(64);
    (words % u16x16::splat(256), (high + low).to_array())
}

/// Decodes eight three-byte code points, of bytes 0 to 15 and 8 to 23: of one load of 32 bytes LLVM takes bytes 16 to
/// 23 one by one, in three times the time. Returns lead bytes, twice each in a word, not checked here, and units.
#[inline(always)]
fn read_eight_threes(front: u8x16, back: u8x16) -> (u16x8, [u16; 8])
    ensures firsts { result.0 ≡ map_run 3 (λ w. 257 * get_or w 0 0) 8 (front ++ drop 8 back) }
    ensures units { result.1 ≡ map_run 3 unit_of_three 8 (front ++ drop 8 back) }
{
    let firsts = u16x8::from_le_bytes(front.shuffle(back, FIRSTS_OF_THREES));
    let others = u16x8::from_le_bytes(front.shuffle(back, OTHERS_OF_THREES));
    let high = firsts * u16x8::splat(4096);
    let middle = others / u16x8::splat(256) % u16x8::splat(64) * u16x8::splat(64);
    let low = others % u16x8::splat(64);
    (firsts, (high + middle + low).to_array())
}

/// Decodes eight four-byte code points. Returns their lead bytes, which are not checked here, and their units.
#[inline(always)]
fn read_eight_fours(bytes: u8x32) -> (u16x8, [u16; 16])
    ensures firsts { result.0 ≡ map_run 4 (λ w. get_or w 0 0) 8 bytes }
    ensures units { result.1 ≡ pairs_of_fours 8 bytes }
{
    let fronts = u16x8::from_le_bytes(bytes.shuffle(bytes, FRONTS_OF_FOURS));
    let backs = u16x8::from_le_bytes(bytes.shuffle(bytes, BACKS_OF_FOURS));
    let high = fronts % u16x8::splat(8) * u16x8::splat(256);
    let middle = fronts / u16x8::splat(256) % u16x8::splat(64) * u16x8::splat(4);
    let low = backs / u16x8::splat(16) % u16x8::splat(4);
    let leads = high + middle + low + u16x8::splat(0xD7C0);
    let trails = backs % u16x8::splat(16) * u16x8::splat(64)
        + backs / u16x8::splat(256) % u16x8::splat(64)
        + u16x8::splat(0xDC00);
    let units: u16x16 = leads.shuffle(trails, INTERLEAVE);
    (fronts % u16x8::splat(256), units.to_array())
}

impl EncodedLength<16, 32, 2, 1> for TwoBytes {
    #[inline(always)]
    fn read(bytes: &[u8]) -> Option<[u16; 16]> {
        let (firsts, units) = read_sixteen_twos(u8x32::from_slice(bytes));
        if all_have_prefix(firsts, 32, 6) {
            return Some(units);
        }
        None
    }
}

impl EncodedLength<8, 24, 3, 1> for ThreeBytes {
    #[inline(always)]
    fn read(bytes: &[u8]) -> Option<[u16; 8]> {
        let back = u8x16::from_slice(&bytes[8..]);
        let (firsts, units) = read_eight_threes(u8x16::from_slice(bytes), back);
        if all_have_prefix(firsts, 4096, 14) {
            return Some(units);
        }
        None
    }
}

impl EncodedLength<16, 32, 4, 2> for FourBytes {
    #[inline(always)]
    fn read(bytes: &[u8]) -> Option<[u16; 16]> {
        let (firsts, units) = read_eight_fours(u8x32::from_slice(bytes));
        if all_have_prefix(firsts, 8, 30) {
            return Some(units);
        }
        None
    }
}
