// The shuffle table of `kernel`, indexed by the encoded lengths of four units.
ghost use Rattle.std.specs.Prelude.{◌<◌, ◌≤◌};
ghost use Rattle.wtf8.specs.private.PackedUnits.{IsPackingShuffle, IsPackedLen};
ghost use lib.Lanes.{Each1};

use std::simd::prelude::*;

/// Writes the rows. Until it is whole, a row is `[lanes; zeros]`, 16 together. Each unit is given by its three lanes,
/// `[first second last]`, and makes four rows of each, one for each value of its two bits: its last lane is added, its last
/// two, the same two (the higher bit is never set alone), or all three, in place of one, two or three zeros.
macro_rules! shuffles {
    ([$([$($lane:literal)*; $($zero:literal)*])*]) => {
        &[$([$($lane,)* $($zero),*]),*]
    };
    (
        [$([$($lane:literal)*; $zero_1:literal $zero_2:literal $zero_3:literal $($zero:literal)*])*]
        [$first:literal $second:literal $last:literal]
        $($unit:tt)*
    ) => {
        shuffles!(
            [
                $([$($lane)* $last; $zero_2 $zero_3 $($zero)*])*
                $([$($lane)* $second $last; $zero_3 $($zero)*])*
                $([$($lane)* $second $last; $zero_3 $($zero)*])*
                $([$($lane)* $first $second $last; $($zero)*])*
            ]
            $($unit)*
        )
    };
}

/// Shuffles that pack the bytes of four units: lanes `4 * k` to `4 * k + 2` hold the first, second and last of unit
/// `k`. In a row's index, bit `2 * k` is set if unit `k` takes more than one byte, and bit `2 * k + 1` if three.
const SHUFFLES: &[[u8; 16]; 256] = shuffles!(
    [[; 0 0 0 0 0 0 0 0 0 0 0 0 0 0 0 0]] [0 1 2] [4 5 6] [8 9 10] [12 13 14]
);

#[inline(always)]
pub(crate) fn packing_shuffle(index: usize) -> u8x16
    requires { index < 256 }
    ensures within { Each1 (λ lane. lane < 16) result }
    ensures packs { IsPackingShuffle index result }
{
    u8x16::from_array(SHUFFLES[index])
}

/// The number of bytes that row `index` packs: one for each of the four units, and one for each set bit of the index.
#[inline(always)]
pub(crate) fn packed_len(index: usize) -> usize
    requires { index < 256 }
    ensures most { result ≤ 12 }
    ensures len { IsPackedLen index result }
{
    4 + index.count_ones() as usize
}
