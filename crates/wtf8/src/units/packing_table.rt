// The shuffle table of `unit_ends`, indexed by the mask of eight positions.
ghost use Rattle.std.specs.Prelude.{◌<◌};
ghost use Rattle.wtf8.specs.private.UnitEnds.{IsPackingRow};
ghost use lib.Lanes.{Each1};

use std::simd::prelude::*;

/// Writes the rows. Until it is whole, a row is `[lanes; zeros]`, 16 together. Each word is given by its two lanes,
/// `[low high]`, and makes two rows of each, for its bit: the row as it is, and with the word in place of two zeros.
macro_rules! packing_rows {
    ([$([$($lane:literal)*; $($zero:literal)*])*]) => {
        &[$([$($lane,)* $($zero),*]),*]
    };
    (
        [$([$($lane:literal)*; $zero_1:literal $zero_2:literal $($zero:literal)*])*]
        [$low:literal $high:literal]
        $($word:tt)*
    ) => {
        packing_rows!(
            [
                $([$($lane)*; $zero_1 $zero_2 $($zero)*])*
                $([$($lane)* $low $high; $($zero)*])*
            ]
            $($word)*
        )
    };
}

/// Each row packs the words whose bit is set in its index at the front of eight words. Lanes after these are not used.
const PACKING_ROWS: &[[u8; 16]; 256] = packing_rows!(
    [[; 0 0 0 0 0 0 0 0 0 0 0 0 0 0 0 0]]
    [0 1] [2 3] [4 5] [6 7] [8 9] [10 11] [12 13] [14 15]
);

#[inline(always)]
pub(crate) fn packing_row(index: usize) -> u8x16
    requires { index < 256 }
    ensures within { Each1 (λ lane. lane < 16) result }
    ensures packs { IsPackingRow index result }
{
    u8x16::from_array(PACKING_ROWS[index])
}
