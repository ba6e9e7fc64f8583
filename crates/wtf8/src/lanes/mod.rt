// Bytes compared and searched in SIMD blocks. All that these modules know of WTF-8 is how surrogates are encoded, and
// which bytes may follow one another in UTF-8.
ghost use Rattle.std.specs.Prelude.{◌≢◌};
ghost use Rattle.wtf8.specs.private.Search.{IsFirstSet};

pub(crate) mod ascii;
pub(crate) mod memcmp;
pub(crate) mod moves;
pub(crate) mod padding;
pub(crate) mod search;
pub(crate) mod utf8;
pub(crate) mod utf8_error;

/// The number of bytes in one of the processor's vectors.
pub(crate) const VECTOR: usize = 16;

/// The number of bytes in a block: four vectors, since the mask of a comparison has 64 bits.
pub(crate) const BLOCK: usize = 4 * VECTOR;

/// The stride of the loop that compares long slices: two blocks.
pub(crate) const STRIDE: usize = 2 * BLOCK;

// Bitmasks of comparisons: bit `k` is lane `k`.
#[inline(always)]
pub(crate) fn first_set_lane(bits: u64) -> Option<usize>
    ensures { IsFirstSet bits result }
{
    if bits == 0 {
        return None;
    }
    Some(lowest_set_lane(bits))
}

#[inline(always)]
pub(crate) fn lowest_set_lane(bits: u64) -> usize
    requires { bits ≢ 0 }
    ensures { IsFirstSet bits (Some result) }
{
    bits.trailing_zeros() as usize
}
