// Bytes split at a separator.
ghost use Rattle.std.specs.Prelude.{◌≡◌, ◌≢◌, ◌==◌, ◌≤◌, ◌<◌, ◌∷◌, ℕ, length, slice_index, IfNone};
ghost use Rattle.std.specs.List.{slice_split};
ghost use Rattle.dump_lines.specs.Parts.{parts_left};

use std::simd::prelude::*;

/// The number of bytes that are compared with the separator together.
const LANES: usize = 16;

/// Returns the bytes before the first separator and the bytes after it, or all bytes and `None` if there is none.
pub fn split_first_part(bytes: &[u8], separator: u8) -> (&[u8], Option<&[u8]>)
    ensures parts { slice_split (λ byte. byte == separator) bytes.now ≡ result.0.now ∷ parts_left separator result.1 }
    ensures whole { IfNone result.1 (result.0.now ≡ bytes.now) }
{
    let mut at = skip_blocks_without(bytes, separator);
    while at < bytes.len() {
        if bytes[at] == separator {
            return (&bytes[..at], Some(&bytes[at + 1..]));
        }
        at += 1;
    }
    (bytes, None)
}

/// Returns the start of the first block that holds a separator or, if none does, of the tail of fewer than `LANES`
/// bytes.
#[inline(always)]
fn skip_blocks_without(bytes: &[u8], separator: u8) -> usize
    ensures within { result ≤ length bytes.now }
    ensures none { (k : ℕ) → k < result → slice_index bytes.now k ≢ separator }
{
    let mut at = 0;
    while LANES <= bytes.len() - at {
        let found = u8x16::from_slice(&bytes[at..]).simd_eq(u8x16::splat(separator));
        if found.to_bitmask() != 0 {
            return at;
        }
        at += LANES;
    }
    at
}
