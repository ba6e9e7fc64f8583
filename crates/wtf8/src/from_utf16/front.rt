// Encodes code units at the front of a list into a slice, without memory.
ghost use Rattle.std.specs.Prelude.{◌≡◌, ◌⊎◌, ℕ, List, [], ◌++◌, ◌+◌, ◌<◌, ◌≤◌, length, take, drop};
ghost use Rattle.wtf8.specs.Form.{IsForm};
ghost use Rattle.wtf8.specs.UnitPosition.{DividesPair};
ghost use Rattle.wtf8.specs.private.Prefixes.{IsReadTo};

use crate::from_utf16::kernel::{self, MIN_SPARE};
use crate::from_utf16::transcode::MAX_POINT_BYTES;
use crate::from_utf16::{Progress, QUARTER_BLOCK, on_stack};

/// How many code units at the front of a list were encoded, and how many bytes they took.
#[derive(Clone, Copy)]
pub struct EncodedFront {
    /// The number of code units.
    pub units: usize,
    /// The number of their bytes.
    pub bytes: usize,
}

/// `encode_front`, which also tells whether no unit is a lone surrogate. Returns the number of bytes, and how far units are
/// encoded. Not inlined, so that short lists save no registers for it.
#[inline(never)]
pub(crate) fn write_front(v: &[u16], out: &mut [u8]) -> (usize, Progress)
    requires { 4 ≤ length out.old }
    ensures within { result.0 ≤ length out.new }
    ensures read { IsReadTo (take result.0 out.new) [] v.now result.1.at result.1.is_utf8 }
    ensures some { 0 < length v.now → 0 < result.1.at }
    ensures stops { (result.1.at ≡ length v.now) ⊎ (length out.new < result.0 + 52) }
    ensures len { length out.new ≡ length out.old }
{
    let least = if out.len() < MIN_SPARE {
        MAX_POINT_BYTES
    } else {
        MIN_SPARE
    };
    let mut bytes = 0;
    let mut read = Progress {
        at: 0,
        is_utf8: true,
    };
    while QUARTER_BLOCK <= v.len() - read.at && MIN_SPARE <= out.len() - bytes {
        (bytes, read) = kernel::write_blocks(v, read, out, bytes);
    }
    while read.at < v.len() && least <= out.len() - bytes {
        (bytes, read) = on_stack::write_point(v, read, out, bytes);
    }
    (bytes, read)
}

/// Encodes code units from the front of a list on, paired or not, to the front of `out`, which must have room for four
/// bytes. Returns how many units were encoded and how many bytes they took. It stops at the end of the list, or where
/// fewer than 52 bytes are left, and never within a surrogate pair: so the bytes of the parts of a list, one after the
/// other, are the bytes of the whole list. What `out` holds after them is not said. Linear in the units encoded.
pub fn encode_front(units: &[u16], out: &mut [u8]) -> EncodedFront
    requires { 4 ≤ length out.old }
    ensures within { (result.units ≤ length units.now) × (result.bytes ≤ length out.new) }
    ensures form { IsForm (take result.bytes out.new) (take result.units units.now) }
    ensures whole { ¬ (DividesPair units.now result.units) }

    // With the form of the units that are left, these bytes are the form of all.
    ensures rest { (w : List ℕ) → IsForm w (drop result.units units.now) → IsForm (take result.bytes out.new ++ w) units.now }

    // It encodes a unit, if there is one, and stops at the end, or where fewer than 52 bytes are left.
    ensures some { 0 < length units.now → 0 < result.units }
    ensures stops { (result.units ≡ length units.now) ⊎ (length out.new < result.bytes + 52) }
    ensures len { length out.new ≡ length out.old }
{
    let (bytes, read) = write_front(units, out);
    EncodedFront {
        units: read.at,
        bytes,
    }
}
