// Hashes of strings, and of units and texts without a string.
ghost use Rattle.std.specs.Hash.DefaultHasher as sip;
ghost use Rattle.std.specs.Prelude.{◌≡◌, ◌^◌, ◌<◌, ◌≤◌, ℕ, List};
ghost use Rattle.std.specs.Str.{chars, IsUtf8};
ghost use Rattle.wtf8.specs.Form.{IsForm};
ghost use Rattle.wtf8.specs.Unicode.{units};
ghost use Rattle.wtf8_c.specs.Hashing.{hash_of, seeded_with};
ghost use Rattle.wtf8_c.specs.Kept.{IsKept};

use crate::handle::Wtf8String;
use std::hash::{DefaultHasher, Hash, Hasher};
use wtf8::encode_front;

/// The size of the scratch buffer in bytes.
const SCRATCH: usize = 512;

/// The same for at most `FEW_UNITS` units: fewer bytes to zero.
const SHORT_SCRATCH: usize = 128;

/// Units that fit the short scratch buffer, whatever they are.
const FEW_UNITS: usize = 24;

/// The byte that the hash of a view ends with.
const END: u8 = 0xFE;

/// The hash of the string under a seed of 128 bits, for tables.
#[unsafe(no_mangle)]
pub extern "C" fn wtf8_hash(string: &mut Wtf8String, seed_0: u64, seed_1: u64) -> u64
    ensures hash { result ≡ hash_of seed_0 seed_1 string.old.buf.bytes }
    ensures kept { IsKept string.old string.new }
{
    let mut hasher = seeded(seed_0, seed_1);
    string.buffer().as_wtf8().hash(&mut hasher);
    hasher.finish()
}

/// The hash of the string with these units, without a string of them.
#[unsafe(no_mangle)]
pub extern "C" fn wtf8_hash_units(units: &[u16], seed_0: u64, seed_1: u64) -> u64
    ensures { (w : List ℕ) → IsForm w units.now → result ≡ hash_of seed_0 seed_1 w }
{
    let mut hasher = seeded(seed_0, seed_1);
    write_form(units, &mut hasher);
    hasher.write_u8(END);
    hasher.finish()
}

/// The hash of the string with this text. The bytes are not tested: others than UTF-8 have a hash too.
#[unsafe(no_mangle)]
pub extern "C" fn wtf8_hash_utf8(text: &[u8], seed_0: u64, seed_1: u64) -> u64
    ensures bytes { result ≡ hash_of seed_0 seed_1 text.now }
    ensures form { IsUtf8 text.now → IsForm text.now (units (chars text.now)) }
{
    let mut hasher = seeded(seed_0, seed_1);
    hasher.write(text);
    hasher.write_u8(END);
    hasher.finish()
}

/// A hasher that the seed was written to.
fn seeded(seed_0: u64, seed_1: u64) -> DefaultHasher
    ensures { result ≡ seeded_with seed_0 seed_1 }
{
    let mut hasher = DefaultHasher::new();
    hasher.write_u64(seed_0);
    hasher.write_u64(seed_1);
    hasher
}

/// Writes the bytes of the string with these units to a hasher.
fn write_form(units: &[u16], hasher: &mut DefaultHasher)
    ensures { (w : List ℕ) → IsForm w units.now → hasher.new ≡ sip.write hasher.old w }
{
    if units.len() <= FEW_UNITS {
        return write_fronts::<SHORT_SCRATCH>(units, hasher);
    }
    write_fronts::<SCRATCH>(units, hasher)
}

/// The same, by parts that fit a scratch buffer of `N` bytes.
#[inline(always)]
fn write_fronts<const N: usize>(units: &[u16], hasher: &mut DefaultHasher)
    requires { (4 ≤ N) × (N < 2 ^ 16) }
    ensures { (w : List ℕ) → IsForm w units.now → hasher.new ≡ sip.write hasher.old w }
{
    let mut scratch = [0; N];
    let mut rest = units;
    while 0 < rest.len() {
        let front = encode_front(rest, &mut scratch);
        hasher.write(&scratch[..front.bytes]);
        let (_, left) = rest.split_at(front.units);
        rest = left;
    }
}
