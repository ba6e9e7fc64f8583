// Calls that find units in a string.
ghost use Rattle.std.specs.Prelude.{◌≡◌, ◌⊎◌, ◌↔◌, ◌≤◌, ℕ, IfNone, IfSome, IsTrue};
ghost use Rattle.unit_text.specs.Search.{IsFirstIndex, IsLastIndex, OccursAt};
ghost use Rattle.wtf8.specs.UnitPosition.{DividesPair};
ghost use Rattle.wtf8_c.specs.Kept.{IsKept};

use crate::codes::{END, OK};
use crate::handle::Wtf8String;

/// Writes the first index at or after `from` at which the units occur to `index`.
#[unsafe(no_mangle)]
pub extern "C" fn wtf8_find_units(
    string: &mut Wtf8String,
    from: usize,
    units: &[u16],
    index: &mut usize,
) -> i32
    ensures code { (result ≡ OK) ⊎ (result ≡ END) }
    ensures ok { result ≡ OK → IsFirstIndex string.old.buf.units units.now from index.new }
    ensures end { result ≡ END → (k : ℕ) → from ≤ k → ¬ (OccursAt string.old.buf.units units.now k) }
    ensures index { result ≡ END → index.new ≡ index.old }
    ensures kept { IsKept string.old string.new }
{
    code_of_index(string.buffer().find_units(from, units), index)
}

/// Writes the first index at or after `from` at which the units of `other` occur to `index`.
#[unsafe(no_mangle)]
pub extern "C" fn wtf8_find(
    string: &mut Wtf8String,
    from: usize,
    other: &mut Wtf8String,
    index: &mut usize,
) -> i32
    ensures code { (result ≡ OK) ⊎ (result ≡ END) }
    ensures ok { result ≡ OK → IsFirstIndex string.old.buf.units other.old.buf.units from index.new }
    ensures end { result ≡ END → (k : ℕ) → from ≤ k → ¬ (OccursAt string.old.buf.units other.old.buf.units k) }
    ensures index { result ≡ END → index.new ≡ index.old }
    ensures kept { IsKept string.old string.new }
    ensures other { IsKept other.old other.new }
{
    code_of_index(string.buffer().find(from, other.buffer()), index)
}

/// Writes the last index at or before `from` at which the units occur to `index`.
#[unsafe(no_mangle)]
pub extern "C" fn wtf8_rfind_units(
    string: &mut Wtf8String,
    from: usize,
    units: &[u16],
    index: &mut usize,
) -> i32
    ensures code { (result ≡ OK) ⊎ (result ≡ END) }
    ensures ok { result ≡ OK → IsLastIndex string.old.buf.units units.now from index.new }
    ensures end { result ≡ END → (k : ℕ) → k ≤ from → ¬ (OccursAt string.old.buf.units units.now k) }
    ensures index { result ≡ END → index.new ≡ index.old }
    ensures kept { IsKept string.old string.new }
{
    code_of_index(string.buffer().rfind_units(from, units), index)
}

/// Writes the last index at or before `from` at which the units of `other` occur to `index`.
#[unsafe(no_mangle)]
pub extern "C" fn wtf8_rfind(
    string: &mut Wtf8String,
    from: usize,
    other: &mut Wtf8String,
    index: &mut usize,
) -> i32
    ensures code { (result ≡ OK) ⊎ (result ≡ END) }
    ensures ok { result ≡ OK → IsLastIndex string.old.buf.units other.old.buf.units from index.new }
    ensures end { result ≡ END → (k : ℕ) → k ≤ from → ¬ (OccursAt string.old.buf.units other.old.buf.units k) }
    ensures index { result ≡ END → index.new ≡ index.old }
    ensures kept { IsKept string.old string.new }
    ensures other { IsKept other.old other.new }
{
    code_of_index(string.buffer().rfind(from, other.buffer()), index)
}

/// Whether a cut at `index` divides a surrogate pair.
#[unsafe(no_mangle)]
pub extern "C" fn wtf8_divides_pair(string: &mut Wtf8String, index: usize) -> bool
    ensures divides { IsTrue result ↔ DividesPair string.old.buf.units index }
    ensures kept { IsKept string.old string.new }
{
    string.buffer().divides_pair(index)
}

/// Returns OK, with what was found in `index`, or END.
fn code_of_index(found: Option<usize>, index: &mut usize) -> i32
    ensures some { IfSome found (λ k. (result ≡ OK) × (index.new ≡ k)) }
    ensures none { IfNone found ((result ≡ END) × (index.new ≡ index.old)) }
{
    match found {
        Some(first) => {
            *index = first;
            OK
        }
        None => END,
    }
}
