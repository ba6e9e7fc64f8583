// Calls that insert, remove and replace units at any index.
ghost use Rattle.std.specs.Prelude.{◌≡◌, [], ◌⊎◌, ◌≤◌, ◌<◌, ◌↔◌, length};
ghost use Rattle.wtf8.specs.Appending.{KeepsContents, FitWithin};
ghost use Rattle.wtf8.specs.Editing.{spliced};
ghost use Rattle.wtf8_c.specs.Kept.{IsKept};

use crate::codes::{BAD_POSITION, NO_MEMORY, OK, code_of};
use crate::handle::Wtf8String;

/// Inserts units before index `index`.
#[unsafe(no_mangle)]
pub extern "C" fn wtf8_insert_units(string: &mut Wtf8String, index: usize, units: &[u16]) -> i32
    ensures code { (result ≡ OK) ⊎ ((result ≡ NO_MEMORY) ⊎ (result ≡ BAD_POSITION)) }
    ensures position { result ≡ BAD_POSITION ↔ length string.old.buf.units < index }
    ensures ok { result ≡ OK → string.new.buf.units ≡ spliced string.old.buf.units index index units.now }
    ensures kept { ¬ (result ≡ OK) → KeepsContents string.old.buf string.new.buf }
    ensures room { index ≤ length string.old.buf.units → FitWithin (spliced string.old.buf.units index index units.now) 0 string.old.buf.capacity → result ≡ OK }
    ensures capacity { string.old.buf.capacity ≤ string.new.buf.capacity }
    ensures lies { string.new.at ≡ string.old.at }
{
    let buf = string.buffer();
    if buf.unit_len() < index {
        return BAD_POSITION;
    }
    code_of(buf.insert_units(index, units))
}

/// Removes the units from index `begin` to before `end`. Memory is never refused.
#[unsafe(no_mangle)]
pub extern "C" fn wtf8_remove_units(string: &mut Wtf8String, begin: usize, end: usize) -> i32
    ensures code { (result ≡ OK) ⊎ (result ≡ BAD_POSITION) }
    ensures position { result ≡ BAD_POSITION ↔ ¬ ((begin ≤ end) × (end ≤ length string.old.buf.units)) }
    ensures ok { result ≡ OK → string.new.buf.units ≡ spliced string.old.buf.units begin end [] }
    ensures kept { ¬ (result ≡ OK) → KeepsContents string.old.buf string.new.buf }
    ensures room { (begin ≤ end) × (end ≤ length string.old.buf.units) → FitWithin (spliced string.old.buf.units begin end []) 0 string.old.buf.capacity → result ≡ OK }
    ensures capacity { string.old.buf.capacity ≤ string.new.buf.capacity }
    ensures lies { string.new.at ≡ string.old.at }
{
    let buf = string.buffer();
    if end < begin || buf.unit_len() < end {
        return BAD_POSITION;
    }
    code_of(buf.remove_units(begin, end))
}

/// Replaces the units from index `begin` to before `end` by others.
#[unsafe(no_mangle)]
pub extern "C" fn wtf8_replace_units(
    string: &mut Wtf8String,
    begin: usize,
    end: usize,
    units: &[u16],
) -> i32
    ensures code { (result ≡ OK) ⊎ ((result ≡ NO_MEMORY) ⊎ (result ≡ BAD_POSITION)) }
    ensures position { result ≡ BAD_POSITION ↔ ¬ ((begin ≤ end) × (end ≤ length string.old.buf.units)) }
    ensures ok { result ≡ OK → string.new.buf.units ≡ spliced string.old.buf.units begin end units.now }
    ensures kept { ¬ (result ≡ OK) → KeepsContents string.old.buf string.new.buf }
    ensures room { (begin ≤ end) × (end ≤ length string.old.buf.units) → FitWithin (spliced string.old.buf.units begin end units.now) 0 string.old.buf.capacity → result ≡ OK }
    ensures capacity { string.old.buf.capacity ≤ string.new.buf.capacity }
    ensures lies { string.new.at ≡ string.old.at }
{
    let buf = string.buffer();
    if end < begin || buf.unit_len() < end {
        return BAD_POSITION;
    }
    code_of(buf.replace_units(begin, end, units))
}

/// Inserts another string before the unit at index `index`.
#[unsafe(no_mangle)]
pub extern "C" fn wtf8_insert(string: &mut Wtf8String, index: usize, other: &mut Wtf8String) -> i32
    ensures code { (result ≡ OK) ⊎ ((result ≡ NO_MEMORY) ⊎ (result ≡ BAD_POSITION)) }
    ensures position { result ≡ BAD_POSITION ↔ length string.old.buf.units < index }
    ensures ok { result ≡ OK → string.new.buf.units ≡ spliced string.old.buf.units index index other.old.buf.units }
    ensures kept { ¬ (result ≡ OK) → KeepsContents string.old.buf string.new.buf }
    ensures other { IsKept other.old other.new }
    ensures room { index ≤ length string.old.buf.units → FitWithin (spliced string.old.buf.units index index other.old.buf.units) 0 string.old.buf.capacity → result ≡ OK }
    ensures capacity { string.old.buf.capacity ≤ string.new.buf.capacity }
    ensures lies { string.new.at ≡ string.old.at }
{
    wtf8_replace(string, index, index, other)
}

/// Replaces the units from index `begin` to before `end` by another string.
#[unsafe(no_mangle)]
pub extern "C" fn wtf8_replace(
    string: &mut Wtf8String,
    begin: usize,
    end: usize,
    other: &mut Wtf8String,
) -> i32
    ensures code { (result ≡ OK) ⊎ ((result ≡ NO_MEMORY) ⊎ (result ≡ BAD_POSITION)) }
    ensures position { result ≡ BAD_POSITION ↔ ¬ ((begin ≤ end) × (end ≤ length string.old.buf.units)) }
    ensures ok { result ≡ OK → string.new.buf.units ≡ spliced string.old.buf.units begin end other.old.buf.units }
    ensures kept { ¬ (result ≡ OK) → KeepsContents string.old.buf string.new.buf }
    ensures other { IsKept other.old other.new }
    ensures room { (begin ≤ end) × (end ≤ length string.old.buf.units) → FitWithin (spliced string.old.buf.units begin end other.old.buf.units) 0 string.old.buf.capacity → result ≡ OK }
    ensures capacity { string.old.buf.capacity ≤ string.new.buf.capacity }
    ensures lies { string.new.at ≡ string.old.at }
{
    let own = string.buffer();
    if end < begin || own.unit_len() < end {
        return BAD_POSITION;
    }
    let new = other.buffer();
    code_of(own.replace_counted(begin, end, new.as_wtf8(), new.unit_len()))
}
