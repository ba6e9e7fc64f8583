// Calls that copy units and texts out.
ghost use Rattle.std.specs.Prelude.{◌≡◌, ◌⊎◌, ◌+◌, ◌<◌, ◌≤◌, ◌↔◌, length, take, drop};
ghost use Rattle.wtf8.specs.Form.{bytes};
ghost use Rattle.wtf8.specs.Surrogates.{AreScalar, lossy_points};
ghost use Rattle.wtf8_c.specs.Front.{with_front};
ghost use Rattle.wtf8_c.specs.Kept.{IsKept};

use crate::codes::{ARRAY_TOO_SHORT, BAD_POSITION, HAS_SURROGATE, OK};
use crate::handle::Wtf8String;

/// Writes all units at the front of `out`, and their number to `len`.
#[unsafe(no_mangle)]
pub extern "C" fn wtf8_copy_units(string: &mut Wtf8String, out: &mut [u16], len: &mut usize) -> i32
    ensures code { (result ≡ OK) ⊎ (result ≡ ARRAY_TOO_SHORT) }
    ensures short { result ≡ ARRAY_TOO_SHORT ↔ length out.old < length string.old.buf.units }
    ensures ok { result ≡ OK → out.new ≡ with_front string.old.buf.units out.old }
    ensures out { ¬ (result ≡ OK) → out.new ≡ out.old }
    ensures len { len.new ≡ length string.old.buf.units }
    ensures kept { IsKept string.old string.new }
{
    let buf = string.buffer();
    let needed = buf.unit_len();
    *len = needed;
    if out.len() < needed {
        return ARRAY_TOO_SHORT;
    }
    buf.as_wtf8().write_units(out);
    OK
}

/// Writes the units from index `begin` to before `end` at the front of `out`, and their number to `len`.
#[unsafe(no_mangle)]
pub extern "C" fn wtf8_copy_slice(
    string: &mut Wtf8String,
    begin: usize,
    end: usize,
    out: &mut [u16],
    len: &mut usize,
) -> i32
    ensures code { (result ≡ OK) ⊎ ((result ≡ BAD_POSITION) ⊎ (result ≡ ARRAY_TOO_SHORT)) }
    ensures position { result ≡ BAD_POSITION ↔ ¬ ((begin ≤ end) × (end ≤ length string.old.buf.units)) }
    ensures short { result ≡ ARRAY_TOO_SHORT ↔ (begin ≤ end) × (end ≤ length string.old.buf.units) × (begin + length out.old < end) }
    ensures ok { result ≡ OK → out.new ≡ with_front (drop begin (take end string.old.buf.units)) out.old }
    ensures out { ¬ (result ≡ OK) → out.new ≡ out.old }
    ensures len { ¬ (result ≡ BAD_POSITION) → begin + len.new ≡ end }
    ensures len_kept { result ≡ BAD_POSITION → len.new ≡ len.old }
    ensures kept { IsKept string.old string.new }
{
    let buf = string.buffer();
    if end < begin || buf.unit_len() < end {
        return BAD_POSITION;
    }
    let needed = end - begin;
    *len = needed;
    if out.len() < needed {
        return ARRAY_TOO_SHORT;
    }
    buf.copy_units(begin, end, out);
    OK
}

/// Writes the text at the front of `out` in UTF-8, and its length in bytes to `len`, if the string holds no surrogate.
#[unsafe(no_mangle)]
pub extern "C" fn wtf8_copy_utf8(string: &mut Wtf8String, out: &mut [u8], len: &mut usize) -> i32
    ensures code { (result ≡ OK) ⊎ ((result ≡ HAS_SURROGATE) ⊎ (result ≡ ARRAY_TOO_SHORT)) }
    ensures surrogate { result ≡ HAS_SURROGATE ↔ ¬ (AreScalar string.old.buf.form.points) }
    ensures short { result ≡ ARRAY_TOO_SHORT ↔ AreScalar string.old.buf.form.points × (length out.old < length string.old.buf.bytes) }
    ensures ok { result ≡ OK → out.new ≡ with_front string.old.buf.bytes out.old }
    ensures out { ¬ (result ≡ OK) → out.new ≡ out.old }
    ensures len { ¬ (result ≡ HAS_SURROGATE) → len.new ≡ length string.old.buf.bytes }
    ensures len_kept { result ≡ HAS_SURROGATE → len.new ≡ len.old }
    ensures kept { IsKept string.old string.new }
{
    match string.buffer().as_str() {
        Some(text) => write_text(text.as_bytes(), out, len),
        None => HAS_SURROGATE,
    }
}

/// Writes the text with U+FFFD in place of each surrogate at the front of `out`, and its length in bytes to `len`.
#[unsafe(no_mangle)]
pub extern "C" fn wtf8_copy_lossy(string: &mut Wtf8String, out: &mut [u8], len: &mut usize) -> i32
    ensures code { (result ≡ OK) ⊎ (result ≡ ARRAY_TOO_SHORT) }
    ensures short { result ≡ ARRAY_TOO_SHORT ↔ length out.old < length string.old.buf.bytes }
    ensures ok { result ≡ OK → out.new ≡ with_front (bytes (lossy_points string.old.buf.form.points)) out.old }
    ensures out { ¬ (result ≡ OK) → out.new ≡ out.old }
    ensures len { len.new ≡ length string.old.buf.bytes }
    ensures kept { IsKept string.old string.new }
{
    let buf = string.buffer();
    if let Some(text) = buf.as_ascii() {
        return write_text(text.as_bytes(), out, len);
    }
    let text = buf.as_wtf8();
    // U+FFFD has the three bytes of a surrogate.
    let needed = text.len();
    *len = needed;
    if out.len() < needed {
        return ARRAY_TOO_SHORT;
    }
    text.write_lossy(out);
    OK
}

/// Writes a text at the front of `out` if it fits, and its length in any case.
fn write_text(text: &[u8], out: &mut [u8], len: &mut usize) -> i32
    ensures code { (result ≡ OK) ⊎ (result ≡ ARRAY_TOO_SHORT) }
    ensures short { result ≡ ARRAY_TOO_SHORT ↔ length out.old < length text.now }
    ensures ok { result ≡ OK → out.new ≡ with_front text.now out.old }
    ensures out { result ≡ ARRAY_TOO_SHORT → out.new ≡ out.old }
    ensures len { len.new ≡ length text.now }
{
    *len = text.len();
    if out.len() < text.len() {
        return ARRAY_TOO_SHORT;
    }
    out[..text.len()].copy_from_slice(text);
    OK
}
