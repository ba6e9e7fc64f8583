// Lossy text: U+FFFD in place of each surrogate, and of each part of bytes that is not UTF-8.
ghost use Rattle.std.specs.Prelude.{◌≡◌, ◌∷◌, ◌++◌, ◌+◌, ◌<◌, ◌≤◌, [], length, take, drop, OnOk, IsOk, vec_capacity, IsTrue, ◌↔◌};
ghost use Rattle.std.specs.Str.{chars, IsUtf8, IsValidUpTo};
ghost use Rattle.std.specs.Str.Lossy.{utf8_lossy, utf8_invalid_len, replacement_bytes};
ghost use Rattle.wtf8.specs.Form.{IsWellFormed, bytes as bytes_of};
ghost use Rattle.wtf8.specs.Surrogates.{lossy_points};
ghost use Rattle.wtf8.specs.Unicode.{units};
ghost use Rattle.wtf8.specs.Utf8.{IsUnfinished, LeavesUnfinished};
ghost use Rattle.wtf8.specs.private.EncodedBytes.{ExtendsForm, BecomesOrKeeps};

use crate::lanes::VECTOR;
use crate::lanes::search::next_surrogate;
use crate::lanes::utf8::{NEAR, from_utf8, near_error};
use crate::strings::appending::append_bytes;
use crate::vec::{push_block, push_front, spare_capacity};
use std::alloc::{AllocError, Allocator};
use std::simd::prelude::*;

/// The encoding of U+FFFD, the replacement character: three bytes, like the encoding of each surrogate.
const REPLACEMENT: [u8; 3] = [0xEF, 0xBF, 0xBD];

/// The most bytes of an unfinished code point.
const MAX_UNFINISHED: usize = 3;

fn write_replacement(bytes: &mut [u8], at: usize)
    requires { at + 3 ≤ length bytes.old }
    ensures { bytes.new ≡ take at bytes.old ++ (0xEF ∷ 0xBF ∷ 0xBD ∷ drop (at + 3) bytes.old) }
{
    bytes[at..at + 3].copy_from_slice(&REPLACEMENT);
}

pub(crate) fn replace_surrogates(bytes: &mut [u8])
    requires { IsWellFormed bytes.old }
    ensures { (h : IsWellFormed bytes.old) → bytes.new ≡ bytes_of (lossy_points h.points) }
{
    let mut from = 0;
    while let Some(found) = next_surrogate(bytes, from) {
        write_replacement(bytes, found);
        from = found + 3;
    }
}

/// Appends the first `count` bytes, then U+FFFD. Few bytes are appended as a block, and what is after them cut off.
#[inline(always)]
fn append_with_replacement<A: Allocator>(
    bytes: &mut Vec<u8, A>,
    text: &[u8],
    count: usize,
) -> Result<(), AllocError>
    requires { count ≤ length text.now }
    ensures { BecomesOrKeeps bytes.old (bytes.old.items ++ (take count text.now ++ replacement_bytes)) bytes.new result }
{
    let needed = VECTOR + REPLACEMENT.len();
    if count <= VECTOR && VECTOR <= text.len() && needed <= spare_capacity(bytes) {
        push_front(bytes, u8x16::from_slice(text).to_array(), count);
        push_block(bytes, REPLACEMENT);
        return Ok(());
    }
    let text: &[u8] = &text[..count];
    bytes.reserve(text.len() + REPLACEMENT.len())?;
    bytes.extend_from_slice(text)?;
    push_block(bytes, REPLACEMENT);
    Ok(())
}

/// The number of bytes at the front that are UTF-8, and of those after them that are wrong together or unfinished: 0 if all
/// are UTF-8. Two numbers stay in registers, which a `Result` does not.
#[inline(always)]
fn first_part(text: &[u8], is_near: bool) -> (usize, usize)
    ensures whole { length text.now ≤ result.0 → IsUtf8 text.now }
    ensures valid { result.0 < length text.now → IsValidUpTo text.now result.0 }
    ensures wrong { result.0 < length text.now → result.1 ≡ utf8_invalid_len (drop result.0 text.now) }
{
    if is_near {
        if let Some(part) = near_error(text) {
            return part;
        }
    }
    match from_utf8(text) {
        Ok(_) => (text.len(), 0),
        Err(error) => {
            let valid = error.valid_up_to();
            (valid, error.error_len().unwrap_or(text.len() - valid))
        }
    }
}

/// Appends bytes read as UTF-8, with U+FFFD for each maximal part that is not. If memory is refused, some parts may have
/// been appended. After a short part the next one is likely to be near.
fn append_parts<A: Allocator>(bytes: &mut Vec<u8, A>, text: &[u8]) -> Result<(), AllocError>
    ensures ok { OnOk result (bytes.new.items ≡ bytes.old.items ++ utf8_lossy text.now) }
    ensures begins { take (length bytes.old.items) bytes.new.items ≡ bytes.old.items }
    ensures room { length (bytes.old.items ++ utf8_lossy text.now) ≤ vec_capacity bytes.old → IsOk result }
    ensures capacity { vec_capacity bytes.old ≤ vec_capacity bytes.new }
{
    let mut rest = text;
    let mut is_near = false;
    'parts: loop {
        let (valid, wrong) = first_part(rest, is_near);
        if rest.len() <= valid {
            return append_bytes(bytes, rest);
        }
        append_with_replacement(bytes, rest, valid)?;
        is_near = valid < NEAR;
        let (_, after) = rest.split_at(valid);
        rest = &after[wrong..];
    }
}

/// Appends bytes read as UTF-8, with U+FFFD for each maximal part that is not.
pub(crate) fn push_lossy<A: Allocator>(
    bytes: &mut Vec<u8, A>,
    text: &[u8],
) -> Result<(), AllocError>
    requires { IsWellFormed bytes.old.items }
    ensures units { ExtendsForm bytes.old.items (bytes.old.items ++ utf8_lossy text.now) (units (chars (utf8_lossy text.now))) }
    ensures bytes { BecomesOrKeeps bytes.old (bytes.old.items ++ utf8_lossy text.now) bytes.new result }
    ensures empty { text.now ≡ [] → IsOk result }
{
    let len = bytes.len();
    let appended = append_parts(bytes, text);
    if appended.is_err() {
        bytes.truncate(len);
    }
    appended
}

fn is_unfinished(text: &[u8]) -> bool
    ensures { IsTrue result ↔ IsUnfinished text.now }
{
    match from_utf8(text) {
        Ok(_) => false,
        Err(error) => error.valid_up_to() == 0 && error.error_len().is_none(),
    }
}

/// The number of bytes before the code point that is unfinished at the end, if one is. It can only begin at the last of
/// the lead bytes.
pub(crate) fn finished_len(text: &[u8]) -> usize
    ensures all { LeavesUnfinished text.now result }
    ensures few { length text.now ≤ result + MAX_UNFINISHED }
{
    let first = text.len().saturating_sub(MAX_UNFINISHED);
    let mut at = text.len();
    while first < at {
        at -= 1;
        if 0xC0 <= text[at] {
            if is_unfinished(&text[at..]) {
                return at;
            }
            return text.len();
        }
    }
    text.len()
}
