//! JSON text of strings of any units, as ECMAScript's `JSON.stringify` writes it.
ghost use Rattle.std.specs.List.{flat_map};
ghost use Rattle.std.specs.Prelude.{◌≡◌, ◌<◌, ◌++◌, IfOk, OnErr, OnOk, codes};
ghost use Rattle.std.specs.String.{string_bytes};
ghost use Rattle.wtf8.specs.CodePoint.{number};
ghost use Rattle.wtf8.specs.View.{view_points};
ghost use Rattle.wtf8_uses.specs.Json.{Continues, json, json_point, small_digit, unit_escape};

use std::alloc::{AllocError, Allocator};
use wtf8::{CodePoint, Wtf8};

/// The JSON text of a string: its code points between double quotes. Escapes double quotes, backslashes, control
/// characters below U+0020 and lone surrogates (`\ud83d`), so that every string has a text and different strings have
/// different texts. If a request is refused, nothing stays allocated.
pub fn json_text<A: Allocator>(alloc: A, text: Wtf8<'_>) -> Result<String<A>, AllocError>
    ensures { IfOk result (λ t. string_bytes t ≡ json (view_points text.entry)) }
{
    let mut json = String::new(alloc);
    append_json_text(&mut json, text)?;
    Ok(json)
}

/// Appends the JSON text of a string, as `json_text` makes it. If a request is refused, `out` has the text that it had.
pub fn append_json_text<A: Allocator>(out: &mut String<A>, text: Wtf8<'_>) -> Result<(), AllocError>
    ensures ok { OnOk result (string_bytes out.new ≡ string_bytes out.old ++ json (view_points text.entry)) }
    ensures kept { OnErr result (string_bytes out.new ≡ string_bytes out.old) }
{
    let len = out.len();
    out.push_str("\"")?;
    let rest = push_rest(out, text);
    if rest.is_err() {
        out.truncate(len);
    }
    rest
}

/// Appends the JSON text of a string to bytes, as `json_text` makes it in memory of `alloc`, which is freed again. If a
/// request is refused, `out` has the bytes that it had.
pub fn append_json_bytes<A: Allocator, B: Allocator>(
    alloc: A,
    out: &mut Vec<u8, B>,
    text: Wtf8<'_>,
) -> Result<(), AllocError>
    ensures ok { OnOk result (out.new.items ≡ out.old.items ++ json (view_points text.entry)) }
    ensures kept { OnErr result (out.new.items ≡ out.old.items) }
{
    let json = json_text(alloc, text)?;
    out.extend_from_slice(json.as_bytes())
}

/// Appends the code points of a string as JSON text, and the closing quote.
fn push_rest<A: Allocator>(json: &mut String<A>, text: Wtf8<'_>) -> Result<(), AllocError>
    ensures ok { OnOk result (string_bytes json.new ≡ string_bytes json.old ++ flat_map json_point (view_points text.entry) ++ codes "\"") }
    ensures begun { Continues (string_bytes json.old) (string_bytes json.new) }
{
    for point in text.code_points() {
        push_point(json, point)?;
    }
    json.push_str("\"")
}

/// Appends a code point as JSON text.
#[tactic(auto, unfolding(crate::specs::Json::json_point))]
fn push_point<A: Allocator>(json: &mut String<A>, point: CodePoint) -> Result<(), AllocError>
    ensures ok { OnOk result (string_bytes json.new ≡ string_bytes json.old ++ json_point (number point)) }
    ensures begun { Continues (string_bytes json.old) (string_bytes json.new) }
{
    match point.to_u32() {
        0x08 => json.push_str("\\b"),
        0x09 => json.push_str("\\t"),
        0x0A => json.push_str("\\n"),
        0x0C => json.push_str("\\f"),
        0x0D => json.push_str("\\r"),
        0x22 => json.push_str("\\\""),
        0x5C => json.push_str("\\\\"),
        unit @ (0..=0x1F | 0xD800..=0xDFFF) => push_escape(json, unit),
        _ => json.push(point.to_char_lossy()),
    }
}

/// Appends the `\u` escape of a unit.
fn push_escape<A: Allocator>(json: &mut String<A>, unit: u32) -> Result<(), AllocError>
    requires { unit < 0x10000 }
    ensures ok { OnOk result (string_bytes json.new ≡ string_bytes json.old ++ unit_escape unit) }
    ensures begun { Continues (string_bytes json.old) (string_bytes json.new) }
{
    json.push_str("\\u")?;
    json.push(digit(unit / 0x1000))?;
    json.push(digit(unit / 0x100 % 16))?;
    json.push(digit(unit / 0x10 % 16))?;
    json.push(digit(unit % 16))
}

/// The lower-case hexadecimal digit of a number.
fn digit(value: u32) -> char
    requires { value < 16 }
    ensures value { result ≡ small_digit value }
    ensures ascii { result < 0x80 }
{
    let value = value as u8;
    if value < 10 {
        char::from(b'0' + value)
    } else {
        char::from(b'a' + (value - 10))
    }
}
