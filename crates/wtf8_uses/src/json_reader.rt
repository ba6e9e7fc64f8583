//! Reads strings in JSON text, with any `\u` escapes.
ghost use Rattle.std.specs.Prelude.{◌≡◌, ◌≢◌, ◌<◌, ◌≤◌, ◌∷◌, [], None, Some, ℕ, List, length, IfErr, IfOk, IfSome, IfNone};
ghost use Rattle.wtf8.specs.CodePoint.{number};
ghost use Rattle.wtf8.specs.Unicode.{units_of};
ghost use Rattle.wtf8.specs.View.{view_points};
ghost use Rattle.wtf8_uses.specs.JsonString.{BeginsWithCharacter, BeginsWithDigit, BeginsWithQuote, BeginsWithString, BeginsWithUnit};
ghost use Rattle.wtf8_uses.specs.JsonString.{BeginsWithCharacters, EndsEscape, HasCauseAt, IsCause, IsMalformedAt, digit_value, escaped};

use std::alloc::Allocator;
use wtf8::{CodePoint, Wtf8, Wtf8Buf};

/// Why `read_json_string` failed.
#[derive(Clone, Copy, Debug)]
pub enum JsonError {
    /// The text does not begin with a JSON string: `cause` is at the byte `position`, the first one of the code point
    /// or escape that cannot be there.
    Malformed { position: usize, cause: JsonCause },
    /// A request for memory was refused.
    Memory,
}

/// What is at the position of a `JsonError`.
#[derive(Clone, Copy, Debug, PartialEq, Eq)]
pub enum JsonCause {
    /// No quotation mark at the start.
    NotOpened,
    /// The end of the text, before a quotation mark that ends the string.
    NotClosed,
    /// A control character below U+0020.
    ControlCharacter,
    /// A backslash that begins no escape.
    Escape,
}

/// Reads the JSON string at the front of a text. Returns it with the text after its closing quotation mark. Escapes and
/// unescaped code points are appended one after the other, so that halves of a surrogate pair become one code point.
pub fn read_json_string<'a, A: Allocator>(
    alloc: A,
    text: Wtf8<'a>,
) -> Result<(Wtf8Buf<A>, Wtf8<'a>), JsonError>
    ensures ok { IfOk result (λ x. BeginsWithString (view_points text.entry) x.0.units (view_points x.1)) }
    ensures within { IfErr result (λ e. (position : ℕ) (cause : JsonCause) → e ≡ JsonError.Malformed position cause → position ≤ length text.entry.bytes.now) }
    ensures malformed { IfErr result (λ e. (position : ℕ) (cause : JsonCause) → e ≡ JsonError.Malformed position cause → IsMalformedAt (view_points text.entry) position) }
    ensures cause { IfErr result (λ e. (position : ℕ) (cause : JsonCause) → e ≡ JsonError.Malformed position cause → HasCauseAt (view_points text.entry) position cause) }
    ensures none { IfErr result (λ e. e ≢ JsonError.Memory → (u after : List ℕ) → ¬ (BeginsWithString (view_points text.entry) u after)) }
{
    let Some(start) = after_quote(text) else {
        return Err(JsonError::Malformed {
            position: 0,
            cause: JsonCause::NotOpened,
        });
    };
    let mut string = Wtf8Buf::new(alloc);
    let mut rest = start;
    while let Some((point, after)) = first_character(rest) {
        let Ok(()) = string.push(point) else {
            return Err(JsonError::Memory);
        };
        rest = after;
    }
    let Some(end) = after_quote(rest) else {
        return Err(JsonError::Malformed {
            position: text.len() - rest.len(),
            cause: cause_at(rest),
        });
    };
    Ok((string, end))
}

/// What is wrong at the front of a text that begins with no character of a JSON string and no quotation mark.
fn cause_at(text: Wtf8<'_>) -> JsonCause
    requires no_character { (p : ℕ) (after : List ℕ) → ¬ (BeginsWithCharacter (view_points text) p after) }
    requires no_quote { (after : List ℕ) → ¬ (BeginsWithQuote (view_points text) after) }
    ensures { IsCause result (view_points text.entry) }
{
    match first_point(text) {
        None => JsonCause::NotClosed,
        Some((point, _)) => {
            if point.to_u32() < 0x20 {
                JsonCause::ControlCharacter
            } else {
                JsonCause::Escape
            }
        }
    }
}

/// The first code point of a text, and the text after it.
fn first_point<'a>(text: Wtf8<'a>) -> Option<(CodePoint, Wtf8<'a>)>
    ensures some { IfSome result (λ x. view_points text.entry ≡ number x.0 ∷ view_points x.1) }
    ensures none { IfNone result (view_points text.entry ≡ []) }
{
    let mut points = text.code_points();
    let Some(point) = points.next() else {
        return None;
    };
    Some((point, points.as_wtf8()))
}

/// The text after the quotation mark at its front.
fn after_quote<'a>(text: Wtf8<'a>) -> Option<Wtf8<'a>>
    ensures some { IfSome result (λ after. BeginsWithQuote (view_points text.entry) (view_points after)) }
    ensures none { IfNone result ((after : List ℕ) → ¬ (BeginsWithQuote (view_points text.entry) after)) }
{
    let Some((point, after)) = first_point(text) else {
        return None;
    };
    if point.to_u32() != 0x22 {
        return None;
    }
    Some(after)
}

/// The code point that the character or escape at the front of a text stands for, and the text after it.
fn first_character<'a>(text: Wtf8<'a>) -> Option<(CodePoint, Wtf8<'a>)>
    ensures some { IfSome result (λ x. BeginsWithCharacter (view_points text.entry) (number x.0) (view_points x.1)) }
    ensures shorter { IfSome result (λ x. length (view_points x.1) < length (view_points text.entry)) }
    ensures none { IfNone result ((p : ℕ) (after : List ℕ) → ¬ (BeginsWithCharacter (view_points text.entry) p after)) }
{
    let Some((point, after)) = first_point(text) else {
        return None;
    };
    let number = point.to_u32();
    if number == 0x5C {
        let Some((escaped, rest)) = escape_end(after) else {
            return None;
        };
        return Some((escaped, rest));
    }
    if number < 0x20 || number == 0x22 {
        return None;
    }
    Some((point, after))
}

/// The code point of the escape whose backslash is just before the text, and the text after it.
fn escape_end<'a>(text: Wtf8<'a>) -> Option<(CodePoint, Wtf8<'a>)>
    ensures some { IfSome result (λ x. EndsEscape (view_points text.entry) (number x.0) (view_points x.1)) }
    ensures shorter { IfSome result (λ x. length (view_points x.1) < length (view_points text.entry)) }
    ensures none { IfNone result ((p : ℕ) (after : List ℕ) → ¬ (EndsEscape (view_points text.entry) p after)) }
{
    let Some((letter, after)) = first_point(text) else {
        return None;
    };
    let letter = letter.to_u32();
    if letter == 0x75 {
        let Some((unit, rest)) = first_unit(after) else {
            return None;
        };
        return Some((unit, rest));
    }
    let Some(character) = escaped_char(letter) else {
        return None;
    };
    Some((CodePoint::from_char(character), after))
}

/// The character of an escape of two characters, by the second of these.
#[tactic(auto, unfolding(crate::specs::JsonString::escaped))]
fn escaped_char(letter: u32) -> Option<char>
    ensures { result ≡ escaped letter }
{
    match letter {
        0x22 => Some('"'),
        0x5C => Some('\\'),
        0x2F => Some('/'),
        0x62 => Some('\u{8}'),
        0x66 => Some('\u{C}'),
        0x6E => Some('\n'),
        0x72 => Some('\r'),
        0x74 => Some('\t'),
        _ => None,
    }
}

/// The unit of the four hexadecimal digits at the front of a text, and the text after them.
fn first_unit<'a>(text: Wtf8<'a>) -> Option<(CodePoint, Wtf8<'a>)>
    ensures some { IfSome result (λ x. BeginsWithUnit (view_points text.entry) (number x.0) (view_points x.1)) }
    ensures shorter { IfSome result (λ x. length (view_points x.1) < length (view_points text.entry)) }
    ensures none { IfNone result ((unit : ℕ) (after : List ℕ) → ¬ (BeginsWithUnit (view_points text.entry) unit after)) }
{
    let Some((a, after_a)) = first_digit(text) else {
        return None;
    };
    let Some((b, after_b)) = first_digit(after_a) else {
        return None;
    };
    let Some((c, after_c)) = first_digit(after_b) else {
        return None;
    };
    let Some((d, after)) = first_digit(after_c) else {
        return None;
    };
    let unit = ((a * 16 + b) * 16 + c) * 16 + d;
    Some((CodePoint::from_u32_unchecked(unit), after))
}

/// The value of the hexadecimal digit at the front of a text, and the text after it.
fn first_digit<'a>(text: Wtf8<'a>) -> Option<(u32, Wtf8<'a>)>
    ensures some { IfSome result (λ x. BeginsWithDigit (view_points text.entry) x.0 (view_points x.1)) }
    ensures below { IfSome result (λ x. x.0 < 16) }
    ensures shorter { IfSome result (λ x. length (view_points x.1) < length (view_points text.entry)) }
    ensures none { IfNone result ((value : ℕ) (after : List ℕ) → ¬ (BeginsWithDigit (view_points text.entry) value after)) }
{
    let Some((digit, after)) = first_point(text) else {
        return None;
    };
    let Some(value) = value_of_digit(digit.to_u32()) else {
        return None;
    };
    Some((value, after))
}

/// The value of a hexadecimal digit.
#[tactic(auto, unfolding(crate::specs::JsonString::digit_value))]
fn value_of_digit(digit: u32) -> Option<u32>
    ensures value { result ≡ digit_value digit }
    ensures below { IfSome result (λ value. value < 16) }
{
    match digit {
        0x30..=0x39 => Some(digit - 0x30),
        0x41..=0x46 => Some(digit - 0x37),
        0x61..=0x66 => Some(digit - 0x57),
        _ => None,
    }
}
