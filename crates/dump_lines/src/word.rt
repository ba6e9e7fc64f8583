// Words of a line, parsed as building calls.
ghost use Rattle.std.specs.Prelude.{◌≡◌, ◌==◌, ◌≤◌, ◌<◌, ◌^◌, ◌∷◌, ℕ, List, option_map, Some, IfSome, IfNone, MatchOption};
ghost use Rattle.std.specs.Char.{digit_value};
ghost use Rattle.std.specs.List.{slice_split};
ghost use Rattle.wtf8.specs.CodePoint.{number};
ghost use Rattle.dump_lines.specs.Parts.{parts_left};
ghost use Rattle.dump_lines.specs.Word.{bounded_number, number_after, point_of, IsCall, IsNoCall};

use crate::split::split_first_part;
use wtf8::{Build, CodePoint};

/// The number of digits of a code point below 0x10000, as most words are. If a space or the end of the line follows
/// that many digits, the end of the word is not searched for.
const BMP_DIGITS: usize = 4;

/// Parses the first word: its call, or `None` if it is malformed, and the bytes after its space, if there is one.
pub fn parse_first_word(bytes: &[u8]) -> (Option<Build<'static>>, Option<&[u8]>)
    ensures { (word : List ℕ) × (slice_split (λ byte. byte == 32) bytes.now ≡ word ∷ parts_left 32 result.1)
        × MatchOption result.0 (IsNoCall word) (IsCall word) }
{
    if BMP_DIGITS < bytes.len() && bytes[BMP_DIGITS] == b' ' {
        if let Some(point) = parse_point(&bytes[..BMP_DIGITS]) {
            return (Some(Build::Push(point)), Some(&bytes[BMP_DIGITS + 1..]));
        }
    }
    if bytes.len() == BMP_DIGITS {
        if let Some(point) = parse_point(bytes) {
            return (Some(Build::Push(point)), None);
        }
    }
    let (word, after) = split_first_part(bytes, b' ');
    (parse_call(word), after)
}

/// Parses a word as a building call, or returns `None` if it is malformed.
fn parse_call(word: &[u8]) -> Option<Build<'static>>
    ensures some { IfSome result (λ call. IsCall word.now call) }
    ensures none { IfNone result (IsNoCall word.now) }
{
    if let Some(position) = parse_number_after(word, b'-') {
        return Some(Build::Truncate(position as usize));
    }
    if let Some(units) = parse_number_after(word, b'/') {
        return Some(Build::TruncateUnits(units as usize));
    }
    let point = parse_point(word)?;
    Some(Build::Push(point))
}

/// Parses 4 to 6 hexadecimal digits as a code point, or returns `None` for any other word.
fn parse_point(word: &[u8]) -> Option<CodePoint>
    ensures { option_map number result ≡ point_of word.now }
{
    CodePoint::from_u32(parse_number(word, 16, 4, 6)?)
}

/// Parses 1 to 9 decimal digits after the byte `sigil` as a number, or returns `None` for any other word.
fn parse_number_after(word: &[u8], sigil: u8) -> Option<u32>
    ensures { result ≡ number_after sigil word.now }
{
    let (first, digits) = word.split_first()?;
    if *first != sigil {
        return None;
    }
    parse_number(digits, 10, 1, 9)
}

/// Parses a word of `least` to `most` digits in a base as a number, or returns `None` for any other word.
#[inline(always)]
fn parse_number(word: &[u8], base: u32, least: usize, most: usize) -> Option<u32>
    requires least_base { 2 ≤ base }
    requires greatest_base { base ≤ 36 }
    requires fits { base ^ most < 2 ^ 32 }
    ensures { result ≡ bounded_number base least most word.now }
{
    if word.len() < least || word.len() > most {
        return None;
    }
    let mut number = 0;
    for byte in word {
        let digit = digit_of(*byte);
        if digit >= base {
            return None;
        }
        number = number * base + digit;
    }
    Some(number)
}

/// The value of each byte as a digit, with letters of either case from 10 on, or 36 for any other byte. A table, since
/// range tests have branches that a processor mispredicts if digits and letters mix.
const DIGIT_VALUES: [u8; 256] = [
    36, 36, 36, 36, 36, 36, 36, 36, 36, 36, 36, 36, 36, 36, 36, 36, 36, 36, 36, 36, 36, 36, 36, 36,
    36, 36, 36, 36, 36, 36, 36, 36, 36, 36, 36, 36, 36, 36, 36, 36, 36, 36, 36, 36, 36, 36, 36, 36,
    0, 1, 2, 3, 4, 5, 6, 7, 8, 9, 36, 36, 36, 36, 36, 36, 36, 10, 11, 12, 13, 14, 15, 16, 17, 18,
    19, 20, 21, 22, 23, 24, 25, 26, 27, 28, 29, 30, 31, 32, 33, 34, 35, 36, 36, 36, 36, 36, 36, 10,
    11, 12, 13, 14, 15, 16, 17, 18, 19, 20, 21, 22, 23, 24, 25, 26, 27, 28, 29, 30, 31, 32, 33, 34,
    35, 36, 36, 36, 36, 36, 36, 36, 36, 36, 36, 36, 36, 36, 36, 36, 36, 36, 36, 36, 36, 36, 36, 36,
    36, 36, 36, 36, 36, 36, 36, 36, 36, 36, 36, 36, 36, 36, 36, 36, 36, 36, 36, 36, 36, 36, 36, 36,
    36, 36, 36, 36, 36, 36, 36, 36, 36, 36, 36, 36, 36, 36, 36, 36, 36, 36, 36, 36, 36, 36, 36, 36,
    36, 36, 36, 36, 36, 36, 36, 36, 36, 36, 36, 36, 36, 36, 36, 36, 36, 36, 36, 36, 36, 36, 36, 36,
    36, 36, 36, 36, 36, 36, 36, 36, 36, 36, 36, 36, 36, 36, 36, 36, 36, 36, 36, 36, 36, 36, 36, 36,
    36, 36, 36, 36, 36, 36, 36, 36, 36, 36, 36, 36, 36, 36,
];

/// The value of a byte as a digit, or 36 for a byte that is no digit.
#[inline(always)]
fn digit_of(byte: u8) -> u32
    ensures { result ≡ digit_value byte }
{
    u32::from(DIGIT_VALUES[byte as usize])
}
