//! Single units and code points of a text.
ghost use Rattle.std.specs.Option.{option_map};
ghost use Rattle.std.specs.Prelude.{◌≡◌, ◌+◌, ◌≤◌, ℕ, pos, negsuc, length, take, drop, slice_get, IsNone, IfOk, IsOk};
ghost use Rattle.wtf8.specs.CodePoint.{number};
ghost use Rattle.wtf8_uses.specs.StringPrototype.{point_at, point_with};

use std::alloc::{AllocError, Allocator};
use unit_text::UnitText;
use wtf8::CodePoint;

/// `charAt`: the text of the one unit at a position. If there is none, the result is empty, and nothing is allocated.
pub fn char_at<A: Allocator>(
    alloc: A,
    text: &UnitText<A>,
    position: usize,
) -> Result<UnitText<A>, AllocError>
    ensures ok { IfOk result (λ t. t ≡ take 1 (drop position text.now)) }
    ensures none { length text.now ≤ position → IsOk result }
{
    if position < text.unit_len() {
        text.slice_units(alloc, position, position + 1)
    } else {
        UnitText::from_units(alloc, &[])
    }
}

/// `charCodeAt`: the unit at a position, or `None`, for the `NaN` of the language, if there is none.
pub fn char_code_at<A: Allocator>(text: &UnitText<A>, position: usize) -> Option<u16>
    ensures { result ≡ slice_get text.now position }
{
    text.unit_at(position)
}

/// `at`: the unit at a position. A negative position counts from the end, so that -1 is the last unit. `None`, for the
/// `undefined` of the language, if there is none.
pub fn at<A: Allocator>(text: &UnitText<A>, position: isize) -> Option<u16>
    ensures front { (n : ℕ) → position ≡ pos n → result ≡ slice_get text.now n }
    ensures back { (n k : ℕ) → position ≡ negsuc n → k + (n + 1) ≡ length text.now → result ≡ slice_get text.now k }
    ensures before { (n : ℕ) → position ≡ negsuc n → length text.now ≤ n → IsNone result }
{
    if 0 <= position {
        return text.unit_at(position.unsigned_abs());
    }
    let index = text.unit_len().checked_sub(position.unsigned_abs())?;
    text.unit_at(index)
}

/// `codePointAt`: the code point that begins at a position. A surrogate pair is one supplementary code point; any other
/// unit is the code point with its number. `None` if there is no unit.
pub fn code_point_at<A: Allocator>(text: &UnitText<A>, position: usize) -> Option<CodePoint>
    ensures { option_map number result ≡ point_at text.now position }
{
    let unit = text.unit_at(position)?;
    prove!(text.unit_len() <= usize::MAX);
    let next = text.unit_at(position + 1);
    Some(point_with(unit, next))
}

/// The code point of a unit and the next one, if any.
#[tactic(auto, unfolding(wtf8::specs::Concatenation::is_pair))]
fn point_with(unit: u16, next: Option<u16>) -> CodePoint
    ensures { number result ≡ point_with unit next }
{
    let point = match (unit, next) {
        (0xD800..=0xDBFF, Some(trail @ 0xDC00..=0xDFFF)) => {
            0x10000 + (u32::from(unit) - 0xD800) * 0x400 + (u32::from(trail) - 0xDC00)
        }
        _ => u32::from(unit),
    };
    CodePoint::from_u32_unchecked(point)
}
