//! Parts of a text, repeated, padded and trimmed texts.
ghost use Rattle.std.specs.List.{repeat};
ghost use Rattle.std.specs.Prelude.{◌≡◌, ◌↔◌, ◌-◌, ◌<◌, ◌≤◌, ◌++◌, [], ℕ, length, take, drop, min, max, slice_index, IsTrue, IfOk, IsOk};
ghost use Rattle.wtf8_uses.specs.StringPrototype.{IsSpace, IsTrimmed};

use std::alloc::{AllocError, Allocator};
use unit_text::UnitText;

/// `substring`: the units from the lesser of two positions to before the greater. A position past the end is the end.
pub fn substring<A: Allocator>(
    alloc: A,
    text: &UnitText<A>,
    first: usize,
    second: usize,
) -> Result<UnitText<A>, AllocError>
    ensures { IfOk result (λ t. t ≡ drop (min first second) (take (max first second) text.now)) }
{
    let len = text.unit_len();
    let begin = first.min(second).min(len);
    let end = first.max(second).min(len);
    text.slice_units(alloc, begin, end)
}

/// `repeat`: the text `count` times in a row. Does not allocate if the result is empty.
#[tactic(auto, using(crate::proofs::RepeatLemmas::repeat_one_more))]
pub fn repeat<A: Allocator>(
    alloc: A,
    text: &UnitText<A>,
    count: usize,
) -> Result<UnitText<A>, AllocError>
    ensures ok { IfOk result (λ t. t ≡ repeat count text.now) }
    ensures none { count ≡ 0 → IsOk result }
    ensures empty { text.now ≡ [] → IsOk result }
{
    let mut whole = UnitText::from_units(alloc, &[])?;
    for _ in 0..count {
        whole.concat(text)?;
    }
    Ok(whole)
}

/// `padStart`: the text, preceded by the units of `filler` again and again until it has `width` units. If the text is
/// wide enough or the filler is empty, nothing is added.
pub fn pad_start<A: Allocator + Copy>(
    alloc: A,
    text: &UnitText<A>,
    width: usize,
    filler: &UnitText<A>,
) -> Result<UnitText<A>, AllocError>
    ensures { IfOk result (λ t. t ≡ take (width - length text.now) (repeat (width - length text.now) filler.now) ++ text.now) }
{
    let mut padded = filling(alloc, filler, width.saturating_sub(text.unit_len()))?;
    padded.concat(text)?;
    Ok(padded)
}

/// The first `count` units of the filler repeated forever, or none if the filler is empty.
#[tactic(auto, using(crate::proofs::RepeatLemmas::repeat_nothing, crate::proofs::RepeatLemmas::take_filling))]
fn filling<A: Allocator + Copy>(
    alloc: A,
    filler: &UnitText<A>,
    count: usize,
) -> Result<UnitText<A>, AllocError>
    ensures { IfOk result (λ t. t ≡ take count (repeat count filler.now)) }
{
    let len = filler.unit_len();
    if len == 0 {
        return UnitText::from_units(alloc, &[]);
    }
    let mut units = repeat(alloc, filler, count / len)?;
    let rest = filler.slice_units(alloc, 0, count % len)?;
    units.concat(&rest)?;
    Ok(units)
}

/// `trim`, of the ASCII spaces only: the text without the ones at its ends. Allocates only for the result.
pub fn trim_ascii<A: Allocator>(alloc: A, text: &UnitText<A>) -> Result<UnitText<A>, AllocError>
    ensures { IfOk result (λ t. IsTrimmed text.now t) }
{
    let begin = first_other(text);
    let end = after_last_other(text, begin);
    text.slice_units(alloc, begin, end)
}

/// The index of the first unit that is not a space, or the length if there is none.
fn first_other<A: Allocator>(text: &UnitText<A>) -> usize
    ensures within { result ≤ length text.now }
    ensures before { (k : ℕ) → k < result → IsSpace (slice_index text.now k) }
    ensures first { result < length text.now → ¬ (IsSpace (slice_index text.now result)) }
{
    for index in 0..text.unit_len() {
        if !is_space_at(text, index) {
            return index;
        }
    }
    text.unit_len()
}

/// The index after the last unit from `begin` on that is not a space, or `begin` if there is none.
fn after_last_other<A: Allocator>(text: &UnitText<A>, begin: usize) -> usize
    requires { begin ≤ length text.now }
    ensures order { begin ≤ result }
    ensures within { result ≤ length text.now }
    ensures after { (k : ℕ) → result ≤ k → k < length text.now → IsSpace (slice_index text.now k) }
    ensures last { begin < result → ¬ (IsSpace (slice_index text.now (result - 1))) }
{
    for index in (begin..text.unit_len()).rev() {
        if !is_space_at(text, index) {
            return index + 1;
        }
    }
    begin
}

/// Whether the unit at index `index` is a space.
fn is_space_at<A: Allocator>(text: &UnitText<A>, index: usize) -> bool
    requires { index < length text.now }
    ensures { IsTrue result ↔ IsSpace (slice_index text.now index) }
{
    matches!(text.unit_at(index), Some(0x20 | 0x09..=0x0D))
}
