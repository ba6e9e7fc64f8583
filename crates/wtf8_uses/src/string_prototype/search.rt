//! Searches for one text or unit in a text.
ghost use Rattle.std.specs.List.{join_with_byte, slice_split};
ghost use Rattle.std.specs.Prelude.{All, map, ◌==◌, ◌≢◌, ◌≡◌, ◌+◌, ◌≤◌, ◌++◌, ℕ, length, take, drop, min, max, IfSome, IfNone, IfOk, OnOk};
ghost use Rattle.unit_text.specs.Search.{IsFirstIndex, IsLastIndex, OccursAt};
ghost use Rattle.wtf8_uses.specs.StringPrototype.{IsReplaced};

use std::alloc::{AllocError, Allocator};
use unit_text::UnitText;

/// `indexOf`: the first index at or after `position` at which the units of `search` occur. `None`, for the -1 of the
/// language, if there is none. A position past the end is the end, where the empty text occurs.
pub fn index_of<A: Allocator, B: Allocator>(
    text: &UnitText<A>,
    search: &UnitText<B>,
    position: usize,
) -> Option<usize>
    ensures some { IfSome result (λ k. IsFirstIndex text.now search.now (min position (length text.now)) k) }
    ensures none { IfNone result ((k : ℕ) → min position (length text.now) ≤ k → ¬ (OccursAt text.now search.now k)) }
{
    text.find(position.min(text.unit_len()), search)
}

/// `lastIndexOf`: the last index at or before `position` at which the units of `search` occur. `None`, for the -1 of
/// the language, if there is none.
pub fn last_index_of<A: Allocator, B: Allocator>(
    text: &UnitText<A>,
    search: &UnitText<B>,
    position: usize,
) -> Option<usize>
    ensures some { IfSome result (λ k. IsLastIndex text.now search.now position k) }
    ensures none { IfNone result ((k : ℕ) → k ≤ position → ¬ (OccursAt text.now search.now k)) }
{
    text.rfind(position, search)
}

/// `replace` with a text as pattern: replaces the first occurrence of `search` by `other`, in which `$` has no special
/// meaning. If there is none, returns a copy.
pub fn replace<A: Allocator + Copy>(
    alloc: A,
    text: &UnitText<A>,
    search: &UnitText<A>,
    other: &UnitText<A>,
) -> Result<UnitText<A>, AllocError>
    ensures found { IfOk result (λ t. (k : ℕ) → IsFirstIndex text.now search.now 0 k → t ≡ take k text.now ++ (other.now ++ drop (k + length search.now) text.now)) }
    ensures none { IfOk result (λ t. ((k : ℕ) → ¬ (OccursAt text.now search.now k)) → t ≡ text.now) }
{
    let len = text.unit_len();
    let Some(index) = index_of(text, search, 0) else {
        return text.slice_units(alloc, 0, len);
    };
    let mut whole = text.slice_units(alloc, 0, index)?;
    whole.concat(other)?;
    let back = text.slice_units(alloc, index + search.unit_len(), len)?;
    whole.concat(&back)?;
    Ok(whole)
}

/// `replaceAll` with a text as pattern: replaces the occurrences of `search`, found one after the other, by `other`, in
/// which `$` has no special meaning. An empty `search` occurs before each unit and at the end. In a text without marks
/// each occurrence is a count from the front.
pub fn replace_all<A: Allocator + Copy>(
    alloc: A,
    text: &UnitText<A>,
    search: &UnitText<A>,
    other: &UnitText<A>,
) -> Result<UnitText<A>, AllocError>
    ensures { IfOk result (λ t. IsReplaced text.now search.now other.now 0 0 t) }
{
    let len = text.unit_len();
    let gap = gap_after(search);
    let mut whole = UnitText::new(alloc);
    let mut begin = 0;
    let mut skipped = 0;
    while let Some(index) = index_after(text, search, begin, skipped) {
        append_part(alloc, &mut whole, text, begin, index)?;
        whole.concat(other)?;
        begin = index + search.unit_len();
        skipped = gap;
    }
    append_part(alloc, &mut whole, text, begin, len)?;
    Ok(whole)
}

/// The number of units between an occurrence of `search` and where the next one may begin: 1 if it is empty, else 0.
fn gap_after<A: Allocator>(search: &UnitText<A>) -> usize
    ensures { length search.now + result ≡ max 1 (length search.now) }
{
    match search.unit_len() {
        0 => 1,
        _ => 0,
    }
}

/// The first index, `skipped` units after index `begin` or later, at which the units of `search` occur, or `None` if
/// there is none: past the end not even the empty text occurs.
fn index_after<A: Allocator>(
    text: &UnitText<A>,
    search: &UnitText<A>,
    begin: usize,
    skipped: usize,
) -> Option<usize>
    requires { begin ≤ length text.now }
    ensures some { IfSome result (λ k. IsFirstIndex text.now search.now (begin + skipped) k) }
    ensures none { IfNone result ((k : ℕ) → begin + skipped ≤ k → ¬ (OccursAt text.now search.now k)) }
{
    if text.unit_len() - begin < skipped {
        return None;
    }
    index_of(text, search, begin + skipped)
}

/// Appends the units of `text` from index `begin` to index `end`.
fn append_part<A: Allocator + Copy>(
    alloc: A,
    whole: &mut UnitText<A>,
    text: &UnitText<A>,
    begin: usize,
    end: usize,
) -> Result<(), AllocError>
    requires order { begin ≤ end }
    requires within { end ≤ length text.now }
    ensures { OnOk result (whole.new ≡ whole.old ++ drop begin (take end text.now)) }
{
    let part = text.slice_units(alloc, begin, end)?;
    whole.concat(&part)
}

/// `split` at one unit: the parts before, between and after the separators. There is one part more than separators, so
/// an empty text has one part, which is empty.
pub fn split<A: Allocator + Copy>(
    alloc: A,
    text: &UnitText<A>,
    separator: u16,
) -> Result<Vec<UnitText<A>, A>, AllocError>
    ensures pieces { IfOk result (λ v. v.items ≡ slice_split (λ u. u == separator) text.now) }
    ensures joined { IfOk result (λ v. join_with_byte separator v.items ≡ text.now) }
    ensures apart { IfOk result (λ v. All (λ piece. All (λ u. u ≢ separator) piece) v.items) }
{
    let mut units = Vec::new(alloc);
    text.as_wtf8().append_units(&mut units)?;
    let pieces = pieces_of(alloc, units.as_slice(), separator)?;
    Ok(pieces)
}

/// Splits units at a separator into texts.
fn pieces_of<A: Allocator + Copy>(
    alloc: A,
    units: &[u16],
    separator: u16,
) -> Result<Vec<UnitText<A>, A>, AllocError>
    ensures { IfOk result (λ v. v.items ≡ slice_split (λ u. u == separator) units.now) }
{
    let parts = parts_of(alloc, units, separator)?;
    texts_of(alloc, parts.as_slice())
}

/// Makes a text of each list of units.
fn texts_of<A: Allocator + Copy>(
    alloc: A,
    parts: &[&[u16]],
) -> Result<Vec<UnitText<A>, A>, AllocError>
    ensures { IfOk result (λ v. v.items ≡ map (λ part. part.now) parts.now) }
{
    let mut texts = Vec::with_capacity(alloc, parts.len())?;
    for part in parts {
        texts.push(UnitText::from_units(alloc, part)?)?;
    }
    Ok(texts)
}

/// Splits units at a separator, without copying them.
fn parts_of<A: Allocator>(
    alloc: A,
    units: &[u16],
    separator: u16,
) -> Result<Vec<&[u16], A>, AllocError>
    ensures { IfOk result (λ v. map (λ part. part.now) v.items ≡ slice_split (λ u. u == separator) units.now) }
{
    units.split(|unit| *unit == separator).collect(alloc)
}
