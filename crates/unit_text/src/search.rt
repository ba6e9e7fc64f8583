// Where code units occur in a string. Its units are decoded on the stack, part by part.
ghost use Rattle.std.specs.Prelude.{◌≡◌, ◌≢◌, slice_index, ◌↔◌, ◌∷◌, [], ◌++◌, ◌+◌, ◌-◌, ◌≤◌, ◌<◌, ◌^◌, ℕ, length, take, IsTrue, IfSome, IfNone, IfOk, IfErr};
ghost use Rattle.unit_text.specs.private.Borders.{AreBorders, EndsWithFront, IsLongestFront};
ghost use Rattle.unit_text.specs.private.Search.{BeginsApart, pattern_units};
ghost use Rattle.unit_text.specs.Search.{FindsFirst, FindsLastBelow, IsFirstIndex, IsLastIndex, OccursAt};
ghost use Rattle.wtf8.specs.UnitMark.{IsMarkOf};
ghost use Rattle.wtf8.specs.UnitPosition.{DividesPair};
ghost use Rattle.wtf8.specs.View.{view_units};

use crate::indexed::IndexedBuf;
use std::alloc::Allocator;
use wtf8::{UnitMark, Wtf8, laws};

/// The most bytes of a part that is decoded at a time, and so the most units.
const PART: usize = 512;

/// The same for shorter strings: fewer bytes to zero.
const SHORT_PART: usize = 64;

/// The same for searches for more units than `PART`, of which this number is kept with their borders.
const LONG_PART: usize = 2048;

/// The same for searches from the end for more than half of `PART`, of which half of this number is kept.
const LONGEST_PART: usize = 2 * LONG_PART;

/// Decodes the first code points of a string, at most a byte for each unit of `block`, to the front of that. Returns
/// the number of their units and the rest of the string.
#[inline(always)]
fn decode_part<'a>(view: Wtf8<'a>, block: &mut [u16]) -> (usize, Wtf8<'a>)
    requires nonempty { 0 < length view.bytes.now }
    requires room { 4 ≤ length block.old }
    ensures some { 0 < result.0 }
    ensures within { result.0 ≤ length block.new }
    ensures units { take result.0 block.new ++ view_units result.1 ≡ view_units view.entry }
    ensures shorter { length result.1.bytes.now < length view.entry.bytes.now }
{
    let position = view.boundary_before(view.len().min(block.len()));
    let count = view.slice_to(position).write_units(block);
    (count, view.slice_from(position))
}

/// The code units that are searched for: `units`, and after them the `count` units of `after`.
#[derive(Clone, Copy)]
struct Pattern<'a> {
    units: &'a [u16],
    after: Wtf8<'a>,
    count: usize,
}

/// The pattern of these units alone.
fn pattern_of<'a>(units: &'a [u16]) -> Pattern<'a>
    ensures units { pattern_units result ≡ units.now }
    ensures slice { result.units.now ≡ units.now }
    ensures count { result.count ≡ length (view_units result.after) }
{
    Pattern {
        units,
        after: Wtf8::from_str(""),
        count: 0,
    }
}

/// Divides a pattern: at most its first `most` units, of which the borders are kept, and the pattern of the others.
#[inline(always)]
fn divide<'a>(pattern: Pattern<'a>, most: usize) -> (&'a [u16], Pattern<'a>)
    requires most { 0 < most }
    requires some { 0 < length pattern.units.now }
    requires count { pattern.count ≡ length (view_units pattern.after) }
    ensures some { 0 < length result.0.now }
    ensures most { length result.0.now ≤ most }
    ensures count { result.1.count ≡ length (view_units result.1.after) }
    ensures units { result.0.now ++ pattern_units result.1 ≡ pattern_units pattern.entry }
{
    let (front, units) = pattern.units.split_at(pattern.units.len().min(most));
    let tail = Pattern {
        units,
        after: pattern.after,
        count: pattern.count,
    };
    (front, tail)
}

/// Whether the units of `front` and then of `back` begin with `units`.
#[inline(always)]
fn begins_with_units(front: &[u16], back: Wtf8<'_>, units: &[u16]) -> bool
    ensures { IsTrue result ↔ take (length units.now) (front.now ++ view_units back.entry) ≡ units.now }
{
    let (first, rest) = units.split_at(front.len().min(units.len()));
    let own: &[u16] = &front[..first.len()];
    own == first && back.starts_with_units(rest)
}

/// Whether the units of `front` and then of `back` begin with the pattern's, compared one by one.
#[inline(never)]
fn begins_one_by_one(front: &[u16], back: Wtf8<'_>, pattern: Pattern<'_>) -> bool
    requires count { pattern.count ≡ length (view_units pattern.after) }
    requires fits { length (pattern_units pattern) < 2 ^ 64 }
    ensures { IsTrue result ↔ take (length (pattern_units pattern.entry)) (front.now ++ view_units back.entry) ≡ pattern_units pattern.entry }
{
    let own = front.iter().copied().chain(back.to_ill_formed_utf16());
    let first = pattern.units.iter().copied();
    let others = first.chain(pattern.after.to_ill_formed_utf16());
    own.take(pattern.units.len() + pattern.count)
        .cmp(others)
        .is_eq()
}

/// Whether the units of `front` and then of `back` begin with the pattern's.
#[inline(always)]
fn begins(front: &[u16], back: Wtf8<'_>, pattern: Pattern<'_>) -> bool
    requires count { pattern.count ≡ length (view_units pattern.after) }
    requires fits { length (pattern_units pattern) < 2 ^ 64 }
    ensures { IsTrue result ↔ take (length (pattern_units pattern.entry)) (front.now ++ view_units back.entry) ≡ pattern_units pattern.entry }
{
    begins_with_units(front, back, pattern.units)
        && (pattern.count == 0 || begins_one_by_one(front, back, pattern))
}

/// The length of the longest front of `units` with which the first `matched` of them and then `unit` end. `borders` has
/// the longest borders of shorter fronts.
#[inline(always)]
fn extended(units: &[u16], borders: &[u16], matched: usize, unit: u16) -> usize
    requires within { matched < length units.now }
    requires room { matched ≤ length borders.now }
    requires known { AreBorders units.now borders.now matched }
    ensures { IsLongestFront (take matched units.now ++ unit ∷ []) units.now result }
{
    let mut border = matched;
    while units[border] != unit {
        if border == 0 {
            return 0;
        }
        border = usize::from(borders[border - 1]);
    }
    border + 1
}

/// The longest borders of the fronts of at most `N` units: what a search keeps of the units that it has compared.
#[inline(always)]
fn borders_of<const N: usize>(units: &[u16]) -> [u16; N]
    requires part { N < 2 ^ 16 }
    requires within { length units.now ≤ N }
    ensures len { length result ≡ N }
    ensures borders { AreBorders units.now result (length units.now) }
{
    let mut borders = [0; N];
    for len in 1..units.len() {
        let border = usize::from(borders[len - 1]);
        borders[len] = extended(units, &borders, border, units[len]) as u16;
    }
    borders
}

/// Whether the first two units of `front` show that it does not begin at an index. With one, text has many candidates.
#[inline(always)]
fn begins_apart(part: &[u16], index: usize, front: &[u16]) -> bool
    requires within { index < length part.now }
    requires some { 0 < length front.now }
    ensures { IsTrue result → BeginsApart part.now front.now index }
{
    if part[index] != front[0] {
        return true;
    }
    if front.len() == 1 || part.len() - index == 1 {
        return false;
    }
    part[index + 1] != front[1]
}

/// The first index at or after `from` at which `front` may begin, or else the length; `from` itself if units are reached.
#[inline(always)]
fn next_start(part: &[u16], from: usize, front: &[u16], reached: usize) -> usize
    requires from { from ≤ length part.now }
    requires some { 0 < length front.now }
    ensures after { from ≤ result }
    ensures within { result ≤ length part.now }
    ensures kept { 0 < reached → result ≡ from }
    ensures passed { (k : ℕ) → from ≤ k → k < result → BeginsApart part.now front.now k }
{
    let mut index = from;
    while reached == 0 && index < part.len() && begins_apart(part, index, front) {
        index += 1;
    }
    index
}

/// Looks for `front` and after it `tail` in a part of a string and the string `back` after it. The first `matched` units
/// of `front` are before the part. Returns the index in the part where `front` ends if `tail` follows, else the number of
/// first units of `front` with which the part ends.
#[inline(always)]
fn end_in_part(
    part: &[u16],
    back: Wtf8<'_>,
    front: &[u16],
    borders: &[u16],
    matched: usize,
    tail: Pattern<'_>,
) -> Result<usize, usize>
    requires matched { matched < length front.now }
    requires room { length front.now ≤ length borders.now }
    requires known { AreBorders front.now borders.now (length front.now) }
    requires count { tail.count ≡ length (view_units tail.after) }
    requires fits { length (pattern_units tail) < 2 ^ 64 }
    ensures ok { IfOk result (λ end. (length front.now ≤ matched + end) × (end ≤ length part.now)
        × IsFirstIndex ((take matched front.now ++ part.now) ++ view_units back.entry) (front.now ++ pattern_units tail.entry) 0 (matched + end - length front.now)) }
    ensures err { IfErr result (λ left. (left < length front.now) × (left ≤ matched + length part.now)
        × EndsWithFront (take matched front.now ++ part.now) front.now left
        × ((k : ℕ) → k < matched + length part.now - left → ¬ (OccursAt ((take matched front.now ++ part.now) ++ view_units back.entry) (front.now ++ pattern_units tail.entry) k))) }
{
    let mut reached = matched;
    let mut index = 0;
    while index < part.len() {
        reached = extended(front, borders, reached, part[index]);
        if reached == front.len() {
            let (_, later) = part.split_at(index + 1);
            if begins(later, back, tail) {
                return Ok(index + 1);
            }
            reached = usize::from(borders[reached - 1]);
        }
        index = next_start(part, index + 1, front, reached);
    }
    Err(reached)
}

/// Linear in the length of the string, but for what `begins` compares where the first `N` units of the pattern occur.
#[inline(always)]
fn first_by_parts<const N: usize>(view: Wtf8<'_>, pattern: Pattern<'_>) -> Option<usize>
    requires part { (4 ≤ N) × (N < 2 ^ 16) }
    requires some { 0 < length pattern.units.now }
    requires count { pattern.count ≡ length (view_units pattern.after) }
    requires fits { length (pattern_units pattern) < 2 ^ 64 }
    ensures { FindsFirst (view_units view.entry) (pattern_units pattern.entry) 0 result }
{
    let (front, tail) = divide(pattern, N);
    let borders: [u16; N] = borders_of(front);
    let mut block = [0; N];
    let mut rest = view;
    let mut begin = 0;
    let mut matched = 0;
    // The string has no more units than bytes.
    while front.len() - matched <= rest.len() {
        let (count, after) = decode_part(rest, &mut block);
        prove!(view.len() <= usize::MAX);
        match end_in_part(&block[..count], after, front, &borders, matched, tail) {
            Ok(end) => return Some(begin + (matched + end - front.len())),
            Err(left) => {
                begin += matched + count - left;
                matched = left;
            }
        }
        rest = after;
    }
    None
}

/// The first index at which the pattern occurs in a string.
fn first_index(view: Wtf8<'_>, pattern: Pattern<'_>) -> Option<usize>
    requires some { 0 < length pattern.units.now }
    requires count { pattern.count ≡ length (view_units pattern.after) }
    requires fits { length (pattern_units pattern) < 2 ^ 64 }
    ensures { FindsFirst (view_units view.entry) (pattern_units pattern.entry) 0 result }
{
    if view.len() <= SHORT_PART {
        return first_by_parts::<SHORT_PART>(view, pattern);
    }
    if pattern.units.len() <= PART {
        return first_by_parts::<PART>(view, pattern);
    }
    first_by_parts::<LONG_PART>(view, pattern)
}

fn first_after_decoding<const N: usize>(
    view: Wtf8<'_>,
    other: Wtf8<'_>,
    count: usize,
) -> Option<usize>
    requires part { (4 ≤ N) × (N < 2 ^ 16) }
    requires some { 0 < length other.bytes.now }
    requires count { count ≡ length (view_units other) }
    ensures { FindsFirst (view_units view.entry) (view_units other.entry) 0 result }
{
    let mut block = [0; N];
    let (len, after) = decode_part(other, &mut block);
    let (units, _) = block.split_at(len);
    let pattern = Pattern {
        units,
        after,
        count: count - len,
    };
    first_index(view, pattern)
}

/// The first index at which the `count` units of `other`, which is not empty, occur in a string.
fn first_of_string(view: Wtf8<'_>, other: Wtf8<'_>, count: usize) -> Option<usize>
    requires some { 0 < length other.bytes.now }
    requires count { count ≡ length (view_units other) }
    ensures { FindsFirst (view_units view.entry) (view_units other.entry) 0 result }
{
    if other.len() <= SHORT_PART {
        return first_after_decoding::<SHORT_PART>(view, other, count);
    }
    if other.len() <= PART {
        return first_after_decoding::<PART>(view, other, count);
    }
    first_after_decoding::<LONG_PART>(view, other, count)
}

/// The last index below `limit` at which the units of `block` and then of `back` go on with `front` and then `tail`.
/// `front` ends in the block if it begins below `limit`. Linear in the length of the block, but for what `begins` compares.
#[inline(always)]
fn last_in_block(
    block: &[u16],
    back: Wtf8<'_>,
    limit: usize,
    front: &[u16],
    borders: &[u16],
    tail: Pattern<'_>,
) -> Option<usize>
    requires some { 0 < length front.now }
    requires room { length front.now ≤ length borders.now }
    requires known { AreBorders front.now borders.now (length front.now) }
    requires limit { limit + length front.now ≤ length block.now + 1 }
    requires count { tail.count ≡ length (view_units tail.after) }
    requires fits { length (pattern_units tail) < 2 ^ 64 }
    ensures { FindsLastBelow (block.now ++ view_units back.entry) (front.now ++ pattern_units tail.entry) limit result }
{
    let mut last = None;
    let mut from = 0;
    let mut matched = 0;
    while let Ok(end) = end_in_part(&block[from..], back, front, borders, matched, tail) {
        from += end;
        let index = from - front.len();
        if limit <= index {
            return last;
        }
        last = Some(index);
        // The next one may begin within this one.
        matched = usize::from(borders[front.len() - 1]);
    }
    last
}

/// The last index before the mark `until` at which the pattern occurs. Searches windows from the mark back, each with the
/// `front.len()` units after it, into which an occurrence may reach: at most half of the `N` units that are decoded at a
/// time. So it is linear in the distance to the index, but for what `begins` compares.
#[inline(always)]
fn last_by_parts<const N: usize>(
    view: Wtf8<'_>,
    until: UnitMark,
    pattern: Pattern<'_>,
) -> Option<usize>
    requires part { (4 ≤ N) × (N < 2 ^ 16) }
    requires mark { IsMarkOf view until }
    requires some { 0 < length pattern.units.now }
    requires count { pattern.count ≡ length (view_units pattern.after) }
    requires fits { length (view_units view) < 2 ^ 64 }
    requires within { until.units + length (pattern_units pattern) ≤ length (view_units view) }
    ensures { FindsLastBelow (view_units view.entry) (pattern_units pattern.entry) until.units result }
{
    laws::law_marks();
    let (front, tail) = divide(pattern, N / 2);
    let borders: [u16; N] = borders_of(front);
    let mut block = [0; N];
    let longest = N - 1 - front.len();
    // Short at first, so that it takes less to find an index near the mark.
    let mut window = front.len().max(SHORT_PART).min(longest);
    let mut end = until;
    while 0 < end.units {
        let begin = view.mark_back(end, end.units.saturating_sub(window));
        let after = view.mark_at(end, end.units + front.len());
        laws::law_mark(view, after);
        let text = view.slice_to(after.position);
        let count = text.slice_from_mark(begin).write_units(&mut block);
        let back = view.slice_from_mark(after);
        let limit = end.units - begin.units;
        if let Some(index) = last_in_block(&block[..count], back, limit, front, &borders, tail) {
            return Some(begin.units + index);
        }
        end = begin;
        window = (2 * window).min(longest);
    }
    None
}

/// The last index before the mark `end` at which the pattern occurs in a string.
fn last_index(view: Wtf8<'_>, end: UnitMark, pattern: Pattern<'_>) -> Option<usize>
    requires mark { IsMarkOf view end }
    requires some { 0 < length pattern.units.now }
    requires count { pattern.count ≡ length (view_units pattern.after) }
    requires fits { length (view_units view) < 2 ^ 64 }
    requires within { end.units + length (pattern_units pattern) ≤ length (view_units view) }
    ensures { FindsLastBelow (view_units view.entry) (pattern_units pattern.entry) end.units result }
{
    if view.len() <= SHORT_PART {
        return last_by_parts::<SHORT_PART>(view, end, pattern);
    }
    if pattern.units.len() <= PART / 2 {
        return last_by_parts::<PART>(view, end, pattern);
    }
    last_by_parts::<LONGEST_PART>(view, end, pattern)
}

fn last_after_decoding<const N: usize>(
    view: Wtf8<'_>,
    end: UnitMark,
    other: Wtf8<'_>,
    count: usize,
) -> Option<usize>
    requires part { (4 ≤ N) × (N < 2 ^ 16) }
    requires mark { IsMarkOf view end }
    requires some { 0 < length other.bytes.now }
    requires count { count ≡ length (view_units other) }
    requires fits { length (view_units view) < 2 ^ 64 }
    requires within { end.units + count ≤ length (view_units view) }
    ensures { FindsLastBelow (view_units view.entry) (view_units other.entry) end.units result }
{
    let mut block = [0; N];
    let (len, after) = decode_part(other, &mut block);
    let (units, _) = block.split_at(len);
    let pattern = Pattern {
        units,
        after,
        count: count - len,
    };
    last_index(view, end, pattern)
}

/// The last index before the mark `end` at which the `count` units of `other`, which is not empty, occur in a string.
fn last_of_string(view: Wtf8<'_>, end: UnitMark, other: Wtf8<'_>, count: usize) -> Option<usize>
    requires mark { IsMarkOf view end }
    requires some { 0 < length other.bytes.now }
    requires count { count ≡ length (view_units other) }
    requires fits { length (view_units view) < 2 ^ 64 }
    requires within { end.units + count ≤ length (view_units view) }
    ensures { FindsLastBelow (view_units view.entry) (view_units other.entry) end.units result }
{
    if other.len() <= SHORT_PART {
        return last_after_decoding::<SHORT_PART>(view, end, other, count);
    }
    if other.len() <= PART {
        return last_after_decoding::<PART>(view, end, other, count);
    }
    last_after_decoding::<LONG_PART>(view, end, other, count)
}

impl<A: Allocator> IndexedBuf<A> {
    /// The first index at or after `from` at which these code units occur, also inside a surrogate pair, or `None` if
    /// there is none. An empty list is found at `from`, but past the end nothing is. Does not allocate. Linear in the distance
    /// to the index and the number of `units`; where the first 2,048 of more units occur, the others are compared until one
    /// differs.
    pub fn find_units(&self, from: usize, units: &[u16]) -> Option<usize>
        ensures some { IfSome result (λ k. IsFirstIndex self.now.units units.now from k) }
        ensures none { IfNone result ((k : ℕ) → from ≤ k → ¬ (OccursAt self.now.units units.now k)) }
    {
        let last = self.unit_len().checked_sub(units.len())?;
        if last < from {
            return None;
        }
        if units.is_empty() {
            return Some(from);
        }
        if let Some(rest) = self.units_from(from).as_wtf8() {
            let index = first_index(rest, pattern_of(units))?;
            return Some(from + index);
        }
        // The first unit is the trail of a pair, after which a code point begins.
        if self.starts_with_units_at(from, units) {
            return Some(from);
        }
        self.find_units(from + 1, units)
    }

    /// The first index at or after `from` at which the code units of `other` occur, as `find_units` finds them. Instead of
    /// 2,048 units its first 2,048 bytes count.
    pub fn find<B: Allocator>(&self, from: usize, other: &IndexedBuf<B>) -> Option<usize>
        ensures some { IfSome result (λ k. IsFirstIndex self.now.units other.now.units from k) }
        ensures none { IfNone result ((k : ℕ) → from ≤ k → ¬ (OccursAt self.now.units other.now.units k)) }
    {
        if self.unit_len().checked_sub(other.unit_len())? < from {
            return None;
        }
        let view = other.as_wtf8();
        if view.is_empty() {
            return Some(from);
        }
        if let Some(rest) = self.units_from(from).as_wtf8() {
            let index = first_of_string(rest, view, other.unit_len())?;
            return Some(from + index);
        }
        // The first unit is the trail of a pair, after which a code point begins.
        if self.starts_with_at(from, other) {
            return Some(from);
        }
        self.find(from + 1, other)
    }

    /// The last index at or before `from` at which these code units occur, also inside a surrogate pair, or `None` if
    /// there is none. An empty list is found at `from`, or at the end if that is before. Does not allocate. Linear in the
    /// distance from there to the index and the number of `units`; more than 2,048 units are compared as by `find_units`.
    pub fn rfind_units(&self, from: usize, units: &[u16]) -> Option<usize>
        ensures some { IfSome result (λ k. IsLastIndex self.now.units units.now from k) }
        ensures none { IfNone result ((k : ℕ) → k ≤ from → ¬ (OccursAt self.now.units units.now k)) }
    {
        let last = self.unit_len().checked_sub(units.len())?;
        let begin = from.min(last);
        if self.starts_with_units_at(begin, units) {
            return Some(begin);
        }
        let marked = self.marked();
        let mark = marked.mark_at(begin);
        // If `begin` splits a pair, its lead is directly before.
        if mark.units < begin && self.starts_with_units_at(mark.units, units) {
            return Some(mark.units);
        }
        last_index(marked.text.view, mark, pattern_of(units))
    }

    /// The last index at or before `from` at which the code units of `other` occur, as `rfind_units` finds them. Instead of
    /// 2,048 units its first 2,048 bytes count.
    pub fn rfind<B: Allocator>(&self, from: usize, other: &IndexedBuf<B>) -> Option<usize>
        ensures some { IfSome result (λ k. IsLastIndex self.now.units other.now.units from k) }
        ensures none { IfNone result ((k : ℕ) → k ≤ from → ¬ (OccursAt self.now.units other.now.units k)) }
    {
        let begin = from.min(self.unit_len().checked_sub(other.unit_len())?);
        if self.starts_with_at(begin, other) {
            return Some(begin);
        }
        let marked = self.marked();
        let mark = marked.mark_at(begin);
        // If `begin` splits a pair, its lead is directly before.
        if mark.units < begin && self.starts_with_at(mark.units, other) {
            return Some(mark.units);
        }
        last_of_string(marked.text.view, mark, other.as_wtf8(), other.unit_len())
    }

    /// Whether a cut before index `index` splits a surrogate pair: a lead is directly before it, and a trail at it.
    /// `false` at and past the end. Constant in an ASCII string. In others it counts the units as `position_at` does.
    pub fn divides_pair(&self, index: usize) -> bool
        ensures { IsTrue result ↔ DividesPair self.now.units index }
    {
        index < self.unit_len() && self.marked().mark_at(index).units < index
    }
}
