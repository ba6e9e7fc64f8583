// Appending to well-formed bytes: a lead surrogate at their end and a trail surrogate after it become one code point.
ghost use Rattle.std.specs.Prelude.{◌≡◌, ℕ, List, [], ◌∷◌, ◌++◌, ◌+◌, ◌-◌, ◌≤◌, ◌<◌, length, take, drop, IsOk, IfOk, OnOk, IsTrue, OnSome, IfSome, IfNone, vec_len, vec_capacity, slice_index, ◌%◌};
ghost use Rattle.std.specs.Str.{chars};
ghost use Rattle.wtf8.specs.CodePoint.{number};
ghost use Rattle.wtf8.specs.Concatenation.{MeetsAsPair};
ghost use Rattle.wtf8.specs.Form.{IsWellFormed, Reads, encoding};
ghost use Rattle.wtf8.specs.private.EncodedBytes.{ExtendsForm, BecomesOrKeeps, ExtendsFormOrKeeps};
ghost use Rattle.wtf8.specs.private.Prefixes.{AreScalarTo, FrontsFit, IsKnownForm};
ghost use Rattle.wtf8.specs.Surrogates.{AreScalar};
ghost use Rattle.wtf8.specs.Unicode.{units, units_of, pair, IsSurrogate, IsLead, IsTrail};
ghost use Rattle.wtf8.specs.View.{view_points, view_units};

use crate::codec::code_point::{CodePoint, FIRST_TRAIL, code_point_of_pair, is_trail};
use crate::codec::encoding;
use crate::from_utf16::on_stack::{self, MAX_ONE_BY_ONE};
use crate::from_utf16::room::Growth;
use crate::from_utf16::short_ascii::{self, is_short_ascii};
use crate::from_utf16::{Progress, transcode};
use crate::strings::utf8_prefix::Utf8Prefix;
use crate::strings::view::Wtf8;
use crate::vec::spare_capacity;
use std::alloc::{AllocError, Allocator};

/// Reserves the fourth byte of the pair's encoding before it overwrites the lead's three.
fn complete_pair<A: Allocator>(
    bytes: &mut Vec<u8, A>,
    lead: u32,
    trail: u32,
) -> Result<(), AllocError>
    requires lead { IsLead lead }
    requires trail { IsTrail trail }
    requires three { 3 ≤ length bytes.old.items }
    ensures { BecomesOrKeeps bytes.old (take (length bytes.old.items - 3) bytes.old.items ++ encoding (pair lead trail)) bytes.new result }
{
    let joined = encoding::four_bytes(code_point_of_pair(lead, trail));
    let start = bytes.len() - 3;
    bytes.reserve(1)?;
    bytes[start..start + 3].copy_from_slice(&joined[..3]);
    bytes.push_reserved(joined[3]);
    Ok(())
}

/// `append_with_spare` if no pair is completed: that the bytes are the form of the units is proved here once.
#[inline(always)]
fn push_unpaired<A: Allocator>(
    bytes: &mut Vec<u8, A>,
    spare: usize,
    code_point: CodePoint,
) -> Result<(), AllocError>
    requires spare { vec_len bytes.old + spare ≡ vec_capacity bytes.old }
    requires well_formed { IsWellFormed bytes.old.items }
    requires no_pair { (h : IsWellFormed bytes.old.items) → ¬ (MeetsAsPair h.points (number code_point ∷ [])) }
    ensures units { ExtendsForm bytes.old.items (bytes.old.items ++ encoding (number code_point)) (units_of (number code_point)) }
    ensures bytes { BecomesOrKeeps bytes.old (bytes.old.items ++ encoding (number code_point)) bytes.new result }
{
    encoding::append_with_spare(bytes, spare, code_point)
}

#[inline(always)]
fn push_trail<A: Allocator>(
    bytes: &mut Vec<u8, A>,
    spare: usize,
    trail: CodePoint,
) -> Result<(), AllocError>
    requires spare { vec_len bytes.old + spare ≡ vec_capacity bytes.old }
    requires well_formed { IsWellFormed bytes.old.items }
    requires trail { IsTrail (number trail) }
    ensures { ExtendsFormOrKeeps bytes.old (units_of (number trail)) bytes.new result }
{
    let view = Wtf8::from_well_formed(bytes.as_slice());
    match view.final_lead_surrogate() {
        Some(lead) => complete_pair(bytes, lead, trail.to_u32()),
        None => push_unpaired(bytes, spare, trail),
    }
}

/// A trail completes a lead at the end. A surrogate cuts the UTF-8 prefix to at most the old length.
#[inline(always)]
pub(crate) fn push<A: Allocator>(
    bytes: &mut Vec<u8, A>,
    utf8_prefix: &mut Utf8Prefix,
    code_point: CodePoint,
) -> Result<(), AllocError>
    requires { IsWellFormed bytes.old.items }
    ensures extends { ExtendsFormOrKeeps bytes.old (units_of (number code_point)) bytes.new result }
    ensures order { utf8_prefix.new.len ≤ utf8_prefix.old.len }
    ensures scalar { length bytes.old.items < utf8_prefix.new.len → ¬ (IsSurrogate (number code_point)) }
{
    // The spare capacity is computed before the match, so that a loop can keep the length in a register: computed in
    // each arm, with as many instructions, pushes of CJK take 3.8 ns for 2.5.
    let spare = bytes.capacity() - bytes.len();
    // Each arm has its own call, in which the compiler knows the encoded length: one call for all takes 20.7
    // instructions a unit for 14.7 of ASCII and 35.7 for 30.7 of CJK, though 17.8 for 20.8 of supplementary code
    // points. From D800 on the code points of four bytes come first, since surrogates and U+E000 to U+FFFF are rare.
    match code_point.to_u32() {
        0..=0x7F => push_unpaired(bytes, spare, code_point),
        0x80..=0x7FF => push_unpaired(bytes, spare, code_point),
        0x800..=0xD7FF => push_unpaired(bytes, spare, code_point),
        0x10000.. => push_unpaired(bytes, spare, code_point),
        surrogate @ 0xD800..=0xDFFF => {
            *utf8_prefix = utf8_prefix.up_to(bytes.len());
            if surrogate < FIRST_TRAIL as u32 {
                push_unpaired(bytes, spare, code_point)
            } else {
                push_trail(bytes, spare, code_point)
            }
        }
        0xE000..=0xFFFF => push_unpaired(bytes, spare, code_point),
    }
}

pub(crate) fn append_bytes<A: Allocator>(
    bytes: &mut Vec<u8, A>,
    other: &[u8],
) -> Result<(), AllocError>
    ensures { BecomesOrKeeps bytes.old (bytes.old.items ++ other.now) bytes.new result }
{
    bytes.extend_from_slice(other)
}

#[inline(always)]
fn pair_at_seam(front: Wtf8<'_>, back: Wtf8<'_>) -> Option<(u32, u32)>
    ensures pair { IfSome result (λ p. IsLead p.0 × IsTrail p.1) }
    ensures last { IfSome result (λ p. (f : List ℕ) × (view_points front.entry ≡ f ++ p.0 ∷ [])) }
    ensures first { IfSome result (λ p. (r : List ℕ) × (view_points back.entry ≡ p.1 ∷ r)) }
    ensures none { IfNone result (¬ (MeetsAsPair (view_points front.entry) (view_points back.entry))) }
{
    let trail = back.initial_trail_surrogate()?;
    let lead = front.final_lead_surrogate()?;
    Some((lead, trail))
}

/// Requests all memory before it overwrites the lead. Not inlined, since few pushes join.
#[inline(never)]
fn append_completing_pair<A: Allocator>(
    bytes: &mut Vec<u8, A>,
    lead: u32,
    trail: u32,
    other: &[u8],
) -> Result<(), AllocError>
    requires lead { IsLead lead }
    requires trail { IsTrail trail }
    requires three { 3 ≤ length bytes.old.items }
    requires begins { (3 ≤ length other.now) × (slice_index other.now 2 ≡ 0x80 + trail % 64) }
    ensures { BecomesOrKeeps bytes.old ((take (length bytes.old.items - 3) bytes.old.items ++ encoding (pair lead trail)) ++ drop 3 other.now) bytes.new result }
{
    let joined = encoding::four_bytes(code_point_of_pair(lead, trail));
    let start = bytes.len() - 3;
    // The pair's last byte is that of the trail, so it is appended with the bytes after it.
    let (_, added) = other.split_at(2);
    bytes.extend_from_slice(added)?;
    bytes[start..start + 3].copy_from_slice(&joined[..3]);
    Ok(())
}

#[inline(always)]
fn append_joining<A: Allocator>(bytes: &mut Vec<u8, A>, other: Wtf8<'_>) -> Result<(), AllocError>
    requires { IsWellFormed bytes.old.items }
    ensures { ExtendsFormOrKeeps bytes.old (view_units other.entry) bytes.new result }
{
    let view = Wtf8::from_well_formed(bytes.as_slice());
    match pair_at_seam(view, other) {
        Some((lead, trail)) => append_completing_pair(bytes, lead, trail, other.bytes),
        None => append_bytes(bytes, other.bytes),
    }
}

#[inline(always)]
pub(crate) fn push_wtf8<A: Allocator>(
    bytes: &mut Vec<u8, A>,
    utf8_prefix: &mut Utf8Prefix,
    other: Wtf8<'_>,
) -> Result<(), AllocError>
    requires well_formed { IsWellFormed bytes.old.items }
    requires scalar_prefix { (h : IsWellFormed bytes.old.items) → AreScalarTo utf8_prefix.old.len h.points }
    ensures extends { ExtendsFormOrKeeps bytes.old (view_units other.entry) bytes.new result }
    ensures order { utf8_prefix.new.len ≤ utf8_prefix.old.len }
    ensures scalar { length bytes.old.items < utf8_prefix.new.len → AreScalar (view_points other.entry) }
{
    let is_utf8 = bytes.len() <= utf8_prefix.len;
    *utf8_prefix = utf8_prefix.after_push(bytes.len(), other);
    if is_utf8 {
        // A string without surrogates has no lead at its end.
        append_bytes(bytes, other.bytes)
    } else {
        append_joining(bytes, other)
    }
}

#[inline(always)]
pub(crate) fn push_char<A: Allocator>(bytes: &mut Vec<u8, A>, c: char) -> Result<(), AllocError>
    requires { IsWellFormed bytes.old.items }
    ensures units { ExtendsForm bytes.old.items (bytes.old.items ++ encoding c) (units_of c) }
    ensures bytes { BecomesOrKeeps bytes.old (bytes.old.items ++ encoding c) bytes.new result }
{
    let spare = spare_capacity(bytes);
    push_unpaired(bytes, spare, CodePoint::from_u32_unchecked(u32::from(c)))
}

pub(crate) fn push_str<A: Allocator>(bytes: &mut Vec<u8, A>, other: &str) -> Result<(), AllocError>
    requires { IsWellFormed bytes.old.items }
    ensures units { ExtendsForm bytes.old.items (bytes.old.items ++ other.now) (units (chars other.now)) }
    ensures bytes { BecomesOrKeeps bytes.old (bytes.old.items ++ other.now) bytes.new result }
    ensures empty { other.now ≡ [] → IsOk result }
{
    append_bytes(bytes, other.as_bytes())
}

/// `final_lead_surrogate`, not inlined, since few units begin with a trail: each push would test the length for it.
#[inline(never)]
fn lead_at_end(view: Wtf8<'_>) -> Option<u32>
    ensures lead { IfSome result (λ l. IsLead l) }
    ensures last { IfSome result (λ l. (f : List ℕ) × (view_points view.entry ≡ f ++ l ∷ [])) }
    ensures none { IfNone result ((f : List ℕ) (l : ℕ) → IsLead l → view_points view.entry ≡ f ++ l ∷ [] → ⊥) }
{
    view.final_lead_surrogate()
}

/// Returns the lead surrogate that ends `bytes`, if the first of the units completes it. There is none if `is_utf8`
/// says that they hold no surrogate.
fn lead_before<A: Allocator>(bytes: &Vec<u8, A>, is_utf8: bool, v: &[u16]) -> Option<u32>
    requires well_formed { IsWellFormed bytes.now.items }
    requires scalar { (h : IsWellFormed bytes.now.items) → IsTrue is_utf8 → AreScalar h.points }
    ensures trail { OnSome result ((0 < length v.now) × IsTrail (slice_index v.now 0)) }
    ensures lead { IfSome result (λ l. IsLead l) }
    ensures last { (h : IsWellFormed bytes.now.items) → IfSome result (λ l. (f : List ℕ) × (h.points ≡ f ++ l ∷ [])) }
    ensures none { (h : IsWellFormed bytes.now.items) → IfNone result (¬ (MeetsAsPair h.points v.now)) }
{
    if is_utf8 {
        return None;
    }
    let view = Wtf8::from_well_formed(bytes.as_slice());
    match v.first() {
        Some(unit) if is_trail(u32::from(*unit)) => lead_at_end(view),
        _ => None,
    }
}

/// `lead` is the lead surrogate at the end of `bytes` that the first unit completes. Returns whether the new bytes are
/// known to hold no surrogate. If memory is refused, some units may have been appended.
fn append_utf16<A: Allocator>(
    bytes: &mut Vec<u8, A>,
    is_utf8: bool,
    lead: Option<u32>,
    v: &[u16],
) -> Result<bool, AllocError>
    requires well_formed { IsWellFormed bytes.old.items }
    requires scalar { (h : IsWellFormed bytes.old.items) → IsTrue is_utf8 → AreScalar h.points }
    requires trail { OnSome lead ((0 < length v.now) × IsTrail (slice_index v.now 0)) }
    requires lead { IfSome lead (λ l. IsLead l) }
    requires last { (h : IsWellFormed bytes.old.items) → IfSome lead (λ l. (f : List ℕ) × (h.points ≡ f ++ l ∷ [])) }
    requires none { (h : IsWellFormed bytes.old.items) → IfNone lead (¬ (MeetsAsPair h.points v.now)) }
    ensures ok { (h : IsWellFormed bytes.old.items) → IfOk result (λ known. IsKnownForm bytes.new.items (units h.points ++ v.now) known) }
    ensures begins { IfNone lead (take (length bytes.old.items) bytes.new.items ≡ bytes.old.items) }
    ensures before_lead { take (length bytes.old.items - 3) bytes.new.items ≡ take (length bytes.old.items - 3) bytes.old.items }
    ensures longer { length bytes.old.items ≤ length bytes.new.items }
    ensures room { (h : IsWellFormed bytes.old.items) → FrontsFit (units h.points) v.now (vec_capacity bytes.old) → IsOk result }
    ensures capacity { vec_capacity bytes.old ≤ vec_capacity bytes.new }
{
    match lead {
        Some(lead) => {
            complete_pair(bytes, lead, u32::from(v[0]))?;
            transcode::append_utf16(
                bytes,
                v,
                Progress {
                    at: 1,
                    is_utf8: false,
                },
                Growth::Amortized,
            )
        }
        None => transcode::append_utf16(bytes, v, Progress { at: 0, is_utf8 }, Growth::Amortized),
    }
}

/// Restores the first `len` bytes, which `lead` ended if it is one. Not inlined, since few pushes are refused.
#[inline(never)]
pub(crate) fn take_back<A: Allocator>(bytes: &mut Vec<u8, A>, len: usize, lead: Option<u32>)
    requires within { len ≤ length bytes.old.items }
    requires lead { IfSome lead (λ l. IsLead l × (3 ≤ len)) }
    ensures begins { IfNone lead (bytes.new.items ≡ take len bytes.old.items) }
    ensures lead { IfSome lead (λ l. bytes.new.items ≡ take (len - 3) bytes.old.items ++ encoding l) }
    ensures capacity { vec_capacity bytes.old ≤ vec_capacity bytes.new }
{
    match lead {
        Some(lead) => encoding::keep_lead(bytes, len - 3, lead as u16),
        None => bytes.truncate(len),
    }
}

/// Appends code units; a trail at their front completes a lead at the end. A lone surrogate among them, or a front that
/// may hold one, cuts the UTF-8 prefix to at most the old length.
fn push_utf16<A: Allocator>(
    bytes: &mut Vec<u8, A>,
    v: &[u16],
    utf8_prefix: &mut Utf8Prefix,
) -> Result<(), AllocError>
    requires well_formed { IsWellFormed bytes.old.items }
    requires scalar_prefix { (h : IsWellFormed bytes.old.items) → AreScalarTo utf8_prefix.old.len h.points }
    ensures extends { ExtendsFormOrKeeps bytes.old v.now bytes.new result }
    ensures order { utf8_prefix.new.len ≤ utf8_prefix.old.len }
    ensures scalar { length bytes.old.items < utf8_prefix.new.len → OnOk result ((c : List ℕ) → Reads c v.now → AreScalar c) }
{
    let len = bytes.len();
    let is_utf8 = len <= utf8_prefix.len;
    let lead = lead_before(bytes, is_utf8, v);
    match append_utf16(bytes, is_utf8, lead, v) {
        Ok(is_utf8) => {
            if !is_utf8 {
                *utf8_prefix = utf8_prefix.up_to(len);
            }
            Ok(())
        }
        Err(error) => {
            take_back(bytes, len, lead);
            Err(error)
        }
    }
}

/// Whether the first of the units may complete a lead at the end of a string. One without surrogates, as `is_utf8` says,
/// has none.
#[inline(always)]
fn may_complete_lead(is_utf8: bool, v: &[u16]) -> bool
    ensures { (c : List ℕ) → (IsTrue is_utf8 → AreScalar c) → MeetsAsPair c v.now → IsTrue result }
{
    if is_utf8 {
        return false;
    }
    match v.first() {
        Some(unit) => is_trail(u32::from(*unit)),
        None => false,
    }
}

/// Appends code units as `push_utf16` does. Few units, and short ASCII, take a shorter way. Inlined, so that a caller saves
/// no registers for `push_utf16` before it chooses.
#[inline(always)]
pub(crate) fn push_units<A: Allocator>(
    bytes: &mut Vec<u8, A>,
    v: &[u16],
    utf8_prefix: &mut Utf8Prefix,
) -> Result<(), AllocError>
    requires well_formed { IsWellFormed bytes.old.items }
    requires scalar_prefix { (h : IsWellFormed bytes.old.items) → AreScalarTo utf8_prefix.old.len h.points }
    ensures extends { ExtendsFormOrKeeps bytes.old v.now bytes.new result }
    ensures order { utf8_prefix.new.len ≤ utf8_prefix.old.len }
    ensures scalar { length bytes.old.items < utf8_prefix.new.len → OnOk result ((c : List ℕ) → Reads c v.now → AreScalar c) }
{
    if is_short_ascii(v) {
        return short_ascii::append(bytes, v);
    }
    let len = bytes.len();
    let is_utf8 = len <= utf8_prefix.len;
    if MAX_ONE_BY_ONE < v.len() || may_complete_lead(is_utf8, v) {
        return push_utf16(bytes, v, utf8_prefix);
    }
    let is_utf8 = on_stack::append(bytes, v, is_utf8)?;
    if !is_utf8 {
        *utf8_prefix = utf8_prefix.up_to(len);
    }
    Ok(())
}
