// `Wtf8`, the borrowed string.
ghost use Rattle.std.specs.Prelude.{◌≡◌, ℕ, List, [], ◌∷◌, ◌++◌, ◌+◌, ◌*◌, ◌^◌, ◌<◌, ◌≤◌, ◌↔◌, length, take, drop, slice_index, IsTrue, IsSome, IsNone, IfSome, IfNone, IfOk, IsOk};
ghost use Rattle.std.specs.Cow.{cow_str_bytes, IsBorrowedStr};
ghost use Rattle.std.specs.Str.{chars};
ghost use Rattle.wtf8.specs.Form.{bytes, IsWellFormed, Reads};
ghost use Rattle.wtf8.specs.OneForm.{IsWellFormed-prop};
ghost use Rattle.wtf8.specs.Position.{IsBoundary, IsFront, IsBack, IsMiddle};
ghost use Rattle.wtf8.specs.SurrogatePosition.{IsNextSurrogate, IsTextFrom};
ghost use Rattle.wtf8.specs.Surrogates.{AreScalar, lossy_points};
ghost use Rattle.wtf8.specs.Unicode.{IsLead, IsTrail};
ghost use Rattle.wtf8.specs.Units.{unread_units};

use crate::codec::code_point::CodePoint;
use crate::codec::encoding::{self, surrogate_after_ed};
use crate::lanes::search;
use crate::strings::iters::{IllFormedUtf16CodeUnits, Wtf8CodePoints};
use crate::strings::lossy::replace_surrogates;
use std::alloc::{AllocError, Allocator};
use std::borrow::CowStr;

/// A borrowed string: a view of well-formed WTF-8 bytes that live for `'a`.
///
/// The fields are public so that contracts of other crates can name the bytes and their code points, which determine
/// the code units; code makes a view with `Wtf8Buf::as_wtf8` or `Wtf8::from_str`.
///
/// ```
/// use std::alloc::{AllocError, Global};
/// use std::borrow::CowStr;
/// use wtf8::Wtf8;
///
/// /// The lossy text before a position, or `None` if that is no code point boundary.
/// fn text_before<'a>(
///     alloc: Global,
///     name: Wtf8<'a>,
///     end: usize,
/// ) -> Result<Option<CowStr<'a, Global>>, AllocError> {
///     if !name.is_code_point_boundary(end) {
///         return Ok(None);
///     }
///     // Memory is needed, and can be refused, only if the text has to be copied.
///     let text = name.slice_to(end).to_string_lossy(alloc)?;
///     Ok(Some(text))
/// }
/// ```
#[derive(Clone, Copy)]
pub struct Wtf8<'a> {
    pub bytes: &'a [u8],
    pub ghost well_formed: { IsWellFormed bytes.now } by { IsWellFormed-prop bytes.now },
}

impl<'a> Wtf8<'a> {
    ghost use Rattle.wtf8.specs.CodePoint.{number};
    ghost use Rattle.wtf8.specs.View.{view_points, view_units};

    /// Views a `&str` as a string of its characters. Does not copy.
    pub fn from_str(value: &'a str) -> Wtf8<'a>
        ensures bytes { result.bytes.now ≡ value.now }
        ensures points { view_points result ≡ chars value.now }
        ensures scalar { AreScalar (view_points result) }
    {
        Wtf8::from_well_formed(value.as_bytes())
    }

    pub(crate) fn from_well_formed(bytes: &'a [u8]) -> Wtf8<'a>
        requires { IsWellFormed bytes.now }
        ensures bytes { result.bytes.now ≡ bytes.now }
        ensures points { (h : IsWellFormed bytes.now) → view_points result ≡ h.points }
    {
        Wtf8 { bytes }
    }

    /// The length in bytes: at least the number of code units, and at most three times that.
    pub fn len(&self) -> usize
        ensures bytes { result ≡ length self.now.bytes.now }
        ensures at_least_units { length (view_units self.now) ≤ result }
        ensures at_most_three_times { result ≤ 3 * length (view_units self.now) }
    {
        self.bytes.len()
    }

    /// Whether the string is empty.
    pub fn is_empty(&self) -> bool
        ensures units { IsTrue result ↔ view_units self.now ≡ [] }
        ensures bytes { IsTrue result ↔ self.now.bytes.now ≡ [] }
    {
        self.bytes.is_empty()
    }

    /// Iterates over the code points, in order.
    pub fn code_points(&self) -> Wtf8CodePoints<'a>
        ensures points { result ≡ view_points self.now }
        ensures fits { length result < 2 ^ 64 }
    {
        prove!(self.len() <= usize::MAX);
        Wtf8CodePoints::new(*self)
    }

    /// Iterates over the 16-bit code units, in order: the units that the string was made of, paired or not.
    pub fn to_ill_formed_utf16(&self) -> IllFormedUtf16CodeUnits<'a>
        ensures units { unread_units result ≡ view_units self.now }
        ensures held { result.held ≡ [] }
        ensures points { result.points ≡ view_points self.now }
        ensures fits { length (unread_units result) < 2 ^ 64 }
    {
        prove!(self.len() <= usize::MAX);
        IllFormedUtf16CodeUnits::new(*self)
    }

    /// Whether `index` is a code point boundary: the start of a code point, or the end of the string. An index past the
    /// end is not. Reads at most one byte.
    pub fn is_code_point_boundary(&self, index: usize) -> bool
        ensures { IsTrue result ↔ IsBoundary (view_units self.now) index }
    {
        if index < self.bytes.len() {
            encoding::begins_code_point(self.bytes[index])
        } else {
            index == self.bytes.len()
        }
    }

    /// The part from `begin` to `end`, which must be code point boundaries (`is_code_point_boundary`). Borrows the
    /// bytes for `'a`, so it may outlive this view.
    pub fn slice(&self, begin: usize, end: usize) -> Wtf8<'a>
        requires order { begin ≤ end }
        requires begin_boundary { IsBoundary (view_units self.now) begin }
        requires end_boundary { IsBoundary (view_units self.now) end }
        ensures units { IsMiddle (view_units self.now) begin end (view_units result) }
        ensures bytes { result.bytes.now ≡ drop begin (take end self.now.bytes.now) }
    {
        self.slice_to(end).slice_from(begin)
    }

    /// The part from `begin` on, which must be a code point boundary (`is_code_point_boundary`). Borrows the bytes for
    /// `'a`, so it may outlive this view.
    pub fn slice_from(&self, begin: usize) -> Wtf8<'a>
        requires { IsBoundary (view_units self.now) begin }
        ensures units { IsBack (view_units self.now) begin (view_units result) }
        ensures bytes { result.bytes.now ≡ drop begin self.now.bytes.now }

        // The units of the code points before `begin`, followed by the units of this part, are all units of the string.
        ensures whole { (front : List ℕ) → IsFront (view_units self.now) begin front → front ++ view_units result ≡ view_units self.now }
    {
        self.skip_bytes(begin)
    }

    /// The part before `end`, which must be a code point boundary (`is_code_point_boundary`). Borrows the bytes for
    /// `'a`, so it may outlive this view.
    pub fn slice_to(&self, end: usize) -> Wtf8<'a>
        requires { IsBoundary (view_units self.now) end }
        ensures units { IsFront (view_units self.now) end (view_units result) }
        ensures bytes { result.bytes.now ≡ take end self.now.bytes.now }

        // The units of this part, followed by the units of the code points from `end` on, are all units of the string.
        ensures whole { (back : List ℕ) → IsBack (view_units self.now) end back → view_units result ++ back ≡ view_units self.now }
    {
        let (front, _) = self.bytes.split_at(end);
        Wtf8::from_well_formed(front)
    }

    /// The byte at `position` if it is ASCII, else 0xFF. `position` must be below the length. An ASCII byte is always a
    /// whole code point and one code unit.
    pub fn ascii_byte_at(&self, position: usize) -> u8
        requires { position < length self.now.bytes.now }
        ensures ascii { slice_index self.now.bytes.now position < 0x80 → result ≡ slice_index self.now.bytes.now position }
        ensures other { 0x80 ≤ slice_index self.now.bytes.now position → result ≡ 0xFF }

        // Both sides of an ASCII byte are code point boundaries, and it is the only unit between them.
        ensures before { result < 0x80 → IsBoundary (view_units self.now) position }
        ensures after { result < 0x80 → IsBoundary (view_units self.now) (position + 1) }
        ensures unit { (front back : List ℕ) → result < 0x80 → IsFront (view_units self.now) position front →
            IsBack (view_units self.now) (position + 1) back → view_units self.now ≡ front ++ result ∷ back }
    {
        match self.bytes[position] {
            byte @ 0x00..=0x7F => byte,
            _ => 0xFF,
        }
    }

    /// The string as a `&str`, or `None` if it holds a surrogate. Does not copy. Linear in the length.
    #[inline(always)]
    pub fn as_str(&self) -> Option<&'a str>
        ensures some { IsSome result ↔ AreScalar (view_points self.now) }
        ensures units { IsSome result ↔ ((c : List ℕ) → Reads c (view_units self.now) → AreScalar c) }
        ensures bytes { IfSome result (λ t. t.now ≡ self.now.bytes.now) }
    {
        match search::next_surrogate(self.bytes, 0) {
            None => Some(unsafe { str::from_utf8_unchecked(self.bytes) }),
            Some(_) => None,
        }
    }

    /// The first surrogate from `begin` on, which must be a code point boundary, and the position after its three bytes;
    /// `None` if there is none. What is before it is text. Linear in the bytes up to it.
    pub fn next_surrogate(&self, begin: usize) -> Option<(CodePoint, usize)>
        requires { IsBoundary (view_units self.now) begin }
        ensures some { IfSome result (λ x. IsNextSurrogate (view_units self.now) begin x.1 (number x.0)) }
        ensures none { IsNone result ↔ IsTextFrom (view_units self.now) begin }
    {
        let rest = self.slice_from(begin);
        let before = search::next_surrogate(rest.bytes, 0)?;
        let (_, from_surrogate) = rest.bytes.split_at(before);
        prove!(self.len() <= usize::MAX);
        Some(encoding::read(from_surrogate, begin + before))
    }

    /// The string as text, with U+FFFD in place of each surrogate; its length in bytes stays the same. Borrowed, and
    /// never refused, if there is no surrogate; else a copy. Linear in the length.
    pub fn to_string_lossy<A: Allocator + Drop>(
        &self,
        alloc: A,
    ) -> Result<CowStr<'a, A>, AllocError>
        ensures text { IfOk result (λ t. cow_str_bytes t ≡ bytes (lossy_points (view_points self.now))) }
        ensures len { IfOk result (λ t. length (cow_str_bytes t) ≡ length self.now.bytes.now) }
        ensures borrowed { IfOk result (λ t. IsBorrowedStr t ↔ AreScalar (view_points self.now)) }
        ensures granted { AreScalar (view_points self.now) → IsOk result }
    {
        if let Some(text) = self.as_str() {
            return Ok(CowStr::Borrowed(text));
        }
        let mut bytes = Vec::from_slice(alloc, self.bytes)?;
        replace_surrogates(bytes.as_mut_slice());
        Ok(CowStr::Owned(unsafe { String::from_utf8_unchecked(bytes) }))
    }

    /// Writes the string to the front of `out` as text, with U+FFFD in place of each surrogate, and returns its length
    /// in bytes, which is the string's and for which `out` must have room. The rest of `out` is unchanged. Does not
    /// allocate. Linear in the length.
    pub fn write_lossy(&self, out: &mut [u8]) -> usize
        requires { length self.now.bytes.now ≤ length out.old }
        ensures text { take result out.new ≡ bytes (lossy_points (view_points self.now)) }
        ensures rest { drop result out.new ≡ drop result out.old }
        ensures count { result ≡ length self.now.bytes.now }
        ensures len { length out.new ≡ length out.old }
    {
        let count = self.len();
        let text = &mut out[..count];
        text.copy_from_slice(self.bytes);
        replace_surrogates(text);
        count
    }

    #[inline(always)]
    pub(crate) fn skip_bytes(self, count: usize) -> Wtf8<'a>
        requires within { count ≤ length self.bytes.now }
        requires well_formed { IsWellFormed (drop count self.bytes.now) }
        ensures points { (h : IsWellFormed (drop count self.entry.bytes.now)) → view_points result ≡ h.points }
        ensures bytes { result.bytes.now ≡ drop count self.entry.bytes.now }
    {
        let (_, rest) = self.bytes.split_at(count);
        Wtf8::from_well_formed(rest)
    }

    pub(crate) fn split_first(self) -> Option<(CodePoint, Wtf8<'a>)>
        ensures none { IfNone result (view_points self.entry ≡ []) }
        ensures some { IfSome result (λ x. view_points self.entry ≡ number x.0 ∷ view_points x.1) }
    {
        if self.bytes.is_empty() {
            return None;
        }
        let (code_point, width) = encoding::read(self.bytes, 0);
        Some((code_point, self.skip_bytes(width)))
    }

    /// Returns the text before the first surrogate and the view after it; without one, the whole text and `None`.
    pub(crate) fn split_at_surrogate(self) -> (&'a str, Option<Wtf8<'a>>)
        ensures none { IfNone result.1 (bytes (lossy_points (view_points self.entry)) ≡ result.0.now) }
        ensures some { IfSome result.1 (λ rest. bytes (lossy_points (view_points self.entry)) ≡ result.0.now ++ bytes (0xFFFD ∷ lossy_points (view_points rest))) }
        ensures shorter { IfSome result.1 (λ rest. length rest.bytes.now < length self.entry.bytes.now) }
    {
        let Some(position) = search::next_surrogate(self.bytes, 0) else {
            return (unsafe { str::from_utf8_unchecked(self.bytes) }, None);
        };
        let (front, _) = self.bytes.split_at(position);
        let text = unsafe { str::from_utf8_unchecked(front) };
        (text, Some(self.skip_bytes(position + 3)))
    }

    pub(crate) fn final_lead_surrogate(&self) -> Option<u32>
        ensures lead { IfSome result (λ l. IsLead l) }
        ensures last { IfSome result (λ l. (f : List ℕ) × (view_points self.now ≡ f ++ l ∷ [])) }
        ensures none { IfNone result ((f : List ℕ) (l : ℕ) → IsLead l → view_points self.now ≡ f ++ l ∷ [] → ⊥) }
    {
        match self.bytes {
            [.., 0xED, second @ 0xA0..=0xAF, third] => Some(surrogate_after_ed(*second, *third)),
            _ => None,
        }
    }

    pub(crate) fn initial_trail_surrogate(self) -> Option<u32>
        ensures trail { IfSome result (λ t. IsTrail t) }
        ensures first { IfSome result (λ t. (r : List ℕ) × (view_points self.entry ≡ t ∷ r)) }
        ensures none { IfNone result ((t : ℕ) (r : List ℕ) → IsTrail t → view_points self.entry ≡ t ∷ r → ⊥) }
    {
        match self.bytes {
            [0xED, second @ 0xB0..=0xBF, third, ..] => Some(surrogate_after_ed(*second, *third)),
            _ => None,
        }
    }

    /// The trail surrogate that the string begins with, and the string after it.
    pub(crate) fn split_initial_trail(self) -> Option<(u16, Wtf8<'a>)>
        ensures trail { IfSome result (λ x. IsTrail x.0) }
        ensures joined { IfSome result (λ x. view_units self.entry ≡ x.0 ∷ view_units x.1) }
        ensures none { IfNone result ((t : ℕ) (r : List ℕ) → IsTrail t → view_units self.entry ≡ t ∷ r → ⊥) }
    {
        let Some(trail) = self.initial_trail_surrogate() else {
            return None;
        };
        Some((trail as u16, self.skip_bytes(3)))
    }

    /// The lead surrogate that the string ends with, and the string before it.
    pub(crate) fn split_final_lead(self) -> Option<(Wtf8<'a>, u16)>
        ensures lead { IfSome result (λ x. IsLead x.1) }
        ensures joined { IfSome result (λ x. view_units self.entry ≡ view_units x.0 ++ x.1 ∷ []) }
        ensures none { IfNone result ((f : List ℕ) (l : ℕ) → IsLead l → view_units self.entry ≡ f ++ l ∷ [] → ⊥) }
    {
        let Some(lead) = self.final_lead_surrogate() else {
            return None;
        };
        let (front, _) = self.bytes.split_at(self.bytes.len() - 3);
        Some((Wtf8::from_well_formed(front), lead as u16))
    }
}
