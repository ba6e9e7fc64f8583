// Texts that are indexed by code units.
ghost use Rattle.std.specs.Prelude.{◌≡◌, ◌↔◌, ◌-◌, ◌^◌, ◌<◌, ◌≤◌, ℕ, List, [], ◌∷◌, ◌++◌, length, take, drop, slice_get, None, IfNone, IfSome, IsNone, IsTrue, IfOk, IsOk, OnOk, OnErr};
ghost use Rattle.std.specs.Cmp.Lexicographic.{slice_cmp};
ghost use Rattle.std.specs.Str.{chars};
ghost use Rattle.std.specs.Ordering.{MatchOrdering, is_ge, is_gt, is_le, is_lt, nat_cmp};
ghost use Rattle.wtf8.specs.Order.{Before};
ghost use Rattle.wtf8.specs.Position.{IsFront};
ghost use Rattle.wtf8.specs.Unicode.{units};
ghost use Rattle.wtf8.specs.UnitPosition.{DividesPair};
ghost use Rattle.wtf8.specs.Units.{unread_units};
ghost use Rattle.wtf8.specs.View.{view_points, view_units};
ghost use Rattle.unit_text.specs.Positions.{AreUnitsBefore};
ghost use Rattle.unit_text.specs.Reading.{reading};
ghost use Rattle.unit_text.specs.Search.{IsFirstIndex, IsLastIndex, OccursAt};

use crate::indexed::IndexedBuf;
use crate::slices;
use std::alloc::{AllocError, Allocator};
use std::cmp::Ordering;
use std::marker::Model;
use wtf8::{IllFormedUtf16CodeUnits, Wtf8, Wtf8Buf, laws};

/// A text that is counted, cut and compared by its 16-bit units, as ECMAScript counts a string. It may hold any units,
/// and is stored as WTF-8 with its number of units. `mark_units` adds marks, from which a unit is found without
/// counting from the front; an ASCII text needs none.
///
/// Contracts see it as the list of its units.
#[derive(Drop)]
pub struct UnitText<A: Allocator> {
    pub(crate) buf: IndexedBuf<A>,
}

impl<A: Allocator> Model for UnitText<A> {
    ghost use Rattle.std.specs.Prelude.{List, ℕ};

    ghost Value = { List ℕ };

    ghost view = { λ t. t.buf.units };
}

impl<A: Allocator> UnitText<A> {
    /// Makes an empty text. Does not allocate.
    pub fn new(alloc: A) -> UnitText<A>
        ensures { result ≡ [] }
    {
        UnitText {
            buf: IndexedBuf::new(alloc),
        }
    }

    /// Copies the text, with a clone of its allocator, and without its marks.
    pub fn clone(&self) -> Result<UnitText<A>, AllocError>
    where
        A: Clone,
        ensures { IfOk result (λ t. t ≡ self.now) }
    {
        let buf = self.buf.clone()?;
        Ok(UnitText { buf })
    }

    /// Makes the text of these code units, paired or not. Does not allocate if there are none.
    pub fn from_units(alloc: A, units: &[u16]) -> Result<UnitText<A>, AllocError>
        ensures ok { IfOk result (λ t. t ≡ units.now) }
        ensures empty { units.now ≡ [] → IsOk result }
    {
        let buf = IndexedBuf::from_units(alloc, units)?;
        Ok(UnitText { buf })
    }

    /// Copies a `&str`. An empty one does not allocate.
    pub fn from_str(alloc: A, value: &str) -> Result<UnitText<A>, AllocError>
        ensures ok { IfOk result (λ t. t ≡ units (chars value.now)) }
        ensures empty { value.now ≡ [] → IsOk result }
    {
        let text = Wtf8Buf::from_str(alloc, value)?;
        Ok(UnitText::from_wtf8(text))
    }

    /// Takes over a string without copying it, and counts its code units. Does not allocate.
    pub fn from_wtf8(text: Wtf8Buf<A>) -> UnitText<A>
        ensures { result ≡ text.units }
    {
        let buf = IndexedBuf::from_buf(text);
        UnitText { buf }
    }

    /// Returns the string with the text's code units, without copying it. Does not allocate.
    pub fn into_wtf8(self) -> Wtf8Buf<A>
        ensures { result.units ≡ self }
    {
        let UnitText { buf } = self;
        buf.into_buf()
    }

    /// Keeps marks of the text, so that `unit_at` and `slice_units` need not count from the front; from then on each
    /// call that appends adds marks of what it appends. `alloc` allocates the marks, and a clone of it a box for their
    /// vector, at once. If memory for a mark is refused, it and the marks after it are missing, and units there are
    /// found more slowly, until a later append can add them. A short text or an ASCII text needs none. If
    /// memory for the box or the clone is refused, no marks are kept, and none added later, until `mark_units` is called
    /// again.
    pub fn mark_units(&mut self, alloc: A)
    where
        A: Clone,
        ensures { self.new ≡ self.old }
    {
        self.buf.mark_units(alloc)
    }

    /// The length in code units.
    pub fn unit_len(&self) -> usize
        ensures { result ≡ length self.now }
    {
        self.buf.unit_len()
    }

    /// The code unit at index `i`, or `None` at or past the end.
    pub fn unit_at(&self, i: usize) -> Option<u16>
        ensures unit { result ≡ slice_get self.now i }
        ensures none { IsNone result ↔ (length self.now ≤ i) }
    {
        self.buf.unit_at(i)
    }

    /// The byte position in the view of the code point boundary before the code unit at index `i`, or of the end if `i`
    /// is the length, which it must not exceed. If `i` splits a surrogate pair, that is the position of the pair.
    /// Counts the units from the last mark that is kept, or from the start, or from the end if that is near.
    pub fn position_at(&self, i: usize) -> usize
        requires { i ≤ length self.now }
        ensures whole { ¬ (DividesPair self.now i) → IsFront self.now result (take i self.now) }
        ensures divided { DividesPair self.now i → IsFront self.now result (take (i - 1) self.now) }
    {
        self.buf.position_at(i)
    }

    /// The number of code units before the last code point boundary of the view at or before the byte `position`; the
    /// length if `position` is past the end. Counts the units from the last mark that is kept, or from the start.
    pub fn unit_before(&self, position: usize) -> usize
        ensures before { AreUnitsBefore self.now position result }
        ensures exact { (v : List ℕ) → IsFront self.now position v → result ≡ length v }
    {
        self.buf.unit_before(position)
    }

    /// Shortens the text to `n` code units, which must be at most its length. If that splits a surrogate pair, its lead
    /// stays as a lone surrogate. Does not allocate. Counts the units as `position_at` does.
    pub fn truncate_units(&mut self, n: usize)
        requires { n ≤ length self.old }
        ensures { self.new ≡ take n self.old }
    {
        self.buf.truncate_units(n)
    }

    /// Copies the code units `begin..end` to a new text, allocated by `alloc`. `begin` must be at most `end`, and `end`
    /// at most the length. If `begin` or `end` splits a surrogate pair, the half inside is a lone surrogate. Does not
    /// allocate if the range is empty.
    pub fn slice_units(&self, alloc: A, begin: usize, end: usize) -> Result<UnitText<A>, AllocError>
        requires order { begin ≤ end }
        requires within { end ≤ length self.now }
        ensures ok { IfOk result (λ t. t ≡ drop begin (take end self.now)) }
        ensures empty { begin ≡ end → IsOk result }
    {
        let text = slices::buf_of_slice(alloc, self.buf.slice_units(begin, end))?;
        let buf = IndexedBuf::counted(text, end - begin);
        Ok(UnitText { buf })
    }

    /// Appends a code unit. A trail surrogate after a lead completes the pair: the view then has its one code point,
    /// and the text has both units. If memory is refused, the text is unchanged.
    #[inline(always)]
    pub fn push(&mut self, unit: u16) -> Result<(), AllocError>
        ensures ok { OnOk result (self.new ≡ self.old ++ unit ∷ []) }
        ensures err { OnErr result (self.new ≡ self.old) }
    {
        self.buf.push_unit(unit)
    }

    /// Appends code units. If memory is refused, the text is unchanged; an empty list is never refused.
    pub fn push_units(&mut self, units: &[u16]) -> Result<(), AllocError>
        ensures ok { OnOk result (self.new ≡ self.old ++ units.now) }
        ensures err { OnErr result (self.new ≡ self.old) }
        ensures empty { units.now ≡ [] → IsOk result }
    {
        self.buf.push_units(units)
    }

    /// The code units from index `begin` on, which must be at most the length.
    pub fn units_from(&self, begin: usize) -> IllFormedUtf16CodeUnits<'_>
        requires { begin ≤ length self.now }
        ensures units { unread_units result ≡ drop begin self.now }
        ensures fits { length (unread_units result) < 2 ^ 64 }
    {
        self.buf.units_from(begin)
    }

    /// Appends the code units of `other`. If memory is refused, the text is unchanged; an empty `other` is never
    /// refused.
    pub fn concat(&mut self, other: &UnitText<A>) -> Result<(), AllocError>
        ensures ok { OnOk result (self.new ≡ self.old ++ other.now) }
        ensures err { OnErr result (self.new ≡ self.old) }
        ensures empty { other.now ≡ [] → IsOk result }
    {
        self.buf.push_counted(other.as_wtf8(), other.unit_len())
    }

    /// Appends the characters of a `&str`. If memory is refused, the text is unchanged; an empty `other` is never
    /// refused.
    pub fn push_str(&mut self, other: &str) -> Result<(), AllocError>
        ensures ok { OnOk result (self.new ≡ self.old ++ units (chars other.now)) }
        ensures err { OnErr result (self.new ≡ self.old) }
        ensures empty { other.now ≡ [] → IsOk result }
    {
        self.buf.push_str(other)
    }

    /// Appends the code units of a string, and counts them. A trail surrogate at its front completes a lead at the end
    /// of the text. If memory is refused, the text is unchanged; an empty `other` is never refused.
    pub fn push_wtf8(&mut self, other: Wtf8<'_>) -> Result<(), AllocError>
        ensures ok { OnOk result (self.new ≡ self.old ++ view_units other.entry) }
        ensures err { OnErr result (self.new ≡ self.old) }
        ensures empty { view_units other.entry ≡ [] → IsOk result }
    {
        self.buf.push_wtf8(other)
    }

    /// Whether the code units from index `position` on begin with those of `other`. An empty `other` is found
    /// everywhere, also past the end. Compares bytes, unless an end of the compared part splits a surrogate pair.
    pub fn starts_with_at<B: Allocator>(&self, position: usize, other: &UnitText<B>) -> bool
        ensures { IsTrue result ↔ (take (length other.now) (drop position self.now) ≡ other.now) }
    {
        self.buf.starts_with_at(position, &other.buf)
    }

    /// The first index at or after `from` at which the code units of `other` occur, also inside a surrogate pair, or
    /// `None` if there is none. An empty `other` is found at `from`, but past the end nothing is. Does not allocate.
    pub fn find<B: Allocator>(&self, from: usize, other: &UnitText<B>) -> Option<usize>
        ensures some { IfSome result (λ k. IsFirstIndex self.now other.now from k) }
        ensures none { IfNone result ((k : ℕ) → from ≤ k → ¬ (OccursAt self.now other.now k)) }
    {
        self.buf.find(from, &other.buf)
    }

    /// The last index at or before `from` at which the code units of `other` occur, as `find` finds them. An empty
    /// `other` is found at `from`, or at the end if that is before.
    pub fn rfind<B: Allocator>(&self, from: usize, other: &UnitText<B>) -> Option<usize>
        ensures some { IfSome result (λ k. IsLastIndex self.now other.now from k) }
        ensures none { IfNone result ((k : ℕ) → k ≤ from → ¬ (OccursAt self.now other.now k)) }
    {
        self.buf.rfind(from, &other.buf)
    }

    /// Compares by code units, as ECMAScript compares strings: the first units that differ decide, and a prefix comes
    /// before the longer text. `cmp` of the views compares by code points instead.
    pub fn cmp_units(&self, other: &UnitText<A>) -> Ordering
        ensures value { result ≡ slice_cmp nat_cmp self.now other.now }
        ensures order { MatchOrdering result (Before self.now other.now) (self.now ≡ other.now) (Before other.now self.now) }

        // What `is_lt`, `is_gt`, `is_le` and `is_ge` of the result return.
        ensures less { IsTrue (is_lt result) ↔ Before self.now other.now }
        ensures greater { IsTrue (is_gt result) ↔ Before other.now self.now }
        ensures at_most { IsTrue (is_le result) ↔ ¬ (Before other.now self.now) }
        ensures at_least { IsTrue (is_ge result) ↔ ¬ (Before self.now other.now) }
    {
        self.as_wtf8().cmp_units(&other.as_wtf8())
    }

    /// A view of the whole text. Its code points are the reading of the units.
    pub fn as_wtf8(&self) -> Wtf8<'_>
        ensures units { view_units result ≡ self.now }
        ensures reading { view_points result ≡ reading self.now }
    {
        laws::law_one_reading();
        laws::law_concat();
        self.buf.as_wtf8()
    }
}
