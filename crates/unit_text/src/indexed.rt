// Buffers whose code units are found by their index.
ghost use Rattle.std.specs.Prelude.{◌≡◌, ◌↔◌, ◌+◌, ◌*◌, ◌-◌, ◌^◌, ◌<◌, ◌≤◌, ℕ, List, [], ◌∷◌, ◌++◌, length, take, drop, slice_get, IsNone, IsSome, IfSome, IsTrue, IfOk, IsOk, OnOk, OnErr, vec_capacity};
ghost use Rattle.std.specs.Str.{chars};
ghost use Rattle.wtf8.specs.Appending.{AppendsUnits, KeepsContents, HasRoomFor, AddsLength};
ghost use Rattle.wtf8.specs.CodePoint.{number};
ghost use Rattle.wtf8.specs.Form.{IsForm, Reads, encoding};
ghost use Rattle.wtf8.specs.Position.{IsBoundary, IsFront};
ghost use Rattle.wtf8.specs.SurrogatePosition.{IsNextSurrogate, IsTextFrom};
ghost use Rattle.wtf8.specs.Surrogates.{AreScalar};
ghost use Rattle.wtf8.specs.Unicode.{units, units_of};
ghost use Rattle.wtf8.specs.UnitMark.{IsMark};
ghost use Rattle.wtf8.specs.UnitPosition.{units_of_slice, DividesPair};
ghost use Rattle.wtf8.specs.UnitString.{UnitString, unit_string_code};
ghost use Rattle.wtf8.specs.Units.{unread_units};
ghost use Rattle.wtf8.specs.Utf8.{LeavesUnfinished, lossy_chars};
ghost use Rattle.wtf8.specs.View.{view_points, view_units};
ghost use Rattle.unit_text.specs.Positions.{AreUnitsBefore};

use crate::marks::{self, CountedView, MarkList, MarkedView};
use crate::slices;
use std::alloc::{AllocError, Allocator};
use std::marker::Model;
use wtf8::{CodePoint, IllFormedUtf16CodeUnits, UnitMark, UnitSlice, Wtf8, Wtf8Buf, laws};

/// A `Wtf8Buf` that knows the number of its code units, and finds any of them. `mark_units` adds marks, from which a
/// unit is found without counting from the front; an ASCII string needs none.
///
/// Contracts see what they see of a `Wtf8Buf`.
#[derive(Drop)]
pub struct IndexedBuf<A: Allocator> {
    pub(crate) text: Wtf8Buf<A>,
    pub(crate) count: usize,
    pub(crate) marks: Option<MarkList<A>>,
}

impl<A: Allocator> Model for IndexedBuf<A> {
    ghost use Rattle.wtf8.specs.UnitString.{UnitString, unit_string_code};

    ghost Value = { UnitString };

    ghost coded = { unit_string_code };

    ghost view = { λ t. t.text };

    ghost use Rattle.std.specs.Prelude.{◌≡◌, length, vec_capacity, IfSome};
    ghost use Rattle.unit_text.specs.Marks.{AreMarks};

    ghost invariant = { λ t. (t.count ≡ length t.text.units) × IfSome t.marks (λ m. AreMarks t.text.bytes t.text.units m.value.items (vec_capacity m.value)) };
}

impl<A: Allocator> IndexedBuf<A> {
    /// Makes an empty string. Does not allocate.
    pub fn new(alloc: A) -> IndexedBuf<A>
        ensures units { result.units ≡ [] }
        ensures bytes { result.bytes ≡ [] }
        ensures capacity { result.capacity ≡ 0 }
    {
        IndexedBuf::counted(Wtf8Buf::new(alloc), 0)
    }

    /// Makes an empty string with room for at least `n` bytes. Does not allocate if `n` is 0.
    pub fn with_capacity(alloc: A, n: usize) -> Result<IndexedBuf<A>, AllocError>
        ensures units { IfOk result (λ b. b.units ≡ []) }
        ensures bytes { IfOk result (λ b. b.bytes ≡ []) }
        ensures capacity { IfOk result (λ b. n ≤ b.capacity) }
        ensures zero { n ≡ 0 → IsOk result }
    {
        let text = Wtf8Buf::with_capacity(alloc, n)?;
        Ok(IndexedBuf::counted(text, 0))
    }

    /// Makes the string with these code units, paired or not. Does not allocate if there are none.
    pub fn from_units(alloc: A, units: &[u16]) -> Result<IndexedBuf<A>, AllocError>
        ensures ok { IfOk result (λ b. b.units ≡ units.now) }
        ensures form { IfOk result (λ b. (w : List ℕ) → IsForm w units.now → b.bytes ≡ w) }
        ensures empty { units.now ≡ [] → IsOk result }
    {
        let text = Wtf8Buf::from_ill_formed_utf16(alloc, units)?;
        Ok(IndexedBuf::counted(text, units.len()))
    }

    /// Takes over a string without copying it, and counts its code units. Does not allocate. Linear in the length.
    pub fn from_buf(text: Wtf8Buf<A>) -> IndexedBuf<A>
        ensures { result ≡ text }
    {
        let count = text.as_wtf8().unit_len();
        IndexedBuf::counted(text, count)
    }

    /// A string of `count` code units, without marks.
    pub(crate) fn counted(text: Wtf8Buf<A>, count: usize) -> IndexedBuf<A>
        requires { count ≡ length text.units }
        ensures { result ≡ text }
    {
        IndexedBuf {
            text,
            count,
            marks: None,
        }
    }

    /// Returns the string, without copying it. Does not allocate.
    pub fn into_buf(self) -> Wtf8Buf<A>
        ensures { result ≡ self }
    {
        let IndexedBuf { text, .. } = self;
        text
    }

    /// Copies the string, with a clone of its allocator, and without its marks. Linear in the length.
    pub fn clone(&self) -> Result<IndexedBuf<A>, AllocError>
    where
        A: Clone,
        ensures units { IfOk result (λ b. b.units ≡ self.now.units) }
        ensures bytes { IfOk result (λ b. b.bytes ≡ self.now.bytes) }
    {
        let text = self.text.clone()?;
        Ok(IndexedBuf::counted(text, self.count))
    }

    /// Keeps marks of the string, from which units are found; from then on each call that appends adds marks of what it
    /// appends. `alloc` allocates the marks, and a clone of it a box for their vector, at once. If memory for a mark is
    /// refused, it and the marks after it are missing, and units there are counted from the last mark that is kept,
    /// until a later append finds memory for them. A short string or an ASCII one needs none. If memory for the box or
    /// the clone is refused, no marks are kept, and none added later, until `mark_units` is called again.
    pub fn mark_units(&mut self, alloc: A)
    where
        A: Clone,
        ensures { self.new ≡ self.old }
    {
        let text = CountedView::new(&self.text, self.count);
        self.marks = marks::marks_of(alloc, text);
    }

    /// The length in code units. Constant.
    pub fn unit_len(&self) -> usize
        ensures { result ≡ length self.now.units }
    {
        self.count
    }

    /// The number of bytes that the string can hold without allocating: at least the length.
    pub fn capacity(&self) -> usize
        ensures value { result ≡ self.now.capacity }
        ensures at_least_length { length self.now.bytes ≤ result }
    {
        self.text.capacity()
    }

    /// A view of the whole string.
    pub fn as_wtf8(&self) -> Wtf8<'_>
        ensures bytes { result.bytes.now ≡ self.now.bytes }
        ensures points { view_points result ≡ self.now.form.points }
        ensures units { view_units result ≡ self.now.units }
    {
        self.text.as_wtf8()
    }

    /// The string as a `&str`, or `None` if it holds a surrogate. Does not copy. Constant in an ASCII string, else linear in
    /// the length.
    pub fn as_str(&self) -> Option<&str>
        ensures some { IsSome result ↔ AreScalar self.now.form.points }
        ensures units { IsSome result ↔ ((c : List ℕ) → Reads c self.now.units → AreScalar c) }
        ensures bytes { IfSome result (λ t. t.now ≡ self.now.bytes) }
    {
        match self.as_ascii() {
            Some(text) => Some(text),
            None => self.text.as_wtf8().as_str(),
        }
    }

    /// The first surrogate from `begin` on, which must be a code point boundary, and the position after its three bytes;
    /// `None` if there is none. Constant in an ASCII string, else linear in the bytes up to it.
    pub fn next_surrogate(&self, begin: usize) -> Option<(CodePoint, usize)>
        requires { IsBoundary self.now.units begin }
        ensures some { IfSome result (λ x. IsNextSurrogate self.now.units begin x.1 (number x.0)) }
        ensures none { IsNone result ↔ IsTextFrom self.now.units begin }
    {
        match self.as_ascii() {
            Some(_) => None,
            None => self.text.as_wtf8().next_surrogate(begin),
        }
    }

    /// The string as a `&str` if it is ASCII, as its lengths in bytes and in code units tell, else `None`. Does not copy.
    /// Constant.
    #[inline(always)]
    pub fn as_ascii(&self) -> Option<&str>
        ensures some { IsSome result ↔ (length self.now.bytes ≡ length self.now.units) }
        ensures scalar { IsSome result → AreScalar self.now.form.points }
        ensures bytes { IfSome result (λ t. t.now ≡ self.now.bytes) }
    {
        if self.text.len() == self.count {
            return Some(self.text.as_wtf8().as_ascii_str());
        }
        None
    }

    /// The code unit at index `i`, or `None` at or past the end. Constant in an ASCII string. In others it counts the
    /// units from the last mark that is kept, or from the start; if more than 128 units are held, from the end if that
    /// is nearer and at most 128 units away.
    pub fn unit_at(&self, i: usize) -> Option<u16>
        ensures unit { result ≡ slice_get self.now.units i }
        ensures none { IsNone result ↔ (length self.now.units ≤ i) }
    {
        if self.count <= i {
            return None;
        }
        let view = self.text.as_wtf8();
        if view.len() == self.count {
            return Some(view.ascii_unit_at(i));
        }
        if self.count <= marks::SPACING {
            return view.unit_at(i);
        }
        self.unit_of_long(i)
    }

    /// The code unit at index `i` of a long string that is not ASCII. Not inlined, so that the short ways stay cheap.
    #[inline(never)]
    fn unit_of_long(&self, i: usize) -> Option<u16>
        requires { i ≤ length self.now.units }
        ensures { result ≡ slice_get self.now.units i }
    {
        // A kept mark is for an index of at least `SPACING`. The end is no nearer than the start.
        if i < marks::SPACING && i <= self.count - i {
            return self.text.as_wtf8().unit_at(i);
        }
        let marked = self.marked();
        let mark = marked.kept_mark_at_or_before(i);
        if marked.is_nearer_end(mark, i) {
            return self.unit_near_end(i);
        }
        let rest = marked.text.view.slice_from_mark(mark);
        rest.unit_at(i - mark.units)
    }

    /// The code unit at index `i`, found from the end. Not inlined, so that the way from a mark needs no stack.
    #[inline(never)]
    fn unit_near_end(&self, i: usize) -> Option<u16>
        requires { i ≤ length self.now.units }
        ensures { result ≡ slice_get self.now.units i }
    {
        let text = CountedView::new(&self.text, self.count);
        let mark = marks::mark_from_end(text, i);
        text.view.slice_from_mark(mark).unit_at(i - mark.units)
    }

    /// The part from code unit `begin` to before code unit `end`, which must be in order and at most the number of code
    /// units. If an end splits a surrogate pair, the half inside is returned beside the whole code points.
    pub fn slice_units(&self, begin: usize, end: usize) -> UnitSlice<'_>
        requires order { begin ≤ end }
        requires within { end ≤ length self.now.units }
        ensures units { units_of_slice result ≡ drop begin (take end self.now.units) }

        // If the part is not empty, it has a half at an end exactly if that end splits a pair.
        ensures trail { begin < end → (IsSome result.trail ↔ DividesPair self.now.units begin) }
        ensures lead { begin < end → (IsSome result.lead ↔ DividesPair self.now.units end) }
    {
        self.part(begin, end - begin)
    }

    /// The `len` code units from index `begin` on.
    pub(crate) fn part(&self, begin: usize, len: usize) -> UnitSlice<'_>
        requires { begin + len ≤ length self.now.units }
        ensures units { units_of_slice result ≡ take len (drop begin self.now.units) }
        ensures trail { 0 < len → (IsSome result.trail ↔ DividesPair self.now.units begin) }
        ensures lead { 0 < len → (IsSome result.lead ↔ DividesPair self.now.units (begin + len)) }
    {
        self.marked().units_from(begin, len)
    }

    /// The code units from index `begin` on, which must be at most the length.
    pub fn units_from(&self, begin: usize) -> IllFormedUtf16CodeUnits<'_>
        requires { begin ≤ length self.now.units }
        ensures units { unread_units result ≡ drop begin self.now.units }
        ensures fits { length (unread_units result) < 2 ^ 64 }
    {
        let marked = self.marked();
        let mark = marked.mark_at(begin);
        let mut units = marked.text.view.slice_from_mark(mark).to_ill_formed_utf16();
        if mark.units < begin {
            units.next();
        }
        units
    }

    /// Whether the code units of the string are these. Constant if there are more or fewer, else linear in the equal
    /// front. Does not allocate.
    pub fn eq_units(&self, units: &[u16]) -> bool
        ensures { IsTrue result ↔ (self.now.units ≡ units.now) }
    {
        units.len() == self.count && self.text.as_wtf8().starts_with_units(units)
    }

    /// Whether the code units from index `begin` on begin with the units of `other`. An empty `other` is found
    /// everywhere, also past the end. Compares bytes, unless an end of the compared part splits a surrogate pair.
    pub fn starts_with_at<B: Allocator>(&self, begin: usize, other: &IndexedBuf<B>) -> bool
        ensures { IsTrue result ↔ (take (length other.now.units) (drop begin self.now.units) ≡ other.now.units) }
    {
        let begin = begin.min(self.count);
        if self.count - begin < other.count {
            return false;
        }
        if begin == 0 && slices::has_front(self.as_wtf8(), other.as_wtf8()) {
            return true;
        }
        slices::has_units(self.part(begin, other.count), other.as_wtf8())
    }

    /// Whether the code units from index `begin` on begin with these. An empty list is found everywhere, also past the end.
    /// Does not allocate.
    #[tactic(auto, using(crate::proofs::UnitLemmas::drop_unit))]
    pub fn starts_with_units_at(&self, begin: usize, units: &[u16]) -> bool
        ensures { IsTrue result ↔ (take (length units.now) (drop begin self.now.units) ≡ units.now) }
    {
        if let Some(rest) = self.units_from(begin.min(self.count)).as_wtf8() {
            return rest.starts_with_units(units);
        }
        // The first unit is the trail of a pair, after which a code point begins.
        match (self.unit_at(begin), units.split_first()) {
            (Some(trail), Some((first, later))) => {
                trail == *first && self.starts_with_units_at(begin + 1, later)
            }
            _ => units.is_empty(),
        }
    }

    /// The byte position of the code point boundary before the code unit at index `i`, or of the end if `i` is the
    /// length, which it must not exceed. If `i` splits a surrogate pair, that is the position of the pair. Constant in
    /// an ASCII string. In others it counts the units from the last mark that is kept, or from the start, or from the
    /// end if that is nearer and at most 128 units away.
    pub fn position_at(&self, i: usize) -> usize
        requires { i ≤ length self.now.units }
        ensures whole { ¬ (DividesPair self.now.units i) → IsFront self.now.units result (take i self.now.units) }
        ensures divided { DividesPair self.now.units i → IsFront self.now.units result (take (i - 1) self.now.units) }
    {
        let marked = self.marked();
        let mark = marked.mark_at(i);
        laws::law_mark(marked.text.view, mark);
        mark.position
    }

    /// The number of code units before the last code point boundary at or before the byte `position`; the length if
    /// `position` is past the end. Constant in an ASCII string. In others it counts the units from the last mark that is
    /// kept, or from the start, or from the end if that is nearer.
    pub fn unit_before(&self, position: usize) -> usize
        ensures before { AreUnitsBefore self.now.units position result }
        ensures exact { (v : List ℕ) → IsFront self.now.units position v → result ≡ length v }
    {
        let marked = self.marked();
        let mark = marked.mark_before(position.min(marked.text.view.len()));
        laws::law_mark(marked.text.view, mark);
        laws::law_positions();
        mark.units
    }

    /// Reserves capacity for at least `additional` more bytes, and does not allocate if there is enough. The units and
    /// bytes of the string never change, even if memory is refused.
    pub fn reserve(&mut self, additional: usize) -> Result<(), AllocError>
        ensures ok { OnOk result (length self.new.bytes + additional ≤ self.new.capacity) }
        ensures units { self.new.units ≡ self.old.units }
        ensures bytes { self.new.bytes ≡ self.old.bytes }
        ensures room { length self.old.bytes + additional ≤ self.old.capacity → IsOk result }
        ensures capacity { self.old.capacity ≤ self.new.capacity }
    {
        self.text.reserve(additional)
    }

    /// Releases spare capacity, that of the marks too, if the allocator agrees, else keeps it. An empty string releases
    /// all of it. The units and bytes of the string never change, and its marks are kept. Linear in the length if it
    /// allocates.
    pub fn shrink_to_fit(&mut self)
        ensures units { self.new.units ≡ self.old.units }
        ensures bytes { self.new.bytes ≡ self.old.bytes }
        ensures capacity { self.new.capacity ≤ self.old.capacity }
        ensures empty { self.old.bytes ≡ [] → self.new.capacity ≡ 0 }
    {
        self.text.shrink_to_fit();
        marks::shrink_kept(&mut self.marks);
    }

    /// Appends a code point. A trail surrogate after a lead surrogate completes the pair. If memory is refused, the
    /// string is unchanged. No push is refused for a mark.
    pub fn push(&mut self, code_point: CodePoint) -> Result<(), AllocError>
        ensures ok { OnOk result (AppendsUnits self.old (units_of (number code_point)) self.new) }
        ensures kept { OnErr result (KeepsContents self.old self.new) }

        // A code point below U+10000 is one unit.
        ensures one_unit { number code_point < 0x10000 → OnOk result (AppendsUnits self.old (number code_point ∷ []) self.new) }

        // A push whose bytes fit is never refused, and the capacity never shrinks.
        ensures room { HasRoomFor self.old (units_of (number code_point)) → IsOk result }
        ensures capacity { self.old.capacity ≤ self.new.capacity }

        // In bytes: the length grows by at most the code point's encoded length, and spare capacity for that is enough.
        ensures at_most { OnOk result (length self.new.bytes ≤ length self.old.bytes + length (encoding (number code_point))) }
        ensures room_left { length self.old.bytes + length (encoding (number code_point)) ≤ self.old.capacity → IsOk result }
    {
        self.text.push(code_point)?;
        let more = code_point.len_utf16();
        marks::count_more(&self.text, &mut self.count, &mut self.marks, more);
        Ok(())
    }

    /// Appends a 16-bit code unit. If memory is refused, the string is unchanged.
    #[inline(always)]
    pub fn push_unit(&mut self, unit: u16) -> Result<(), AllocError>
        ensures ok { OnOk result (AppendsUnits self.old (unit ∷ []) self.new) }
        ensures kept { OnErr result (KeepsContents self.old self.new) }

        // A push whose bytes fit is never refused, and the capacity never shrinks.
        ensures room { HasRoomFor self.old (unit ∷ []) → IsOk result }
        ensures capacity { self.old.capacity ≤ self.new.capacity }
    {
        self.text.push_unit(unit)?;
        marks::count_more(&self.text, &mut self.count, &mut self.marks, 1);
        Ok(())
    }

    /// Appends a character. If memory is refused, the string is unchanged.
    pub fn push_char(&mut self, c: char) -> Result<(), AllocError>
        ensures ok { OnOk result (AppendsUnits self.old (units_of c) self.new) }
        ensures kept { OnErr result (KeepsContents self.old self.new) }

        // A character below U+10000 is one unit.
        ensures one_unit { c < 0x10000 → OnOk result (AppendsUnits self.old (c ∷ []) self.new) }

        // A push whose bytes fit is never refused, and the capacity never shrinks.
        ensures room { HasRoomFor self.old (units_of c) → IsOk result }
        ensures capacity { self.old.capacity ≤ self.new.capacity }

        // In bytes: the character's encoding is appended, and spare capacity for it is enough.
        ensures bytes { OnOk result (self.new.bytes ≡ self.old.bytes ++ encoding c) }
        ensures at_most { OnOk result (length self.new.bytes ≤ length self.old.bytes + length (encoding c)) }
        ensures room_left { length self.old.bytes + length (encoding c) ≤ self.old.capacity → IsOk result }

        // An ASCII character is one byte.
        ensures ascii_length { c < 0x80 → OnOk result (length self.new.bytes ≡ length self.old.bytes + 1) }
        ensures ascii_room { c < 0x80 → length self.old.bytes + 1 ≤ self.old.capacity → IsOk result }
    {
        self.text.push_char(c)?;
        let more = CodePoint::from_char(c).len_utf16();
        marks::count_more(&self.text, &mut self.count, &mut self.marks, more);
        Ok(())
    }

    /// Appends a `&str`, and counts its code units. If memory is refused, the string is unchanged.
    pub fn push_str(&mut self, other: &str) -> Result<(), AllocError>
        ensures ok { OnOk result (AppendsUnits self.old (units (chars other.now)) self.new) }
        ensures kept { OnErr result (KeepsContents self.old self.new) }

        // A push whose bytes fit is never refused, nor is an empty text, and the capacity never shrinks.
        ensures room { HasRoomFor self.old (units (chars other.now)) → IsOk result }
        ensures empty { other.now ≡ [] → IsOk result }
        ensures capacity { self.old.capacity ≤ self.new.capacity }

        // In bytes: the length grows by at most the text's length, spare capacity for that is enough, and an empty text
        // changes nothing.
        ensures at_most { OnOk result (length self.new.bytes ≤ length self.old.bytes + length other.now) }
        ensures room_left { length self.old.bytes + length other.now ≤ self.old.capacity → IsOk result }
        ensures nothing { other.now ≡ [] → KeepsContents self.old self.new }
    {
        self.text.push_str(other)?;
        let more = Wtf8::from_str(other).unit_len();
        marks::count_more(&self.text, &mut self.count, &mut self.marks, more);
        Ok(())
    }

    /// Appends bytes read as UTF-8, with U+FFFD for each maximal part that is not, as `String::from_utf8_lossy` of the
    /// standard library does, and counts the units. If memory is refused, the string is unchanged.
    pub fn push_utf8_lossy(&mut self, text: &[u8]) -> Result<(), AllocError>
        ensures ok { OnOk result (AppendsUnits self.old (units (lossy_chars text.now)) self.new) }
        ensures kept { OnErr result (KeepsContents self.old self.new) }

        // A push whose bytes fit is never refused, nor is an empty one, and the capacity never shrinks.
        ensures room { HasRoomFor self.old (units (lossy_chars text.now)) → IsOk result }
        ensures empty { text.now ≡ [] → IsOk result }
        ensures capacity { self.old.capacity ≤ self.new.capacity }

        // What is appended begins at a boundary.
        ensures front { OnOk result (IsFront self.new.units (length self.old.bytes) self.old.units) }
    {
        let begin = self.text.len();
        self.text.push_utf8_lossy(text)?;
        let more = self.text.as_wtf8().slice_from(begin).unit_len();
        marks::count_more(&self.text, &mut self.count, &mut self.marks, more);
        Ok(())
    }

    /// Appends bytes as `push_utf8_lossy` does, but leaves out a code point that is unfinished at their end, at most three
    /// bytes: these go before the bytes that come next, so that a text may be cut anywhere. Returns how many are before
    /// them. If memory is refused, the string is unchanged.
    pub fn push_utf8_lossy_part(&mut self, text: &[u8]) -> Result<usize, AllocError>
        ensures used { IfOk result (LeavesUnfinished text.now) }
        ensures few { IfOk result (λ used. length text.now ≤ used + 3) }
        ensures ok { IfOk result (λ used. AppendsUnits self.old (units (lossy_chars (take used text.now))) self.new) }
        ensures kept { OnErr result (KeepsContents self.old self.new) }

        // A push whose bytes fit is never refused, nor is an empty one, and the capacity never shrinks.
        ensures room { (used : ℕ) → LeavesUnfinished text.now used → HasRoomFor self.old (units (lossy_chars (take used text.now))) → IsOk result }
        ensures empty { text.now ≡ [] → IsOk result }
        ensures capacity { self.old.capacity ≤ self.new.capacity }

        // What is appended begins at a boundary.
        ensures front { OnOk result (IsFront self.new.units (length self.old.bytes) self.old.units) }
    {
        let begin = self.text.len();
        let used = self.text.push_utf8_lossy_part(text)?;
        let more = self.text.as_wtf8().slice_from(begin).unit_len();
        marks::count_more(&self.text, &mut self.count, &mut self.marks, more);
        Ok(used)
    }

    /// Appends code units, paired or not. If memory is refused, the string is unchanged.
    pub fn push_units(&mut self, units: &[u16]) -> Result<(), AllocError>
        ensures ok { OnOk result (AppendsUnits self.old units.now self.new) }
        ensures kept { OnErr result (KeepsContents self.old self.new) }

        // A push whose bytes fit is never refused, nor is an empty one, and the capacity never shrinks.
        ensures room { HasRoomFor self.old units.now → IsOk result }
        ensures empty { units.now ≡ [] → IsOk result }
        ensures capacity { self.old.capacity ≤ self.new.capacity }

        // In bytes: the length grows by at most three for each unit, spare capacity for that is enough, and no units
        // change nothing.
        ensures at_most { OnOk result (length self.new.bytes ≤ length self.old.bytes + 3 * length units.now) }
        ensures room_left { length self.old.bytes + 3 * length units.now ≤ self.old.capacity → IsOk result }
        ensures nothing { units.now ≡ [] → KeepsContents self.old self.new }
    {
        self.text.push_ill_formed_utf16(units)?;
        marks::count_more(&self.text, &mut self.count, &mut self.marks, units.len());
        Ok(())
    }

    /// Appends another string, and counts its code units. If memory is refused, the string is unchanged.
    pub fn push_wtf8(&mut self, other: Wtf8<'_>) -> Result<(), AllocError>
        ensures ok { OnOk result (AppendsUnits self.old (view_units other.entry) self.new) }
        ensures kept { OnErr result (KeepsContents self.old self.new) }

        // The length grows by the other's length, minus 2 if a lead meets a trail.
        ensures length { OnOk result (AddsLength self.old other.entry self.new) }

        // A push whose bytes fit is never refused, nor is an empty string, and the capacity never shrinks.
        ensures room { HasRoomFor self.old (view_units other.entry) → IsOk result }
        ensures empty { view_units other.entry ≡ [] → IsOk result }
        ensures capacity { self.old.capacity ≤ self.new.capacity }

        // In bytes: the length grows by at most the other's length, spare capacity for that is enough, and an empty
        // string changes nothing.
        ensures at_most { OnOk result (length self.new.bytes ≤ length self.old.bytes + length other.entry.bytes.now) }
        ensures room_left { length self.old.bytes + length other.entry.bytes.now ≤ self.old.capacity → IsOk result }
        ensures nothing { other.entry.bytes.now ≡ [] → KeepsContents self.old self.new }
    {
        self.push_counted(other, other.unit_len())
    }

    /// Appends another string of `count` code units, and does not count them. If memory is refused, the string is
    /// unchanged.
    pub fn push_counted(&mut self, other: Wtf8<'_>, count: usize) -> Result<(), AllocError>
        requires { count ≡ length (view_units other) }
        ensures ok { OnOk result (AppendsUnits self.old (view_units other.entry) self.new) }
        ensures kept { OnErr result (KeepsContents self.old self.new) }
        ensures length { OnOk result (AddsLength self.old other.entry self.new) }
        ensures room { HasRoomFor self.old (view_units other.entry) → IsOk result }
        ensures empty { view_units other.entry ≡ [] → IsOk result }
        ensures capacity { self.old.capacity ≤ self.new.capacity }
        ensures at_most { OnOk result (length self.new.bytes ≤ length self.old.bytes + length other.entry.bytes.now) }
        ensures room_left { length self.old.bytes + length other.entry.bytes.now ≤ self.old.capacity → IsOk result }
        ensures nothing { other.entry.bytes.now ≡ [] → KeepsContents self.old self.new }
    {
        self.text.push_wtf8(other)?;
        marks::count_more(&self.text, &mut self.count, &mut self.marks, count);
        Ok(())
    }

    /// Appends a part that was cut at code units, and counts its units: its whole code points between the halves of
    /// pairs that the cuts split. A string that is cut at any unit, even inside a pair, is whole again after the second
    /// part is appended to the first. If memory is refused, the string is unchanged. Amortized linear in the length of
    /// the part.
    pub fn push_unit_slice(&mut self, slice: UnitSlice<'_>) -> Result<(), AllocError>
        ensures ok { OnOk result (AppendsUnits self.old (units_of_slice slice.entry) self.new) }
        ensures kept { OnErr result (KeepsContents self.old self.new) }

        // A push whose bytes fit is never refused, nor is an empty part, and the capacity never shrinks.
        ensures room { HasRoomFor self.old (units_of_slice slice.entry) → IsOk result }
        ensures empty { units_of_slice slice.entry ≡ [] → IsOk result }
        ensures capacity { self.old.capacity ≤ self.new.capacity }
    {
        self.text.push_unit_slice(slice)?;
        // The string has no more units than bytes, so the slice's units can be counted.
        prove!(self.text.len() <= usize::MAX);
        let more = slices::unit_len(slice);
        marks::count_more(&self.text, &mut self.count, &mut self.marks, more);
        Ok(())
    }

    /// Shortens the string to `n` code units, which must be at most the number of code units. If that splits a
    /// surrogate pair, its lead stays as a lone surrogate. Does not allocate. Counts the units as `position_at` does.
    pub fn truncate_units(&mut self, n: usize)
        requires { n ≤ length self.old.units }
        ensures units { self.new.units ≡ take n self.old.units }

        // If position `k` is the code point boundary after the first `n` units, the first `k` bytes stay.
        ensures bytes { (k : ℕ) → IsFront self.old.units k (take n self.old.units) → self.new.bytes ≡ take k self.old.bytes }
        ensures capacity { self.new.capacity ≡ self.old.capacity }
    {
        let mark = self.marked().mark_at(n);
        self.text.truncate_units_at(mark, n);
        self.count = n;
        laws::law_marks();
        laws::law_one_form();
        let text = CountedView::new(&self.text, self.count);
        marks::truncate_kept(text, &mut self.marks);
    }

    /// Shortens the string to a mark of it, and counts no units: to the part before a last code point of a known length,
    /// for example. Does not allocate. Constant.
    pub fn truncate_at(&mut self, mark: UnitMark)
        requires { IsMark self.old.bytes self.old.units mark.position mark.units }
        ensures units { self.new.units ≡ take mark.units self.old.units }
        ensures bytes { self.new.bytes ≡ take mark.position self.old.bytes }
        ensures capacity { self.new.capacity ≡ self.old.capacity }
    {
        laws::law_mark(self.text.as_wtf8(), mark);
        self.text.truncate_units_at(mark, mark.units);
        self.count = mark.units;
        laws::law_marks();
        laws::law_one_form();
        let text = CountedView::new(&self.text, self.count);
        marks::truncate_kept(text, &mut self.marks);
    }

    /// Shortens the string to `new_len` bytes, which must be a code point boundary. Does not allocate. Counts the units
    /// as `unit_before` does.
    pub fn truncate(&mut self, new_len: usize)
        requires { IsBoundary self.old.units new_len }
        ensures units { IsFront self.old.units new_len self.new.units }
        ensures bytes { self.new.bytes ≡ take new_len self.old.bytes }
        ensures capacity { self.new.capacity ≡ self.old.capacity }
    {
        self.count = self.unit_before(new_len);
        self.text.truncate(new_len);
        laws::law_marks();
        laws::law_fronts();
        laws::law_one_form();
        let front = CountedView::new(&self.text, self.count);
        marks::truncate_kept(front, &mut self.marks);
    }

    /// Writes the code units from index `begin` to before index `end` to the front of `out`, which must have room for
    /// them, and leaves its rest unchanged. Does not allocate.
    pub fn copy_units(&self, begin: usize, end: usize, out: &mut [u16])
        requires order { begin ≤ end }
        requires within { end ≤ length self.now.units }
        requires room { end - begin ≤ length out.old }
        ensures units { take (end - begin) out.new ≡ drop begin (take end self.now.units) }
        ensures rest { drop (end - begin) out.new ≡ drop (end - begin) out.old }
        ensures len { length out.new ≡ length out.old }
    {
        slices::write_slice(self.slice_units(begin, end), out);
    }

    /// Empties the string and keeps its capacity. Marks are kept of what is appended later, if they were before.
    pub fn clear(&mut self)
        ensures units { self.new.units ≡ [] }
        ensures bytes { self.new.bytes ≡ [] }
        ensures capacity { self.new.capacity ≡ self.old.capacity }
    {
        self.text.clear();
        self.count = 0;
        if let Some(marks) = &mut self.marks {
            marks.clear();
        }
    }

    /// The view of the string with its marks.
    #[inline(always)]
    pub(crate) fn marked(&self) -> MarkedView<'_>
        ensures bytes { result.text.view.bytes.now ≡ self.now.bytes }
        ensures units { view_units result.text.view ≡ self.now.units }
        ensures count { result.text.count ≡ length self.now.units }
    {
        let text = CountedView::new(&self.text, self.count);
        MarkedView::new(text, self.marks.as_ref())
    }
}
