// The marks of a text, from which a unit is found without counting from the front of the text.
ghost use Rattle.std.specs.Prelude.{◌≡◌, ◌≢◌, ◌+◌, ◌-◌, ◌*◌, ◌/◌, ◌<◌, ◌≤◌, ℕ, List, ◌++◌, length, vec_capacity, take, drop, IfSome, IsSome, IsTrue, ◌↔◌};
ghost use Rattle.std.proofs.Props.{props};
ghost use Rattle.unit_text.specs.Marks.{AreEnough, AreKept, AreMarks};
ghost use Rattle.wtf8.specs.OneForm.{IsForm-prop};
ghost use Rattle.wtf8.specs.Position.{IsBoundary};
ghost use Rattle.wtf8.specs.Appending.{AppendsUnits};
ghost use Rattle.wtf8.specs.UnitMark.{IsMark, IsMarkOf, RoundsDownTo};
ghost use Rattle.wtf8.specs.UnitPosition.{units_of_slice, DividesPair};
ghost use Rattle.wtf8.specs.UnitString.{UnitString};
ghost use Rattle.wtf8.specs.View.{view_units};

use std::alloc::Allocator;
use wtf8::{UnitMark, UnitSlice, Wtf8, Wtf8Buf, laws};

/// Marks are at the multiples of this number of units, or one unit before a multiple that splits a pair. A text of at
/// most this number of units has no marks.
pub(crate) const SPACING: usize = 128;

/// The vector of the marks that a string keeps, in a box, so that a string is smaller by two words. In this toolchain
/// `Option<Box<T>>` has two words, since it stores a tag beside the pointer.
pub(crate) type MarkList<A> = Box<Vec<UnitMark, A>, A>;

/// A view with its number of code units.
#[derive(Clone, Copy)]
pub(crate) struct CountedView<'a> {
    pub(crate) view: Wtf8<'a>,
    pub(crate) count: usize,
    ghost counted: { count ≡ length (view_units view) },
}

/// A view with the marks that are kept of it, in order.
#[derive(Clone, Copy)]
pub(crate) struct MarkedView<'a> {
    pub(crate) text: CountedView<'a>,
    marks: &'a [UnitMark],
    ghost kept: { AreKept text.view.bytes.now (view_units text.view) marks.now } by { Prim.hlevel (props, IsForm-prop) },
}

impl<'a> CountedView<'a> {
    /// `count` is the number of code units of `text`.
    #[inline(always)]
    pub(crate) fn new<A: Allocator>(text: &'a Wtf8Buf<A>, count: usize) -> CountedView<'a>
        requires { count ≡ length text.now.units }
        ensures bytes { result.view.bytes.now ≡ text.now.bytes }
        ensures units { view_units result.view ≡ text.now.units }
        ensures count { result.count ≡ count }
    {
        CountedView {
            view: text.as_wtf8(),
            count,
        }
    }

    /// The mark at the end.
    #[inline(always)]
    fn end_mark(&self) -> UnitMark
        ensures mark { IsMarkOf self.now.view result }
        ensures units { result.units ≡ self.now.count }
    {
        UnitMark {
            position: self.view.len(),
            units: self.count,
        }
    }

    #[inline(always)]
    fn is_ascii(&self) -> bool
        ensures ascii { IsTrue result ↔ (length self.now.view.bytes.now ≡ length (view_units self.now.view)) }
        ensures empty { self.now.count ≡ 0 → IsTrue result }
    {
        self.view.len() == self.count
    }

    /// The number of marks that a text needs: one for each positive multiple of `SPACING` below its number of units,
    /// but none if it is ASCII.
    #[inline(always)]
    fn needed_mark_count(&self) -> usize
        ensures before_last { (n : ℕ) → n < result → (n + 1) * SPACING < self.now.count }
        ensures all { AreEnough self.now.view.bytes.now (view_units self.now.view) result }
        ensures not_ascii { 0 < result → length self.now.view.bytes.now ≢ length (view_units self.now.view) }
    {
        if self.is_ascii() {
            return 0;
        }
        (self.count - 1) / SPACING
    }
}

/// Makes the marks of a text, and stops at the first that is refused memory. Returns `None` if memory for the box or a
/// clone of the allocator is refused.
pub(crate) fn marks_of<A: Allocator + Clone>(alloc: A, text: CountedView<'_>) -> Option<MarkList<A>>
    ensures { IfSome result (λ m. AreMarks text.entry.view.bytes.now (view_units text.entry.view) m.value.items (vec_capacity m.value)) }
{
    let Ok(box_alloc) = alloc.clone() else {
        return None;
    };
    let Ok(mut marks) = Box::new(box_alloc, Vec::new(alloc)) else {
        return None;
    };
    // If memory for all marks at once is refused, there may be enough for a few.
    let _is_found = marks.reserve_exact(text.needed_mark_count()).is_ok();
    add_marks(text, &mut marks);
    Some(marks)
}

/// Appends the missing marks, until memory is refused for one. Not inlined, so that a text that lacks no mark costs
/// little.
#[inline(never)]
fn add_marks<A: Allocator>(text: CountedView<'_>, marks: &mut Vec<UnitMark, A>)
    requires { AreKept text.view.bytes.now (view_units text.view) marks.old.items }
    ensures { AreMarks text.entry.view.bytes.now (view_units text.entry.view) marks.new.items (vec_capacity marks.new) }
{
    let mut last = last_or_start(text.view, marks.as_slice());
    for number in marks.len()..text.needed_mark_count() {
        if marks.reserve(1).is_err() {
            return;
        }
        last = text.view.mark_at(last, (number + 1) * SPACING);
        marks.push_reserved(last);
    }
}

/// Appends the missing marks, if marks are kept.
#[inline(always)]
fn add_to_kept<A: Allocator>(text: CountedView<'_>, marks: &mut Option<MarkList<A>>)
    requires { IfSome marks.old (λ m. AreKept text.view.bytes.now (view_units text.view) m.value.items) }
    ensures { IfSome marks.new (λ m. AreMarks text.entry.view.bytes.now (view_units text.entry.view) m.value.items (vec_capacity m.value)) }
{
    if let Some(marks) = marks {
        if marks.len() < text.needed_mark_count() {
            add_marks(text, marks);
        }
    }
}

/// Counts `more` units that were appended to a string, and appends their marks, if marks are kept. The marks of the old
/// string are marks of the new one.
#[inline(always)]
pub(crate) fn count_more<A: Allocator>(
    text: &Wtf8Buf<A>,
    count: &mut usize,
    marks: &mut Option<MarkList<A>>,
    more: usize,
)
    requires count { count.old + more ≡ length text.now.units }
    requires marks { (old : UnitString) × (v : List ℕ) × (AppendsUnits old v text.now × IfSome marks.old (λ m. AreMarks old.bytes old.units m.value.items (vec_capacity m.value))) }
    ensures count { count.new ≡ length text.now.units }
    ensures marks { IfSome marks.new (λ m. AreMarks text.now.bytes text.now.units m.value.items (vec_capacity m.value)) }
{
    // There are no more units than bytes, so the sum fits.
    prove!(text.len() <= usize::MAX);
    laws::law_marks();
    *count += more;
    add_to_kept(CountedView::new(text, *count), marks);
}

/// Counts the units of a string in which the units from index `begin` to before `end` were replaced by `new` others, and
/// makes the marks after `begin` anew, if marks are kept. The marks of the old string before `begin` are marks of the new
/// one.
#[inline(always)]
pub(crate) fn count_replaced<A: Allocator>(
    text: &Wtf8Buf<A>,
    count: &mut usize,
    marks: &mut Option<MarkList<A>>,
    begin: usize,
    end: usize,
    new: usize,
)
    requires order { begin ≤ end }
    requires within { end ≤ count.old }
    requires count { begin + new + (count.old - end) ≡ length text.now.units }
    requires marks { (old : UnitString) × (rest : List ℕ) × ((begin ≤ length old.units) × (text.now.units ≡ take begin old.units ++ rest) × IfSome marks.old (λ m. AreMarks old.bytes old.units m.value.items (vec_capacity m.value))) }
    ensures count { count.new ≡ length text.now.units }
    ensures marks { IfSome marks.new (λ m. AreMarks text.now.bytes text.now.units m.value.items (vec_capacity m.value)) }
{
    // There are no more units than bytes, so the sum fits.
    prove!(text.len() <= usize::MAX);
    *count = begin + new + (*count - end);
    laws::law_marks();
    renew_after(CountedView::new(text, *count), marks, begin);
}

/// Leaves out the marks, if marks are kept, that are not before the last unit of a text that became shorter.
#[inline(always)]
pub(crate) fn truncate_kept<A: Allocator>(text: CountedView<'_>, marks: &mut Option<MarkList<A>>)
    requires { IfSome marks.old (λ m. AreMarks text.view.bytes.now (view_units text.view) (take ((text.count - 1) / SPACING) m.value.items) (vec_capacity m.value)) }
    ensures { IfSome marks.new (λ m. AreMarks text.entry.view.bytes.now (view_units text.entry.view) m.value.items (vec_capacity m.value)) }
{
    if let Some(marks) = marks {
        marks.truncate(text.count.saturating_sub(1) / SPACING);
    }
}

/// Leaves out the marks, if marks are kept, that are not before unit `unchanged` of a text in which later units were
/// replaced, and appends the marks that are missing.
pub(crate) fn renew_after<A: Allocator>(
    text: CountedView<'_>,
    marks: &mut Option<MarkList<A>>,
    unchanged: usize,
)
    requires { IfSome marks.old (λ m. AreKept text.view.bytes.now (view_units text.view) (take ((unchanged - 1) / SPACING) m.value.items)) }
    ensures { IfSome marks.new (λ m. AreMarks text.entry.view.bytes.now (view_units text.entry.view) m.value.items (vec_capacity m.value)) }
{
    if let Some(marks) = marks {
        marks.truncate(unchanged.saturating_sub(1) / SPACING);
    }
    add_to_kept(text, marks);
}

/// Releases the spare capacity of the marks, if marks are kept and the allocator agrees.
pub(crate) fn shrink_kept<A: Allocator>(marks: &mut Option<MarkList<A>>)
    ensures { (w u : List ℕ) → IfSome marks.old (λ m. AreMarks w u m.value.items (vec_capacity m.value)) → IfSome marks.new (λ m. AreMarks w u m.value.items (vec_capacity m.value)) }
{
    if let Some(marks) = marks {
        marks.shrink_to_fit();
    }
}

/// The last mark, or the start if there is none.
fn last_or_start(view: Wtf8<'_>, marks: &[UnitMark]) -> UnitMark
    requires { AreKept view.bytes.now (view_units view) marks.now }
    ensures mark { IsMarkOf view.entry result }
    ensures before { result.units ≤ length marks.now * SPACING }
{
    if marks.is_empty() {
        return view.start_mark();
    }
    marks[marks.len() - 1]
}

/// The mark with `units` code units before it, or with one fewer if that splits a pair, found from the end. Not
/// inlined, so that a text whose marks are nearer costs little.
#[inline(never)]
pub(crate) fn mark_from_end(text: CountedView<'_>, units: usize) -> UnitMark
    requires { units ≤ text.count }
    ensures mark { IsMarkOf text.entry.view result }
    ensures last { RoundsDownTo (view_units text.entry.view) units result.units }
{
    text.view.mark_back(text.end_mark(), units)
}

/// The mark at the last code point boundary at or before the byte `position`, found by the number of units after it.
/// Not inlined, so that a text whose marks are nearer costs little.
#[inline(never)]
fn mark_before_from_end(text: CountedView<'_>, position: usize) -> UnitMark
    requires { position ≤ length text.view.bytes.now }
    ensures mark { IsMarkOf text.entry.view result }
    ensures before { result.position ≤ position }
    ensures last { (k : ℕ) → IsBoundary (view_units text.entry.view) k → k ≤ position → k ≤ result.position }
{
    laws::law_fronts();
    let position = text.view.boundary_before(position);
    let units = text.count - text.view.slice_from(position).unit_len();
    UnitMark { position, units }
}

impl<'a> MarkedView<'a> {
    /// The view with these marks, or with none.
    #[inline(always)]
    pub(crate) fn new<A: Allocator>(
        text: CountedView<'a>,
        marks: Option<&'a MarkList<A>>,
    ) -> MarkedView<'a>
        requires { IfSome marks (λ m. AreKept text.view.bytes.now (view_units text.view) m.now.value.items) }
        ensures text { result.text ≡ text.entry }
        ensures marks { IfSome marks.entry (λ m. result.marks.now ≡ m.now.value.items) }
    {
        let marks = match marks {
            Some(marks) => marks.as_slice(),
            None => &[],
        };
        MarkedView { text, marks }
    }

    /// The last kept mark for a multiple of `SPACING` that is at most `units`, or the start if there is none.
    #[inline(always)]
    pub(crate) fn kept_mark_at_or_before(&self, units: usize) -> UnitMark
        requires within { units ≤ self.now.text.count }
        ensures mark { IsMarkOf self.now.text.view result }
        ensures before { result.units ≤ units }
        ensures close { length self.now.text.view.bytes.now ≢ length (view_units self.now.text.view) → AreEnough self.now.text.view.bytes.now (view_units self.now.text.view) (length self.now.marks.now) → units ≤ result.units + SPACING + 1 }
    {
        let number = self.marks.len().min(units / SPACING);
        if number == 0 {
            return self.text.view.start_mark();
        }
        self.marks[number - 1]
    }

    /// A mark at or before unit index `units`: at that index if the text is ASCII, else as `near_mark` finds it.
    fn mark_at_or_before(&self, units: usize) -> UnitMark
        requires within { units ≤ self.now.text.count }
        ensures mark { IsMarkOf self.now.text.view result }
        ensures before { result.units ≤ units }
        ensures close { AreEnough self.now.text.view.bytes.now (view_units self.now.text.view) (length self.now.marks.now) → units ≤ result.units + SPACING + 1 }
    {
        laws::law_marks();
        if self.text.is_ascii() {
            return UnitMark {
                position: units,
                units,
            };
        }
        self.near_mark(units)
    }

    /// The last kept mark at or before unit index `units`, or the start if there is none. If the end is nearer, and at
    /// most `SPACING` units after, this is the mark for `units` instead, or the one before the pair that it splits.
    #[inline(always)]
    fn near_mark(&self, units: usize) -> UnitMark
        requires within { units ≤ self.now.text.count }
        ensures mark { IsMarkOf self.now.text.view result }
        ensures before { result.units ≤ units }
        ensures close { length self.now.text.view.bytes.now ≢ length (view_units self.now.text.view) → AreEnough self.now.text.view.bytes.now (view_units self.now.text.view) (length self.now.marks.now) → units ≤ result.units + SPACING + 1 }

        // Near the end the mark is close also if no mark is kept.
        ensures close_to_end { self.now.text.count ≤ units + SPACING → units ≤ result.units + SPACING + 1 }
    {
        let kept = self.kept_mark_at_or_before(units);
        if self.is_nearer_end(kept, units) {
            return mark_from_end(self.text, units);
        }
        kept
    }

    /// Whether unit index `units` is at most `SPACING` units before the end, and nearer to it than to the mark `kept`.
    #[inline(always)]
    pub(crate) fn is_nearer_end(&self, kept: UnitMark, units: usize) -> bool
        requires order { kept.units ≤ units }
        requires within { units ≤ self.now.text.count }
        ensures near { IsTrue result → self.now.text.count ≤ units + SPACING }
        ensures nearer { IsTrue result → self.now.text.count + kept.units < 2 * units }
        ensures farther { self.now.text.count ≤ units + SPACING → self.now.text.count + kept.units < 2 * units → IsTrue result }
    {
        let left = self.text.count - units;
        left <= SPACING && left < units - kept.units
    }

    /// The mark with `units` code units before it, or with one fewer if that splits a pair.
    pub(crate) fn mark_at(&self, units: usize) -> UnitMark
        requires within { units ≤ self.now.text.count }
        ensures mark { IsMarkOf self.now.text.view result }
        ensures last { RoundsDownTo (view_units self.now.text.view) units result.units }
        ensures whole { ¬ (DividesPair (view_units self.now.text.view) units) → result.units ≡ units }
        ensures divided { DividesPair (view_units self.now.text.view) units → result.units + 1 ≡ units }
    {
        laws::law_marks();
        let from = self.mark_at_or_before(units);
        if from.units == units {
            return from;
        }
        self.text.view.mark_at(from, units)
    }

    /// The mark that `mark_at` returns for a number of units at or after the mark `from`. Counts from there if no kept mark
    /// is nearer.
    pub(crate) fn mark_after(&self, from: UnitMark, units: usize) -> UnitMark
        requires mark { IsMarkOf self.now.text.view from }
        requires order { from.units ≤ units }
        requires within { units ≤ self.now.text.count }
        ensures mark { IsMarkOf self.now.text.view result }
        ensures last { RoundsDownTo (view_units self.now.text.view) units result.units }
    {
        let near = self.mark_at_or_before(units);
        if near.units < from.units {
            return self.text.view.mark_at(from, units);
        }
        self.text.view.mark_at(near, units)
    }

    /// The mark at the last code point boundary at or before the byte `position`.
    pub(crate) fn mark_before(&self, position: usize) -> UnitMark
        requires within { position ≤ length self.now.text.view.bytes.now }
        ensures mark { IsMarkOf self.now.text.view result }
        ensures before { result.position ≤ position }
        ensures last { (k : ℕ) → IsBoundary (view_units self.now.text.view) k → k ≤ position → k ≤ result.position }
    {
        laws::law_marks();
        if self.text.is_ascii() {
            return UnitMark {
                position,
                units: position,
            };
        }
        let from = self.kept_mark_before(position);
        if self.text.view.len() - position < position - from.position {
            return mark_before_from_end(self.text, position);
        }
        self.text.view.mark_before(from, position)
    }

    /// The last kept mark at or before the byte `position`, or the start if there is none.
    fn kept_mark_before(&self, position: usize) -> UnitMark
        ensures mark { IsMarkOf self.now.text.view result }
        ensures before { result.position ≤ position }

        // A mark of this view at or before `position` has at most `SPACING + 1` more units.
        ensures close { length self.now.text.view.bytes.now ≢ length (view_units self.now.text.view) → AreEnough self.now.text.view.bytes.now (view_units self.now.text.view) (length self.now.marks.now) → (k n : ℕ) → IsMark self.now.text.view.bytes.now (view_units self.now.text.view) k n → k ≤ position → n ≤ result.units + SPACING + 1 }
    {
        laws::law_marks();
        let marks = self.marks;
        let mut low = 0;
        let mut high = marks.len();
        while low < high {
            let middle = low + (high - low) / 2;
            if marks[middle].position <= position {
                low = middle + 1;
            } else {
                high = middle;
            }
        }
        if low == 0 {
            return self.text.view.start_mark();
        }
        marks[low - 1]
    }

    /// Returns the rest of the text after a mark at or before unit index `units`, and the offset of `units` in it. A
    /// text of at most `SPACING` units is returned whole.
    #[inline(always)]
    fn rest_from_mark(&self, units: usize) -> (Wtf8<'a>, usize)
        requires within { units ≤ self.now.text.count }
        ensures units { drop result.1 (view_units result.0) ≡ drop units (view_units self.now.text.view) }
        ensures within { result.1 ≤ length (view_units result.0) }
        ensures close { AreEnough self.now.text.view.bytes.now (view_units self.now.text.view) (length self.now.marks.now) → result.1 ≤ SPACING + 1 }

        // From `units` on, a cut divides a pair of the rest exactly if it divides one of the text.
        ensures pairs { (n : ℕ) → result.1 + n ≤ length (view_units result.0) → DividesPair (view_units result.0) (result.1 + n) ↔ DividesPair (view_units self.now.text.view) (units + n) }
    {
        if self.text.count <= SPACING {
            return (self.text.view, units);
        }
        let mark = self.mark_at_or_before(units);
        laws::law_marks();
        (self.text.view.slice_from_mark(mark), units - mark.units)
    }

    /// Returns the `len` units from index `begin` on.
    pub(crate) fn units_from(&self, begin: usize, len: usize) -> UnitSlice<'a>
        requires within { begin + len ≤ self.now.text.count }
        ensures units { units_of_slice result ≡ take len (drop begin (view_units self.now.text.view)) }
        ensures trail { 0 < len → (IsSome result.trail ↔ DividesPair (view_units self.now.text.view) begin) }
        ensures lead { 0 < len → (IsSome result.lead ↔ DividesPair (view_units self.now.text.view) (begin + len)) }
    {
        if self.text.is_ascii() {
            return self.ascii_part(begin, len);
        }
        let (rest, at) = self.rest_from_mark(begin);
        // There are no more units than bytes, so the sum fits.
        prove!(rest.len() <= usize::MAX);
        rest.slice_units(at, at + len)
    }

    /// Returns the `len` units from index `begin` on of an ASCII text, in which each index is the position of a mark.
    fn ascii_part(&self, begin: usize, len: usize) -> UnitSlice<'a>
        requires within { begin + len ≤ self.now.text.count }
        requires ascii { length self.now.text.view.bytes.now ≡ length (view_units self.now.text.view) }
        ensures units { units_of_slice result ≡ take len (drop begin (view_units self.now.text.view)) }
        ensures trail { 0 < len → (IsSome result.trail ↔ DividesPair (view_units self.now.text.view) begin) }
        ensures lead { 0 < len → (IsSome result.lead ↔ DividesPair (view_units self.now.text.view) (begin + len)) }
    {
        laws::law_marks();
        let rest = self.text.view.slice_from_mark(UnitMark {
            position: begin,
            units: begin,
        });
        laws::law_mark(
            rest,
            UnitMark {
                position: len,
                units: len,
            },
        );
        UnitSlice {
            trail: None,
            whole: rest.slice_to(len),
            lead: None,
        }
    }
}
