// Marks: byte positions with a known number of code units before them, from which later units are found.
ghost use Rattle.std.specs.Prelude.{◌≡◌, ℕ, ◌≤◌, length, drop};
ghost use Rattle.wtf8.specs.Position.{IsBoundary};
ghost use Rattle.wtf8.specs.UnitMark.{IsMarkOf, RoundsDownTo};
ghost use Rattle.wtf8.specs.UnitPosition.{DividesPair};
ghost use Rattle.wtf8.specs.View.{view_units};

use crate::strings::view::Wtf8;
use crate::units::positions::cut_at;

/// A byte position and the number of code units before it. It is a mark of a string if the bytes before the position
/// encode exactly that number of units and the bytes after it encode the rest, so it splits no surrogate pair.
/// `Wtf8::start_mark` returns the first one, and `Wtf8::mark_at` finds others.
#[derive(Clone, Copy)]
pub struct UnitMark {
    /// The position in bytes.
    pub position: usize,
    /// The number of code units before the position.
    pub units: usize,
}

impl<'a> Wtf8<'a> {
    /// The mark at the start of the string.
    pub fn start_mark(&self) -> UnitMark
        ensures mark { IsMarkOf self.now result }
        ensures start { (result.position ≡ 0) × (result.units ≡ 0) }
    {
        UnitMark {
            position: 0,
            units: 0,
        }
    }

    /// The part after a mark of this string. Borrows the bytes for `'a`, so it may outlive this view.
    pub fn slice_from_mark(&self, mark: UnitMark) -> Wtf8<'a>
        requires { IsMarkOf self.now mark }
        ensures units { view_units result ≡ drop mark.units (view_units self.now) }
        ensures bytes { result.bytes.now ≡ drop mark.position self.now.bytes.now }
    {
        self.skip_bytes(mark.position)
    }

    /// The mark with `units` code units before it, or one fewer if that splits a pair. `units` must be at most the
    /// number of code units, and `from` a mark of this string at or before `units`. Linear in the distance from it.
    pub fn mark_at(&self, from: UnitMark, units: usize) -> UnitMark
        requires mark { IsMarkOf self.now from }
        requires order { from.units ≤ units }
        requires within { units ≤ length (view_units self.now) }
        ensures mark { IsMarkOf self.now result }
        ensures last { RoundsDownTo (view_units self.now) units result.units }
        ensures exact { ¬ (DividesPair (view_units self.now) units) → result.units ≡ units }
    {
        let cut = cut_at(self.slice_from_mark(from), units - from.units);
        prove!(self.len() <= usize::MAX);
        let position = from.position + cut.position;
        let units = from.units + cut.units;
        UnitMark { position, units }
    }

    /// The mark with `units` code units before it, or one fewer if that splits a pair. `from` must be a mark of this
    /// string at or after `units`. Linear in the distance from it, backwards.
    pub fn mark_back(&self, from: UnitMark, units: usize) -> UnitMark
        requires mark { IsMarkOf self.now from }
        requires order { units ≤ from.units }
        ensures mark { IsMarkOf self.now result }
        ensures last { RoundsDownTo (view_units self.now) units result.units }
        ensures exact { ¬ (DividesPair (view_units self.now) units) → result.units ≡ units }
    {
        let start = self.mark_at_most(from, units);
        if start.units == units {
            return start;
        }
        self.mark_at(start, units)
    }

    /// A mark with at most `units` units before it: back three bytes for each, the most that one takes, to a boundary.
    fn mark_at_most(&self, from: UnitMark, units: usize) -> UnitMark
        requires mark { IsMarkOf self.now from }
        requires order { units ≤ from.units }
        ensures mark { IsMarkOf self.now result }
        ensures order { result.units ≤ units }
    {
        let skipped = (from.units - units).saturating_mul(3);
        let position = self.boundary_before(from.position.saturating_sub(skipped));
        let more = self.slice(position, from.position).unit_len();
        let units = from.units - more;
        UnitMark { position, units }
    }

    /// The mark at the last code point boundary at or before the byte `position`, which must be at most the length.
    /// `from` must be a mark of this string at or before `position`. Linear in the distance from it.
    pub fn mark_before(&self, from: UnitMark, position: usize) -> UnitMark
        requires mark { IsMarkOf self.now from }
        requires order { from.position ≤ position }
        requires within { position ≤ length self.now.bytes.now }
        ensures mark { IsMarkOf self.now result }
        ensures before { result.position ≤ position }
        ensures last { (k : ℕ) → IsBoundary (view_units self.now) k → k ≤ position → k ≤ result.position }
        ensures exact { IsBoundary (view_units self.now) position → result.position ≡ position }
        ensures after { (from.position ≤ result.position) × (from.units ≤ result.units) }
    {
        let position = self.boundary_before(position);
        let more = self.slice(from.position, position).unit_len();
        prove!(self.len() <= usize::MAX);
        let units = from.units + more;
        UnitMark { position, units }
    }

    /// The greatest code point boundary at or before the byte `position`, which must be at most the length. Constant: a
    /// code point has at most three continuation bytes to go back over.
    #[inline(always)]
    pub fn boundary_before(&self, position: usize) -> usize
        requires { position ≤ length self.now.bytes.now }
        ensures boundary { IsBoundary (view_units self.now) result }
        ensures before { result ≤ position }
        ensures last { (k : ℕ) → IsBoundary (view_units self.now) k → k ≤ position → k ≤ result }
    {
        let mut boundary = position;
        while !self.is_code_point_boundary(boundary) {
            boundary -= 1;
        }
        boundary
    }
}
