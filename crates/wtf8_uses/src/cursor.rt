//! A place in a text, kept as a mark.
ghost use Rattle.std.proofs.Props.{props};
ghost use Rattle.std.specs.Prelude.{◌≡◌, ◌≤◌, ℕ, length, drop};
ghost use Rattle.wtf8.specs.OneForm.{IsForm-prop};
ghost use Rattle.wtf8.specs.Position.{IsBoundary};
ghost use Rattle.wtf8.specs.UnitMark.{IsMarkOf};
ghost use Rattle.wtf8.specs.View.{view_units};

use wtf8::{UnitMark, Wtf8, laws};

/// A place in a text.
#[derive(Clone, Copy)]
pub struct Cursor<'a> {
    pub text: Wtf8<'a>,
    pub mark: UnitMark,
    ghost is_mark: { IsMarkOf text mark } by { Prim.hlevel (props, IsForm-prop) },
}

impl<'a> Cursor<'a> {
    /// The place at the start of a text.
    pub fn new(text: Wtf8<'a>) -> Cursor<'a>
        ensures text { result.text ≡ text.entry }
        ensures start { result.mark.position ≡ 0 }
    {
        Cursor {
            text,
            mark: text.start_mark(),
        }
    }

    /// The text after the place.
    pub fn rest(&self) -> Wtf8<'a>
        ensures { view_units result ≡ drop self.now.mark.units (view_units self.now.text) }
    {
        self.text.slice_from_mark(self.mark)
    }

    /// Moves to the last code point boundary at or before a byte position, which must be at or after the place.
    pub fn advance_to(&mut self, position: usize)
        requires order { self.old.mark.position ≤ position }
        requires within { position ≤ length self.old.text.bytes.now }
        ensures text { self.new.text ≡ self.old.text }
        ensures before { self.new.mark.position ≤ position }
        ensures last { (k : ℕ) → IsBoundary (view_units self.old.text) k → k ≤ position → k ≤ self.new.mark.position }
    {
        self.mark = self.text.mark_before(self.mark, position);
    }
}

/// The position of the mark that has as many units before it as a boundary: it is the boundary.
pub fn there_and_back(text: Wtf8<'_>, boundary: usize) -> usize
    requires { IsBoundary (view_units text) boundary }
    ensures { result ≡ boundary }
{
    laws::law_boundary(text, boundary);
    let mark = text.mark_before(text.start_mark(), boundary);
    laws::law_mark(text, mark);
    text.mark_at(text.start_mark(), mark.units).position
}
