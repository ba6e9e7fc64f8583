//! A text that is edited at a cursor, with one step of undo.
ghost use Rattle.std.specs.Prelude.{◌≡◌, ◌-◌, ◌≤◌, ◌<◌, ℕ, [], length, take, drop, IfOk, OnOk, OnErr, IsTrue, false, true, Some, None, Ok};
ghost use Rattle.wtf8.specs.UnitPosition.{DividesPair};
ghost use Rattle.wtf8.specs.View.{view_units};
ghost use Rattle.wtf8_uses.specs.Editor.{Edited, History, IsChanged, IsCursor};

use std::alloc::{AllocError, Allocator};
use std::marker::Model;
use unit_text::IndexedBuf;
use wtf8::{Wtf8, laws};

/// A text, a cursor at a code point boundary of it, and the last change, which can be undone and redone.
///
/// In contracts its value is what it shows, and what it shows after `undo`.
#[derive(Drop)]
pub struct Editor<A: Allocator + Copy> {
    alloc: A,
    text: IndexedBuf<A>,
    cursor: usize,
    change: Option<Change<A>>,
}

/// A change of a text: the units that were removed at index `begin`, the units inserted there, and the cursor before it.
#[derive(Drop)]
struct Change<A: Allocator> {
    begin: usize,
    removed: Vec<u16, A>,
    inserted: Vec<u16, A>,
    cursor: usize,
}

impl<A: Allocator> Change<A> {
    /// The change that undoes this one, while the cursor is at `cursor`.
    fn reversed(self, cursor: usize) -> Change<A>
        ensures begin { result.begin ≡ self.begin }
        ensures removed { result.removed.items ≡ self.inserted.items }
        ensures inserted { result.inserted.items ≡ self.removed.items }
        ensures cursor { result.cursor ≡ cursor }
    {
        Change {
            begin: self.begin,
            removed: self.inserted,
            inserted: self.removed,
            cursor,
        }
    }
}

impl<A: Allocator + Copy> Model for Editor<A> {
    ghost use Rattle.wtf8_uses.specs.Editor.{History};

    ghost Value = { History };

    ghost use Rattle.std.specs.Prelude.{length};
    ghost use Rattle.std.specs.Option.{option_map};
    ghost use Rattle.wtf8_uses.specs.EditorChange.{undone, IsEditor};

    ghost view = { λ e. record { shown = record { units = e.text.units; cursor = e.cursor }; other = option_map (undone e.text.units) e.change } };

    ghost invariant = { λ e. IsEditor e.text e.cursor e.change };
}

impl<A: Allocator + Copy> Editor<A> {
    /// Shows a text of these code units, paired or not, with the cursor at its start.
    pub fn from_units(alloc: A, units: &[u16]) -> Result<Editor<A>, AllocError>
        ensures units { IfOk result (λ e. e.shown.units ≡ units.now) }
        ensures cursor { IfOk result (λ e. e.shown.cursor ≡ 0) }
        ensures other { IfOk result (λ e. e.other ≡ None) }
    {
        Ok(Editor {
            alloc,
            text: IndexedBuf::from_units(alloc, units)?,
            cursor: 0,
            change: None,
        })
    }

    /// The text.
    pub fn text(&self) -> Wtf8<'_>
        ensures { view_units result ≡ self.now.shown.units }
    {
        self.text.as_wtf8()
    }

    /// The number of code units before the cursor.
    pub fn cursor(&self) -> usize
        ensures value { result ≡ self.now.shown.cursor }
        ensures within { result ≤ length self.now.shown.units }
        ensures no_pair { ¬ (DividesPair self.now.shown.units result) }
    {
        self.cursor
    }

    /// Moves the cursor to index `index`, which must be at most the length, or before a surrogate pair that this divides.
    /// It is no change, so `undo` does not take it back.
    pub fn move_to(&mut self, index: usize)
        requires { index ≤ length self.old.shown.units }
        ensures units { self.new.shown.units ≡ self.old.shown.units }
        ensures cursor { IsCursor self.old.shown.units index self.new.shown.cursor }
        ensures other { self.new.other ≡ self.old.other }
    {
        self.cursor = round_down(&self.text, index);
    }

    /// Replaces the code units from index `begin` to before `end`, which must be in order and at most the length, and
    /// puts the cursor after the new ones, or before a surrogate pair that this divides. If memory is refused, nothing is
    /// changed. Costs what `IndexedBuf::replace_units` does; the removed and the new units are copied for `undo`.
    pub fn replace(&mut self, begin: usize, end: usize, units: &[u16]) -> Result<(), AllocError>
        requires order { begin ≤ end }
        requires within { end ≤ length self.old.shown.units }
        ensures ok { OnOk result (IsChanged self.old begin end units.now self.new) }
        ensures kept { OnErr result (self.new ≡ self.old) }
    {
        let removed = copy_units(self.alloc, &self.text, begin, end)?;
        let inserted = Vec::from_slice(self.alloc, units)?;
        self.text.replace_units(begin, end, units)?;
        self.change = Some(Change {
            begin,
            removed,
            inserted,
            cursor: self.cursor,
        });
        prove!(self.text.unit_len() <= usize::MAX);
        self.cursor = round_down(&self.text, begin + units.len());
        Ok(())
    }

    /// Inserts code units at the cursor, as `replace` does.
    pub fn insert(&mut self, units: &[u16]) -> Result<(), AllocError>
        ensures ok { OnOk result (IsChanged self.old self.old.shown.cursor self.old.shown.cursor units.now self.new) }
        ensures kept { OnErr result (self.new ≡ self.old) }
    {
        self.replace(self.cursor, self.cursor, units)
    }

    /// Removes the code point before the cursor: both surrogates of a pair. Returns whether there is one. If memory is
    /// refused, nothing is changed.
    pub fn delete_back(&mut self) -> Result<bool, AllocError>
        ensures start { self.old.shown.cursor ≡ 0 → (result ≡ Ok false) × (self.new ≡ self.old) }
        ensures ok { 0 < self.old.shown.cursor → OnOk result ((begin : ℕ) × IsCursor self.old.shown.units (self.old.shown.cursor - 1) begin × IsChanged self.old begin self.old.shown.cursor [] self.new) }
        ensures some { 0 < self.old.shown.cursor → IfOk result (λ r. IsTrue r) }
        ensures kept { OnErr result (self.new ≡ self.old) }
    {
        if self.cursor == 0 {
            return Ok(false);
        }
        let begin = round_down(&self.text, self.cursor - 1);
        self.replace(begin, self.cursor, &[])?;
        Ok(true)
    }

    /// Undoes the last change: shows the text and the cursor as they were right before it. Undoes the undoing if it is
    /// called again before another change. Returns whether there is a change. Does not allocate: the old text fits the
    /// capacity.
    pub fn undo(&mut self) -> bool
        ensures none { self.old.other ≡ None → (result ≡ false) × (self.new ≡ self.old) }
        ensures some { (other : Edited) → self.old.other ≡ Some other → (result ≡ true) × (self.new ≡ record { shown = other; other = Some self.old.shown }) }
    {
        let Some(change) = self.change.take() else {
            return false;
        };
        prove!(self.text.unit_len() <= usize::MAX);
        let end = change.begin + change.inserted.len();
        let shown = self.text.replace_units(change.begin, end, &change.removed);
        let cursor = self.cursor;
        self.cursor = change.cursor;
        self.change = Some(change.reversed(cursor));
        shown.is_ok()
    }
}

/// The code units from index `begin` to before `end`.
fn copy_units<A: Allocator + Copy>(
    alloc: A,
    text: &IndexedBuf<A>,
    begin: usize,
    end: usize,
) -> Result<Vec<u16, A>, AllocError>
    requires order { begin ≤ end }
    requires within { end ≤ length text.now.units }
    ensures { IfOk result (λ v. v.items ≡ drop begin (take end text.now.units)) }
{
    let mut units = vec![in alloc; 0; end - begin]?;
    text.copy_units(begin, end, &mut units);
    Ok(units)
}

/// The index, or the one before it if it divides a surrogate pair.
fn round_down<A: Allocator>(text: &IndexedBuf<A>, index: usize) -> usize
    requires { index ≤ length text.now.units }
    ensures { IsCursor text.now.units index result }
{
    laws::law_divided_pair(text.as_wtf8(), index);
    if text.divides_pair(index) {
        index - 1
    } else {
        index
    }
}

/// Replaces units and undoes that: the text and the cursor are as before, also if memory is refused.
pub fn replace_and_undo<A: Allocator + Copy>(
    editor: &mut Editor<A>,
    begin: usize,
    end: usize,
    units: &[u16],
) -> Result<bool, AllocError>
    requires order { begin ≤ end }
    requires within { end ≤ length editor.old.shown.units }
    ensures same { editor.new.shown ≡ editor.old.shown }
    ensures changed { IfOk result (λ r. IsTrue r) }
{
    editor.replace(begin, end, units)?;
    Ok(editor.undo())
}

/// Undoes and redoes: nothing is changed.
pub fn undo_twice<A: Allocator + Copy>(editor: &mut Editor<A>)
    ensures { editor.new ≡ editor.old }
{
    let _ = editor.undo();
    editor.undo();
}
