// Code units inserted, removed and replaced at any index, also inside a surrogate pair, by units or by a string.
ghost use Rattle.std.specs.Prelude.{◌≡◌, ◌≤◌, length, OnOk, OnErr, IsOk, [], ℕ};
ghost use Rattle.wtf8.specs.Appending.{KeepsContents, FitWithin};
ghost use Rattle.wtf8.specs.Editing.{spliced};
ghost use Rattle.wtf8.specs.View.{view_units};

use crate::indexed::IndexedBuf;
use crate::marks;
use std::alloc::{AllocError, Allocator};
use wtf8::Wtf8;

impl<A: Allocator> IndexedBuf<A> {
    /// Inserts code units, paired or not, before the one at index `index`, which must be at most the length. Inside a
    /// surrogate pair, the pair is cut, and each half may form one with a new unit. If memory is refused, the string is
    /// unchanged; no insertion is refused for a mark. Finds the index as `position_at` does, then amortized linear in the
    /// number of new units and of the bytes after them. Marks after `index` are made anew.
    pub fn insert_units(&mut self, index: usize, units: &[u16]) -> Result<(), AllocError>
        requires { index ≤ length self.old.units }
        ensures ok { OnOk result (self.new.units ≡ spliced self.old.units index index units.now) }
        ensures kept { OnErr result (KeepsContents self.old self.new) }
        ensures room { FitWithin (spliced self.old.units index index units.now) 0 self.old.capacity → IsOk result }
        ensures capacity { self.old.capacity ≤ self.new.capacity }
    {
        self.replace_units(index, index, units)
    }

    /// Removes the code units from index `begin` to before `end`, which must be in order and at most the length. A pair
    /// that an end splits is cut, and a lead and a trail that then meet become one code point. Never fails, since the
    /// string becomes no longer. Costs what `replace_units` does.
    pub fn remove_units(&mut self, begin: usize, end: usize) -> Result<(), AllocError>
        requires order { begin ≤ end }
        requires within { end ≤ length self.old.units }
        ensures ok { OnOk result (self.new.units ≡ spliced self.old.units begin end []) }
        ensures kept { OnErr result (KeepsContents self.old self.new) }
        ensures room { FitWithin (spliced self.old.units begin end []) 0 self.old.capacity → IsOk result }
        ensures succeeds { IsOk result }
        ensures capacity { self.old.capacity ≤ self.new.capacity }
    {
        self.replace_units(begin, end, &[])
    }

    /// Replaces the code units from index `begin` to before `end`, which must be in order and at most the length, by
    /// others, paired or not. A pair that an end splits is cut, and a lead and a trail that then meet become one code
    /// point. If memory is refused, the string is unchanged; it is requested at most once, and not if the new string fits
    /// the capacity, and no call is refused for a mark. Finds `begin` as `position_at` does, and `end` from there or from a
    /// nearer mark, then amortized linear in the number of new units and of the bytes after `begin`. Marks after `begin` are
    /// made anew.
    pub fn replace_units(
        &mut self,
        begin: usize,
        end: usize,
        units: &[u16],
    ) -> Result<(), AllocError>
        requires order { begin ≤ end }
        requires within { end ≤ length self.old.units }
        ensures ok { OnOk result (self.new.units ≡ spliced self.old.units begin end units.now) }
        ensures kept { OnErr result (KeepsContents self.old self.new) }

        // It is never refused if the new string fits, and the capacity never shrinks.
        ensures room { FitWithin (spliced self.old.units begin end units.now) 0 self.old.capacity → IsOk result }
        ensures capacity { self.old.capacity ≤ self.new.capacity }
    {
        let marked = self.marked();
        let from = marked.mark_at(begin);
        let to = marked.mark_after(from, end);
        self.text.replace_units_at(from, begin, to, end, units)?;
        let count = units.len();
        marks::count_replaced(
            &self.text,
            &mut self.count,
            &mut self.marks,
            begin,
            end,
            count,
        );
        Ok(())
    }

    /// Inserts a string before the code unit at index `index`, which must be at most the length, as `insert_units` does
    /// units. The string's bytes are copied.
    pub fn insert(&mut self, index: usize, text: Wtf8<'_>) -> Result<(), AllocError>
        requires { index ≤ length self.old.units }
        ensures ok { OnOk result (self.new.units ≡ spliced self.old.units index index (view_units text.entry)) }
        ensures kept { OnErr result (KeepsContents self.old self.new) }
        ensures room { FitWithin (spliced self.old.units index index (view_units text.entry)) 0 self.old.capacity → IsOk result }
        ensures capacity { self.old.capacity ≤ self.new.capacity }
    {
        self.replace(index, index, text)
    }

    /// Replaces the code units from index `begin` to before `end`, which must be in order and at most the length, by a
    /// string, as `replace_units` does by units. The string's bytes are copied, and its units counted.
    pub fn replace(&mut self, begin: usize, end: usize, text: Wtf8<'_>) -> Result<(), AllocError>
        requires order { begin ≤ end }
        requires within { end ≤ length self.old.units }
        ensures ok { OnOk result (self.new.units ≡ spliced self.old.units begin end (view_units text.entry)) }
        ensures kept { OnErr result (KeepsContents self.old self.new) }
        ensures room { FitWithin (spliced self.old.units begin end (view_units text.entry)) 0 self.old.capacity → IsOk result }
        ensures capacity { self.old.capacity ≤ self.new.capacity }
    {
        self.replace_counted(begin, end, text, text.unit_len())
    }

    /// Replaces the code units from index `begin` to before `end` by a string of `count` code units, as `replace` does,
    /// but does not count them.
    pub fn replace_counted(
        &mut self,
        begin: usize,
        end: usize,
        text: Wtf8<'_>,
        count: usize,
    ) -> Result<(), AllocError>
        requires order { begin ≤ end }
        requires within { end ≤ length self.old.units }
        requires count { count ≡ length (view_units text) }
        ensures ok { OnOk result (self.new.units ≡ spliced self.old.units begin end (view_units text.entry)) }
        ensures kept { OnErr result (KeepsContents self.old self.new) }
        ensures room { FitWithin (spliced self.old.units begin end (view_units text.entry)) 0 self.old.capacity → IsOk result }
        ensures capacity { self.old.capacity ≤ self.new.capacity }
    {
        let marked = self.marked();
        let from = marked.mark_at(begin);
        let to = marked.mark_after(from, end);
        self.text.replace_at(from, begin, to, end, text)?;
        marks::count_replaced(
            &self.text,
            &mut self.count,
            &mut self.marks,
            begin,
            end,
            count,
        );
        Ok(())
    }
}
