//! Lines and columns of a string, counted in code units as editors and language servers do, and byte positions.
ghost use Rattle.std.proofs.Props.{props};
ghost use Rattle.std.specs.Prelude.{◌≡◌, ◌+◌, ◌-◌, ◌<◌, ◌≤◌, ℕ, length, map, slice_index, IfOk, IfSome, IfNone};
ghost use Rattle.wtf8.specs.OneForm.{IsForm-prop};
ghost use Rattle.wtf8.specs.UnitMark.{IsMarkOf, RoundsDownTo};
ghost use Rattle.wtf8.specs.View.{view_units};
ghost use Rattle.wtf8_uses.specs.LineColumns.{AreMarksOf, IsColumnAt, IsLineAt, StartsAtFront, line_start, line_starts, mark_units};

use std::alloc::{AllocError, Allocator};
use wtf8::{UnitMark, Wtf8, laws};

/// A string and a mark at the start of each line. A line ends after U+000A; the last one may be empty.
#[derive(Drop)]
pub struct LineColumns<'a, A: Allocator> {
    pub text: Wtf8<'a>,
    pub starts: Vec<UnitMark, A>,
    ghost marked: { AreMarksOf text.bytes.now (view_units text) starts.items } by { Prim.hlevel (props, IsForm-prop) },
    ghost first: { StartsAtFront starts.items },
}

/// A line and a column in code units, both counted from 0.
#[derive(Clone, Copy)]
pub struct LineColumn {
    pub line: usize,
    pub column: usize,
}

/// Finds the starts of all lines: goes through the string twice. If a request is refused, nothing stays allocated.
pub fn lines_of<'a, A: Allocator>(
    alloc: A,
    text: Wtf8<'a>,
) -> Result<LineColumns<'a, A>, AllocError>
    ensures text { IfOk result (λ l. l.text ≡ text.entry) }
    ensures starts { IfOk result (λ l. map mark_units l.starts.items ≡ line_starts (view_units text.entry)) }
{
    laws::law_view_lengths(text);
    let mut starts = Vec::new(alloc);
    let mut last = text.start_mark();
    starts.push(last)?;
    let mut count = 0usize;
    for unit in text.to_ill_formed_utf16() {
        count += 1;
        if unit == 0x0A {
            last = mark_after_line_feed(text, last, count);
            starts.push(last)?;
        }
    }
    Ok(LineColumns { text, starts })
}

/// The mark after the line feed that is the last of the first `units` units.
fn mark_after_line_feed(text: Wtf8<'_>, from: UnitMark, units: usize) -> UnitMark
    requires mark { IsMarkOf text from }
    requires order { from.units ≤ units }
    requires within { units ≤ length (view_units text) }
    requires line_feed { slice_index (view_units text) (units - 1) ≡ 0x0A }
    ensures mark { IsMarkOf text.entry result }
    ensures units { result.units ≡ units }
{
    laws::law_divided_pair(text, units);
    text.mark_at(from, units)
}

/// The mark at a line and a column, both counted from 0, or one unit before it if that splits a pair. `None` if there
/// is no such line, or the string ends before the column.
pub fn mark_at_column<A: Allocator>(
    lines: &LineColumns<'_, A>,
    line: usize,
    column: usize,
) -> Option<UnitMark>
    ensures mark { IfSome result (λ m. IsMarkOf lines.now.text m) }
    ensures units { IfSome result (λ m. (line < length lines.now.starts.items) × RoundsDownTo (view_units lines.now.text) (line_start lines.now.starts.items line + column) m.units) }
    ensures none { IfNone result (line < length lines.now.starts.items → length (view_units lines.now.text) < line_start lines.now.starts.items line + column) }
{
    if lines.starts.len() <= line {
        return None;
    }
    let start = lines.starts[line];
    if lines.text.unit_len() - start.units < column {
        return None;
    }
    Some(lines.text.mark_at(start, start.units + column))
}

/// The line and the column of the last code point boundary at or before the byte `position`, which must be at most the
/// length. Counts the units of that line up to it.
pub fn line_column_at<A: Allocator>(lines: &LineColumns<'_, A>, position: usize) -> LineColumn
    requires { position ≤ length lines.now.text.bytes.now }
    ensures line { IsLineAt lines.now.starts.items position result.line }
    ensures column { IsColumnAt lines.now.text.bytes.now (view_units lines.now.text) position (line_start lines.now.starts.items result.line + result.column) }
{
    let line = line_at(lines, position);
    let start = lines.starts[line];
    let mark = lines.text.mark_before(start, position);
    laws::law_mark(lines.text, mark);
    LineColumn {
        line,
        column: mark.units - start.units,
    }
}

/// The last line that starts at or before a byte position, by halving.
fn line_at<A: Allocator>(lines: &LineColumns<'_, A>, position: usize) -> usize
    ensures { IsLineAt lines.now.starts.items position result }
{
    let mut low = 1;
    let mut high = lines.starts.len();
    while low < high {
        let middle = low + (high - low) / 2;
        if lines.starts[middle].position <= position {
            low = middle + 1;
        } else {
            high = middle;
        }
    }
    low - 1
}
