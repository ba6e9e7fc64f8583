//! Binary search in a table of strings sorted by code points.
ghost use Rattle.std.specs.Prelude.{◌≡◌, ◌≢◌, All, IfOk, IfErr, IfSome, IfNone};
ghost use Rattle.std.specs.Cmp.Lexicographic.{slice_cmp};
ghost use Rattle.std.specs.List.{HoldsAt};
ghost use Rattle.std.specs.List.Sorted.{IsPartitionPoint, IsSorted};
ghost use Rattle.std.specs.Ordering.{nat_cmp, on};
ghost use Rattle.wtf8.specs.Order.{Before};
ghost use Rattle.wtf8.specs.UnitString.{UnitString};
ghost use Rattle.wtf8.specs.View.{view_points, view_units};
ghost use Rattle.wtf8_uses.specs.Sorted.{AreInPointOrder};

use std::alloc::Allocator;
use std::cmp::Ordering;
use wtf8::{Wtf8, Wtf8Buf, laws};

/// Searches a table that `sort_strings` sorted: `Ok` of an index of the string, or `Err` of the index at which
/// inserting it keeps the table sorted.
pub fn search_table<A: Allocator>(table: &[Wtf8Buf<A>], string: &Wtf8Buf<A>) -> Result<usize, usize>
    requires { AreInPointOrder table.now }
    ensures found { IfOk result (HoldsAt (λ s. s.units ≡ string.now.units) table.now) }
    ensures absent { IfErr result (IsPartitionPoint (λ s. Before s.form.points string.now.form.points) (λ s. Before string.now.form.points s.form.points) table.now) }
{
    search_table_for_view(table, string.as_wtf8())
}

/// Searches a sorted table for a view's string, like `search_table`. Does not copy the view.
pub fn search_table_for_view<A: Allocator>(
    table: &[Wtf8Buf<A>],
    view: Wtf8<'_>,
) -> Result<usize, usize>
    requires { AreInPointOrder table.now }
    ensures found { IfOk result (HoldsAt (λ s. s.units ≡ view_units view.entry) table.now) }
    ensures absent { IfErr result (IsPartitionPoint (λ s. Before s.form.points (view_points view.entry)) (λ s. Before (view_points view.entry) s.form.points) table.now) }
{
    laws::law_byte_order();
    match table.binary_search_by(|string| order(string, view)) {
        Ok(index) => Ok(index),
        Err(index) => Err(index),
    }
}

/// The index of a string in a table that `sort` sorted, or `None` if no string of the table has its units.
pub fn index_in<A: Allocator>(table: &[Wtf8Buf<A>], string: &Wtf8Buf<A>) -> Option<usize>
    requires { IsSorted (on (λ (s : UnitString). s.bytes) (slice_cmp nat_cmp)) table.now }
    ensures some { IfSome result (HoldsAt (λ s. s.units ≡ string.now.units) table.now) }
    ensures none { IfNone result (All (λ s. s.units ≢ string.now.units) table.now) }
{
    laws::law_binary_search(table, string);
    match table.binary_search(string) {
        Ok(index) => Some(index),
        Err(_) => None,
    }
}

/// Compares a string with a view, by code points.
fn order<A: Allocator>(string: &Wtf8Buf<A>, view: Wtf8<'_>) -> Ordering
    ensures { result ≡ slice_cmp nat_cmp string.now.form.points (view_points view.entry) }
{
    laws::law_byte_order();
    string.as_wtf8().cmp(&view)
}
