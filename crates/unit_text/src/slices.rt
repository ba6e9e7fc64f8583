// Slices of units, copied and compared.
ghost use Rattle.std.specs.Option.{option_to_list};
ghost use Rattle.std.specs.Prelude.{◌≡◌, ◌↔◌, ◌+◌, ◌^◌, ◌<◌, ◌≤◌, length, take, [], IfOk, IsOk, IsTrue};
ghost use Rattle.unit_text.specs.Written.{WritesAt};
ghost use Rattle.wtf8.specs.UnitPosition.{units_of_slice};
ghost use Rattle.wtf8.specs.View.{view_units};

use std::alloc::{AllocError, Allocator};
use wtf8::{UnitSlice, Wtf8, Wtf8Buf};

/// Copies a slice to a new string. Does not allocate if the slice is empty.
pub(crate) fn buf_of_slice<A: Allocator>(
    alloc: A,
    slice: UnitSlice<'_>,
) -> Result<Wtf8Buf<A>, AllocError>
    ensures ok { IfOk result (λ text. text.units ≡ units_of_slice slice.entry) }
    ensures empty { units_of_slice slice.entry ≡ [] → IsOk result }
{
    let mut text = Wtf8Buf::new(alloc);
    text.push_unit_slice(slice)?;
    Ok(text)
}

/// The number of units of a slice, which must be below `2 ^ 64`. Linear in its length in bytes.
pub(crate) fn unit_len(slice: UnitSlice<'_>) -> usize
    requires { length (units_of_slice slice) < 2 ^ 64 }
    ensures { result ≡ length (units_of_slice slice.entry) }
{
    let halves = usize::from(slice.trail.is_some()) + usize::from(slice.lead.is_some());
    halves + slice.whole.unit_len()
}

/// Whether a slice has the code units of `other`. Compares bytes, unless an end of the slice splits a surrogate pair.
pub(crate) fn has_units(slice: UnitSlice<'_>, other: Wtf8<'_>) -> bool
    ensures { IsTrue result ↔ (units_of_slice slice.entry ≡ view_units other.entry) }
{
    match slice {
        UnitSlice {
            trail: None,
            whole,
            lead: None,
        } => whole == other,
        _ => has_units_one_by_one(slice, other),
    }
}

/// Whether the string begins with the bytes of `other`, and so with its code units. It may also begin with these if it does
/// not: the last can be the lead surrogate of a pair.
pub(crate) fn has_front(view: Wtf8<'_>, other: Wtf8<'_>) -> bool
    ensures { IsTrue result → take (length (view_units other.entry)) (view_units view.entry) ≡ view_units other.entry }
{
    view.is_code_point_boundary(other.len()) && view.slice_to(other.len()) == other
}

/// Whether a slice has the code units of `other`, compared one by one.
#[inline(never)]
fn has_units_one_by_one(slice: UnitSlice<'_>, other: Wtf8<'_>) -> bool
    ensures { IsTrue result ↔ (units_of_slice slice.entry ≡ view_units other.entry) }
{
    let rest = slice.whole.to_ill_formed_utf16().chain(slice.lead);
    let units = slice.trail.into_iter().chain(rest);
    units.cmp(other.to_ill_formed_utf16()).is_eq()
}

/// Writes the units of a slice to the front of `out`, which must have room for them.
pub(crate) fn write_slice(slice: UnitSlice<'_>, out: &mut [u16])
    requires { length (units_of_slice slice) ≤ length out.old }
    ensures { WritesAt out.old 0 (units_of_slice slice.entry) out.new }
{
    let after_trail = write_half(out, 0, slice.trail);
    let after_whole = write_view(out, after_trail, slice.whole);
    write_half(out, after_whole, slice.lead);
}

/// Writes the units of a view from index `at` on, and returns the index after them.
#[inline(always)]
fn write_view(out: &mut [u16], at: usize, view: Wtf8<'_>) -> usize
    requires { at + length (view_units view) ≤ length out.old }
    ensures units { WritesAt out.old at (view_units view.entry) out.new }
    ensures end { result ≡ at + length (view_units view.entry) }
{
    at + view.write_units(&mut out[at..])
}

/// Writes half of a surrogate pair at index `at`, if there is one, and returns the index after it.
#[inline(always)]
fn write_half(out: &mut [u16], at: usize, half: Option<u16>) -> usize
    requires { at + length (option_to_list half) ≤ length out.old }
    ensures units { WritesAt out.old at (option_to_list half) out.new }
    ensures end { result ≡ at + length (option_to_list half) }
{
    match half {
        Some(unit) => {
            out[at] = unit;
            at + 1
        }
        None => at,
    }
}
