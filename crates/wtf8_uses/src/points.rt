//! Strings as sequences of code points.
ghost use Rattle.std.specs.Prelude.{◌≡◌, ◌++◌, ◌*◌, ◌≤◌, count_by, nat_lt, length, take, drop, IfOk, OnOk};
ghost use Rattle.wtf8.specs.Unicode.{units};
ghost use Rattle.wtf8.specs.View.{view_points, view_units};
ghost use Rattle.wtf8_uses.specs.CommonFront.{IsCommonFront};

use std::alloc::{AllocError, Allocator};
use wtf8::{Wtf8, Wtf8Buf, laws};

/// Copies a string by its code points. The copy has the same units.
pub fn copy_by_points<A: Allocator>(alloc: A, text: Wtf8<'_>) -> Result<Wtf8Buf<A>, AllocError>
    ensures { IfOk result (λ copy. copy.units ≡ view_units text.entry) }
{
    laws::law_drained_points();
    Wtf8Buf::from_iter(alloc, text.code_points())
}

/// Copies a string by its code points with `collect`. The copy has the same units.
pub fn collect_points<A: Allocator>(alloc: A, text: Wtf8<'_>) -> Result<Wtf8Buf<A>, AllocError>
    ensures { IfOk result (λ copy. copy.units ≡ view_units text.entry) }
{
    laws::law_collected_points();
    text.code_points().collect(alloc)
}

/// Appends a string by its code points. The result is the same as appending the string itself.
pub fn push_points<A: Allocator>(string: &mut Wtf8Buf<A>, text: Wtf8<'_>) -> Result<(), AllocError>
    ensures { OnOk result (string.new.units ≡ string.old.units ++ view_units text.entry) }
{
    laws::law_drained_points();
    string.extend(text.code_points())?;
    Ok(())
}

/// The string of the first `count` code points, or of all if there are fewer.
pub fn first_points<A: Allocator>(
    alloc: A,
    text: Wtf8<'_>,
    count: usize,
) -> Result<Wtf8Buf<A>, AllocError>
    ensures { IfOk result (λ front. front.units ≡ units (take count (view_points text.entry))) }
{
    laws::law_drained_points();
    Wtf8Buf::from_iter(alloc, text.code_points().take(count))
}

/// The string without its first `count` code points; empty if it has no more.
pub fn points_after<A: Allocator>(
    alloc: A,
    text: Wtf8<'_>,
    count: usize,
) -> Result<Wtf8Buf<A>, AllocError>
    ensures { IfOk result (λ back. back.units ≡ units (drop count (view_points text.entry))) }
{
    laws::law_drained_points();
    Wtf8Buf::from_iter(alloc, text.code_points().skip(count))
}

/// The number of code points in the longest common prefix of two strings.
pub fn common_points(text: Wtf8<'_>, other: Wtf8<'_>) -> usize
    ensures { IsCommonFront (view_points text.entry) (view_points other.entry) result }
{
    let mut points = text.code_points();
    let mut others = other.code_points();
    let mut count = 0;
    while let Some(point) = points.next() {
        let Some(second) = others.next() else {
            return count;
        };
        if point != second {
            return count;
        }
        count += 1;
    }
    count
}

/// The number of code points. Each has at most four bytes, so this is at least a quarter of the length in bytes.
pub fn point_count(text: Wtf8<'_>) -> usize
    ensures value { result ≡ length (view_points text.entry) }
    ensures quarter { length text.entry.bytes.now ≤ 4 * result }
{
    laws::law_lengths();
    text.code_points().count()
}

/// The number of supplementary code points of a string; each of them is two units.
pub fn supplementary_count(text: Wtf8<'_>) -> usize
    ensures { result ≡ count_by (λ p. nat_lt 0xFFFF p) (view_points text.entry) }
{
    let mut count = 0;
    for point in text.code_points() {
        if 0xFFFF < point.to_u32() {
            count += 1;
        }
    }
    count
}
