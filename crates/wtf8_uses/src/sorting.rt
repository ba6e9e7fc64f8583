//! Strings in code point order.
ghost use Rattle.std.specs.Cmp.Lexicographic.{pointwise};
ghost use Rattle.std.specs.List.{dedup};
ghost use Rattle.std.specs.List.Sorted.{IsPermutation};
ghost use Rattle.std.specs.Prelude.{◌≡◌, nat_eq, OnOk};
ghost use Rattle.wtf8_uses.specs.Numbered.{units_of_strings};
ghost use Rattle.wtf8_uses.specs.Sorted.{AreInPointOrder, AreInStrictPointOrder, AreViewsInPointOrder};

use std::alloc::{AllocError, Allocator};
use wtf8::{Wtf8, Wtf8Buf, laws};

/// Sorts strings by their code points.
pub fn sort_strings<A: Allocator, B: Allocator>(
    strings: &mut Vec<Wtf8Buf<B>, A>,
) -> Result<(), AllocError>
    ensures same { IsPermutation strings.old.items strings.new.items }
    ensures sorted { OnOk result (AreInPointOrder strings.new.items) }
{
    laws::law_byte_order();
    strings.sort()
}

/// Sorts views by their code points.
pub fn sort_views<'a, A: Allocator>(views: &mut Vec<Wtf8<'a>, A>) -> Result<(), AllocError>
    ensures same { IsPermutation views.old.items views.new.items }
    ensures sorted { OnOk result (AreViewsInPointOrder views.new.items) }
{
    laws::law_byte_order();
    views.sort()
}

/// Removes each string that equals the one before it, so that a sorted list has no duplicates.
pub fn drop_repeated<A: Allocator, B: Allocator>(strings: &mut Vec<Wtf8Buf<B>, A>)
    ensures once { units_of_strings strings.new.items ≡ dedup (pointwise nat_eq) (units_of_strings strings.old.items) }
    ensures sorted { AreInPointOrder strings.old.items → AreInStrictPointOrder strings.new.items }
{
    laws::law_byte_order();
    laws::law_equal_strings();
    strings.dedup();
}
