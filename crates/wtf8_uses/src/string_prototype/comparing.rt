//! Comparisons of two texts.
ghost use Rattle.std.specs.Prelude.{◌≡◌, ◌↔◌, ◌++◌, List, ℕ, length, take, drop, IsTrue};
ghost use Rattle.wtf8.specs.Order.{Before};

use std::alloc::Allocator;
use unit_text::UnitText;

/// `<`: whether a text is less than another, compared by units.
pub fn is_less<A: Allocator>(text: &UnitText<A>, other: &UnitText<A>) -> bool
    ensures { IsTrue result ↔ Before text.now other.now }
{
    text.cmp_units(other).is_lt()
}

/// `startsWith`: whether the units of `search` occur at a position. The empty text occurs everywhere, also past the
/// end.
pub fn starts_with<A: Allocator, B: Allocator>(
    text: &UnitText<A>,
    search: &UnitText<B>,
    position: usize,
) -> bool
    ensures { IsTrue result ↔ (take (length search.now) (drop position text.now) ≡ search.now) }
{
    text.starts_with_at(position, search)
}

/// `endsWith`: whether the units before a position end with the units of `search`. A position past the end is the end.
pub fn ends_with<A: Allocator, B: Allocator>(
    text: &UnitText<A>,
    search: &UnitText<B>,
    position: usize,
) -> bool
    ensures { IsTrue result ↔ ((front : List ℕ) × (take position text.now ≡ front ++ search.now)) }
{
    let end = position.min(text.unit_len());
    match end.checked_sub(search.unit_len()) {
        Some(begin) => starts_with(text, search, begin),
        None => false,
    }
}
