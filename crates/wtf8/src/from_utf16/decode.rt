// Decodes UTF-16 code units to code points.
ghost use Rattle.std.specs.Prelude.{◌≡◌, ◌↔◌, ℕ, ◌-◌, ◌<◌, ◌≤◌, List, [], ◌∷◌, length, take, drop, Result, None, IsTrue, MatchResult};
ghost use Rattle.std.specs.Iterator.{count_map, Drains};
ghost use Rattle.std.specs.Iterator.Adapters.{peekable_can, peekable_source, peekable_peeked, items_left_with_peeked};
ghost use Rattle.wtf8.specs.CodePoint.{number};
ghost use Rattle.wtf8.specs.private.Decoding.{point_of_item, decode_steps, ReadsAll};
ghost use Rattle.wtf8.specs.Form.{Reads};
ghost use Rattle.wtf8.specs.Unicode.{IsCodePoint, IsLead, IsTrail, IsSurrogate, pair};
ghost use Rattle.wtf8.specs.UnitPosition.{DividesPair};

use crate::codec::code_point::{
    CodePoint, FIRST_LEAD, LAST_LEAD, LAST_TRAIL, code_point_of_pair, is_trail,
};
use std::iter::Ahead;

/// Yields `Ok` of a `char` or `Err` of a lone surrogate. For the last units of a list, fewer than a block takes.
pub(crate) fn decode_utf16<I: Iterator<Item = u16>>(iter: I) -> DecodeUtf16<I>
    ensures source { peekable_source result.units ≡ iter }
    ensures peeked { peekable_peeked result.units ≡ None }

    ensures reads { (items : List (Result ℕ ℕ)) → Drains (decode_steps I.next_gives) result items → ReadsAll I.next_gives iter items }
{
    DecodeUtf16 {
        units: iter.peekable(),
    }
}

/// Keeps the unit after a lone lead, which is already read, until the next call.
#[derive(Drop)]
pub(crate) struct DecodeUtf16<I> {
    units: Ahead<I, u16>,
}

fn is_trail_unit(unit: &u16) -> bool
    ensures { IsTrue result ↔ IsTrail unit.now }
{
    is_trail(u32::from(*unit))
}

#[inline(always)]
fn char_or_surrogate(unit: u16) -> Result<char, u16>
    ensures kind { MatchResult result (λ c. IsCodePoint c × ¬ (IsSurrogate c)) IsSurrogate }
    ensures point { point_of_item result ≡ unit }
{
    char::from_u32(u32::from(unit)).ok_or(unit)
}

fn char_of_pair(lead: u16, trail: u16) -> char
    requires lead { IsLead lead }
    requires trail { IsTrail trail }
    ensures { result ≡ pair lead trail }
{
    unsafe { char::from_u32_unchecked(code_point_of_pair(u32::from(lead), u32::from(trail))) }
}

impl<I: Iterator<Item = u16>> Iterator for DecodeUtf16<I> {
    type Item = Result<char, u16>;

    ghost can_next = { λ s. peekable_can I.can_next s.units };

    ghost next_gives = { decode_steps I.next_gives };

    ghost remaining = { λ s. count_map (items_left_with_peeked (peekable_peeked s.units)) (I.remaining (peekable_source s.units)) };

    fn next(&mut self) -> Option<Result<char, u16>> {
        let unit = self.units.next()?;
        if unit < FIRST_LEAD {
            // Most units: one comparison instead of two, after which the conversion to `char` is known to succeed.
            return Some(char_or_surrogate(unit));
        }
        match unit {
            FIRST_LEAD..=LAST_LEAD => match self.units.next_if(is_trail_unit) {
                Some(trail) => Some(Ok(char_of_pair(unit, trail))),
                None => Some(Err(unit)),
            },
            _ => Some(char_or_surrogate(unit)),
        }
    }

    fn size_hint(&self) -> (usize, Option<usize>) {
        let (low, high) = self.units.size_hint();
        (low / 2, high)
    }
}

/// The code point at index `at`, the index after it, and whether it is a scalar value. For one between runs and blocks.
#[inline(always)]
pub(crate) fn read_point(v: &[u16], at: usize) -> (CodePoint, usize, bool)
    requires { at < length v.now }
    ensures order { at < result.1 }
    ensures within { result.1 ≤ length v.now }
    ensures divides_no_pair { ¬ (DividesPair v.now result.1) }
    ensures reads { Reads (number result.0 ∷ []) (take (result.1 - at) (drop at v.now)) }
    ensures scalar { IsTrue result.2 → ¬ (IsSurrogate (number result.0)) }
{
    let unit = v[at];
    if unit < FIRST_LEAD || LAST_TRAIL < unit {
        return (CodePoint::from_unit(unit), at + 1, true);
    }
    if unit <= LAST_LEAD && at + 1 < v.len() && is_trail_unit(&v[at + 1]) {
        let character = char_of_pair(unit, v[at + 1]);
        return (CodePoint::from_char(character), at + 2, true);
    }
    (CodePoint::from_unit(unit), at + 1, false)
}
