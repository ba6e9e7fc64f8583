// The order of strings by their 16-bit code units.
#![tactic(auto, using(crate::proofs::lemmas::comparing::Order::order_of_result, crate::proofs::lemmas::comparing::Order::less_test, crate::proofs::lemmas::comparing::Order::greater_test, crate::proofs::lemmas::comparing::Order::at_most_test, crate::proofs::lemmas::comparing::Order::at_least_test))]

ghost use Rattle.std.specs.Cmp.Lexicographic.{slice_cmp};
ghost use Rattle.std.specs.Ordering.{MatchOrdering, is_ge, is_gt, is_le, is_lt, nat_cmp};
ghost use Rattle.std.specs.Prelude.{◌≡◌, ◌↔◌, IsTrue};
ghost use Rattle.wtf8.specs.private.Search.{SupplementaryBegins};
ghost use Rattle.wtf8.specs.Order.{Before};
ghost use Rattle.wtf8.specs.View.{view_units};

use crate::lanes::memcmp::{byte_at, mismatch};
use crate::strings::view::Wtf8;
use std::cmp::Ordering;

fn supplementary_begins(bytes: &[u8], at: usize) -> bool
    ensures { IsTrue result ↔ SupplementaryBegins bytes.now at }
{
    at < bytes.len() && 0xF0 <= bytes[at]
}

/// The order of two strings by code units, compared one by one. Not inlined, since a mismatch of bytes mostly decides.
#[inline(never)]
fn cmp_unitwise(own: Wtf8<'_>, others: Wtf8<'_>) -> Ordering
    ensures { result ≡ slice_cmp nat_cmp (view_units own.entry) (view_units others.entry) }
{
    own.to_ill_formed_utf16().cmp(others.to_ill_formed_utf16())
}

/// The order of two strings by code units: that of the bytes at the first mismatch, unless a code point of two units
/// begins there in one string alone. A lead surrogate is less than E000 to FFFF, although its byte is greater.
#[inline(always)]
fn cmp_units_at_mismatch(own: Wtf8<'_>, others: Wtf8<'_>) -> Ordering
    ensures { result ≡ slice_cmp nat_cmp (view_units own.entry) (view_units others.entry) }
{
    let at = mismatch(own.bytes, others.bytes);
    if supplementary_begins(own.bytes, at) == supplementary_begins(others.bytes, at) {
        return byte_at(own.bytes, at).cmp(&byte_at(others.bytes, at));
    }
    cmp_unitwise(own.slice_from(at), others.slice_from(at))
}

impl<'a> Wtf8<'a> {
    /// Compares by 16-bit code units, as ECMAScript compares strings: the first units that differ decide, and a prefix
    /// comes before the longer string. `cmp` compares by code points instead. Linear in the equal front.
    pub fn cmp_units(&self, other: &Wtf8<'_>) -> Ordering
        ensures value { result ≡ slice_cmp nat_cmp (view_units self.now) (view_units other.now) }
        ensures order { let own = view_units self.now in let others = view_units other.now in
            MatchOrdering result (Before own others) (own ≡ others) (Before others own) }

        // What `is_lt`, `is_gt`, `is_le` and `is_ge` of the result return.
        ensures less { IsTrue (is_lt result) ↔ Before (view_units self.now) (view_units other.now) }
        ensures greater { IsTrue (is_gt result) ↔ Before (view_units other.now) (view_units self.now) }
        ensures at_most { IsTrue (is_le result) ↔ ¬ (Before (view_units other.now) (view_units self.now)) }
        ensures at_least { IsTrue (is_ge result) ↔ ¬ (Before (view_units self.now) (view_units other.now)) }
    {
        cmp_units_at_mismatch(*self, *other)
    }
}
