// Equality, order and hash of strings, by their bytes.
#![tactic(auto, using(crate::proofs::lemmas::comparing::Order::equal_points, crate::proofs::lemmas::comparing::Order::cmp_points, crate::proofs::lemmas::comparing::Order::points_order))]

ghost use Rattle.std.proofs.Common.{rules};
ghost use Rattle.std.specs.Cmp.Lexicographic.{pointwise, slice_cmp};
ghost use Rattle.std.specs.Cmp.Rules.{comparing, hashing};
ghost use Rattle.std.specs.Cmp.{partial_order_from_own_ties};
ghost use Rattle.std.specs.Hash as fed;
ghost use Rattle.std.specs.Ordering.{MatchOrdering, as_partial_cmp, nat_cmp, on};
ghost use Rattle.std.specs.Prelude.{◌≡◌, ◌↔◌, ◌∷◌, nat_eq, IsTrue};
ghost use Rattle.wtf8.specs.Order.{Before};
ghost use Rattle.wtf8.specs.View.{view_points, view_units};

use crate::buffers::buf::Wtf8Buf;
use crate::lanes::memcmp;
use crate::strings::view::Wtf8;
use std::alloc::Allocator;
use std::cmp::Ordering;
use std::hash::{Hash, Hasher};

/// Equal if the bytes, and so the code units, are equal. Linear in the equal front, and constant if the lengths differ.
impl<'a> PartialEq for Wtf8<'a> {
    ghost eq = { on (λ view. view.bytes.now) (pointwise nat_eq) };

    fn eq(&self, other: &Wtf8<'a>) -> bool
        ensures bytes { result ≡ pointwise nat_eq self.now.bytes.now other.now.bytes.now }
        ensures points { IsTrue result ↔ (view_points self.now ≡ view_points other.now) }
        ensures units { IsTrue result ↔ (view_units self.now ≡ view_units other.now) }
    {
        memcmp::eq(self.bytes, other.bytes)
    }

    ghost laws = { Prim.search (comparing, rules) };
}

impl<'a> Eq for Wtf8<'a> {
    ghost laws = { Prim.search (comparing, rules) };
}

impl<'a> PartialOrd for Wtf8<'a> {
    ghost partial_cmp = { as_partial_cmp (on (λ view. view.bytes.now) (slice_cmp nat_cmp)) };

    fn partial_cmp(&self, other: &Wtf8<'a>) -> Option<Ordering> {
        Some(self.cmp(other))
    }

    ghost laws = { partial_order_from_own_ties (Prim.search (comparing, rules)) (Prim.search (comparing, rules)) };
}

/// Compares byte by byte, a prefix before the longer string. This is the order of code points; `cmp_units` compares by
/// code units. Linear in the equal front.
impl<'a> Ord for Wtf8<'a> {
    ghost cmp = { on (λ view. view.bytes.now) (slice_cmp nat_cmp) };

    fn cmp(&self, other: &Wtf8<'a>) -> Ordering
        ensures bytes { result ≡ slice_cmp nat_cmp self.now.bytes.now other.now.bytes.now }
        ensures points { result ≡ slice_cmp nat_cmp (view_points self.now) (view_points other.now) }
        ensures order { let own = view_points self.now in let others = view_points other.now in
            MatchOrdering result (Before own others) (own ≡ others) (Before others own) }
    {
        memcmp::cmp(self.bytes, other.bytes)
    }

    ghost total = { Prim.search (comparing, rules) };

    ghost matches_partial_cmp = { Prim.search (comparing, rules) };

    ghost matches_eq = { Prim.search (comparing, rules) };
}

/// Hashes the bytes and then the byte 0xFE, which occurs in no string.
impl<'a> Hash for Wtf8<'a> {
    ghost hash_input = { λ view. view.bytes.now ∷ fed.u8 254 };

    fn hash<H: Hasher>(&self, state: &mut H) {
        state.write(self.bytes);
        state.write_u8(0xFE);
    }

    ghost respects_eq = { Prim.search (hashing, rules) };
}

/// Buffers are equal if their bytes are equal, which is so if and only if their code units are.
impl<A: Allocator> PartialEq for Wtf8Buf<A> {
    ghost eq = { on (λ string. string.bytes) (pointwise nat_eq) };

    fn eq(&self, other: &Wtf8Buf<A>) -> bool
        ensures bytes { result ≡ pointwise nat_eq self.now.bytes other.now.bytes }
        ensures points { IsTrue result ↔ (self.now.form.points ≡ other.now.form.points) }
        ensures units { IsTrue result ↔ (self.now.units ≡ other.now.units) }
    {
        self.as_wtf8() == other.as_wtf8()
    }

    ghost laws = { Prim.search (comparing, rules) };
}

impl<A: Allocator> Eq for Wtf8Buf<A> {
    ghost laws = { Prim.search (comparing, rules) };
}

impl<A: Allocator> PartialOrd for Wtf8Buf<A> {
    ghost partial_cmp = { as_partial_cmp (on (λ string. string.bytes) (slice_cmp nat_cmp)) };

    fn partial_cmp(&self, other: &Wtf8Buf<A>) -> Option<Ordering> {
        Some(self.cmp(other))
    }

    ghost laws = { partial_order_from_own_ties (Prim.search (comparing, rules)) (Prim.search (comparing, rules)) };
}

/// Compares byte by byte, which is the order of code points.
impl<A: Allocator> Ord for Wtf8Buf<A> {
    ghost cmp = { on (λ string. string.bytes) (slice_cmp nat_cmp) };

    fn cmp(&self, other: &Wtf8Buf<A>) -> Ordering
        ensures bytes { result ≡ slice_cmp nat_cmp self.now.bytes other.now.bytes }
        ensures points { result ≡ slice_cmp nat_cmp self.now.form.points other.now.form.points }
        ensures order { let own = self.now.form.points in let others = other.now.form.points in
            MatchOrdering result (Before own others) (own ≡ others) (Before others own) }
    {
        self.as_wtf8().cmp(&other.as_wtf8())
    }

    ghost total = { Prim.search (comparing, rules) };

    ghost matches_partial_cmp = { Prim.search (comparing, rules) };

    ghost matches_eq = { Prim.search (comparing, rules) };
}

/// Hashes what the view hashes, so that a buffer and its view have the same hash.
impl<A: Allocator> Hash for Wtf8Buf<A> {
    ghost hash_input = { λ string. string.bytes ∷ fed.u8 254 };

    fn hash<H: Hasher>(&self, state: &mut H) {
        self.as_wtf8().hash(state);
    }

    ghost respects_eq = { Prim.search (hashing, rules) };
}
