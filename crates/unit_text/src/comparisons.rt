// Equality and hashes of texts and buffers, and the order of buffers.
ghost use Rattle.std.proofs.Common.{rules};
ghost use Rattle.std.specs.Cmp.Lexicographic.{pointwise, slice_cmp};
ghost use Rattle.std.specs.Cmp.Rules.{comparing, hashing};
ghost use Rattle.std.specs.Cmp.{partial_order_from_own_ties};
ghost use Rattle.std.specs.Hash as fed;
ghost use Rattle.std.specs.Ordering.{MatchOrdering, as_partial_cmp, nat_cmp, on};
ghost use Rattle.std.specs.Prelude.{◌≡◌, ◌↔◌, ◌∷◌, nat_eq, IsTrue};
ghost use Rattle.wtf8.specs.Form.{bytes};
ghost use Rattle.wtf8.specs.Order.{Before};

use crate::indexed::IndexedBuf;
use crate::text::UnitText;
use std::alloc::Allocator;
use std::cmp::Ordering;
use std::hash::{Hash, Hasher};

/// Two texts are equal if and only if their units are equal.
impl<A: Allocator> PartialEq for UnitText<A> {
    ghost eq = { pointwise nat_eq };

    fn eq(&self, other: &UnitText<A>) -> bool
        ensures units { IsTrue result ↔ (self.now ≡ other.now) }
        ensures value { result ≡ pointwise nat_eq self.now other.now }
    {
        self.buf.as_wtf8() == other.buf.as_wtf8()
    }

    ghost laws = { Prim.search (comparing, rules) };
}

impl<A: Allocator> Eq for UnitText<A> {
    ghost laws = { Prim.search (comparing, rules) };
}

/// Feeds the hasher what the text's view feeds it, so texts with equal units have equal hashes.
impl<A: Allocator> Hash for UnitText<A> {
    ghost use Rattle.unit_text.specs.Reading.{reading};

    ghost hash_input = { λ units. bytes (reading units) ∷ fed.u8 254 };

    fn hash<H: Hasher>(&self, state: &mut H) {
        self.as_wtf8().hash(state);
    }

    ghost respects_eq = { Prim.search (hashing, rules) };
}

/// Buffers are equal if their bytes are equal, which is so if and only if their code units are.
impl<A: Allocator> PartialEq for IndexedBuf<A> {
    ghost eq = { on (λ string. string.bytes) (pointwise nat_eq) };

    fn eq(&self, other: &IndexedBuf<A>) -> bool
        ensures bytes { result ≡ pointwise nat_eq self.now.bytes other.now.bytes }
        ensures points { IsTrue result ↔ (self.now.form.points ≡ other.now.form.points) }
        ensures units { IsTrue result ↔ (self.now.units ≡ other.now.units) }
    {
        self.text == other.text
    }

    ghost laws = { Prim.search (comparing, rules) };
}

impl<A: Allocator> Eq for IndexedBuf<A> {
    ghost laws = { Prim.search (comparing, rules) };
}

impl<A: Allocator> PartialOrd for IndexedBuf<A> {
    ghost partial_cmp = { as_partial_cmp (on (λ string. string.bytes) (slice_cmp nat_cmp)) };

    fn partial_cmp(&self, other: &IndexedBuf<A>) -> Option<Ordering> {
        Some(self.cmp(other))
    }

    ghost laws = { partial_order_from_own_ties (Prim.search (comparing, rules)) (Prim.search (comparing, rules)) };
}

/// Compares byte by byte, which is the order of code points.
impl<A: Allocator> Ord for IndexedBuf<A> {
    ghost cmp = { on (λ string. string.bytes) (slice_cmp nat_cmp) };

    fn cmp(&self, other: &IndexedBuf<A>) -> Ordering
        ensures bytes { result ≡ slice_cmp nat_cmp self.now.bytes other.now.bytes }
        ensures points { result ≡ slice_cmp nat_cmp self.now.form.points other.now.form.points }
        ensures order { let own = self.now.form.points in let others = other.now.form.points in
            MatchOrdering result (Before own others) (own ≡ others) (Before others own) }
    {
        self.text.cmp(&other.text)
    }

    ghost total = { Prim.search (comparing, rules) };

    ghost matches_partial_cmp = { Prim.search (comparing, rules) };

    ghost matches_eq = { Prim.search (comparing, rules) };
}

/// Hashes what the view hashes.
impl<A: Allocator> Hash for IndexedBuf<A> {
    ghost hash_input = { λ string. string.bytes ∷ fed.u8 254 };

    fn hash<H: Hasher>(&self, state: &mut H) {
        self.text.hash(state);
    }

    ghost respects_eq = { Prim.search (hashing, rules) };
}
