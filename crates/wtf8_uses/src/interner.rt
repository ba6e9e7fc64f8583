//! An interner: gives each distinct string a number.
ghost use Rattle.std.specs.Prelude.{◌≡◌, ◌<◌, ◌≤◌, ℕ, List, [], ◌∷◌, ◌++◌, Some, None, Ok, slice_get, length, ◌↔◌, IsNone, IfSome, IfOk, OnOk, OnErr};
ghost use Rattle.wtf8.specs.View.{view_units};
ghost use Rattle.wtf8_uses.specs.Numbered.{AreNumbered, IsChainHead, hash_of, units_of_strings};

use std::alloc::{AllocError, Global};
use std::collections::HashMap;
use std::marker::Model;
use wtf8::{Wtf8, Wtf8Buf, laws};

/// Strings, numbered from 0. Equal strings have the same number, and the string of a number never changes. Each string
/// is stored once.
///
/// In contracts its value is the list of the strings' units.
#[derive(Drop)]
pub struct Interner {
    alloc: Global,
    strings: Vec<Wtf8Buf<Global>>,

    /// Head of the chain of each hash: one more than the number of its newest string.
    heads: HashMap<u32, usize>,

    /// Next in the chain of each string: one more than the number of the previous string with its hash, or 0.
    nexts: Vec<usize>,
    ghost numbered: { AreNumbered heads nexts.items (units_of_strings strings.items) },
}

impl Model for Interner {
    ghost use Rattle.std.specs.Prelude.{List, ℕ};
    ghost use Rattle.wtf8_uses.specs.Numbered.{units_of_strings};

    ghost Value = { List (List ℕ) };

    ghost view = { λ i. units_of_strings i.strings.items };
}

impl Interner {
    /// An interner of no strings. Does not allocate.
    pub fn new(alloc: Global) -> Interner
        ensures { result ≡ [] }
    {
        Interner {
            alloc,
            strings: Vec::new(alloc),
            heads: HashMap::new(alloc),
            nexts: Vec::new(alloc),
        }
    }

    /// The number of strings.
    pub fn len(&self) -> usize
        ensures { result ≡ length self.now }
    {
        self.strings.len()
    }

    /// The number of a string; a new string gets the next number. A string that has a number needs no memory and is
    /// never refused. If a request is refused, the interner is unchanged.
    pub fn number(&mut self, string: Wtf8<'_>) -> Result<usize, AllocError>
        ensures has { IfOk result (λ n. slice_get self.new n ≡ Some (view_units string.entry)) }
        ensures known { (n : ℕ) → slice_get self.old n ≡ Some (view_units string.entry) → (result ≡ Ok n) × (self.new ≡ self.old) }
        ensures next { ((n : ℕ) → slice_get self.old n ≡ Some (view_units string.entry) → ⊥) → OnOk result (self.new ≡ self.old ++ view_units string.entry ∷ []) }
        ensures kept { (n : ℕ) (u : List ℕ) → slice_get self.old n ≡ Some u → slice_get self.new n ≡ Some u }
        ensures refused { OnErr result (self.new ≡ self.old) }
    {
        let hash = hash_of(string);
        match self.find(string, hash) {
            Some(number) => Ok(number),
            None => self.add(string, hash),
        }
    }

    /// The string with a number, or `None` if there is none.
    pub fn string(&self, number: usize) -> Option<Wtf8<'_>>
        ensures none { IsNone result ↔ (slice_get self.now number ≡ None) }
        ensures some { IfSome result (λ s. slice_get self.now number ≡ Some (view_units s)) }
    {
        match self.strings.get(number) {
            Some(string) => Some(string.as_wtf8()),
            None => None,
        }
    }

    /// The number of a string, if it has one, by the chain of its hash.
    fn find(&self, string: Wtf8<'_>, hash: u32) -> Option<usize>
        requires { hash ≡ hash_of (view_units string) }
        ensures { (n : ℕ) → (result ≡ Some n) ↔ (slice_get self.now n ≡ Some (view_units string.entry)) }
    {
        let mut head = self.heads.get(&hash).copied().unwrap_or(0);
        while head != 0 {
            let number = head - 1;
            let found = self.at(number);
            laws::law_equal_views(found, string);
            if found == string {
                return Some(number);
            }
            head = self.next_in_chain(number);
        }
        None
    }

    /// The string with a number.
    fn at(&self, number: usize) -> Wtf8<'_>
        requires { number < length self.now }
        ensures { slice_get self.now number ≡ Some (view_units result) }
    {
        self.strings[number].as_wtf8()
    }

    /// One more than the number of the previous string with the same hash, or 0 if there is none.
    fn next_in_chain(&self, number: usize) -> usize
        requires { number < length self.now }
        ensures { (u : List ℕ) × (slice_get self.now number ≡ Some u) × IsChainHead self.now (hash_of u) number result }
    {
        self.nexts[number]
    }

    /// Copies a string that has no number and gives it the next one. Changes nothing before the last request for
    /// memory.
    fn add(&mut self, string: Wtf8<'_>, hash: u32) -> Result<usize, AllocError>
        requires hash { hash ≡ hash_of (view_units string) }
        requires new { (n : ℕ) → slice_get self.old n ≡ Some (view_units string) → ⊥ }
        ensures number { IfOk result (λ n. n ≡ length self.old) }
        ensures added { OnOk result (self.new ≡ self.old ++ view_units string.entry ∷ []) }
        ensures refused { OnErr result (self.new ≡ self.old) }
    {
        let mut copy = Wtf8Buf::new(self.alloc);
        copy.push_wtf8(string)?;
        self.strings.reserve(1)?;
        self.nexts.reserve(1)?;
        let number = self.strings.len();
        let next = self.heads.get(&hash).copied().unwrap_or(0);
        self.heads.insert(hash, number + 1)?;
        self.strings.push_reserved(copy);
        self.nexts.push_reserved(next);
        Ok(number)
    }
}

/// Java's `String.hashCode` of a string's units: for each unit, 31 times the hash so far plus the unit, modulo 2³².
#[tactic(auto, unfolding(crate::specs::Numbered::hash_of))]
fn hash_of(string: Wtf8<'_>) -> u32
    ensures { result ≡ hash_of (view_units string.entry) }
{
    let mut units = string.to_ill_formed_utf16();
    let mut hash: u32 = 0;
    while let Some(unit) = units.next() {
        hash = hash.wrapping_mul(31).wrapping_add(u32::from(unit));
    }
    hash
}
