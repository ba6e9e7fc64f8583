// Strings compared with code units or a text that are in no string: of units the string's are decoded on the stack, part by
// part.
ghost use Rattle.std.specs.Cmp.Lexicographic.{slice_cmp};
ghost use Rattle.std.specs.declared.cmp.Ordering.TheVariants.{Less};
ghost use Rattle.std.specs.Ordering.{MatchOrdering, nat_cmp};
ghost use Rattle.std.specs.Prelude.{◌≡◌, ◌↔◌, ◌++◌, ◌+◌, ◌^◌, ◌<◌, ◌≤◌, length, take, IsTrue};
ghost use Rattle.std.specs.Str.{chars, IsUtf8};
ghost use Rattle.wtf8.specs.Order.{Before};
ghost use Rattle.wtf8.specs.Unicode.{units};
ghost use Rattle.wtf8.specs.View.{view_units};

use crate::lanes::memcmp;
use crate::lanes::utf8::from_utf8;
use crate::strings::view::Wtf8;
use crate::units::unit_ends::POSITIONS;
use crate::units::writing::decode_all;
use std::cmp::Ordering;

/// The units of the buffer to which a part is decoded at a time: at most one for each byte of it, and `POSITIONS` that
/// stores may overwrite after them.
const PART: usize = 512;

/// The same for shorter strings: fewer bytes to zero.
const SHORT_PART: usize = 96;

/// The same for strings between: up to 64 units of any kind fit it.
const MIDDLE_PART: usize = 224;

/// Decodes the first code points of a string, at most a byte for each unit of `block` but `POSITIONS`, to the front of it. Returns
/// the number of their units and the rest of the string.
#[inline(always)]
fn decode_part<'a>(view: Wtf8<'a>, block: &mut [u16]) -> (usize, Wtf8<'a>)
    requires nonempty { 0 < length view.bytes.now }
    requires room { POSITIONS + 4 ≤ length block.old }
    ensures within { result.0 ≤ length block.new }
    ensures units { take result.0 block.new ++ view_units result.1 ≡ view_units view.entry }
    ensures shorter { length result.1.bytes.now < length view.entry.bytes.now }
{
    let position = view.boundary_before(view.len().min(block.len() - POSITIONS));
    let count = decode_all(block, 0, view.slice_to(position));
    (count, view.slice_from(position))
}

#[inline(always)]
fn cmp_by_parts<const N: usize>(view: Wtf8<'_>, units: &[u16]) -> Ordering
    requires { (POSITIONS + 4 ≤ N) × (N < 2 ^ 16) }
    ensures { result ≡ slice_cmp nat_cmp (view_units view.entry) units.now }
{
    let mut block = [0; N];
    let mut rest = view;
    let mut others = units;
    while !rest.is_empty() {
        let (count, after) = decode_part(rest, &mut block);
        let (front, back) = others.split_at(count.min(others.len()));
        let own: &[u16] = &block[..count];
        let order = own.cmp(&front);
        if order.is_ne() {
            return order;
        }
        rest = after;
        others = back;
    }
    if others.is_empty() {
        Ordering::Equal
    } else {
        Ordering::Less
    }
}

#[inline(always)]
fn starts_by_parts<const N: usize>(view: Wtf8<'_>, units: &[u16]) -> bool
    requires { (POSITIONS + 4 ≤ N) × (N < 2 ^ 16) }
    ensures { IsTrue result ↔ take (length units.now) (view_units view.entry) ≡ units.now }
{
    let mut block = [0; N];
    let mut rest = view;
    let mut others = units;
    while !others.is_empty() {
        if rest.is_empty() {
            return false;
        }
        let (count, after) = decode_part(rest, &mut block);
        let (front, back) = others.split_at(count.min(others.len()));
        let own: &[u16] = &block[..front.len()];
        if own != front {
            return false;
        }
        rest = after;
        others = back;
    }
    true
}

impl<'a> Wtf8<'a> {
    /// Compares the code units of the string with these, as `cmp_units` compares two strings: the first units that
    /// differ decide, and a prefix comes before the longer list. Does not allocate. Linear in the equal front.
    pub fn cmp_with_units(&self, units: &[u16]) -> Ordering
        ensures value { result ≡ slice_cmp nat_cmp (view_units self.now) units.now }
        ensures order { let own = view_units self.now in
            MatchOrdering result (Before own units.now) (own ≡ units.now) (Before units.now own) }
    {
        if self.len() <= SHORT_PART - POSITIONS {
            return cmp_by_parts::<SHORT_PART>(*self, units);
        }
        cmp_by_parts::<PART>(*self, units)
    }

    /// Whether the code units of the string begin with these. Does not allocate. Linear in their number.
    pub fn starts_with_units(&self, units: &[u16]) -> bool
        ensures { IsTrue result ↔ take (length units.now) (view_units self.now) ≡ units.now }
    {
        // The string has no more units than bytes.
        if self.len() < units.len() {
            return false;
        }
        let short = SHORT_PART - POSITIONS;
        let middle = MIDDLE_PART - POSITIONS;
        // A unit takes at most three bytes. Of a longer string, few units are compared with parts of a front.
        if self.len() <= short
            || units.len() <= short / 3
            || middle < self.len() && units.len() <= short
        {
            return starts_by_parts::<SHORT_PART>(*self, units);
        }
        if self.len() <= middle {
            return starts_by_parts::<MIDDLE_PART>(*self, units);
        }
        starts_by_parts::<PART>(*self, units)
    }

    /// Whether the bytes are UTF-8, and the text is that of the string. A surrogate is looked for only if the bytes are
    /// equal. Does not allocate. Linear in the equal front, and constant if the lengths in bytes differ.
    pub fn eq_utf8(&self, text: &[u8]) -> bool
        ensures { IsTrue result ↔ (IsUtf8 text.now × (view_units self.now ≡ units (chars text.now))) }
    {
        if !memcmp::eq(self.bytes, text) {
            return false;
        }
        self.as_str().is_some()
    }

    /// Whether the bytes are UTF-8, and the code units of the string begin with the text's. A surrogate is looked for only
    /// if the bytes are equal. Does not allocate. Linear in the equal front.
    pub fn starts_with_utf8(&self, text: &[u8]) -> bool
        ensures { IsTrue result ↔ (IsUtf8 text.now × (take (length (units (chars text.now))) (view_units self.now) ≡ units (chars text.now))) }
    {
        if !self.is_code_point_boundary(text.len()) {
            return false;
        }
        self.slice_to(text.len()).eq_utf8(text)
    }

    /// Compares the code units of the string with a text's in UTF-8, as `cmp_units` compares two strings. Bytes that are
    /// not UTF-8 come after each string. Does not allocate. Linear in the length of the text.
    pub fn cmp_with_utf8(&self, text: &[u8]) -> Ordering
        ensures value { IsUtf8 text.now → result ≡ slice_cmp nat_cmp (view_units self.now) (units (chars text.now)) }
        ensures order { IsUtf8 text.now → let own = view_units self.now in let others = units (chars text.now) in
            MatchOrdering result (Before own others) (own ≡ others) (Before others own) }
        ensures other { ¬ (IsUtf8 text.now) → result ≡ Less }
    {
        match from_utf8(text) {
            Ok(text) => self.cmp_units(&Wtf8::from_str(text)),
            Err(_) => Ordering::Less,
        }
    }

    /// Whether the code units of the string are these. Does not allocate. Linear in the equal front.
    pub fn eq_units(&self, units: &[u16]) -> bool
        ensures { IsTrue result ↔ view_units self.now ≡ units.now }
    {
        self.cmp_with_units(units).is_eq()
    }
}
