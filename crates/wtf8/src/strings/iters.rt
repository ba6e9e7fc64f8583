// Iterators over code points and over code units.
ghost use Rattle.std.specs.Prelude.{◌≡◌, ◌↔◌, ⊤, ℕ, ◌*◌, ◌<◌, ◌≤◌, List, [], length, drop, IsSome, IfSome};
ghost use Rattle.std.specs.Iterator.{YieldsFirstBy, item_count, at_most, UpTo, YieldsFirst};
ghost use Rattle.std.specs.Iterator.SizeHint.{IsWithinCount};
ghost use Rattle.wtf8.specs.CodePoint.{number};
ghost use Rattle.wtf8.specs.Form.{IsWellFormed, bytes};
ghost use Rattle.wtf8.specs.Hints.{points_hint, IsTrueHint, units_hint};
ghost use Rattle.wtf8.specs.OneForm.{IsWellFormed-prop};
ghost use Rattle.wtf8.specs.Unicode.{units};
ghost use Rattle.wtf8.specs.Units.{Unread, unread_units};
ghost use Rattle.wtf8.specs.View.{view_points, view_units};
ghost use Rattle.wtf8.specs.private.UnitsInBytes.{held_trail, after_held_trail, unread_after, StepsUnit};

use crate::codec::code_point::CodePoint;
use crate::codec::encoding;
use crate::strings::view::Wtf8;
use std::alloc::AllocError;
use std::marker::Model;

/// An iterator over the code points of a string, in order. After the last one it always returns `None`. A clone goes on
/// with the same items and does not allocate. Contracts see it as the list of the code points that are left.
#[derive(Drop)]
pub struct Wtf8CodePoints<'a> {
    bytes: &'a [u8],

    /// The byte position of the next code point, or the length at the end.
    position: usize,

    ghost within: { position ≤ length bytes.now },
    ghost well_formed: { IsWellFormed (drop position bytes.now) } by { IsWellFormed-prop (drop position bytes.now) },
}

impl<'a> Model for Wtf8CodePoints<'a> {
    ghost Value = { List ℕ };

    ghost view = { λ s. s.well_formed.points };
}

impl<'a> Wtf8CodePoints<'a> {
    pub(crate) fn new(view: Wtf8<'a>) -> Wtf8CodePoints<'a>
        ensures { result ≡ view_points view.entry }
    {
        let bytes = view.bytes;
        Wtf8CodePoints { bytes, position: 0 }
    }

    /// The code points that are left, as a view of the string's bytes. It borrows them for `'a`, so it may outlive the
    /// iterator. The string's length less the view's is the position of the next code point.
    pub fn as_wtf8(&self) -> Wtf8<'a>
        ensures points { view_points result ≡ self.now }
        ensures bytes { result.bytes.now ≡ bytes self.now }
    {
        let (_, left) = self.bytes.split_at(self.position);
        Wtf8::from_well_formed(left)
    }
}

impl<'a> Iterator for Wtf8CodePoints<'a> {
    type Item = CodePoint;

    ghost next_gives = { YieldsFirstBy number (λ points. points) };

    ghost remaining = { item_count (λ points. points) };

    fn next(&mut self) -> Option<CodePoint> {
        if self.position == self.bytes.len() {
            return None;
        }
        let (_, rest) = self.bytes.split_at(self.position);
        let (code_point, after) = encoding::read(rest, self.position);
        self.position = after;
        Some(code_point)
    }

    /// At least a quarter of the bytes left, rounded up, and at most all: a code point takes one to four bytes.
    fn size_hint(&self) -> (usize, Option<usize>)
        ensures lower { IsWithinCount result.0 (at_most (length self.now)) }
        ensures upper { IfSome result.1 (UpTo (at_most (length self.now))) }
        ensures value { result ≡ points_hint self.now }
        ensures holds { IsTrueHint result (length self.now) }
    {
        let bytes = self.bytes.len() - self.position;
        (bytes.div_ceil(4), Some(bytes))
    }
}

impl<'a> Clone for Wtf8CodePoints<'a> {
    ghost is_clone = { λ s t. t ≡ s };

    ghost is_infallible = { λ _. ⊤ };

    fn clone(&self) -> Result<Wtf8CodePoints<'a>, AllocError> {
        Ok(Wtf8CodePoints {
            bytes: self.bytes,
            position: self.position,
        })
    }
}

/// Moves `position` past the returned unit; after a pair's lead, to the last two of four bytes, which give the trail.
#[inline(always)]
pub(crate) fn read_unit(bytes: &[u8], position: &mut usize) -> u16
    requires inside { position.old < length bytes.now }
    requires after { IsWellFormed (after_held_trail (drop position.old bytes.now)) }
    ensures { (h : IsWellFormed (after_held_trail (drop position.old bytes.now))) → StepsUnit bytes.now position.old h result position.new }
{
    let start = *position;
    let (_, rest) = bytes.split_at(start);
    let first = rest[0];
    // Each branch moves the position by a constant: one step for all of them, by a variable width, is slower.
    if first < 0x80 {
        *position = start + 1;
        return u16::from(first);
    }
    if 0xC0 <= first {
        if first < 0xE0 {
            *position = start + 2;
            return encoding::read_two(rest) as u16;
        }
        if first < 0xF0 {
            let unit = encoding::read_three(rest) as u16;
            *position = start + 3;
            return unit;
        }
        let lead = encoding::read_lead(rest);
        *position = start + 2;
        return lead;
    }
    let trail = encoding::read_trail(rest);
    *position = start + 2;
    trail
}

/// An iterator over the 16-bit code units of a string, in order: the units that it was made of, paired or not. After
/// the last one it always returns `None`. A clone goes on with the same items and does not allocate. Contracts see the
/// trail surrogate that is held back, if any, and the code points that are left.
#[derive(Drop)]
pub struct IllFormedUtf16CodeUnits<'a> {
    bytes: &'a [u8],

    /// The position of the next code point, or of the last two of a pair's four bytes while its trail is held back.
    position: usize,

    ghost within: { position ≤ length bytes.now },
    ghost after: { IsWellFormed (after_held_trail (drop position bytes.now)) } by { IsWellFormed-prop (after_held_trail (drop position bytes.now)) },
}

impl<'a> Model for IllFormedUtf16CodeUnits<'a> {
    ghost Value = { Unread };

    ghost view = { λ s. record { held = held_trail (drop s.position s.bytes.now); points = s.after.points } };
}

impl<'a> IllFormedUtf16CodeUnits<'a> {
    pub(crate) fn new(view: Wtf8<'a>) -> IllFormedUtf16CodeUnits<'a>
        ensures held { result.held ≡ [] }
        ensures points { result.points ≡ view_points view.entry }
    {
        let bytes = view.bytes;
        IllFormedUtf16CodeUnits { bytes, position: 0 }
    }

    /// The units that are left, as a view of the string's bytes, or `None` while the trail of a pair is held back. The
    /// view borrows the bytes for `'a`, so it may outlive the iterator.
    pub fn as_wtf8(&self) -> Option<Wtf8<'a>>
        ensures some { IsSome result ↔ self.now.held ≡ [] }
        ensures units { IfSome result (λ view. view_units view ≡ unread_units self.now) }
        ensures points { IfSome result (λ view. view_points view ≡ self.now.points) }
        ensures bytes { IfSome result (λ view. view.bytes.now ≡ bytes self.now.points) }
    {
        if self.held_units() == 1 {
            return None;
        }
        let (_, unread) = self.bytes.split_at(self.position);
        Some(Wtf8::from_well_formed(unread))
    }

    #[inline(always)]
    fn next_unit(&mut self) -> Option<u16>
        ensures first { YieldsFirst unread_units self.old result self.new }
        ensures left { self.new ≡ unread_after self.old.held self.old.points }
    {
        if self.position == self.bytes.len() {
            return None;
        }
        Some(read_unit(self.bytes, &mut self.position))
    }

    fn unread_bytes(&self) -> usize
        ensures value { result ≡ length (bytes self.now.points) }
        ensures at_least_units { length (units self.now.points) ≤ result }
        ensures at_most_three_times { result ≤ 3 * length (units self.now.points) }
    {
        self.bytes.len() - self.position - 2 * self.held_units()
    }

    fn held_units(&self) -> usize
        ensures value { result ≡ length self.now.held }
        ensures at_most_one { result ≤ 1 }
    {
        match self.bytes.get(self.position) {
            Some(0x80..=0xBF) => 1,
            _ => 0,
        }
    }
}

impl<'a> Iterator for IllFormedUtf16CodeUnits<'a> {
    type Item = u16;

    ghost next_gives = { YieldsFirst unread_units };

    ghost remaining = { item_count unread_units };

    /// The next unit, or `None` at the end. After the lead of a pair its trail is held back until the next call.
    fn next(&mut self) -> Option<u16> {
        self.next_unit()
    }

    /// At least a quarter of the bytes left, rounded up, and at most twice their number, both plus 1 if a trail is
    /// held; the two bytes of a held trail do not count. The upper bound is `None` above `usize::MAX`.
    fn size_hint(&self) -> (usize, Option<usize>)
        ensures lower { IsWithinCount result.0 (at_most (length (unread_units self.now))) }
        ensures upper { IfSome result.1 (UpTo (at_most (length (unread_units self.now)))) }
        ensures value { result ≡ units_hint self.now }
        ensures holds { IsTrueHint result (length (unread_units self.now)) }
    {
        let bytes = self.unread_bytes();
        let held = self.held_units();
        let most = match bytes.checked_mul(2) {
            Some(twice) => twice.checked_add(held),
            None => None,
        };
        (bytes.div_ceil(4) + held, most)
    }
}

impl<'a> Clone for IllFormedUtf16CodeUnits<'a> {
    ghost is_clone = { λ s t. t ≡ s };

    ghost is_infallible = { λ _. ⊤ };

    fn clone(&self) -> Result<IllFormedUtf16CodeUnits<'a>, AllocError> {
        Ok(IllFormedUtf16CodeUnits {
            bytes: self.bytes,
            position: self.position,
        })
    }
}
