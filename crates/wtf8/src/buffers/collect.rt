// Strings extended by, or collected from, iterators of code points.
ghost use Rattle.std.specs.Prelude.{◌≡◌, ℕ, List, [], ◌≤◌, take, IfOk, OnOk, OnErr, IsOk};
ghost use Rattle.std.specs.Iterator.{Drains, ExtendsWithItems, IsFinite};
ghost use Rattle.wtf8.specs.CodePoint.{numbers};
ghost use Rattle.wtf8.specs.Appending.{AppendsPoints, HasRoomFor};
ghost use Rattle.wtf8.specs.Unicode.{units};
ghost use Rattle.wtf8.specs.declared.codec.code_point.CodePoint.{CodePoint};

use crate::buffers::buf::Wtf8Buf;
use crate::codec::code_point::CodePoint;
use std::alloc::{AllocError, Allocator};

impl<A: Allocator> Wtf8Buf<A> {
    /// Appends code points in order; a trail surrogate completes a lead before it. First reserves a byte for each item
    /// that the iterator's lower size hint promises: if that is refused, no item was taken. If memory is refused later,
    /// the string holds its old code units and then the units of the first items. Amortized linear in the items.
    pub fn extend<I: IntoIterator<Item = CodePoint>>(
        &mut self,
        iterable: I,
    ) -> Result<(), AllocError>
        requires { (it : I.IntoIter) → I.into_iter_gives iterable it → I.IntoIter.can_next it × IsFinite (I.IntoIter.remaining it) }
        ensures items { ExtendsWithItems I.into_iter_gives I.IntoIter.next_gives AppendsPoints iterable self.old self.new result }
        ensures capacity { self.old.capacity ≤ self.new.capacity }
    {
        let iterator = iterable.into_iter();
        let (low, _) = iterator.size_hint();
        self.reserve(low)?;
        for code_point in iterator {
            self.push(code_point)?;
        }
        Ok(())
    }

    /// Makes a string from code points in order, as `extend` of an empty string does. Linear in the items.
    pub fn from_iter<I: IntoIterator<Item = CodePoint>>(
        alloc: A,
        iterable: I,
    ) -> Result<Wtf8Buf<A>, AllocError>
        requires { (it : I.IntoIter) → I.into_iter_gives iterable it → I.IntoIter.can_next it × IsFinite (I.IntoIter.remaining it) }
        ensures { IfOk result (λ b. (it : I.IntoIter) × (points : List CodePoint) × I.into_iter_gives iterable it × Drains I.IntoIter.next_gives it points × (b.units ≡ units (numbers points))) }
    {
        let mut string = Wtf8Buf::new(alloc);
        string.extend(iterable)?;
        Ok(string)
    }

    /// Never refused if the points fit: each adds at least one byte, so the reservation of a byte for each fits too.
    pub(crate) fn extend_from_points(&mut self, points: &[CodePoint]) -> Result<(), AllocError>
        ensures ok { OnOk result (AppendsPoints self.old points.now self.new) }
        ensures err { OnErr result ((n : ℕ) × AppendsPoints self.old (take n points.now) self.new) }
        ensures room { HasRoomFor self.old (units (numbers points.now)) → IsOk result }
        ensures empty { points.now ≡ [] → IsOk result }
        ensures capacity { self.old.capacity ≤ self.new.capacity }
    {
        self.reserve(points.len())?;
        for code_point in points {
            self.push(*code_point)?;
        }
        Ok(())
    }
}

/// Lets `collect` make a string from an iterator over code points.
impl<A: Allocator> FromIterator<CodePoint> for Wtf8Buf<A> {
    type Alloc = A;

    ghost from_iter_gives = { λ points string. string.units ≡ units (numbers points) };

    fn from_iter<I: IntoIterator<Item = CodePoint>>(
        alloc: A,
        iterable: I,
    ) -> Result<Wtf8Buf<A>, AllocError> {
        Wtf8Buf::from_iter(alloc, iterable)
    }
}

/// Lets code that is generic over `Extend` append code points.
impl<A: Allocator> Extend<CodePoint> for Wtf8Buf<A> {
    ghost extend_gives = { AppendsPoints };

    fn extend<I: IntoIterator<Item = CodePoint>>(&mut self, iterable: I) -> Result<(), AllocError> {
        self.extend(iterable)
    }
}
