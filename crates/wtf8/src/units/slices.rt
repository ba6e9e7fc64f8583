// Parts of a string, cut at 16-bit code units.
ghost use Rattle.std.specs.Prelude.{◌≡◌, ◌++◌, ◌<◌, ◌≤◌, ◌↔◌, length, take, drop, IsSome};
ghost use Rattle.std.specs.Option.{option_to_list};
ghost use Rattle.wtf8.specs.UnitPosition.{units_of_slice, DividesPair};
ghost use Rattle.wtf8.specs.View.{view_units};

use crate::codec::encoding;
use crate::strings::view::Wtf8;
use crate::units::positions::cut_at;

/// A part cut at code units. If a cut splits a surrogate pair, the half inside is kept beside the whole code points.
#[derive(Clone, Copy)]
pub struct UnitSlice<'a> {
    /// The trail surrogate of a pair that the beginning of the part splits.
    pub trail: Option<u16>,
    /// The whole code points of the part.
    pub whole: Wtf8<'a>,
    /// The lead surrogate of a pair that the end of the part splits.
    pub lead: Option<u16>,
}

impl<'a> Wtf8<'a> {
    /// The part from code unit `begin` to before code unit `end`, which must be in order and at most the number of code
    /// units. If an end splits a surrogate pair, the half inside is returned beside the whole code points. Borrows the
    /// bytes for `'a`, so it may outlive this view. Linear in `end`: units are counted from the front, and from a mark
    /// in its part (`slice_from_mark`).
    pub fn slice_units(&self, begin: usize, end: usize) -> UnitSlice<'a>
        requires order { begin ≤ end }
        requires within { end ≤ length (view_units self.now) }
        ensures units { units_of_slice result ≡ drop begin (take end (view_units self.now)) }

        // If the part is not empty, it has a half at an end exactly if that end splits a pair.
        ensures trail { begin < end → (IsSome result.trail ↔ DividesPair (view_units self.now) begin) }
        ensures lead { begin < end → (IsSome result.lead ↔ DividesPair (view_units self.now) end) }
    {
        if begin == end {
            return UnitSlice {
                trail: None,
                whole: Wtf8::from_str(""),
                lead: None,
            };
        }
        let (trail, rest) = self.units_after(begin);
        let (whole, lead) = rest.first_units(end - begin - usize::from(trail.is_some()));
        UnitSlice { trail, whole, lead }
    }

    fn first_units(self, n: usize) -> (Wtf8<'a>, Option<u16>)
        requires { n ≤ length (view_units self) }
        ensures units { view_units result.0 ++ option_to_list result.1 ≡ take n (view_units self.entry) }
        ensures lead { IsSome result.1 ↔ DividesPair (view_units self.entry) n }
    {
        let cut = cut_at(self, n);
        let front = self.slice_to(cut.position);
        if cut.units == n {
            return (front, None);
        }
        let (_, pair) = self.bytes.split_at(cut.position);
        (front, Some(encoding::read_lead(pair)))
    }

    fn units_after(self, n: usize) -> (Option<u16>, Wtf8<'a>)
        requires { n ≤ length (view_units self) }
        ensures units { option_to_list result.0 ++ view_units result.1 ≡ drop n (view_units self.entry) }
        ensures trail { IsSome result.0 ↔ DividesPair (view_units self.entry) n }
    {
        let cut = cut_at(self, n);
        if cut.units == n {
            return (None, self.slice_from(cut.position));
        }
        let (_, last_two) = self.bytes.split_at(cut.position + 2);
        let trail = encoding::read_trail(last_two);
        (Some(trail), self.slice_from(cut.position + 4))
    }
}
