//! A string with indexes in code units, for the timed loops.
ghost use Rattle.std.specs.Prelude.{◌≡◌, ◌≤◌, length};

use std::alloc::{AllocError, Global};
use wtf8::{UnitSlice, Wtf8, Wtf8Buf};

/// A string, and indexes of its code units: its middle, and where its middle half begins and ends. With `len` the
/// struct has 64 bytes, so that a loop indexes an array of them by a shift.
#[derive(Drop)]
pub struct Counted {
    pub string: Wtf8Buf<Global>,
    len: usize,
    middle: usize,
    begin: usize,
    end: usize,
    ghost counted: { len ≡ length string.units },
    ghost middle_within: { middle ≤ length string.units },
    ghost order: { begin ≤ end },
    ghost end_within: { end ≤ length string.units },
}

impl Counted {
    /// Counts the units of `string`.
    pub fn new(string: Wtf8Buf<Global>) -> Counted {
        let len = string.as_wtf8().unit_len();
        let begin = len / 4;
        Counted {
            string,
            len,
            middle: len / 2,
            begin,
            end: len - begin,
        }
    }

    /// A view of the string.
    pub fn view(&self) -> Wtf8<'_> {
        self.string.as_wtf8()
    }

    /// The unit in the middle, 0 for the empty string.
    pub fn middle_unit(&self) -> u16 {
        self.view().unit_at(self.middle).unwrap_or(0)
    }

    /// Writes the units to a slice that has room, and returns their number; 0 without room.
    pub fn write_units(&self, out: &mut [u16]) -> usize {
        if out.len() < self.len {
            return 0;
        }
        self.string.as_wtf8().write_units(out)
    }

    /// A string of the units without a quarter at each end.
    pub fn middle_half(&self, alloc: Global) -> Result<Wtf8Buf<Global>, AllocError> {
        let view = self.string.as_wtf8();
        string_of(alloc, view.slice_units(self.begin, self.end))
    }

    /// The string without the second half of its units.
    pub fn first_half(&self) -> Result<Wtf8Buf<Global>, AllocError> {
        let mut string = self.string.clone()?;
        string.truncate_units(self.middle);
        Ok(string)
    }
}

/// A string of the units of a slice.
fn string_of(alloc: Global, slice: UnitSlice<'_>) -> Result<Wtf8Buf<Global>, AllocError> {
    let mut string = Wtf8Buf::new(alloc);
    string.push_unit_slice(slice)?;
    Ok(string)
}
