// Timed loops over texts, and the same calls over views and buffers.
ghost use Rattle.std.specs.Prelude.{◌≡◌, ◌<◌, ◌≤◌, length};

use refusing::{Refusal, Refusing};
use std::alloc::{AllocError, Global};
use unit_text::UnitText;
use wtf8::{UnitSlice, Wtf8Buf};

/// The number of the last loop.
pub const LAST: u32 = 12;

/// The number of units in a slice.
const SLICE: usize = 10;

/// The encoded length of a surrogate that a slice cuts from its pair.
const DIVIDED: u64 = 3;

/// What the loops work on.
#[derive(Drop)]
pub struct TextBench<'a> {
    alloc: Global,
    units: &'a [u16],
    places: &'a [u32],
    rounds: u32,
    text: UnitText<Global>,
    string: Wtf8Buf<Global>,
    len: usize,
    ghost counted: { len ≡ length string.units },
}

impl<'a> TextBench<'a> {
    /// Makes a text of `units` with marks and a string of them. `places` are the indexes that each round reads.
    pub fn new(
        alloc: Global,
        units: &'a [u16],
        places: &'a [u32],
        rounds: u32,
    ) -> Result<TextBench<'a>, AllocError> {
        let mut text = UnitText::from_units(alloc, units)?;
        text.mark_units(alloc);
        let string = Wtf8Buf::from_ill_formed_utf16(alloc, units)?;
        let len = string.as_wtf8().unit_len();
        Ok(TextBench {
            alloc,
            units,
            places,
            rounds,
            text,
            string,
            len,
        })
    }

    /// Runs a loop, and returns a checksum of what its calls returned.
    pub fn run(&self, number: u32) -> Result<u64, AllocError>
        requires least { 0 < number }
        requires most { number ≤ 12 }
    {
        match number {
            1 => self.sum_at_indexes::<1>(),
            2 => self.sum_at_indexes::<2>(),
            3 => self.sum_at_indexes::<3>(),
            4 => self.sum_at_indexes::<4>(),
            5 => self.whole::<5>(),
            6 => self.whole::<6>(),
            7 => self.whole::<7>(),
            8 => self.whole::<8>(),
            9 => self.whole::<9>(),
            10 => self.whole::<10>(),
            11 => Ok(self.string.capacity() as u64),
            12 => self.bytes_of_marks(),
            _ => unreachable!(),
        }
    }

    /// The sum of what a loop's call returns at each index in each round, modulo 2^64.
    #[inline(never)]
    fn sum_at_indexes<const LOOP: u32>(&self) -> Result<u64, AllocError> {
        let mut sum = 0u64;
        for _ in 0..self.rounds {
            sum = sum.wrapping_add(self.sum_of_round::<LOOP>()?);
        }
        Ok(sum)
    }

    /// The sum of what a loop's call returns at each index, modulo 2^64.
    #[inline(always)]
    fn sum_of_round<const LOOP: u32>(&self) -> Result<u64, AllocError> {
        let mut sum = 0u64;
        for index in self.places {
            sum = sum.wrapping_add(self.value_at::<LOOP>(*index as usize)?);
        }
        Ok(sum)
    }

    /// What a loop's call returns at an index, as a number.
    #[inline(always)]
    fn value_at<const LOOP: u32>(&self, index: usize) -> Result<u64, AllocError> {
        let answer = match LOOP {
            1 => u64::from(self.text.unit_at(index).unwrap_or(0)),
            2 => u64::from(self.string.as_wtf8().unit_at(index).unwrap_or(0)),
            3 => self.slice_of_text(index)?.as_wtf8().len() as u64,
            4 => len_of_slice(self.slice_of_view(index)),
            _ => 0,
        };
        Ok(answer)
    }

    /// Ten units of the text from an index, or the last ten if fewer follow.
    #[inline(always)]
    fn slice_of_text(&self, index: usize) -> Result<UnitText<Global>, AllocError> {
        let (begin, end) = ends_of_slice(index, self.text.unit_len());
        self.text.slice_units(self.alloc, begin, end)
    }

    /// Ten units of the string's view from an index, or the last ten if fewer follow.
    #[inline(always)]
    fn slice_of_view(&self, index: usize) -> UnitSlice<'_> {
        let (begin, end) = ends_of_slice(index, self.len);
        self.string.as_wtf8().slice_units(begin, end)
    }

    /// The sum of the lengths in bytes of what a loop's call makes of all units in each round, modulo 2^64.
    #[inline(never)]
    fn whole<const LOOP: u32>(&self) -> Result<u64, AllocError> {
        let mut sum = 0u64;
        for _ in 0..self.rounds {
            sum = sum.wrapping_add(self.len_of_whole::<LOOP>()? as u64);
        }
        Ok(sum)
    }

    /// The length in bytes of what a loop's call makes of all units.
    #[inline(always)]
    fn len_of_whole<const LOOP: u32>(&self) -> Result<usize, AllocError> {
        let (alloc, units) = (self.alloc, self.units);
        let len = match LOOP {
            5 => UnitText::from_units(alloc, units)?.as_wtf8().len(),
            6 => marked(alloc, units)?.as_wtf8().len(),
            7 => Wtf8Buf::from_ill_formed_utf16(alloc, units)?.len(),
            8 => appended(UnitText::from_units(alloc, &[])?, alloc, units)?
                .as_wtf8()
                .len(),
            9 => appended(marked(alloc, &[])?, alloc, units)?.as_wtf8().len(),
            10 => pushed(alloc, units)?.len(),
            _ => 0,
        };
        Ok(len)
    }

    /// The number of bytes that the marks of a text of the units request.
    fn bytes_of_marks(&self) -> Result<u64, AllocError> {
        let heap = Refusing::new(self.alloc, u64::MAX);
        let mut text = UnitText::from_units(&heap, self.units)?;
        heap.refuse_after(u64::MAX, Refusal::ForGood);
        text.mark_units(&heap);
        Ok(heap.bytes() as u64)
    }
}

/// The start and the end of ten units from an index, or of the last ten, in a text of `len` units.
#[inline(always)]
fn ends_of_slice(index: usize, len: usize) -> (usize, usize)
    ensures order { result.0 ≤ result.1 }
    ensures within { result.1 ≤ len }
{
    let begin = index.min(len.saturating_sub(SLICE));
    (begin, len.min(begin.saturating_add(SLICE)))
}

/// A text of `units` with marks.
fn marked(alloc: Global, units: &[u16]) -> Result<UnitText<Global>, AllocError> {
    let mut text = UnitText::from_units(alloc, units)?;
    text.mark_units(alloc);
    Ok(text)
}

/// Pushes units to a text one by one.
fn appended(
    text: UnitText<Global>,
    alloc: Global,
    units: &[u16],
) -> Result<UnitText<Global>, AllocError> {
    let mut text = text;
    for unit in units {
        text.push(*unit)?;
    }
    Ok(text)
}

/// A string of `units`, pushed one by one.
pub fn pushed(alloc: Global, units: &[u16]) -> Result<Wtf8Buf<Global>, AllocError> {
    let mut string = Wtf8Buf::new(alloc);
    for unit in units {
        string.push_unit(*unit)?;
    }
    Ok(string)
}

/// The length in bytes of a slice as a string of its own.
#[inline(always)]
fn len_of_slice(slice: UnitSlice<'_>) -> u64 {
    let divided = u64::from(slice.trail.is_some()) + u64::from(slice.lead.is_some());
    slice.whole.len() as u64 + DIVIDED * divided
}
