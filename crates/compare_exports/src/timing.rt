//! Calls in loops, for timings.
//!
//! Each round takes another of several equal strings, so that a compiler cannot reuse the result of the round before.
ghost use Rattle.std.specs.Prelude.{◌<◌, ◌≤◌};

use crate::counted::Counted;
use crate::texts::pushed;
use std::alloc::{AllocError, Global};
use std::array;
use std::collections::BTreeMap;
use unit_text::{IndexedBuf, UnitText};
use wtf8::{CodePoint, Wtf8, Wtf8Buf};

/// The number of equal strings that a loop cycles through.
pub const STRINGS: usize = 4;

/// The number of the first loop over the lines among the units.
const FIRST_OF_LINES: u32 = 24;

/// The number of the last loop over the lines among the units.
const LAST_OF_LINES: u32 = 25;

/// The number of the last loop.
pub const LAST: u32 = 29;

/// The unit that ends a line.
const LINE_END: u16 = 0x0A;

/// What the loops work on.
#[derive(Drop)]
pub struct Bench {
    alloc: Global,
    units: Vec<u16>,
    strings: [Counted; STRINGS],
    others: Option<[Counted; STRINGS]>,
    lines: Vec<Wtf8Buf<Global>>,
    points: Vec<CodePoint>,
    rounds: u32,
}

impl Bench {
    /// Makes equal strings of `units` for loop `number` and, unless `others` is empty, strings of `others` to compare
    /// them with.
    pub fn new(
        alloc: Global,
        number: u32,
        units: &[u16],
        others: &[u16],
        rounds: u32,
    ) -> Result<Bench, AllocError> {
        let string = Wtf8Buf::from_ill_formed_utf16(alloc, units)?;
        let points = string.as_wtf8().code_points().collect(alloc)?;
        let strings = equal_strings(&string)?;
        let mut bench = Bench {
            alloc,
            units: Vec::from_slice(alloc, units)?,
            strings,
            others: None,
            lines: Vec::new(alloc),
            points,
            rounds,
        };
        if !others.is_empty() {
            let string = Wtf8Buf::from_ill_formed_utf16(alloc, others)?;
            bench.others = Some(equal_strings(&string)?);
        }
        if FIRST_OF_LINES <= number && number <= LAST_OF_LINES {
            bench.lines = lines(alloc, units)?;
        }
        Ok(bench)
    }

    /// Runs a loop, and returns a checksum of what its calls returned.
    pub fn run(&self, number: u32) -> Result<u64, AllocError>
        requires least { 0 < number }
        requires most { number ≤ 29 }
    {
        match number {
            1 => self.sum::<1>(),
            2 => self.sum::<2>(),
            3 => self.sum::<3>(),
            4 => self.sum::<4>(),
            5 => self.sum::<5>(),
            6 => self.sum::<6>(),
            7 => self.sum::<7>(),
            8 => self.sum::<8>(),
            9 => self.extend(),
            10 => self.push_strings(),
            11 => self.sum::<11>(),
            12 => self.sum::<12>(),
            13 => self.sum::<13>(),
            14 => self.sum::<14>(),
            15 => self.sum::<15>(),
            16 => self.sum::<16>(),
            17 => self.sum::<17>(),
            18 => self.sum::<18>(),
            19 => self.sum::<19>(),
            20 => self.sum::<20>(),
            21 => self.sum::<21>(),
            22 => self.sum::<22>(),
            23 => self.sum::<23>(),
            24 => self.sort(),
            25 => self.look_up(),
            26 => self.push_units(),
            27 => self.write_units(),
            28 => self.units_of_indexed(),
            29 => self.copy_units_of_indexed(),
            _ => unreachable!(),
        }
    }

    /// The sum of what a loop's call returns on each round's string and another one, modulo 2^64. Each loop is a
    /// function of its own, so that the address of its code does not depend on the other loops.
    #[inline(never)]
    fn sum<const LOOP: u32>(&self) -> Result<u64, AllocError> {
        let others = self.others.as_ref().unwrap_or(&self.strings);
        let mut sum = 0u64;
        for round in 0..self.rounds {
            let other = &others[(round / STRINGS as u32 + 1) as usize % STRINGS];
            sum = sum.wrapping_add(self.answer::<LOOP>(self.string_at(round), other)?);
        }
        Ok(sum)
    }

    /// What a loop's call returns on a string and another one, as a number.
    #[inline(always)]
    fn answer<const LOOP: u32>(&self, own: &Counted, other: &Counted) -> Result<u64, AllocError> {
        let answer = match LOOP {
            1 => Wtf8Buf::from_ill_formed_utf16(self.alloc, self.units.as_slice())?.len() as u64,
            2 => collected_units(self.alloc, own.view())?,
            3 => {
                let units = own.view().to_ill_formed_utf16();
                units.fold(0u64, |sum, unit| sum.wrapping_add(u64::from(unit)))
            }
            4 => {
                let points = own.view().code_points();
                points.fold(
                    0u64,
                    |sum, point| sum.wrapping_add(u64::from(point.to_u32())),
                )
            }
            5 => own.view().as_str().is_some() as u64,
            6 => own.view().to_string_lossy(self.alloc)?.as_str().len() as u64,
            7 => own.string.clone()?.into_string().is_ok() as u64,
            8 => self.push()?,
            11 => (own.string == other.string) as u64,
            12 => own.string.cmp(&other.string).is_le() as u64,
            13 => own.string.clone()?.len() as u64,
            14 => own.view().hex_dump(self.alloc)?.len() as u64,
            15 => own.view().unit_len() as u64,
            16 => u64::from(own.middle_unit()),
            17 => own.middle_half(self.alloc)?.len() as u64,
            18 => own.view().cmp_units(&other.view()).is_le() as u64,
            19 => own.first_half()?.len() as u64,
            20 => appended_units(self.alloc, own.view())?,
            21 => grown_text(self.alloc, self.units.as_slice())?,
            22 => pushed(self.alloc, self.units.as_slice())?.len() as u64,
            23 => is_text_joined(&own.string, other.view())?,
            _ => 0,
        };
        Ok(answer)
    }

    fn string_at(&self, round: u32) -> &Counted {
        &self.strings[round as usize % STRINGS]
    }

    /// The length of a string to which all code points are pushed one by one.
    #[inline(never)]
    fn push(&self) -> Result<u64, AllocError> {
        let mut string = Wtf8Buf::new(self.alloc);
        for point in &self.points {
            string.push(*point)?;
        }
        Ok(string.len() as u64)
    }

    /// The sum of the lengths of empty strings, each extended by the code points of a round's string. Written without
    /// `sum`: the loop over a closure takes one more instruction for each code point.
    #[inline(never)]
    fn extend(&self) -> Result<u64, AllocError> {
        let mut sum = 0u64;
        for round in 0..self.rounds {
            let mut string = Wtf8Buf::new(self.alloc);
            string.extend(self.string_at(round).view().code_points())?;
            sum = sum.wrapping_add(string.len() as u64);
        }
        Ok(sum)
    }

    /// The sum of the lengths of the line in the middle after sorting, in each round.
    #[inline(never)]
    fn sort(&self) -> Result<u64, AllocError> {
        let mut sum = 0u64;
        for _ in 0..self.rounds {
            let mut views = Vec::with_capacity(self.alloc, self.lines.len())?;
            for line in &self.lines {
                views.push(line.as_wtf8())?;
            }
            views.sort()?;
            let middle = views.get(views.len() / 2);
            sum = sum.wrapping_add(middle.map_or(0, |view| view.len()) as u64);
        }
        Ok(sum)
    }

    /// The sum of the indexes of all lines, each of which is looked up in a map in each round.
    #[inline(never)]
    fn look_up(&self) -> Result<u64, AllocError> {
        let mut places = BTreeMap::new(self.alloc);
        for (place, line) in self.lines.iter().enumerate() {
            places.insert(line.as_wtf8(), place as u64)?;
        }
        let mut sum = 0u64;
        for _ in 0..self.rounds {
            for line in &self.lines {
                let place = places.get(&line.as_wtf8()).copied();
                sum = sum.wrapping_add(place.unwrap_or(0));
            }
        }
        Ok(sum)
    }

    /// The sum of the lengths of a string that is emptied and to which all units are pushed at once, in each round.
    #[inline(never)]
    fn push_units(&self) -> Result<u64, AllocError> {
        let mut string = Wtf8Buf::new(self.alloc);
        let mut sum = 0u64;
        for _ in 0..self.rounds {
            string.clear();
            string.push_ill_formed_utf16(self.units.as_slice())?;
            sum = sum.wrapping_add(string.len() as u64);
        }
        Ok(sum)
    }

    /// The sum of the numbers of units that are written to a slice, and of the units in its middle, in each round.
    #[inline(never)]
    fn write_units(&self) -> Result<u64, AllocError> {
        let mut out = self.slice_for_units()?;
        let mut sum = 0u64;
        for round in 0..self.rounds {
            let count = self.string_at(round).write_units(&mut out);
            sum = sum.wrapping_add(count as u64);
            sum = sum.wrapping_add(unit_of(&out, count / 2));
        }
        Ok(sum)
    }

    /// The sum of the units in the middle of strings with marks, one in each round.
    #[inline(never)]
    fn units_of_indexed(&self) -> Result<u64, AllocError> {
        let strings = self.indexed_strings()?;
        let mut sum = 0u64;
        for round in 0..self.rounds {
            let string = &strings[round as usize % STRINGS];
            let unit = string.unit_at(string.unit_len() / 2);
            sum = sum.wrapping_add(u64::from(unit.unwrap_or(0)));
        }
        Ok(sum)
    }

    /// The sum of the numbers of units in the middle half of strings with marks, and of the units in the middle of the
    /// slice to which they are copied, in each round.
    #[inline(never)]
    fn copy_units_of_indexed(&self) -> Result<u64, AllocError> {
        let strings = self.indexed_strings()?;
        let mut out = self.slice_for_units()?;
        let mut sum = 0u64;
        for round in 0..self.rounds {
            let count = copied(&strings[round as usize % STRINGS], &mut out);
            sum = sum.wrapping_add(count as u64);
            sum = sum.wrapping_add(unit_of(&out, count / 2));
        }
        Ok(sum)
    }

    /// Zeros, one for each unit.
    fn slice_for_units(&self) -> Result<Vec<u16>, AllocError> {
        let mut out = Vec::new(self.alloc);
        out.resize(self.units.len(), 0)?;
        Ok(out)
    }

    /// The strings, with marks.
    fn indexed_strings(&self) -> Result<[IndexedBuf<Global>; STRINGS], AllocError> {
        let (alloc, string) = (self.alloc, &self.strings[0].string);
        array::try_from_fn(|_| indexed(alloc, string))
    }

    /// Pushes each round's string, to a new string every 64 rounds. Returns the length of the last string.
    #[inline(never)]
    fn push_strings(&self) -> Result<u64, AllocError> {
        let mut string = Wtf8Buf::new(self.alloc);
        for round in 0..self.rounds {
            if round % 64 == 0 {
                string = Wtf8Buf::new(self.alloc);
            }
            string.push_wtf8(self.string_at(round).view())?;
        }
        Ok(string.len() as u64)
    }
}

/// Clones of `string`.
fn equal_strings(string: &Wtf8Buf<Global>) -> Result<[Counted; STRINGS], AllocError> {
    array::try_from_fn(|_| Ok(Counted::new(string.clone()?)))
}

/// A string for each line of `units`.
fn lines(alloc: Global, units: &[u16]) -> Result<Vec<Wtf8Buf<Global>>, AllocError> {
    let mut lines = Vec::new(alloc);
    for line in units.split(|unit| *unit == LINE_END) {
        lines.push(Wtf8Buf::from_ill_formed_utf16(alloc, line)?)?;
    }
    Ok(lines)
}

/// 1 if a clone of `string` followed by `view` holds no surrogate, 0 if it does.
fn is_text_joined(string: &Wtf8Buf<Global>, view: Wtf8<'_>) -> Result<u64, AllocError> {
    let mut joined = string.clone()?;
    joined.push_wtf8(view)?;
    Ok(joined.into_string().is_ok() as u64)
}

/// The length in bytes of a text to which each unit is pushed.
#[inline(never)]
fn grown_text(alloc: Global, units: &[u16]) -> Result<u64, AllocError> {
    let mut text = UnitText::from_units(alloc, &[])?;
    for unit in units {
        text.push(*unit)?;
    }
    Ok(text.as_wtf8().len() as u64)
}

/// A copy of a string, with marks.
fn indexed(alloc: Global, string: &Wtf8Buf<Global>) -> Result<IndexedBuf<Global>, AllocError> {
    let mut indexed = IndexedBuf::from_buf(string.clone()?);
    indexed.mark_units(alloc);
    Ok(indexed)
}

/// Copies the middle half of a string's units to a slice that has room, and returns their number; 0 without room.
#[inline(always)]
fn copied(string: &IndexedBuf<Global>, out: &mut [u16]) -> usize {
    let begin = string.unit_len() / 4;
    let end = string.unit_len() - begin;
    if out.len() < end - begin {
        return 0;
    }
    string.copy_units(begin, end, out);
    end - begin
}

/// The unit of a slice at an index, 0 past its end.
#[inline(always)]
fn unit_of(units: &[u16], index: usize) -> u64 {
    u64::from(units.get(index).copied().unwrap_or(0))
}

/// The number of units of a view, by `append_units`.
fn appended_units(alloc: Global, view: Wtf8<'_>) -> Result<u64, AllocError> {
    let mut units = Vec::new(alloc);
    view.append_units(&mut units)?;
    Ok(units.len() as u64)
}

/// The number of units of a view, by collecting its iterator.
fn collected_units(alloc: Global, view: Wtf8<'_>) -> Result<u64, AllocError> {
    let units: Vec<u16> = view.to_ill_formed_utf16().collect(alloc)?;
    Ok(units.len() as u64)
}
