// Reads the bytes of a script.
ghost use Rattle.std.specs.Prelude.{◌<◌};
ghost use Rattle.compare_scripts.specs.declared.reader.TheConstants.{STRINGS};

use crate::stop::Stop;
use std::alloc::Global;
use wtf8::CodePoint;

/// The number of strings that a script works on.
pub const STRINGS: usize = 4;

/// The number of one of the strings.
#[derive(Clone, Copy)]
pub struct Register {
    /// Index of the string.
    pub index: usize,
    pub ghost below: { index < STRINGS },
}

/// The unread rest of a script, and the script's first fault. Numbers are little-endian.
///
/// A read past the end, or of bytes that are not valid, returns zeros, or nothing, and is a fault, which is asked for
/// once after each call; and so is a request for memory that is refused while a call reads or writes. So what reads or
/// writes returns no error, which a `?` of each caller would have to prove.
#[derive(Drop)]
pub struct Reader<'a> {
    rest: &'a [u8],
    /// The first fault: why the script has no transcript.
    pub fault: Option<Stop>,
}

impl<'a> Reader<'a> {
    /// Reads a script from its start.
    pub fn new(script: &'a [u8]) -> Reader<'a> {
        Reader {
            rest: script,
            fault: None,
        }
    }

    /// Records a fault, unless there was one before.
    pub fn fail(&mut self, stop: Stop) {
        if self.fault.is_none() {
            self.fault = Some(stop);
        }
    }

    /// Reads the next opcode, or `None` at the end.
    pub fn opcode(&mut self) -> Option<u8> {
        let (first, rest) = self.rest.split_first()?;
        self.rest = rest;
        Some(*first)
    }

    /// Reads a byte: a kind or a count.
    pub fn byte(&mut self) -> u8 {
        match self.opcode() {
            Some(byte) => byte,
            None => {
                self.fail(Stop::Malformed);
                0
            }
        }
    }

    /// Reads a code unit of two bytes.
    pub fn unit(&mut self) -> u16 {
        match self.rest.split_first_chunk::<2>() {
            Some(([low, high], rest)) => {
                self.rest = rest;
                u16::from_le_bytes([*low, *high])
            }
            None => {
                self.fail(Stop::Malformed);
                0
            }
        }
    }

    /// Reads a value of four bytes, which may be a code point.
    pub fn value(&mut self) -> u32 {
        match self.rest.split_first_chunk::<4>() {
            Some(([a, b, c, d], rest)) => {
                self.rest = rest;
                u32::from_le_bytes([*a, *b, *c, *d])
            }
            None => {
                self.fail(Stop::Malformed);
                0
            }
        }
    }

    /// Reads a number of two bytes: a position, a capacity or a count.
    pub fn number(&mut self) -> usize {
        usize::from(self.unit())
    }

    /// Reads two numbers: a start and an end.
    pub fn range(&mut self) -> (usize, usize) {
        (self.number(), self.number())
    }

    /// Reads a register: a byte below `STRINGS`.
    pub fn register(&mut self) -> Register {
        let index = usize::from(self.byte());
        if index < STRINGS {
            return Register { index };
        }
        self.fail(Stop::Malformed);
        Register { index: 0 }
    }

    /// Reads a value that must be a code point.
    pub fn point(&mut self) -> Result<CodePoint, Stop> {
        match CodePoint::from_u32(self.value()) {
            Some(point) => Ok(point),
            None => Err(Stop::NoCodePoint),
        }
    }

    /// Reads a value that must be a scalar value.
    pub fn character(&mut self) -> Result<char, Stop> {
        match char::from_u32(self.value()) {
            Some(c) => Ok(c),
            None => Err(Stop::NoCharacter),
        }
    }

    /// Reads a count of one byte, then that number of bytes.
    pub fn bytes(&mut self) -> &'a [u8] {
        let count = usize::from(self.byte());
        match self.rest.split_at_checked(count) {
            Some((front, rest)) => {
                self.rest = rest;
                front
            }
            None => {
                self.fail(Stop::Malformed);
                &[]
            }
        }
    }

    /// Reads a length of one byte, then a text in UTF-8 of that number of bytes.
    pub fn text(&mut self) -> &'a str {
        match str::from_utf8(self.bytes()) {
            Ok(text) => text,
            Err(_) => {
                self.fail(Stop::Malformed);
                ""
            }
        }
    }

    /// Reads a count of one byte, then that number of code units.
    pub fn counted_units(&mut self, alloc: Global) -> Vec<u16> {
        let count = usize::from(self.byte());
        self.units(alloc, count)
    }

    /// Reads `count` code units of two bytes each.
    pub fn units(&mut self, alloc: Global, count: usize) -> Vec<u16> {
        let mut units = Vec::new(alloc);
        for _ in 0..count {
            if units.push(self.unit()).is_err() {
                self.fail(Stop::Memory);
            }
        }
        units
    }

    /// Reads a count of one byte, then that number of values. Values that are not code points are left out.
    pub fn points(&mut self, alloc: Global) -> Vec<CodePoint> {
        let mut points = Vec::new(alloc);
        for _ in 0..self.byte() {
            if let Some(point) = CodePoint::from_u32(self.value()) {
                if points.push(point).is_err() {
                    self.fail(Stop::Memory);
                }
            }
        }
        points
    }
}
