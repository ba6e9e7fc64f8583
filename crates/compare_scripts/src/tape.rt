// A running script and its transcript.
use crate::reader::{Reader, Register};
use crate::stop::Stop;
use std::alloc::Global;
use std::fmt::Display;
use unit_text::{IndexedBuf, UnitText};
use wtf8::{CodePoint, Wtf8};

/// The word for `None`.
pub const NONE: &str = "-";

/// A running script: its unread rest, and its transcript so far.
#[derive(Drop)]
pub struct Tape<'s> {
    /// Allocator of the strings, the texts and the transcript.
    pub alloc: Global,
    /// The unread rest of the script. A refused write is a fault of it too.
    pub reader: Reader<'s>,
    /// The transcript of the calls so far.
    pub transcript: String,
    /// Whether nothing more is written.
    pub is_silent: bool,
}

impl<'s> Tape<'s> {
    /// Begins a script with an empty transcript.
    pub fn new(alloc: Global, script: &'s [u8]) -> Tape<'s> {
        Tape {
            alloc,
            reader: Reader::new(script),
            transcript: String::new(alloc),
            is_silent: false,
        }
    }

    /// Reads a text: the number of its units in two bytes, then the units.
    pub fn read_units(&mut self) -> UnitText<Global> {
        let count = self.reader.number();
        let units = self.reader.units(self.alloc, count);
        match UnitText::from_units(self.alloc, units.as_slice()) {
            Ok(text) => text,
            Err(_) => {
                self.reader.fail(Stop::Memory);
                UnitText::new(self.alloc)
            }
        }
    }

    /// What `write!` and `writeln!` call.
    pub fn write_fmt<D: Display + Drop>(&mut self, text: D) {
        if !self.is_silent && self.transcript.write_fmt(text).is_err() {
            self.reader.fail(Stop::Memory);
        }
    }

    /// Writes a word as it is.
    pub fn write_word(&mut self, word: &str) {
        if !self.is_silent && self.transcript.push_str(word).is_err() {
            self.reader.fail(Stop::Memory);
        }
    }

    /// Writes why a call does not accept its operands. Any other reason is a fault of the script.
    pub fn write_stop(&mut self, stop: Stop) {
        match stop {
            Stop::Refused => self.write_line("refused"),
            Stop::NoCodePoint => self.write_line("no code point"),
            Stop::NoCharacter => self.write_line("no character"),
            Stop::Malformed | Stop::Memory => self.reader.fail(stop),
        }
    }

    /// Ends a line.
    pub fn end_line(&mut self) {
        self.write_word("\n");
    }

    /// Writes a line.
    pub fn write_line(&mut self, line: &str) {
        self.write_word(line);
        self.end_line();
    }

    /// Writes a text between two words.
    pub fn write_between(&mut self, before: &str, text: &str, after: &str) {
        self.write_word(before);
        self.write_word(text);
        self.write_word(after);
    }

    /// Writes the bytes of a view in hexadecimal between two words.
    pub fn write_dump(&mut self, before: &str, view: Wtf8<'_>, after: &str) {
        match view.hex_dump(self.alloc) {
            Ok(dump) => self.write_between(before, dump.as_str(), after),
            Err(_) => self.write_stop(Stop::Memory),
        }
    }

    /// Writes a line of a word and the bytes of a text in hexadecimal.
    pub fn write_text(&mut self, word: &str, text: &str) {
        if !self.is_silent {
            self.write_word(word);
            self.write_dump(": ", Wtf8::from_str(text), "\n");
        }
    }

    /// Writes the line of a string: its register, length and bytes.
    pub fn write_string(&mut self, at: Register, string: Wtf8<'_>) {
        write!(self, "s{}", at.index);
        self.write_view(string);
    }

    /// Writes the line of the indexed string: its number of units, length and bytes.
    pub fn write_indexed(&mut self, string: &IndexedBuf<Global>) {
        write!(self, "indexed {} units", string.unit_len());
        self.write_view(string.as_wtf8());
    }

    /// Writes a space, the length and the bytes of a view, and ends the line.
    pub fn write_view(&mut self, view: Wtf8<'_>) {
        if !self.is_silent {
            view.len().show(self);
            self.write_dump(": ", view, "\n");
        }
    }

    /// Writes the number of units of a text and the units, and ends the line.
    pub fn write_units(&mut self, text: &UnitText<Global>) {
        if self.is_silent {
            return;
        }
        write!(self, "{} units:", text.unit_len());
        for unit in text.as_wtf8().to_ill_formed_utf16() {
            write!(self, "{unit:04X}");
        }
        self.end_line();
    }

    /// Writes a space, then the item, or the word that `none` holds if there is no item.
    pub fn write_item<T: Shown>(&mut self, item: Option<T>, none: &str) {
        match item {
            Some(item) => item.show(self),
            None => self.write_between(" ", none, ""),
        }
    }

    /// Writes a line of a word and an item.
    pub fn write_found<T: Shown>(&mut self, word: &str, item: Option<T>) {
        self.write_word(word);
        self.write_item(item, NONE);
        self.end_line();
    }

    /// Writes a line of a word and two units.
    pub fn write_two(&mut self, word: &str, first: Option<u16>, second: Option<u16>) {
        self.write_word(word);
        self.write_item(first, NONE);
        self.write_item(second, NONE);
        self.end_line();
    }

    /// Writes words and whether they are true.
    pub fn write_flag(&mut self, words: &str, is_true: bool) {
        self.write_word(words);
        self.write_word(if is_true { " true" } else { " false" });
    }

    /// Writes a line of words and whether they are true.
    pub fn write_truth(&mut self, words: &str, is_true: bool) {
        self.write_flag(words, is_true);
        self.end_line();
    }

    /// Writes whether a spare capacity of `spare` bytes is at least `asked` bytes.
    pub fn write_room(&mut self, spare: usize, asked: usize) {
        self.write_truth("room", asked <= spare);
    }

    /// Writes whether the capacity was unchanged.
    pub fn write_kept(&mut self, is_kept: bool) {
        self.write_truth("room kept", is_kept);
    }
}

/// An item that a transcript can show.
pub trait Shown: Copy {
    /// Writes a space and the item.
    fn show(self, tape: &mut Tape<'_>);
}

impl Shown for CodePoint {
    fn show(self, tape: &mut Tape<'_>) {
        write!(tape, " {self:?}");
    }
}

impl Shown for usize {
    fn show(self, tape: &mut Tape<'_>) {
        write!(tape, " {self}");
    }
}

impl Shown for u16 {
    fn show(self, tape: &mut Tape<'_>) {
        write!(tape, " {self:04X}");
    }
}
