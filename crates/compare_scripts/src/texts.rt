// The calls on texts.
use crate::comparing::name_of;
use crate::engine::{padded, repeated, replaced, write_end, write_pieces, write_units_at};
use crate::json::{write_json, write_json_string};
use crate::opcodes::{ChangeText, MakeText, ReadText, TextCall};
use crate::positions::{
    truncate, write_lines, write_mark_at_column, write_position, write_unit_before,
    write_units_from,
};
use crate::stop::{Stop, done, text_made};
use crate::tape::Tape;
use std::alloc::Global;
use std::mem;
use unit_text::UnitText;
use wtf8_uses::cuts::is_equal_after_cut;
use wtf8_uses::string_prototype::{
    char_at, char_code_at, code_point_at, index_of, is_less, is_well_formed, last_index_of,
    starts_with, substring, to_well_formed, trim_ascii,
};

/// The two texts of a script.
#[derive(Drop)]
pub struct Texts {
    first: UnitText<Global>,
    second: UnitText<Global>,
}

impl Texts {
    /// Two empty texts.
    pub fn new(alloc: Global) -> Texts {
        Texts {
            first: UnitText::new(alloc),
            second: UnitText::new(alloc),
        }
    }

    /// Runs a call, whose operands come next in the script, and writes what it returns.
    pub fn run(&mut self, call: TextCall, tape: &mut Tape<'_>) {
        match call {
            TextCall::Change(call) => self.write_change(call, tape),
            TextCall::Read(call) => self.write_results(call, tape),
            TextCall::Swap => {
                mem::swap(&mut self.first, &mut self.second);
                tape.write_line("swapped");
            }
        }
    }

    /// Runs a call that changes the first text, and writes its units.
    fn write_change(&mut self, call: ChangeText, tape: &mut Tape<'_>) {
        match self.change(call, tape) {
            Ok(()) => tape.write_units(&self.first),
            Err(stop) => tape.write_stop(stop),
        }
    }

    /// Runs a call that changes the first text.
    fn change(&mut self, call: ChangeText, tape: &mut Tape<'_>) -> Result<(), Stop> {
        match call {
            ChangeText::Make(call) => return self.replace(call, tape),
            ChangeText::Concat => return done(self.first.concat(&self.second)),
            ChangeText::Mark => self.first.mark_units(tape.alloc),
            ChangeText::Push => return push_each(&mut self.first, tape),
            ChangeText::PushUnits => return push_units(&mut self.first, tape),
            ChangeText::PushStr => return push_str(&mut self.first, tape),
            ChangeText::PushWtf8 => return push_string(&mut self.first, tape),
            ChangeText::ThroughWtf8 => self.convert(tape.alloc),
            ChangeText::Truncate => return truncate(&mut self.first, tape),
        }
        Ok(())
    }

    /// `into_wtf8`, then `from_wtf8`.
    fn convert(&mut self, alloc: Global) {
        let text = mem::replace(&mut self.first, UnitText::new(alloc));
        self.first = UnitText::from_wtf8(text.into_wtf8());
    }

    /// Replaces the first text by the one that a call makes.
    fn replace(&mut self, call: MakeText, tape: &mut Tape<'_>) -> Result<(), Stop> {
        self.first = self.make(call, tape)?;
        Ok(())
    }

    /// Makes the text that replaces the first one.
    fn make(&self, call: MakeText, tape: &mut Tape<'_>) -> Result<UnitText<Global>, Stop> {
        match call {
            MakeText::New => Ok(UnitText::new(tape.alloc)),
            MakeText::Clone => text_made(self.second.clone()),
            MakeText::Set => Ok(tape.read_units()),
            MakeText::FromStr => from_str(tape),
            MakeText::Slice => self.slice(tape),
            MakeText::PadStart => padded(tape, &self.first, &self.second),
            MakeText::Repeat => repeated(tape, &self.first),
            MakeText::Trim => text_made(trim_ascii(tape.alloc, &self.first)),
            MakeText::Replace => replaced(tape, &self.first, &self.second),
            MakeText::ToWellFormed => text_made(to_well_formed(tape.alloc, &self.first)),
        }
    }

    /// The units of the first text from one index to another.
    fn slice(&self, tape: &mut Tape<'_>) -> Result<UnitText<Global>, Stop> {
        let (begin, end) = tape.reader.range();
        if end < begin || self.first.unit_len() < end {
            return Err(Stop::Refused);
        }
        text_made(self.first.slice_units(tape.alloc, begin, end))
    }

    /// Runs a call that changes neither text, and writes what it returns.
    fn write_results(&self, call: ReadText, tape: &mut Tape<'_>) {
        match call {
            ReadText::Length => tape.write_found("length", Some(self.first.unit_len())),
            ReadText::UnitAt => self.write_unit(tape),
            ReadText::Substring => self.write_substring(tape),
            ReadText::CharAt => self.write_char(tape),
            ReadText::StartsWith => self.write_start(tape),
            ReadText::Compare => self.write_order(tape),
            ReadText::CutEverywhere => self.write_whole_cuts(tape),
            ReadText::IndexOf => self.write_index(tape),
            ReadText::At => write_units_at(tape, &self.first),
            ReadText::CodePointAt => self.write_point(tape),
            ReadText::IsWellFormed => tape.write_truth("well formed", is_well_formed(&self.first)),
            ReadText::Split => write_pieces(tape, &self.first),
            ReadText::LastIndexOf => self.write_last_index(tape),
            ReadText::EndsWith => write_end(tape, &self.first, &self.second),
            ReadText::PositionAt => write_position(tape, &self.first),
            ReadText::UnitBefore => write_unit_before(tape, &self.first),
            ReadText::UnitsFrom => write_units_from(tape, &self.first),
            ReadText::Lines => write_lines(tape, self.first.as_wtf8()),
            ReadText::MarkAtColumn => write_mark_at_column(tape, self.first.as_wtf8()),
            ReadText::Json => write_json(tape, self.first.as_wtf8(), self.second.as_wtf8()),
            ReadText::ReadJson => write_json_string(tape, self.first.as_wtf8()),
        }
    }

    /// Writes the unit at an index, by `unit_at` and by `char_code_at`.
    fn write_unit(&self, tape: &mut Tape<'_>) {
        let at = tape.reader.number();
        let by_name = char_code_at(&self.first, at);
        tape.write_two("unit", self.first.unit_at(at), by_name);
    }

    /// `index_of`.
    fn write_index(&self, tape: &mut Tape<'_>) {
        let from = tape.reader.number();
        tape.write_found("index", index_of(&self.first, &self.second, from));
    }

    /// `last_index_of`.
    fn write_last_index(&self, tape: &mut Tape<'_>) {
        let to = tape.reader.number();
        tape.write_found("last index", last_index_of(&self.first, &self.second, to));
    }

    /// `code_point_at`.
    fn write_point(&self, tape: &mut Tape<'_>) {
        let at = tape.reader.number();
        tape.write_found("point", code_point_at(&self.first, at));
    }

    /// `substring`.
    fn write_substring(&self, tape: &mut Tape<'_>) {
        let (begin, end) = tape.reader.range();
        match substring(tape.alloc, &self.first, begin, end) {
            Ok(part) => tape.write_units(&part),
            Err(_) => tape.write_stop(Stop::Memory),
        }
    }

    /// `char_at`.
    fn write_char(&self, tape: &mut Tape<'_>) {
        let at = tape.reader.number();
        match char_at(tape.alloc, &self.first, at) {
            Ok(unit) => tape.write_units(&unit),
            Err(_) => tape.write_stop(Stop::Memory),
        }
    }

    /// `starts_with`.
    fn write_start(&self, tape: &mut Tape<'_>) {
        let at = tape.reader.number();
        tape.write_truth("starts", starts_with(&self.first, &self.second, at));
    }

    /// Writes how the two texts compare.
    fn write_order(&self, tape: &mut Tape<'_>) {
        let (first, second) = (&self.first, &self.second);
        tape.write_between("order ", name_of(first.cmp_units(second)), "");
        tape.write_flag(" lt", is_less(first, second));
        tape.write_flag(" gt", is_less(second, first));
        tape.write_truth(" eq", first == second);
    }

    /// Writes the number of indexes at which the text, cut and joined again, is unchanged.
    fn write_whole_cuts(&self, tape: &mut Tape<'_>) {
        match whole_cuts(tape.alloc, &self.first) {
            Ok(whole) => tape.write_found("whole", Some(whole)),
            Err(stop) => tape.write_stop(stop),
        }
    }
}

/// `from_str`.
fn from_str(tape: &mut Tape<'_>) -> Result<UnitText<Global>, Stop> {
    text_made(UnitText::from_str(tape.alloc, tape.reader.text()))
}

/// `push_str`.
fn push_str(text: &mut UnitText<Global>, tape: &mut Tape<'_>) -> Result<(), Stop> {
    done(text.push_str(tape.reader.text()))
}

/// `push_wtf8` of the string of units.
fn push_string(text: &mut UnitText<Global>, tape: &mut Tape<'_>) -> Result<(), Stop> {
    let units = tape.read_units();
    done(text.push_wtf8(units.as_wtf8()))
}

/// Reads a count of two bytes, then that number of units, and pushes all at once.
fn push_units(text: &mut UnitText<Global>, tape: &mut Tape<'_>) -> Result<(), Stop> {
    let count = tape.reader.number();
    let units = tape.reader.units(tape.alloc, count);
    done(text.push_units(units.as_slice()))
}

/// Reads a count of two bytes, then that number of units, and pushes each.
fn push_each(text: &mut UnitText<Global>, tape: &mut Tape<'_>) -> Result<(), Stop> {
    for _ in 0..tape.reader.number() {
        let Ok(()) = text.push(tape.reader.unit()) else {
            return Err(Stop::Memory);
        };
    }
    Ok(())
}

/// The number of indexes at which a text, cut and joined again, is unchanged.
fn whole_cuts(alloc: Global, text: &UnitText<Global>) -> Result<usize, Stop> {
    let mut whole = 0usize;
    for index in 0..=text.unit_len() {
        let Ok(is_equal) = is_equal_after_cut(alloc, alloc, text, index) else {
            return Err(Stop::Memory);
        };
        if is_equal {
            whole = whole.wrapping_add(1);
        }
    }
    Ok(whole)
}
