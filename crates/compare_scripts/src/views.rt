// Calls that only read strings, slices, texts and code points.
use crate::comparing::{name_of, write_comparisons};
use crate::iterators::{drain, write_steps};
use crate::machine::Machine;
use crate::opcodes::{OperandCall, Read};
use crate::reader::Register;
use crate::recorder::write_hash_input;
use crate::stop::Stop;
use crate::tape::{NONE, Shown, Tape};
use std::alloc::Global;
use std::borrow::CowStr;
use wtf8::{CodePoint, UnitMark, UnitSlice, Wtf8, Wtf8Buf};

impl Machine {
    /// Runs a call that reads a string, and writes what it returns.
    pub fn write_results(&self, call: Read, at: Register, tape: &mut Tape<'_>) {
        let view = self.view(at);
        match call {
            Read::AsciiByteAt => write_ascii_byte(tape, view),
            Read::Boundaries => write_boundaries(tape, view),
            Read::CodePoints => write_points(tape, view),
            Read::ToIllFormedUtf16 => write_units(tape, view),
            Read::AsStr => write_as_text(tape, view),
            Read::ToStringLossy => write_lossy_text(tape, view),
            Read::Comparisons => self.compare(at, tape),
            Read::Hash => write_hash_inputs(tape, self.string(at)),
            Read::Debug => write_buffer_texts(tape, self.string(at)),
            Read::UnitAt => write_units_by_index(tape, view),
            Read::SliceUnits => write_unit_slice(tape, view),
            Read::CmpUnits => self.compare_units(at, tape),
            Read::AppendUnits => write_appended_units(tape, view),
            Read::Marks => write_marks(tape, view),
            Read::Left => write_left(tape, view),
            Read::WriteUnits => write_units_to_slice(tape, view),
        }
    }

    /// Compares a string with another one, as buffers and as views.
    fn compare(&self, at: Register, tape: &mut Tape<'_>) {
        let other = tape.reader.register();
        write_comparisons(tape, "buffers", self.string(at), self.string(other));
        write_comparisons(tape, "views", &self.view(at), &self.view(other));
    }

    /// `cmp_units` of a string and another one, in both directions.
    fn compare_units(&self, at: Register, tape: &mut Tape<'_>) {
        let other = tape.reader.register();
        write_orders_of_units(tape, &self.view(at), &self.view(other));
    }

    /// The calls that read a view, on a slice of a string, without a copy.
    pub fn write_slice_results(&self, at: Register, tape: &mut Tape<'_>) {
        match self.read_slice(at, &mut tape.reader) {
            Some(slice) => write_view_results(tape, slice),
            None => tape.write_stop(Stop::Refused),
        }
    }

    /// Compares a slice with another one. The second one is read from the script even if the first is refused.
    pub fn compare_slices(&self, at: Register, tape: &mut Tape<'_>) {
        let own = self.read_slice(at, &mut tape.reader);
        let at = tape.reader.register();
        let other = self.read_slice(at, &mut tape.reader);
        match (own, other) {
            (Some(own), Some(other)) => write_comparisons(tape, "views", &own, &other),
            _ => tape.write_stop(Stop::Refused),
        }
    }
}

/// Writes how two views compare by code units, in both directions.
fn write_orders_of_units(tape: &mut Tape<'_>, own: &Wtf8<'_>, other: &Wtf8<'_>) {
    let order = name_of(own.cmp_units(other));
    let reversed = name_of(other.cmp_units(own));
    writeln!(tape, "units {order}, turned {reversed}");
}

/// Runs a call on a text or on code points of the script, and writes what it returns.
pub fn write_operand_results(call: OperandCall, tape: &mut Tape<'_>) {
    match call {
        OperandCall::ViewFromStr => write_operand_view(tape),
        OperandCall::CodePoint => write_point(tape),
        OperandCall::CodePointComparisons => compare_points(tape),
    }
}

/// `Wtf8::from_str`: writes the view.
fn write_operand_view(tape: &mut Tape<'_>) {
    let view = Wtf8::from_str(tape.reader.text());
    tape.write_word("view");
    tape.write_view(view);
}

/// Compares two code points. The second is read even if the first value is not a code point.
fn compare_points(tape: &mut Tape<'_>) {
    let own = tape.reader.point();
    let other = tape.reader.point();
    match (own, other) {
        (Ok(own), Ok(other)) => write_comparisons(tape, "points", &own, &other),
        _ => tape.write_stop(Stop::NoCodePoint),
    }
}

/// Writes the number of code points, and the steps of their iterator.
fn write_points(tape: &mut Tape<'_>, view: Wtf8<'_>) {
    let count = view.code_points().count();
    write!(tape, "points, {count}:");
    write_steps(tape, view.code_points());
}

/// Writes the number of code units, and the steps of their iterator.
fn write_units(tape: &mut Tape<'_>, view: Wtf8<'_>) {
    let count = view.to_ill_formed_utf16().count();
    write!(tape, "units, {count}:");
    write_steps(tape, view.to_ill_formed_utf16());
}

/// Writes the bytes that a string and its view feed a hasher.
fn write_hash_inputs(tape: &mut Tape<'_>, string: &Wtf8Buf<Global>) {
    write_hash_input(tape, string);
    write_hash_input(tape, &string.as_wtf8());
}

/// Writes the bytes of the debug texts of a string and of its view.
fn write_buffer_texts(tape: &mut Tape<'_>, string: &Wtf8Buf<Global>) {
    write_made_text(tape, "buffer", format!(in tape.alloc; "{string:?}").ok());
    write_debug_texts(tape, string.as_wtf8());
}

/// Writes a line of a word and the bytes of a text, for which memory was refused if it is `None`.
pub fn write_made_text(tape: &mut Tape<'_>, word: &str, text: Option<String>) {
    match text {
        Some(text) => tape.write_text(word, text.as_str()),
        None => tape.write_stop(Stop::Memory),
    }
}

/// `ascii_byte_at`: writes the byte.
fn write_ascii_byte(tape: &mut Tape<'_>, view: Wtf8<'_>) {
    let position = tape.reader.number();
    if view.len() <= position {
        return tape.write_stop(Stop::Refused);
    }
    let byte = view.ascii_byte_at(position);
    writeln!(tape, "byte {byte:02X}");
}

/// Writes the indexes up to the length that `is_code_point_boundary` accepts.
fn write_boundaries(tape: &mut Tape<'_>, view: Wtf8<'_>) {
    tape.write_word("boundaries");
    for index in 0..=view.len() {
        if view.is_code_point_boundary(index) {
            index.show(tape);
        }
    }
    tape.end_line();
}

/// `as_str`: writes the bytes of the text, or that there is none.
fn write_as_text(tape: &mut Tape<'_>, view: Wtf8<'_>) {
    match view.as_str() {
        Some(text) => tape.write_text("text", text),
        None => tape.write_line("no text"),
    }
}

/// `to_string_lossy`: writes whether the text is borrowed or owned, and its bytes.
fn write_lossy_text(tape: &mut Tape<'_>, view: Wtf8<'_>) {
    match view.to_string_lossy(tape.alloc) {
        Ok(CowStr::Borrowed(text)) => tape.write_text("borrowed", text),
        Ok(CowStr::Owned(text)) => tape.write_text("owned", text.as_str()),
        Err(_) => tape.write_stop(Stop::Memory),
    }
}

/// Writes the bytes of a view's debug text, without and with a width and flags.
fn write_debug_texts(tape: &mut Tape<'_>, view: Wtf8<'_>) {
    write_made_text(tape, "view", format!(in tape.alloc; "{view:?}").ok());
    write_made_text(tape, "wide", format!(in tape.alloc; "{view:#12?}").ok());
}

/// Writes `unit_len`, and `unit_at` of each index from 0 to that number.
fn write_units_by_index(tape: &mut Tape<'_>, view: Wtf8<'_>) {
    let len = view.unit_len();
    write!(tape, "{len} units");
    for index in 0..=len {
        tape.write_item(view.unit_at(index), NONE);
    }
    tape.end_line();
}

/// `slice_units`: writes the trail, the bytes and the lead.
fn write_unit_slice(tape: &mut Tape<'_>, view: Wtf8<'_>) {
    let (begin, end) = tape.reader.range();
    if end < begin || view.unit_len() < end {
        return tape.write_stop(Stop::Refused);
    }
    write_slice(tape, view.slice_units(begin, end));
}

/// Writes the trail, the bytes and the lead of a slice.
pub fn write_slice(tape: &mut Tape<'_>, slice: UnitSlice<'_>) {
    tape.write_word("slice");
    tape.write_item(slice.trail, NONE);
    write_bytes(tape, slice.whole);
    tape.write_item(slice.lead, NONE);
    tape.end_line();
}

/// Writes the bytes of a view in parentheses.
fn write_bytes(tape: &mut Tape<'_>, view: Wtf8<'_>) {
    tape.write_dump(" (", view, ")");
}

/// `append_units` to units of the script: writes all units of the result.
fn write_appended_units(tape: &mut Tape<'_>, view: Wtf8<'_>) {
    match appended_units(tape, view) {
        Ok(units) => {
            tape.write_word("appended");
            write_all_units(tape, units.as_slice());
        }
        Err(stop) => tape.write_stop(stop),
    }
}

/// `append_units` to units of the script.
fn appended_units(tape: &mut Tape<'_>, view: Wtf8<'_>) -> Result<Vec<u16>, Stop> {
    let mut units = tape.reader.counted_units(tape.alloc);
    let Ok(()) = view.append_units(&mut units) else {
        return Err(Stop::Memory);
    };
    Ok(units)
}

/// `write_units` to zeros, one for each unit, with units of the script after them: writes the number of units that it
/// returns, and all units of the slice.
fn write_units_to_slice(tape: &mut Tape<'_>, view: Wtf8<'_>) {
    match zeros_before_units(tape, view.unit_len()) {
        Ok(mut units) => write_units_over(tape, view, &mut units),
        Err(stop) => tape.write_stop(stop),
    }
}

/// `write_units` to a slice: writes the number of units that it returns, and all units of the slice.
fn write_units_over(tape: &mut Tape<'_>, view: Wtf8<'_>, units: &mut [u16]) {
    if units.len() < view.unit_len() {
        return tape.write_stop(Stop::Refused);
    }
    let count = view.write_units(units);
    write!(tape, "{count} written");
    write_all_units(tape, units);
}

/// A list of `count` zeros, and after them units of the script.
pub fn zeros_before_units(tape: &mut Tape<'_>, count: usize) -> Result<Vec<u16>, Stop> {
    let after = tape.reader.counted_units(tape.alloc);
    let mut units = Vec::new(tape.alloc);
    let Ok(()) = units.resize(count, 0) else {
        return Err(Stop::Memory);
    };
    let Ok(()) = units.extend_from_slice(after.as_slice()) else {
        return Err(Stop::Memory);
    };
    Ok(units)
}

/// Writes units, and ends the line.
pub fn write_all_units(tape: &mut Tape<'_>, units: &[u16]) {
    if tape.is_silent {
        return;
    }
    for unit in units {
        unit.show(tape);
    }
    tape.end_line();
}

/// Writes the marks at or before each position, and the mark of each number of units.
fn write_marks(tape: &mut Tape<'_>, view: Wtf8<'_>) {
    write_marks_by_position(tape, view);
    write_marks_by_units(tape, view);
}

/// `mark_before` of each position, from the start, and from the mark at or before half of the position.
fn write_marks_by_position(tape: &mut Tape<'_>, view: Wtf8<'_>) {
    tape.write_word("marks before");
    for position in 0..=view.len() {
        let middle = view.mark_before(view.start_mark(), position / 2);
        write_mark(tape, view.mark_before(view.start_mark(), position));
        write_mark(tape, view.mark_before(middle, position));
    }
    tape.end_line();
}

/// `mark_at` of each number of units.
fn write_marks_by_units(tape: &mut Tape<'_>, view: Wtf8<'_>) {
    tape.write_word("marks at");
    for units in 0..=view.unit_len() {
        write_mark(tape, view.mark_at(view.start_mark(), units));
    }
    tape.end_line();
}

/// Writes the position and the number of units of a mark.
pub fn write_mark(tape: &mut Tape<'_>, mark: UnitMark) {
    write!(tape, " {}:{}", mark.position, mark.units);
}

/// Writes what both iterators have left after each step.
fn write_left(tape: &mut Tape<'_>, view: Wtf8<'_>) {
    write_points_left(tape, view);
    write_units_left(tape, view);
}

/// `as_wtf8` of the iterator over code points: the bytes left, before each code point its encoded length.
fn write_points_left(tape: &mut Tape<'_>, view: Wtf8<'_>) {
    tape.write_word("points left");
    let mut points = view.code_points();
    write_bytes(tape, points.as_wtf8());
    while let Some(point) = points.next() {
        point.encoded_len().show(tape);
        write_bytes(tape, points.as_wtf8());
    }
    tape.end_line();
}

/// `as_wtf8` of the iterator over units: the bytes left, or that a trail is held.
fn write_units_left(tape: &mut Tape<'_>, view: Wtf8<'_>) {
    tape.write_word("units left");
    let mut units = view.to_ill_formed_utf16();
    write_view_left(tape, units.as_wtf8());
    while units.next().is_some() {
        write_view_left(tape, units.as_wtf8());
    }
    tape.end_line();
}

/// Writes the bytes of a view in parentheses, or that there is none.
fn write_view_left(tape: &mut Tape<'_>, view: Option<Wtf8<'_>>) {
    match view {
        Some(view) => write_bytes(tape, view),
        None => tape.write_between(" ", NONE, ""),
    }
}

/// Writes what the calls of `CodePoint` return for a value: its number, texts, characters and hash input.
fn write_point(tape: &mut Tape<'_>) {
    match tape.reader.point() {
        Ok(point) => write_point_results(tape, point),
        Err(stop) => tape.write_stop(stop),
    }
}

/// Writes the number of a code point, its texts, characters and hash input.
fn write_point_results(tape: &mut Tape<'_>, point: CodePoint) {
    write_number(tape, point);
    write_character(tape, point);
    write_hash_input(tape, &point);
}

/// Writes the number and the debug texts of a code point.
fn write_number(tape: &mut Tape<'_>, point: CodePoint) {
    let number = point.to_u32();
    let is_same = CodePoint::from_u32_unchecked(number) == point;
    writeln!(
        tape,
        "point {number:X} {point:?} {point:#12?} unchecked {is_same}"
    );
}

/// Writes the character of a code point, or that there is none, and the result of `to_char_lossy`.
fn write_character(tape: &mut Tape<'_>, point: CodePoint) {
    let lossy = point.to_char_lossy() as u32;
    let Some(c) = point.to_char() else {
        return writeln!(tape, "no char lossy {lossy:X}");
    };
    let scalar = c as u32;
    let is_same = CodePoint::from_char(c) == point;
    writeln!(tape, "char {scalar:X} lossy {lossy:X} back {is_same}");
}

/// Writes length, bytes, boundaries, texts, hash input, code points and code units of a slice of a string.
fn write_view_results(tape: &mut Tape<'_>, part: Wtf8<'_>) {
    tape.write_word("view");
    tape.write_view(part);
    write_boundaries(tape, part);
    write_as_text(tape, part);
    write_lossy_text(tape, part);
    write_hash_input(tape, &part);
    write_debug_texts(tape, part);
    write_items(tape, part);
}

/// Writes the code points and the code units of a view.
fn write_items(tape: &mut Tape<'_>, part: Wtf8<'_>) {
    tape.write_word("points");
    drain(tape, part.code_points());
    tape.write_word("\nunits");
    drain(tape, part.to_ill_formed_utf16());
    tape.end_line();
}
