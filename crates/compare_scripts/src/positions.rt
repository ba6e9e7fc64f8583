// Calls on byte positions in texts, and on lines.
use crate::stop::Stop;
use crate::tape::{NONE, Shown, Tape};
use crate::views::write_mark;
use std::alloc::Global;
use unit_text::UnitText;
use wtf8::{UnitMark, Wtf8};
use wtf8_uses::line_columns::{LineColumns, line_column_at, lines_of, mark_at_column};

/// `truncate_units`.
pub fn truncate(text: &mut UnitText<Global>, tape: &mut Tape<'_>) -> Result<(), Stop> {
    let n = tape.reader.number();
    if text.unit_len() < n {
        return Err(Stop::Refused);
    }
    text.truncate_units(n);
    Ok(())
}

/// `position_at`: writes the position.
pub fn write_position(tape: &mut Tape<'_>, text: &UnitText<Global>) {
    let index = tape.reader.number();
    if text.unit_len() < index {
        return tape.write_stop(Stop::Refused);
    }
    tape.write_found("position", Some(text.position_at(index)));
}

/// `unit_before`: writes the number of units.
pub fn write_unit_before(tape: &mut Tape<'_>, text: &UnitText<Global>) {
    let position = tape.reader.number();
    tape.write_found("units before", Some(text.unit_before(position)));
}

/// `units_from`: writes the units.
pub fn write_units_from(tape: &mut Tape<'_>, text: &UnitText<Global>) {
    let index = tape.reader.number();
    if text.unit_len() < index {
        return tape.write_stop(Stop::Refused);
    }
    tape.write_word("units from");
    for unit in text.units_from(index) {
        unit.show(tape);
    }
    tape.end_line();
}

/// Writes the mark at the start of each line, then the line and the column of each position.
pub fn write_lines(tape: &mut Tape<'_>, text: Wtf8<'_>) {
    match lines_of(tape.alloc, text) {
        Ok(lines) => write_starts_and_columns(tape, &lines),
        Err(_) => tape.write_stop(Stop::Memory),
    }
}

/// Writes the mark at the start of each line, then the line and the column of each position.
fn write_starts_and_columns(tape: &mut Tape<'_>, lines: &LineColumns<'_, Global>) {
    write_starts(tape, lines.starts.as_slice());
    write_columns(tape, lines);
}

/// Writes the mark at the start of each line.
fn write_starts(tape: &mut Tape<'_>, starts: &[UnitMark]) {
    tape.write_word("lines");
    for start in starts {
        write_mark(tape, *start);
    }
    tape.end_line();
}

/// Writes the line and the column of each position.
fn write_columns(tape: &mut Tape<'_>, lines: &LineColumns<'_, Global>) {
    tape.write_word("columns");
    for position in 0..=lines.text.len() {
        let found = line_column_at(lines, position);
        write!(tape, " {}:{}", found.line, found.column);
    }
    tape.end_line();
}

/// `mark_at_column`: writes the mark, or that there is none.
pub fn write_mark_at_column(tape: &mut Tape<'_>, text: Wtf8<'_>) {
    let (line, column) = tape.reader.range();
    match lines_of(tape.alloc, text) {
        Ok(lines) => write_found_mark(tape, mark_at_column(&lines, line, column)),
        Err(_) => tape.write_stop(Stop::Memory),
    }
}

/// Writes a line of a mark, or that there is none.
fn write_found_mark(tape: &mut Tape<'_>, mark: Option<UnitMark>) {
    match mark {
        Some(mark) => {
            tape.write_word("mark");
            write_mark(tape, mark);
            tape.end_line();
        }
        None => tape.write_between("mark ", NONE, "\n"),
    }
}
