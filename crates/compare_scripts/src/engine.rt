// Further calls on texts, which correspond to methods of a JavaScript engine's strings.
use crate::stop::{Stop, text_made};
use crate::tape::Tape;
use std::alloc::Global;
use unit_text::UnitText;
use wtf8_uses::string_prototype::{at, ends_with, pad_start, repeat, replace, split};

/// `at` an index and at its negation, which counts from the end: writes both units.
pub fn write_units_at(tape: &mut Tape<'_>, text: &UnitText<Global>) {
    let position = tape.reader.unit() as isize;
    tape.write_two("at", at(text, position), at(text, -position));
}

/// `split`: writes the number of pieces, then one piece a line.
pub fn write_pieces(tape: &mut Tape<'_>, text: &UnitText<Global>) {
    let separator = tape.reader.unit();
    match split(tape.alloc, text, separator) {
        Ok(pieces) => write_each(tape, pieces.as_slice()),
        Err(_) => tape.write_stop(Stop::Memory),
    }
}

/// Writes the number of pieces, then one piece a line.
fn write_each(tape: &mut Tape<'_>, pieces: &[UnitText<Global>]) {
    writeln!(tape, "{} pieces", pieces.len());
    for piece in pieces {
        tape.write_units(piece);
    }
}

/// `ends_with`.
pub fn write_end(tape: &mut Tape<'_>, text: &UnitText<Global>, other: &UnitText<Global>) {
    let position = tape.reader.number();
    tape.write_truth("ends", ends_with(text, other, position));
}

/// `pad_start` with the other text.
pub fn padded(
    tape: &mut Tape<'_>,
    text: &UnitText<Global>,
    other: &UnitText<Global>,
) -> Result<UnitText<Global>, Stop> {
    let width = tape.reader.number();
    text_made(pad_start(tape.alloc, text, width, other))
}

/// `repeat`.
pub fn repeated(tape: &mut Tape<'_>, text: &UnitText<Global>) -> Result<UnitText<Global>, Stop> {
    let count = tape.reader.number();
    text_made(repeat(tape.alloc, text, count))
}

/// `replace` of the other text by units of the script.
pub fn replaced(
    tape: &mut Tape<'_>,
    text: &UnitText<Global>,
    other: &UnitText<Global>,
) -> Result<UnitText<Global>, Stop> {
    let replacement = tape.read_units();
    text_made(replace(tape.alloc, text, other, &replacement))
}
