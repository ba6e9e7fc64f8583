// JSON texts of texts, and JSON strings that are read.
use crate::stop::{Stop, done};
use crate::tape::Tape;
use std::alloc::Global;
use unit_text::UnitText;
use wtf8::{Wtf8, Wtf8Buf};
use wtf8_uses::json::{append_json_bytes, append_json_text};
use wtf8_uses::json_reader::{JsonCause, JsonError, read_json_string};

/// Writes the JSON texts of two strings, appended one after the other, and whether the bytes that are appended to a
/// vector are the same.
pub fn write_json(tape: &mut Tape<'_>, first: Wtf8<'_>, second: Wtf8<'_>) {
    match json_text(tape.alloc, first, second) {
        Ok(json) => write_json_text(tape, json.as_str(), first, second),
        Err(stop) => tape.write_stop(stop),
    }
}

/// Writes a JSON text, and whether it is that of two strings appended to a vector.
fn write_json_text(tape: &mut Tape<'_>, json: &str, first: Wtf8<'_>, second: Wtf8<'_>) {
    tape.write_text("json", json);
    match json_bytes(tape.alloc, first, second) {
        Ok(bytes) => tape.write_truth("same", bytes.as_slice() == json.as_bytes()),
        Err(stop) => tape.write_stop(stop),
    }
}

/// The JSON texts of two strings, appended one after the other.
fn json_text(alloc: Global, first: Wtf8<'_>, second: Wtf8<'_>) -> Result<String, Stop> {
    let mut json = String::new(alloc);
    done(append_json_text(&mut json, first))?;
    done(append_json_text(&mut json, second))?;
    Ok(json)
}

/// The JSON texts of two strings, appended to a vector one after the other.
fn json_bytes(alloc: Global, first: Wtf8<'_>, second: Wtf8<'_>) -> Result<Vec<u8>, Stop> {
    let mut bytes = Vec::new(alloc);
    let Ok(()) = append_json_bytes(alloc, &mut bytes, first) else {
        return Err(Stop::Memory);
    };
    let Ok(()) = append_json_bytes(alloc, &mut bytes, second) else {
        return Err(Stop::Memory);
    };
    Ok(bytes)
}

/// `read_json_string`: writes the units of the string and of the text after it, or the position and the cause of the
/// error.
pub fn write_json_string(tape: &mut Tape<'_>, text: Wtf8<'_>) {
    match read_json_string(tape.alloc, text) {
        Ok((string, rest)) => write_read(tape, string, rest),
        Err(error) => write_error(tape, error),
    }
}

/// Writes the position and the cause of an error, unless memory was refused.
fn write_error(tape: &mut Tape<'_>, error: JsonError) {
    match error {
        JsonError::Memory => tape.write_stop(Stop::Memory),
        JsonError::Malformed { position, cause } => {
            let cause = name_of_cause(cause);
            writeln!(tape, "malformed {position} {cause}");
        }
    }
}

/// Writes the units of a string that was read, and of the text after it.
fn write_read(tape: &mut Tape<'_>, string: Wtf8Buf<Global>, rest: Wtf8<'_>) {
    tape.write_word("read ");
    tape.write_units(&UnitText::from_wtf8(string));
    let mut after = UnitText::new(tape.alloc);
    if after.push_wtf8(rest).is_err() {
        return tape.write_stop(Stop::Memory);
    }
    tape.write_word("rest ");
    tape.write_units(&after);
}

/// A cause in words.
fn name_of_cause(cause: JsonCause) -> &'static str {
    match cause {
        JsonCause::NotOpened => "not opened",
        JsonCause::NotClosed => "not closed",
        JsonCause::ControlCharacter => "control character",
        JsonCause::Escape => "escape",
    }
}
