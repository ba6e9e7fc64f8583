// The calls on the indexed string.
use crate::comparing::write_comparisons;
use crate::iterators::write_steps;
use crate::machine::Machine;
use crate::opcodes::{
    AppendIndexed, ChangeIndexed, CutIndexed, IndexedCall, MakeIndexed, ReadIndexed,
};
use crate::recorder::write_hash_input;
use crate::stop::{Stop, done, indexed_made};
use crate::tape::Tape;
use crate::views::{write_all_units, write_made_text, write_slice, zeros_before_units};
use std::alloc::Global;
use std::mem;
use unit_text::IndexedBuf;
use wtf8::{Wtf8, Wtf8Buf};

impl Machine {
    /// Runs a call, whose operands come next in the script, and writes what it returns.
    pub fn run_indexed(&mut self, call: IndexedCall, tape: &mut Tape<'_>) {
        match call {
            IndexedCall::Change(call) => self.write_indexed_change(call, tape),
            IndexedCall::Read(call) => self.write_indexed_results(call, tape),
            IndexedCall::IntoBuf => self.take_indexed(tape),
            IndexedCall::PushSlice => self.push_indexed_slice(tape),
        }
    }

    /// Runs a call that changes the indexed string, and writes the string.
    fn write_indexed_change(&mut self, call: ChangeIndexed, tape: &mut Tape<'_>) {
        match self.change_indexed(call, tape) {
            Ok(()) => tape.write_indexed(&self.indexed),
            Err(stop) => tape.write_stop(stop),
        }
    }

    /// Runs a call that changes the indexed string.
    fn change_indexed(&mut self, call: ChangeIndexed, tape: &mut Tape<'_>) -> Result<(), Stop> {
        match call {
            ChangeIndexed::Make(call) => return self.replace_indexed(call, tape),
            ChangeIndexed::Append(call) => return append(&mut self.indexed, call, tape),
            ChangeIndexed::PushWtf8 => return self.push_to_indexed(tape),
            ChangeIndexed::PushUnitSlice => return self.push_slice_to_indexed(tape),
            ChangeIndexed::Cut(call) => return cut(&mut self.indexed, call, tape),
            ChangeIndexed::ReplaceUnits => return replace_units(&mut self.indexed, tape),
            ChangeIndexed::Replace => return self.replace_by_string(tape),
            ChangeIndexed::Mark => self.indexed.mark_units(tape.alloc),
            ChangeIndexed::ShrinkToFit => self.indexed.shrink_to_fit(),
        }
        Ok(())
    }

    /// Replaces the indexed string by the one that a call makes.
    fn replace_indexed(&mut self, call: MakeIndexed, tape: &mut Tape<'_>) -> Result<(), Stop> {
        self.indexed = self.make_indexed(call, tape)?;
        Ok(())
    }

    /// Makes the string that replaces the indexed one.
    fn make_indexed(
        &self,
        call: MakeIndexed,
        tape: &mut Tape<'_>,
    ) -> Result<IndexedBuf<Global>, Stop> {
        match call {
            MakeIndexed::New => Ok(IndexedBuf::new(tape.alloc)),
            MakeIndexed::WithCapacity => with_capacity(tape),
            MakeIndexed::FromUnits => from_units(tape),
            MakeIndexed::FromBuf => Ok(IndexedBuf::from_buf(self.copy(tape))),
            MakeIndexed::Clone => indexed_made(self.indexed.clone()),
        }
    }

    /// `push_wtf8` of a clone of a string.
    fn push_to_indexed(&mut self, tape: &mut Tape<'_>) -> Result<(), Stop> {
        let piece = self.copy(tape);
        done(self.indexed.push_wtf8(piece.as_wtf8()))
    }

    /// `push_unit_slice` of the `slice_units` of a clone of a string.
    fn push_slice_to_indexed(&mut self, tape: &mut Tape<'_>) -> Result<(), Stop> {
        let whole = self.copy(tape);
        let (begin, end) = tape.reader.range();
        append_slice(&mut self.indexed, whole.as_wtf8(), begin, end)
    }

    /// `insert` or `replace`, by a clone of a string.
    fn replace_by_string(&mut self, tape: &mut Tape<'_>) -> Result<(), Stop> {
        let (begin, end) = tape.reader.range();
        let new = self.copy(tape);
        replace_part(&mut self.indexed, begin, end, new.as_wtf8())
    }

    /// `into_buf`: the result becomes the string of a register.
    fn take_indexed(&mut self, tape: &mut Tape<'_>) {
        let at = tape.reader.register();
        let indexed = mem::replace(&mut self.indexed, IndexedBuf::new(tape.alloc));
        self.strings[at.index] = indexed.into_buf();
        tape.write_string(at, self.view(at));
    }

    /// `slice_units`: writes the slice, appends it to the string of a register, and writes this string.
    fn push_indexed_slice(&mut self, tape: &mut Tape<'_>) {
        let at = tape.reader.register();
        let mut string = mem::replace(&mut self.strings[at.index], Wtf8Buf::new(tape.alloc));
        let pushed = push_slice(&self.indexed, &mut string, tape);
        self.strings[at.index] = string;
        match pushed {
            Ok(()) => tape.write_string(at, self.view(at)),
            Err(stop) => tape.write_stop(stop),
        }
    }

    /// Runs a call that reads the indexed string, and writes what it returns.
    fn write_indexed_results(&self, call: ReadIndexed, tape: &mut Tape<'_>) {
        let string = &self.indexed;
        match call {
            ReadIndexed::UnitAt => write_unit(tape, string),
            ReadIndexed::CopyUnits => write_copied_units(tape, string),
            ReadIndexed::UnitsFrom => write_units_from(tape, string),
            ReadIndexed::PositionAt => write_position(tape, string),
            ReadIndexed::UnitBefore => write_unit_before(tape, string),
            ReadIndexed::Comparisons => self.compare_indexed(tape),
            ReadIndexed::Hash => write_hash_input(tape, string),
            ReadIndexed::Debug => write_debug_text(tape, string),
        }
    }

    /// Compares the indexed string with a clone of a string.
    fn compare_indexed(&self, tape: &mut Tape<'_>) {
        let other = IndexedBuf::from_buf(self.copy(tape));
        write_comparisons(tape, "indexed", &self.indexed, &other);
    }
}

/// `with_capacity`: writes whether the capacity is at least the requested one.
fn with_capacity(tape: &mut Tape<'_>) -> Result<IndexedBuf<Global>, Stop> {
    let capacity = tape.reader.number();
    let Ok(string) = IndexedBuf::with_capacity(tape.alloc, capacity) else {
        return Err(Stop::Memory);
    };
    tape.write_room(string.capacity() - string.as_wtf8().len(), capacity);
    Ok(string)
}

/// `from_units`.
fn from_units(tape: &mut Tape<'_>) -> Result<IndexedBuf<Global>, Stop> {
    let units = tape.reader.counted_units(tape.alloc);
    indexed_made(IndexedBuf::from_units(tape.alloc, units.as_slice()))
}

/// Runs a call that appends to the indexed string, or `reserve`.
fn append(
    string: &mut IndexedBuf<Global>,
    call: AppendIndexed,
    tape: &mut Tape<'_>,
) -> Result<(), Stop> {
    match call {
        AppendIndexed::Reserve => reserve(string, tape),
        AppendIndexed::Push => done(string.push(tape.reader.point()?)),
        AppendIndexed::PushUnit => done(string.push_unit(tape.reader.unit())),
        AppendIndexed::PushChar => done(string.push_char(tape.reader.character()?)),
        AppendIndexed::PushStr => done(string.push_str(tape.reader.text())),
        AppendIndexed::PushUnits => push_units(string, tape),
    }
}

/// `reserve`: writes whether the spare capacity is at least the requested one.
fn reserve(string: &mut IndexedBuf<Global>, tape: &mut Tape<'_>) -> Result<(), Stop> {
    let additional = tape.reader.number();
    let Ok(()) = string.reserve(additional) else {
        return Err(Stop::Memory);
    };
    tape.write_room(string.capacity() - string.as_wtf8().len(), additional);
    Ok(())
}

/// `push_units`.
fn push_units(string: &mut IndexedBuf<Global>, tape: &mut Tape<'_>) -> Result<(), Stop> {
    let units = tape.reader.counted_units(tape.alloc);
    done(string.push_units(units.as_slice()))
}

/// `push_unit_slice` of the units of another string from index `begin` to before index `end`.
fn append_slice(
    string: &mut IndexedBuf<Global>,
    whole: Wtf8<'_>,
    begin: usize,
    end: usize,
) -> Result<(), Stop> {
    if end < begin || whole.unit_len() < end {
        return Err(Stop::Refused);
    }
    done(string.push_unit_slice(whole.slice_units(begin, end)))
}

/// `truncate`, `truncate_units` and `clear`: writes whether the capacity was unchanged.
fn cut(string: &mut IndexedBuf<Global>, call: CutIndexed, tape: &mut Tape<'_>) -> Result<(), Stop> {
    let capacity = string.capacity();
    shorten(string, call, tape)?;
    tape.write_kept(string.capacity() == capacity);
    Ok(())
}

/// `truncate`, `truncate_units` and `clear`.
fn shorten(
    string: &mut IndexedBuf<Global>,
    call: CutIndexed,
    tape: &mut Tape<'_>,
) -> Result<(), Stop> {
    match call {
        CutIndexed::Truncate => truncate(string, tape),
        CutIndexed::TruncateUnits => truncate_units(string, tape),
        CutIndexed::Clear => {
            string.clear();
            Ok(())
        }
    }
}

/// `truncate`.
fn truncate(string: &mut IndexedBuf<Global>, tape: &mut Tape<'_>) -> Result<(), Stop> {
    let position = tape.reader.number();
    if !string.as_wtf8().is_code_point_boundary(position) {
        return Err(Stop::Refused);
    }
    string.truncate(position);
    Ok(())
}

/// `truncate_units`.
fn truncate_units(string: &mut IndexedBuf<Global>, tape: &mut Tape<'_>) -> Result<(), Stop> {
    let count = tape.reader.number();
    if string.unit_len() < count {
        return Err(Stop::Refused);
    }
    string.truncate_units(count);
    Ok(())
}

/// `insert_units`, `remove_units` or `replace_units`.
fn replace_units(string: &mut IndexedBuf<Global>, tape: &mut Tape<'_>) -> Result<(), Stop> {
    let (begin, end) = tape.reader.range();
    let units = tape.reader.counted_units(tape.alloc);
    replace_part_by_units(string, begin, end, units.as_slice())
}

/// The call that replaces the units from one index to another by others.
fn replace_part_by_units(
    string: &mut IndexedBuf<Global>,
    begin: usize,
    end: usize,
    units: &[u16],
) -> Result<(), Stop> {
    if end < begin || string.unit_len() < end {
        return Err(Stop::Refused);
    }
    if begin == end {
        return done(string.insert_units(begin, units));
    }
    if units.is_empty() {
        return done(string.remove_units(begin, end));
    }
    done(string.replace_units(begin, end, units))
}

/// The call that replaces the units from one index to another by a string.
fn replace_part(
    string: &mut IndexedBuf<Global>,
    begin: usize,
    end: usize,
    new: Wtf8<'_>,
) -> Result<(), Stop> {
    if end < begin || string.unit_len() < end {
        return Err(Stop::Refused);
    }
    if begin == end {
        return done(string.insert(begin, new));
    }
    done(string.replace(begin, end, new))
}

/// `slice_units`: writes the slice, and appends it to a string.
fn push_slice(
    indexed: &IndexedBuf<Global>,
    string: &mut Wtf8Buf<Global>,
    tape: &mut Tape<'_>,
) -> Result<(), Stop> {
    let (begin, end) = tape.reader.range();
    if end < begin || indexed.unit_len() < end {
        return Err(Stop::Refused);
    }
    let slice = indexed.slice_units(begin, end);
    write_slice(tape, slice);
    done(string.push_unit_slice(slice))
}

/// `unit_at`: writes the unit.
fn write_unit(tape: &mut Tape<'_>, string: &IndexedBuf<Global>) {
    let index = tape.reader.number();
    tape.write_found("unit", string.unit_at(index));
}

/// `copy_units` to zeros, one for each unit, with units of the script after them: writes all units of the slice.
fn write_copied_units(tape: &mut Tape<'_>, string: &IndexedBuf<Global>) {
    let (begin, end) = tape.reader.range();
    match zeros_before_units(tape, end.saturating_sub(begin)) {
        Ok(mut units) => write_units_over(tape, string, (begin, end), &mut units),
        Err(stop) => tape.write_stop(stop),
    }
}

/// `copy_units` to a slice: writes all units of the slice.
fn write_units_over(
    tape: &mut Tape<'_>,
    string: &IndexedBuf<Global>,
    (begin, end): (usize, usize),
    units: &mut [u16],
) {
    if end < begin || string.unit_len() < end || units.len() < end - begin {
        return tape.write_stop(Stop::Refused);
    }
    string.copy_units(begin, end, units);
    tape.write_word("copied");
    write_all_units(tape, units);
}

/// `units_from`: writes the steps of the iterator.
fn write_units_from(tape: &mut Tape<'_>, string: &IndexedBuf<Global>) {
    let index = tape.reader.number();
    if string.unit_len() < index {
        tape.reader.bytes();
        return tape.write_stop(Stop::Refused);
    }
    tape.write_word("units from");
    write_steps(tape, string.units_from(index));
}

/// `position_at`: writes the position.
fn write_position(tape: &mut Tape<'_>, string: &IndexedBuf<Global>) {
    let index = tape.reader.number();
    if string.unit_len() < index {
        return tape.write_stop(Stop::Refused);
    }
    tape.write_found("position", Some(string.position_at(index)));
}

/// `unit_before`: writes the number of units.
fn write_unit_before(tape: &mut Tape<'_>, string: &IndexedBuf<Global>) {
    let position = tape.reader.number();
    tape.write_found("units before", Some(string.unit_before(position)));
}

/// Writes the bytes of the debug text.
fn write_debug_text(tape: &mut Tape<'_>, string: &IndexedBuf<Global>) {
    write_made_text(tape, "indexed", format!(in tape.alloc; "{string:?}").ok());
}
