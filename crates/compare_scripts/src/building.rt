// Calls that make strings or change them.
use crate::hinted::Hinted;
use crate::machine::Machine;
use crate::opcodes::{Append, Convert, Cut, Make, OpenSlice};
use crate::reader::Register;
use crate::stop::{Stop, done, string_made};
use crate::tape::Tape;
use std::alloc::{Allocator, Global};
use std::mem;
use wtf8::{Wtf8, Wtf8Buf, Wtf8CodePoints};

impl Machine {
    /// Makes the string of a call for register `at`. `with_capacity` and `apply_all` also write lines of their own.
    pub fn make(
        &self,
        call: Make,
        at: Register,
        tape: &mut Tape<'_>,
    ) -> Result<Wtf8Buf<Global>, Stop> {
        match call {
            Make::New => Ok(Wtf8Buf::new(tape.alloc)),
            Make::WithCapacity => with_capacity(tape),
            Make::FromString => from_string(tape),
            Make::FromStr => string_made(Wtf8Buf::from_str(tape.alloc, tape.reader.text())),
            Make::FromIllFormedUtf16 => from_units(tape),
            Make::FromIter => from_points(tape),
            Make::FromIterCodePoints => self.from_last_points(tape),
            Make::Clone => Ok(self.copy(tape)),
            Make::Slice => self.with_slice(Wtf8Buf::new(tape.alloc), tape),
            Make::OpenSlice(call) => self.from_open_slice(call, tape),
            Make::PushSlice => self.with_pushed_slice(at, tape),
            Make::FromIterHinted => from_hinted(tape),
            Make::ApplyAll => self.apply_all(at, tape),
        }
    }

    /// `from_iter` of the code points of another string without its first ones.
    fn from_last_points(&self, tape: &mut Tape<'_>) -> Result<Wtf8Buf<Global>, Stop> {
        let other = self.string(tape.reader.register());
        let count = tape.reader.number();
        string_made(Wtf8Buf::from_iter(tape.alloc, points_after(other, count)))
    }

    /// A clone of another string.
    pub fn copy(&self, tape: &mut Tape<'_>) -> Wtf8Buf<Global> {
        let other = tape.reader.register();
        self.copy_of(other, tape)
    }

    /// A clone of the string of a register. If memory is refused, that is a fault, and the string is empty.
    pub fn copy_of(&self, at: Register, tape: &mut Tape<'_>) -> Wtf8Buf<Global> {
        match self.string(at).clone() {
            Ok(string) => string,
            Err(_) => {
                tape.reader.fail(Stop::Memory);
                Wtf8Buf::new(tape.alloc)
            }
        }
    }

    /// Appends a slice of another string to a string.
    fn with_slice(
        &self,
        string: Wtf8Buf<Global>,
        tape: &mut Tape<'_>,
    ) -> Result<Wtf8Buf<Global>, Stop> {
        let other = tape.reader.register();
        match self.read_slice(other, &mut tape.reader) {
            Some(part) => with_view(string, part),
            None => Err(Stop::Refused),
        }
    }

    /// A clone of a string to which a slice of another one is appended.
    fn with_pushed_slice(
        &self,
        at: Register,
        tape: &mut Tape<'_>,
    ) -> Result<Wtf8Buf<Global>, Stop> {
        let string = self.copy_of(at, tape);
        self.with_slice(string, tape)
    }

    /// `slice_from` and `slice_to` of another string.
    fn from_open_slice(
        &self,
        call: OpenSlice,
        tape: &mut Tape<'_>,
    ) -> Result<Wtf8Buf<Global>, Stop> {
        let whole = self.view(tape.reader.register());
        let position = tape.reader.number();
        if !whole.is_code_point_boundary(position) {
            return Err(Stop::Refused);
        }
        let part = match call {
            OpenSlice::SliceFrom => whole.slice_from(position),
            OpenSlice::SliceTo => whole.slice_to(position),
        };
        with_view(Wtf8Buf::new(tape.alloc), part)
    }

    /// Runs a call that appends to a string, or `reserve`.
    pub fn append(&mut self, call: Append, at: Register, tape: &mut Tape<'_>) -> Result<(), Stop> {
        let string = &mut self.strings[at.index];
        match call {
            Append::Reserve => reserve(string, tape),
            Append::Push => done(string.push(tape.reader.point()?)),
            Append::PushChar => done(string.push_char(tape.reader.character()?)),
            Append::PushStr => done(string.push_str(tape.reader.text())),
            Append::PushWtf8 => self.push_string(at, tape),
            Append::Extend => extend(string, tape),
            Append::ExtendCodePoints => self.extend_by_string(at, tape),
            Append::ExtendHinted => extend_hinted(string, tape),
            Append::PushIllFormedUtf16 => push_units(string, tape),
            Append::PushUnitsOf => self.push_units_of(at, tape),
            Append::PushUnit => done(string.push_unit(tape.reader.unit())),
        }
    }

    /// `push_wtf8` of a clone of another string, which may be in this register.
    fn push_string(&mut self, at: Register, tape: &mut Tape<'_>) -> Result<(), Stop> {
        let piece = self.copy(tape);
        done(self.strings[at.index].push_wtf8(piece.as_wtf8()))
    }

    /// `push_ill_formed_utf16` of the units of another string, which may be in this register.
    fn push_units_of(&mut self, at: Register, tape: &mut Tape<'_>) -> Result<(), Stop> {
        let other = tape.reader.register();
        let mut units = Vec::new(tape.alloc);
        let Ok(()) = self.view(other).append_units(&mut units) else {
            return Err(Stop::Memory);
        };
        done(self.strings[at.index].push_ill_formed_utf16(units.as_slice()))
    }

    /// `extend` by the code points of a clone of another string without its first ones.
    fn extend_by_string(&mut self, at: Register, tape: &mut Tape<'_>) -> Result<(), Stop> {
        let piece = self.copy(tape);
        let count = tape.reader.number();
        done(self.strings[at.index].extend(points_after(&piece, count)))
    }

    /// `truncate` and `truncate_units`: writes whether the capacity was unchanged.
    pub fn cut(&mut self, call: Cut, at: Register, tape: &mut Tape<'_>) -> Result<(), Stop> {
        let position = tape.reader.number();
        let string = &mut self.strings[at.index];
        let capacity = string.capacity();
        match call {
            Cut::Truncate if string.as_wtf8().is_code_point_boundary(position) => {
                string.truncate(position);
            }
            Cut::TruncateUnits if position <= string.as_wtf8().unit_len() => {
                string.truncate_units(position);
            }
            Cut::Truncate | Cut::TruncateUnits => return Err(Stop::Refused),
        }
        tape.write_kept(string.capacity() == capacity);
        Ok(())
    }

    /// `into_string` and `into_string_lossy`: writes the bytes of the text and whether the capacity was unchanged, or
    /// that there is no text. The result becomes the register's string again.
    pub fn convert(&mut self, call: Convert, at: Register, tape: &mut Tape<'_>) {
        let string = mem::replace(&mut self.strings[at.index], Wtf8Buf::new(tape.alloc));
        self.strings[at.index] = converted(call, string, tape);
    }
}

/// `with_capacity`: writes whether the capacity is at least the requested one.
fn with_capacity(tape: &mut Tape<'_>) -> Result<Wtf8Buf<Global>, Stop> {
    let capacity = tape.reader.number();
    let Ok(string) = Wtf8Buf::with_capacity(tape.alloc, capacity) else {
        return Err(Stop::Memory);
    };
    tape.write_room(string.capacity() - string.len(), capacity);
    Ok(string)
}

/// `from_string`.
fn from_string(tape: &mut Tape<'_>) -> Result<Wtf8Buf<Global>, Stop> {
    match String::from_str(tape.alloc, tape.reader.text()) {
        Ok(text) => Ok(Wtf8Buf::from_string(text)),
        Err(_) => Err(Stop::Memory),
    }
}

/// `from_ill_formed_utf16`.
fn from_units(tape: &mut Tape<'_>) -> Result<Wtf8Buf<Global>, Stop> {
    let units = tape.reader.counted_units(tape.alloc);
    string_made(Wtf8Buf::from_ill_formed_utf16(tape.alloc, units.as_slice()))
}

/// `from_iter` of code points.
fn from_points(tape: &mut Tape<'_>) -> Result<Wtf8Buf<Global>, Stop> {
    let points = tape.reader.points(tape.alloc);
    string_made(Wtf8Buf::from_iter(tape.alloc, points))
}

/// `from_iter` of code points with a lower size hint from the script.
fn from_hinted(tape: &mut Tape<'_>) -> Result<Wtf8Buf<Global>, Stop> {
    let low = tape.reader.number();
    let points = tape.reader.points(tape.alloc);
    let points = points.as_slice();
    string_made(Wtf8Buf::from_iter(tape.alloc, Hinted { points, low }))
}

/// Appends a view to a string.
pub fn with_view<A: Allocator + Drop>(
    string: Wtf8Buf<A>,
    view: Wtf8<'_>,
) -> Result<Wtf8Buf<A>, Stop> {
    let mut string = string;
    let Ok(()) = string.push_wtf8(view) else {
        return Err(Stop::Memory);
    };
    Ok(string)
}

/// `reserve`: writes whether the spare capacity is at least the requested one.
fn reserve(string: &mut Wtf8Buf<Global>, tape: &mut Tape<'_>) -> Result<(), Stop> {
    let additional = tape.reader.number();
    let Ok(()) = string.reserve(additional) else {
        return Err(Stop::Memory);
    };
    tape.write_room(string.capacity() - string.len(), additional);
    Ok(())
}

/// `push_ill_formed_utf16`.
fn push_units(string: &mut Wtf8Buf<Global>, tape: &mut Tape<'_>) -> Result<(), Stop> {
    let units = tape.reader.counted_units(tape.alloc);
    done(string.push_ill_formed_utf16(units.as_slice()))
}

/// `extend` by code points.
fn extend(string: &mut Wtf8Buf<Global>, tape: &mut Tape<'_>) -> Result<(), Stop> {
    let points = tape.reader.points(tape.alloc);
    done(string.extend(points))
}

/// `extend` by code points with a lower size hint from the script.
fn extend_hinted(string: &mut Wtf8Buf<Global>, tape: &mut Tape<'_>) -> Result<(), Stop> {
    let low = tape.reader.number();
    let points = tape.reader.points(tape.alloc);
    let points = points.as_slice();
    done(string.extend(Hinted { points, low }))
}

/// `into_string` or `into_string_lossy` of a string. Returns its result as a string.
fn converted(call: Convert, string: Wtf8Buf<Global>, tape: &mut Tape<'_>) -> Wtf8Buf<Global> {
    let capacity = string.capacity();
    let converted = match call {
        Convert::IntoString => string.into_string(),
        Convert::IntoStringLossy => Ok(string.into_string_lossy()),
    };
    match converted {
        Ok(text) => from_converted(text, capacity, tape),
        Err(string) => {
            tape.write_line("no text");
            string
        }
    }
}

/// Writes the bytes of a text and whether its capacity was unchanged, and makes a string of it.
fn from_converted(text: String, capacity: usize, tape: &mut Tape<'_>) -> Wtf8Buf<Global> {
    tape.write_text("text", text.as_str());
    tape.write_kept(text.capacity() == capacity);
    Wtf8Buf::from_string(text)
}

/// The code points of a string without the first `count`.
fn points_after(string: &Wtf8Buf<Global>, count: usize) -> Wtf8CodePoints<'_> {
    let mut points = string.as_wtf8().code_points();
    for _ in 0..count {
        points.next();
    }
    points
}
