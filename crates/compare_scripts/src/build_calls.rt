// Building calls, applied one by one and as lists.
use crate::building::with_view;
use crate::machine::Machine;
use crate::reader::{Reader, Register};
use crate::stop::Stop;
use crate::tape::{Shown, Tape};
use refusing::Refusing;
use std::alloc::{Allocator, Global};
use wtf8::{Build, CodePoint, Stopped, Wtf8, Wtf8Buf};

/// The number of grants that means no limit.
const UNBOUNDED: usize = 0xFFFF;

impl Machine {
    /// `apply` of each call of a list: writes what it returns, and the string after it. The calls refer to the strings
    /// as they were before the list.
    pub fn apply_each(&mut self, at: Register, tape: &mut Tape<'_>) {
        match self.applied(at, tape) {
            Ok(string) => self.strings[at.index] = string,
            Err(stop) => tape.write_stop(stop),
        }
    }

    /// Returns a copy of a string after `apply` of each call of a list.
    fn applied(&self, at: Register, tape: &mut Tape<'_>) -> Result<Wtf8Buf<Global>, Stop> {
        let points = tape.reader.points(tape.alloc);
        let calls = self.read_calls(tape, points.as_slice());
        let mut string = self.copy_of(at, tape);
        apply_calls(&mut string, at, calls.as_slice(), tape)?;
        Ok(string)
    }

    /// `apply_all` of a list of calls, on a copy with spare capacity and an allocator that grants a number of requests.
    /// Writes the number of refused truncations or the index of the refused call, then the units. Returns the string.
    pub fn apply_all(&self, at: Register, tape: &mut Tape<'_>) -> Result<Wtf8Buf<Global>, Stop> {
        let (spare, grants) = tape.reader.range();
        let points = tape.reader.points(tape.alloc);
        let calls = self.read_calls(tape, points.as_slice());
        apply_with_grants(self.view(at), spare, grants, calls.as_slice(), tape)
    }

    /// Reads a count of one byte, then that number of building calls. A call whose value is not a code point, or not a
    /// scalar value for `PushChar`, is left out.
    fn read_calls<'s: 'c, 'c>(
        &'c self,
        tape: &mut Tape<'s>,
        points: &'c [CodePoint],
    ) -> Vec<Build<'c>> {
        let mut calls = Vec::new(tape.alloc);
        for _ in 0..tape.reader.byte() {
            if let Some(call) = self.read_call(&mut tape.reader, points) {
                if calls.push(call).is_err() {
                    tape.reader.fail(Stop::Memory);
                }
            }
        }
        calls
    }

    /// Reads a building call: a byte that names it, and its operand. `None` if that is a value that `read_calls` leaves
    /// out, or the byte names no call, which is a fault.
    fn read_call<'s: 'c, 'c>(
        &'c self,
        reader: &mut Reader<'s>,
        points: &'c [CodePoint],
    ) -> Option<Build<'c>> {
        match reader.byte() {
            0 => push_of(reader.point()),
            1 => push_char_of(reader.character()),
            2 => Some(Build::PushStr(reader.text())),
            3 => Some(Build::PushWtf8(self.view(reader.register()))),
            4 => Some(Build::Extend(&points[..reader.number().min(points.len())])),
            5 => Some(Build::Reserve(reader.number())),
            6 => Some(Build::Truncate(reader.number())),
            7 => Some(Build::TruncateUnits(reader.number())),
            _ => {
                reader.fail(Stop::Malformed);
                None
            }
        }
    }
}

/// `Build::Push` of a value that was read, if it is a code point.
fn push_of<'c>(value: Result<CodePoint, Stop>) -> Option<Build<'c>> {
    match value {
        Ok(point) => Some(Build::Push(point)),
        Err(_) => None,
    }
}

/// `Build::PushChar` of a value that was read, if it is a scalar value.
fn push_char_of<'c>(value: Result<char, Stop>) -> Option<Build<'c>> {
    match value {
        Ok(c) => Some(Build::PushChar(c)),
        Err(_) => None,
    }
}

/// `apply` of each call: writes what it returns, and the string after it.
fn apply_calls(
    string: &mut Wtf8Buf<Global>,
    at: Register,
    calls: &[Build<'_>],
    tape: &mut Tape<'_>,
) -> Result<(), Stop> {
    for call in calls {
        let Ok(is_kept) = string.apply(*call) else {
            return Err(Stop::Memory);
        };
        tape.write_truth("applied", is_kept);
        tape.write_string(at, string.as_wtf8());
    }
    Ok(())
}

/// `apply_all` on a copy of a view with spare capacity, after which `grants` requests for memory are granted.
fn apply_with_grants(
    view: Wtf8<'_>,
    spare: usize,
    grants: usize,
    calls: &[Build<'_>],
    tape: &mut Tape<'_>,
) -> Result<Wtf8Buf<Global>, Stop> {
    let heap = Refusing::new(tape.alloc, u64::MAX);
    let string = with_spare(&heap, view, spare)?;
    if grants < UNBOUNDED {
        heap.grant(grants as u64);
    }
    apply_list(string, calls, tape)
}

/// A copy of a view with at least `spare` bytes of spare capacity.
fn with_spare<A: Allocator + Drop>(
    alloc: A,
    view: Wtf8<'_>,
    spare: usize,
) -> Result<Wtf8Buf<A>, Stop> {
    let capacity = view.len().saturating_add(spare);
    let Ok(string) = Wtf8Buf::with_capacity(alloc, capacity) else {
        return Err(Stop::Memory);
    };
    with_view(string, view)
}

/// `apply_all`: writes what it returns and the units, and returns a copy of the string.
fn apply_list<A: Allocator + Drop>(
    string: Wtf8Buf<A>,
    calls: &[Build<'_>],
    tape: &mut Tape<'_>,
) -> Result<Wtf8Buf<Global>, Stop> {
    let mut string = string;
    write_refusals(string.apply_all(calls), tape);
    write_units(tape, string.as_wtf8());
    with_view(Wtf8Buf::new(tape.alloc), string.as_wtf8())
}

/// Writes what `apply_all` returns.
fn write_refusals(returned: Result<usize, Stopped>, tape: &mut Tape<'_>) {
    match returned {
        Ok(refused) => writeln!(tape, "all, {refused} refused"),
        Err(Stopped { done }) => writeln!(tape, "stopped at {done}"),
    }
}

/// Writes a line with the units of a string.
fn write_units(tape: &mut Tape<'_>, view: Wtf8<'_>) {
    tape.write_word("units");
    for unit in view.to_ill_formed_utf16() {
        unit.show(tape);
    }
    tape.end_line();
}
