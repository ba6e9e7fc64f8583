// Runs a script.
use crate::opcodes::{Call, Change, Make, StringCall};
use crate::reader::{Reader, Register, STRINGS};
use crate::stop::Stop;
use crate::tape::Tape;
use crate::texts::Texts;
use crate::views::write_operand_results;
use std::alloc::{AllocError, Global};
use std::array;
use unit_text::IndexedBuf;
use wtf8::{Wtf8, Wtf8Buf};

/// Returns the transcript of a script: what each call returns and, if it changes a string or a text, the string's
/// length and bytes or the text's units; of the indexed string the number of units, the length and the bytes. `None` if
/// the script ends inside a call or has an invalid byte or text.
pub fn run_script(alloc: Global, script: &[u8]) -> Result<Option<String>, AllocError> {
    match transcript_of(alloc, script) {
        Ok(transcript) => Ok(Some(transcript)),
        Err(Stop::Memory) => Err(AllocError),
        Err(_) => Ok(None),
    }
}

/// Returns the transcript of a script, or why it has none.
fn transcript_of(alloc: Global, script: &[u8]) -> Result<String, Stop> {
    let mut tape = Tape::new(alloc, script);
    let mut machine = Machine::new(alloc);
    for _ in 0..script.len() {
        let Some(opcode) = tape.reader.opcode() else {
            break;
        };
        machine.run(opcode, &mut tape);
        if let Some(stop) = tape.reader.fault {
            return Err(stop);
        }
    }
    Ok(tape.transcript)
}

/// The state of a script: its strings by register, its texts, and its indexed string.
#[derive(Drop)]
pub struct Machine {
    pub strings: [Wtf8Buf<Global>; STRINGS],
    texts: Texts,
    pub indexed: IndexedBuf<Global>,
}

impl Machine {
    /// Makes empty strings and texts.
    fn new(alloc: Global) -> Machine {
        Machine {
            strings: array::from_fn(|_| Wtf8Buf::new(alloc)),
            texts: Texts::new(alloc),
            indexed: IndexedBuf::new(alloc),
        }
    }

    /// Runs the call of an opcode, whose operands come next in the script, and writes what it returns, or why it does
    /// not accept its operands.
    fn run(&mut self, opcode: u8, tape: &mut Tape<'_>) {
        match Call::from_opcode(opcode) {
            Some(Call::Operands(call)) => write_operand_results(call, tape),
            Some(Call::String(call)) => self.run_at(call, tape),
            Some(Call::Text(call)) => self.texts.run(call, tape),
            Some(Call::Indexed(call)) => self.run_indexed(call, tape),
            Some(Call::Silence) => tape.is_silent = true,
            None => tape.write_stop(Stop::Malformed),
        }
    }

    /// Runs a call on one of the strings.
    fn run_at(&mut self, call: StringCall, tape: &mut Tape<'_>) {
        let at = tape.reader.register();
        match call {
            StringCall::Change(call) => self.write_change(call, at, tape),
            StringCall::Read(call) => self.write_results(call, at, tape),
            StringCall::ReadSlice => self.write_slice_results(at, tape),
            StringCall::CompareSlices => self.compare_slices(at, tape),
            StringCall::Apply => self.apply_each(at, tape),
        }
    }

    /// Runs a call that changes one of the strings, and writes the string.
    fn write_change(&mut self, call: Change, at: Register, tape: &mut Tape<'_>) {
        match self.change(call, at, tape) {
            Ok(()) => tape.write_string(at, self.view(at)),
            Err(stop) => tape.write_stop(stop),
        }
    }

    /// Runs a call that changes one of the strings.
    fn change(&mut self, call: Change, at: Register, tape: &mut Tape<'_>) -> Result<(), Stop> {
        match call {
            Change::Make(call) => return self.replace(call, at, tape),
            Change::Append(call) => return self.append(call, at, tape),
            Change::Cut(call) => return self.cut(call, at, tape),
            Change::Convert(call) => self.convert(call, at, tape),
            Change::ShrinkToFit => self.strings[at.index].shrink_to_fit(),
        }
        Ok(())
    }

    /// Replaces one of the strings by the one that a call makes.
    fn replace(&mut self, call: Make, at: Register, tape: &mut Tape<'_>) -> Result<(), Stop> {
        self.strings[at.index] = self.make(call, at, tape)?;
        Ok(())
    }

    /// The string of a register.
    pub fn string(&self, at: Register) -> &Wtf8Buf<Global> {
        &self.strings[at.index]
    }

    /// A view of the string of a register.
    pub fn view(&self, at: Register) -> Wtf8<'_> {
        self.string(at).as_wtf8()
    }

    /// Reads a start and an end, and returns that slice of a string. `None` unless they are boundaries in order.
    pub fn read_slice(&self, at: Register, reader: &mut Reader<'_>) -> Option<Wtf8<'_>> {
        let whole = self.view(at);
        let (begin, end) = reader.range();
        let is_slice = begin <= end
            && whole.is_code_point_boundary(begin)
            && whole.is_code_point_boundary(end);
        if !is_slice {
            return None;
        }
        Some(whole.slice(begin, end))
    }
}
