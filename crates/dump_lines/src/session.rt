// One run: all input is read, the output for all lines is computed, and then it is written.
ghost use Rattle.std.specs.Prelude.{◌≡◌, ◌≢◌, ◌<◌, ℕ, List, length, IfOk, OnOk, IfErr, OnErr, IsErrOf, take};
ghost use Rattle.std.specs.Io.KnownBytes.{Appends, Keeps, IsAtEnd};
ghost use Rattle.dump_lines.specs.Dump.{IsDump};
ghost use Rattle.dump_lines.specs.Known.{IsInput};

use crate::fault::Fault;
use crate::line::LineBuffers;
use crate::split::split_first_part;
use std::alloc::{AllocError, Allocator};
use std::io::{Read, Write};

/// Reads the reader to its end, computes the output for all lines, then writes it, a line for each line of input, and
/// flushes the writer. `dump_line` says what the words of a line do.
///
/// Every error is final, `Interrupted` too. Returns `Fault::Read` if a read fails and `Fault::Memory` if memory is
/// refused, both with nothing written; `Fault::Write` if a write or the flush fails or a write accepts no byte, with a
/// prefix of the output written.
pub fn run<A: Allocator + Copy, R: Read, W: Write>(
    alloc: A,
    reader: &mut R,
    writer: &mut W,
) -> Result<(), Fault>
    // On success, all was read, and its dump and nothing else was written.
    ensures end { OnOk result (IsAtEnd (R.remaining reader.new)) }
    ensures dump { OnOk result ((input : List ℕ) × (out : List ℕ) × IsInput (R.remaining reader.old) input
        × IsDump input out × Appends (W.contents writer.old) (W.contents writer.new) out) }

    // If a read fails or memory is refused, nothing was written.
    ensures read { IsErrOf result Fault.Read → Keeps (W.contents writer.old) (W.contents writer.new) }
    ensures memory { IsErrOf result Fault.Memory → Keeps (W.contents writer.old) (W.contents writer.new) }

    // If a write fails, all was read, and a prefix of the dump was written.
    ensures write_end { IsErrOf result Fault.Write → IsAtEnd (R.remaining reader.new) }
    ensures write { IsErrOf result Fault.Write → (input : List ℕ) × (out : List ℕ) × (n : ℕ)
        × IsInput (R.remaining reader.old) input × IsDump input out
        × Appends (W.contents writer.old) (W.contents writer.new) (take n out) }
{
    let input = read_input(alloc, reader)?;
    let Ok(out) = dump(alloc, input.as_slice()) else {
        return Err(Fault::Memory);
    };
    write_output(writer, out.as_slice())
}

/// Reads all bytes that the reader has left.
fn read_input<A: Allocator + Copy, R: Read>(alloc: A, reader: &mut R) -> Result<Vec<u8, A>, Fault>
    ensures input { IfOk result (λ input. IsInput (R.remaining reader.old) input.items) }
    ensures end { OnOk result (IsAtEnd (R.remaining reader.new)) }
    ensures fault { IfErr result (λ fault. fault ≢ Fault.Write) }
{
    let mut piece = [0; 4096];
    read_pieces(alloc, reader, &mut piece)
}

/// Reads all bytes that the reader has left, at most the length of `piece` at a time. Not part of `read_input`, since a
/// loop beside the array of 4,096 bytes takes twice as long to prove.
fn read_pieces<A: Allocator + Copy, R: Read>(
    alloc: A,
    reader: &mut R,
    piece: &mut [u8],
) -> Result<Vec<u8, A>, Fault>
    requires { 0 < length piece.old }
    ensures input { IfOk result (λ input. IsInput (R.remaining reader.old) input.items) }
    ensures end { OnOk result (IsAtEnd (R.remaining reader.new)) }
    ensures fault { IfErr result (λ fault. fault ≢ Fault.Write) }
{
    let mut input = Vec::new(alloc);
    loop {
        let Ok(count) = reader.read(piece) else {
            return Err(Fault::Read);
        };
        if count == 0 {
            return Ok(input);
        }
        if input.extend_from_slice(&piece[..count]).is_err() {
            return Err(Fault::Memory);
        }
    }
}

/// Returns the output for an input: a line for each of its lines.
fn dump<A: Allocator + Copy>(alloc: A, input: &[u8]) -> Result<Vec<u8, A>, AllocError>
    ensures { IfOk result (λ out. IsDump input.now out.items) }
{
    let mut out = Vec::new(alloc);
    let mut buffers = LineBuffers::new(alloc);
    let mut rest = input;
    while !rest.is_empty() {
        let (line, after) = split_first_part(rest, b'\n');
        buffers.push_output(line, &mut out)?;
        out.push(b'\n')?;
        rest = after.unwrap_or(&[]);
    }
    Ok(out)
}

/// Writes the bytes and flushes the writer. On an error, a prefix of the bytes was written.
fn write_output<W: Write>(writer: &mut W, out: &[u8]) -> Result<(), Fault>
    ensures whole { OnOk result (Appends (W.contents writer.old) (W.contents writer.new) out.now) }
    ensures beginning { OnErr result ((n : ℕ)
        × Appends (W.contents writer.old) (W.contents writer.new) (take n out.now)) }
    ensures fault { IfErr result (λ fault. fault ≡ Fault.Write) }
{
    let mut written = 0;
    while written < out.len() {
        match writer.write(&out[written..]) {
            Ok(0) | Err(_) => return Err(Fault::Write),
            Ok(count) => written += count,
        }
    }
    if writer.flush().is_err() {
        return Err(Fault::Write);
    }
    Ok(())
}
