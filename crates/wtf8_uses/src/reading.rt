//! Reads a string from UTF-16 in little-endian bytes.
ghost use Rattle.std.specs.Prelude.{◌≡◌, ◌≢◌, ◌/◌, ◌%◌, ℕ, List, [], ◌∷◌, ◌++◌, None, IfSome, IfOk, OnOk, IfErr, OnErr, IsErrOf};
ghost use Rattle.std.specs.Io.KnownBytes.{Consumes, IsAtEnd};
ghost use Rattle.std.specs.IoError.{error_kind};
ghost use Rattle.std.specs.declared.io.Error.{Error};
ghost use Rattle.std.specs.declared.io.ErrorKind.TheVariants.{Interrupted};
ghost use Rattle.wtf8_uses.specs.LittleEndian.{bytes_read, little_endian};

use std::alloc::{AllocError, Allocator};
use std::io::{self, ErrorKind, Read};
use wtf8::Wtf8Buf;

/// The size of the buffer for one read, in bytes.
const PIECE: usize = 4096;

/// Why `read_utf16` failed.
#[derive(Clone, Copy, Debug)]
pub enum ReadError {
    /// The reader returned this error, which is not `Interrupted`. It is also `TimedOut` if 2⁶⁴ - 1 reads did not reach
    /// the end.
    Read(io::Error),
    /// The input ended inside a unit: it has an odd number of bytes.
    HalfUnit,
    /// A request for memory was refused.
    Memory,
}

/// Reads a string of all units that a reader has left, each as a low byte and a high byte. A read may end inside a unit
/// or a surrogate pair. A byte order mark is a unit like any other.
///
/// An interrupted read is tried again; any other error is returned. After an error the bytes that were read are lost;
/// after `HalfUnit` they are the whole input.
pub fn read_utf16<A: Allocator + Copy, R: Read>(
    alloc: A,
    reader: &mut R,
) -> Result<Wtf8Buf<A>, ReadError>
    ensures units { IfOk result (λ s. IfSome (R.remaining reader.old) (λ input. input ≡ little_endian s.units)) }
    ensures end { OnOk result (IsAtEnd (R.remaining reader.new)) }
    ensures half_end { IsErrOf result ReadError.HalfUnit → IsAtEnd (R.remaining reader.new) }
    ensures half { IsErrOf result ReadError.HalfUnit →
        IfSome (R.remaining reader.old) (λ input. (u : List ℕ) × (low : ℕ) × (input ≡ little_endian u ++ low ∷ [])) }
    ensures retried { IfErr result (λ e. (error : Error) → e ≡ ReadError.Read error → error_kind error ≢ Interrupted) }
    ensures beginning { OnErr result ((input : List ℕ) × Consumes (R.remaining reader.old) (R.remaining reader.new) input) }
{
    let mut string = Wtf8Buf::new(alloc);
    let mut low = None;
    let mut piece = [0; PIECE];
    for _ in 0..u64::MAX {
        match reader.read(&mut piece) {
            Ok(0) => return whole(string, low),
            Ok(count) => {
                let Ok(left) = push_bytes(alloc, &mut string, low, &piece[..count]) else {
                    return Err(ReadError::Memory);
                };
                low = left;
            }
            Err(error) if error.kind() == ErrorKind::Interrupted => {}
            Err(error) => return Err(ReadError::Read(error)),
        }
    }
    Err(ReadError::Read(io::Error::from(ErrorKind::TimedOut)))
}

/// Appends the units of `bytes`, of which the first completes the low byte `held`, if any. Returns the low byte that is
/// left over, if any.
fn push_bytes<A: Allocator + Copy>(
    alloc: A,
    string: &mut Wtf8Buf<A>,
    held: Option<u8>,
    bytes: &[u8],
) -> Result<Option<u8>, AllocError>
    ensures { IfOk result (λ low. bytes_read string.old.units held ++ bytes.now ≡ bytes_read string.new.units low) }
{
    let mut units = Vec::with_capacity(alloc, bytes.len() / 2 + 1)?;
    let mut low = held;
    for byte in bytes {
        low = push_byte(&mut units, low, *byte)?;
    }
    let piece = Wtf8Buf::from_ill_formed_utf16(alloc, units.as_slice())?;
    string.push_wtf8(piece.as_wtf8())?;
    Ok(low)
}

/// Appends the unit of the low byte `held` and the high byte `byte`, or returns `byte` as the low byte if none is held.
fn push_byte<A: Allocator>(
    units: &mut Vec<u16, A>,
    held: Option<u8>,
    byte: u8,
) -> Result<Option<u8>, AllocError>
    ensures { IfOk result (λ low. bytes_read units.old.items held ++ byte ∷ [] ≡ bytes_read units.new.items low) }
{
    match held {
        Some(low) => {
            units.push(unit_of(low, byte))?;
            Ok(None)
        }
        None => Ok(Some(byte)),
    }
}

/// The unit of a low byte and a high byte.
fn unit_of(low: u8, high: u8) -> u16
    ensures low { result % 0x100 ≡ low }
    ensures high { result / 0x100 ≡ high }
{
    u16::from_le_bytes([low, high])
}

/// Returns the string at the end of the input, or fails if a low byte is left over.
fn whole<A: Allocator>(string: Wtf8Buf<A>, low: Option<u8>) -> Result<Wtf8Buf<A>, ReadError>
    ensures ok { IfOk result (λ s. (s.units ≡ string.units) × (low ≡ None)) }
    ensures err { IfErr result (λ e. (e ≡ ReadError.HalfUnit) × (low ≢ None)) }
{
    match low {
        None => Ok(string),
        Some(_) => Err(ReadError::HalfUnit),
    }
}
