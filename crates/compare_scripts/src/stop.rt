// The error of this crate.
use std::alloc::{AllocError, Global};
use unit_text::{IndexedBuf, UnitText};
use wtf8::Wtf8Buf;

/// Why a call failed. All functions of this crate return this error, so that no `?` converts one: the proof of a
/// function that converts several errors takes twice as long.
#[derive(Clone, Copy)]
pub enum Stop {
    /// The call does not accept a position or a range.
    Refused,
    /// A value is not a code point.
    NoCodePoint,
    /// A value is not a scalar value.
    NoCharacter,
    /// The script ends inside the call, a byte is not valid where it is read, or a text is not UTF-8.
    Malformed,
    /// A request for memory was refused.
    Memory,
}

// The next functions convert the error of a call that allocates to that of this crate. There is one for each type, since
// the proof of a caller is larger if what it calls is generic.

/// Converts what a call returns that makes nothing.
pub fn done(returned: Result<(), AllocError>) -> Result<(), Stop> {
    match returned {
        Ok(()) => Ok(()),
        Err(_) => Err(Stop::Memory),
    }
}

/// Converts what a call returns that makes a string.
pub fn string_made(returned: Result<Wtf8Buf<Global>, AllocError>) -> Result<Wtf8Buf<Global>, Stop> {
    match returned {
        Ok(string) => Ok(string),
        Err(_) => Err(Stop::Memory),
    }
}

/// Converts what a call returns that makes a text.
pub fn text_made(returned: Result<UnitText<Global>, AllocError>) -> Result<UnitText<Global>, Stop> {
    match returned {
        Ok(text) => Ok(text),
        Err(_) => Err(Stop::Memory),
    }
}

/// Converts what a call returns that makes an indexed string.
pub fn indexed_made(
    returned: Result<IndexedBuf<Global>, AllocError>,
) -> Result<IndexedBuf<Global>, Stop> {
    match returned {
        Ok(string) => Ok(string),
        Err(_) => Err(Stop::Memory),
    }
}
