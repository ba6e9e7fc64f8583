// Strings of bytes that should be UTF-8.
ghost use Rattle.std.specs.Prelude.{◌≡◌, List, [], IsOk, IfOk, IfErr, OnOk, OnErr, ◌≤◌};
ghost use Rattle.std.specs.Str.{chars, IsUtf8};
ghost use Rattle.wtf8.specs.Appending.{AppendsUnits, KeepsContents, HasRoomFor};
ghost use Rattle.wtf8.specs.Unicode.{units};

use crate::buffers::buf::Wtf8Buf;
use crate::lanes::utf8::from_utf8;
use crate::lanes::utf8_error::Utf8Error;
use std::alloc::{AllocError, Allocator};

/// The error of `Wtf8Buf::from_utf8` and `push_utf8`.
#[derive(Clone, Copy, PartialEq, Eq)]
pub enum TextError {
    /// The bytes are not UTF-8: how many at their front are, and how many after these are wrong together.
    NotUtf8(Utf8Error),
    /// The bytes are UTF-8, and memory was refused.
    Refused(AllocError),
}

impl<A: Allocator> Wtf8Buf<A> {
    ghost use Rattle.wtf8.specs.Utf8.{Tells};

    /// Copies bytes, which must be UTF-8. An empty slice does not allocate. Linear in their number.
    pub fn from_utf8(alloc: A, text: &[u8]) -> Result<Wtf8Buf<A>, TextError>
        ensures utf8 { IsOk result → IsUtf8 text.now }
        ensures units { IfOk result (λ b. b.units ≡ units (chars text.now)) }
        ensures bytes { IfOk result (λ b. b.bytes ≡ text.now) }
        ensures err { IfErr result (Tells text.now) }
        ensures empty { text.now ≡ [] → IsOk result }
    {
        let text = from_utf8(text).map_err(TextError::NotUtf8)?;
        Wtf8Buf::from_str(alloc, text).map_err(TextError::Refused)
    }

    /// Appends bytes, which must be UTF-8. If they are not, or if memory is refused, the string is unchanged. Amortized
    /// linear in their number.
    pub fn push_utf8(&mut self, text: &[u8]) -> Result<(), TextError>
        ensures utf8 { IsOk result → IsUtf8 text.now }
        ensures ok { OnOk result (AppendsUnits self.old (units (chars text.now)) self.new) }
        ensures kept { OnErr result (KeepsContents self.old self.new) }
        ensures err { IfErr result (Tells text.now) }
        ensures room { IsUtf8 text.now → HasRoomFor self.old (units (chars text.now)) → IsOk result }
        ensures empty { text.now ≡ [] → IsOk result }
        ensures capacity { self.old.capacity ≤ self.new.capacity }
    {
        let text = from_utf8(text).map_err(TextError::NotUtf8)?;
        self.push_str(text).map_err(TextError::Refused)
    }
}
