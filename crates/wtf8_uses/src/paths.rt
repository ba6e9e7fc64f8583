//! Joining the parts of a path.
ghost use Rattle.std.specs.Prelude.{◌≡◌, ◌++◌, IfOk};

use std::alloc::{AllocError, Global};
use wtf8::Wtf8Buf;

/// Joins two parts of a path, of any units. A surrogate pair that is split between them becomes one code point.
pub fn join(alloc: Global, front: &[u16], back: &[u16]) -> Result<Wtf8Buf<Global>, AllocError>
    ensures { IfOk result (λ path. path.units ≡ front.now ++ back.now) }
{
    let mut path = Wtf8Buf::from_ill_formed_utf16(alloc, front)?;
    let rest = Wtf8Buf::from_ill_formed_utf16(alloc, back)?;
    path.push_wtf8(rest.as_wtf8())?;
    Ok(path)
}
