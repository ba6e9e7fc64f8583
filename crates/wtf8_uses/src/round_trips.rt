//! Round trips between units, texts, lossy texts and strings.
ghost use Rattle.std.specs.Prelude.{◌≡◌, IfOk, IsOk, IsSome, IfSome};
ghost use Rattle.std.specs.String.{string_bytes};
ghost use Rattle.wtf8.specs.Form.{bytes};
ghost use Rattle.wtf8.specs.Surrogates.{lossy_points};

use std::alloc::{AllocError, Allocator, Global};
use wtf8::{Wtf8, Wtf8Buf, laws};

/// Makes a string of units and collects its units again. They are the same, whether surrogates pair or not.
pub fn units_round_trip(alloc: Global, units: &[u16]) -> Result<Vec<u16>, AllocError>
    ensures { IfOk result (λ again. again.items ≡ units.now) }
{
    let string = Wtf8Buf::from_ill_formed_utf16(alloc, units)?;
    string.as_wtf8().to_ill_formed_utf16().collect(alloc)
}

/// Views a text as a string and that string as a text. It is always the same text.
pub fn text_round_trip(text: &str) -> Option<&str>
    ensures some { IsSome result }
    ensures same { IfSome result (λ again. again.now ≡ text.now) }
{
    Wtf8::from_str(text).as_str()
}

/// Turns a text into a string and back. It is always the same text, and nothing is allocated.
pub fn string_round_trip<A: Allocator>(text: String<A>) -> Result<String<A>, Wtf8Buf<A>>
    ensures ok { IsOk result }
    ensures same { IfOk result (λ again. string_bytes again ≡ string_bytes text) }
{
    Wtf8Buf::from_string(text).into_string()
}

/// Makes a string lossy twice. The result is the same as after the first time.
pub fn lossy_twice<A: Allocator>(string: Wtf8Buf<A>) -> String<A>
    ensures { string_bytes result ≡ bytes (lossy_points string.form.points) }
{
    laws::law_lossy();
    let once = string.into_string_lossy();
    Wtf8Buf::from_string(once).into_string_lossy()
}
