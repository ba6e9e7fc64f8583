//! A string as a list of units.
ghost use Rattle.std.specs.Prelude.{◌≡◌, ◌<◌, ◌+◌, length, slice_get};
ghost use Rattle.wtf8.specs.View.{view_units};

use wtf8::{Wtf8, laws};

/// The unit at index `index`, by the iterator; `None` if there is none. `Wtf8::unit_at` returns the same and skips
/// whole blocks of bytes.
pub fn nth_unit(text: Wtf8<'_>, index: usize) -> Option<u16>
    ensures { result ≡ slice_get (view_units text.entry) index }
{
    text.to_ill_formed_utf16().nth(index)
}

/// The unit after index `index`, which must be below the number of units; `None` after the last one.
pub fn next_unit(text: Wtf8<'_>, index: usize) -> Option<u16>
    requires { index < length (view_units text) }
    ensures { result ≡ slice_get (view_units text.entry) (index + 1) }
{
    laws::law_view_lengths(text);
    text.unit_at(index + 1)
}

/// The number of units, by the iterator. `Wtf8::unit_len` returns the same and skips whole blocks of bytes.
pub fn unit_count(text: Wtf8<'_>) -> usize
    ensures { result ≡ length (view_units text.entry) }
{
    text.to_ill_formed_utf16().count()
}
