//! Comparison that ignores the case of ASCII letters.
ghost use Rattle.std.specs.Char.{to_ascii_lowercase};
ghost use Rattle.std.specs.Prelude.{◌≡◌, ◌↔◌, map, IsTrue};
ghost use Rattle.wtf8.specs.View.{view_units};

use wtf8::Wtf8;

/// Whether two strings have the same units, ignoring ASCII case, like `eq_ignore_ascii_case` of `OsStr`. Copies
/// nothing.
pub fn eq_ignore_ascii_case(text: Wtf8<'_>, other: Wtf8<'_>) -> bool
    ensures { IsTrue result ↔ (map to_ascii_lowercase (view_units text.entry) ≡ map to_ascii_lowercase (view_units other.entry)) }
{
    let units = text.to_ill_formed_utf16().map(lower_case);
    let others = other.to_ill_formed_utf16().map(lower_case);
    units.cmp(others).is_eq()
}

/// The lower-case letter of an ASCII capital; any other unit is returned unchanged.
fn lower_case(unit: u16) -> u16
    ensures { result ≡ to_ascii_lowercase unit }
{
    match unit {
        0x41..=0x5A => unit + 0x20,
        _ => unit,
    }
}
