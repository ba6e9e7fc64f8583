//! Texts without lone surrogates.
ghost use Rattle.std.specs.Prelude.{◌≡◌, ◌↔◌, ℕ, List, IfOk, IsTrue};
ghost use Rattle.wtf8.specs.Form.{Reads};
ghost use Rattle.wtf8.specs.Surrogates.{AreScalar};
ghost use Rattle.wtf8_uses.specs.StringPrototype.{IsMadeWellFormed};

use std::alloc::{AllocError, Allocator};
use unit_text::UnitText;
use wtf8::{Wtf8, laws};

/// Whether a text has no lone surrogate: the code points of its reading are scalar values.
pub fn is_well_formed<A: Allocator>(text: &UnitText<A>) -> bool
    ensures { IsTrue result ↔ ((c : List ℕ) → Reads c text.now → AreScalar c) }
{
    text.as_wtf8().as_str().is_some()
}

/// `toWellFormed`: the text with U+FFFD for each lone surrogate. Allocates for the new text and for a list of its
/// units, and for the lossy bytes if any surrogate is lone. If a request is refused, nothing stays allocated.
pub fn to_well_formed<A: Allocator + Copy + Drop>(
    alloc: A,
    text: &UnitText<A>,
) -> Result<UnitText<A>, AllocError>
    ensures { IfOk result (λ t. IsMadeWellFormed text.now t) }
{
    laws::law_byte_order();
    let lossy = text.as_wtf8().to_string_lossy(alloc)?;
    let mut units = Vec::new(alloc);
    Wtf8::from_str(lossy.as_str()).append_units(&mut units)?;
    UnitText::from_units(alloc, units.as_slice())
}
