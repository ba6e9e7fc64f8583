//! The lossy text of a string.
ghost use Rattle.std.specs.Cow.{cow_str_bytes};
ghost use Rattle.std.specs.Prelude.{◌≡◌, ℕ, List, IfOk};
ghost use Rattle.std.specs.Str.{chars};
ghost use Rattle.wtf8.specs.Form.{Reads};
ghost use Rattle.wtf8.specs.Surrogates.{lossy_points};
ghost use Rattle.wtf8.specs.View.{view_units};

use std::alloc::{AllocError, Global};
use std::borrow::CowStr;
use wtf8::{Wtf8, laws};

/// The string as text, with U+FFFD for each lone surrogate.
pub fn well_formed_text<'a>(alloc: Global, text: Wtf8<'a>) -> Result<CowStr<'a, Global>, AllocError>
    ensures { IfOk result (λ t. (c : List ℕ) → Reads c (view_units text.entry) → chars (cow_str_bytes t) ≡ lossy_points c) }
{
    laws::law_view_reading(text);
    laws::law_view_characters(text);
    text.to_string_lossy(alloc)
}
