//! A text that is cut at any unit index, also inside a surrogate pair, and joined again.
ghost use Rattle.std.specs.Prelude.{◌≡◌, ◌≤◌, length, IfOk, IsTrue};

use std::alloc::{AllocError, Allocator};
use unit_text::UnitText;

/// Cuts a text at a unit index and joins the two parts. Returns the whole text. Each part has its own allocator.
pub fn cut_and_joined<A: Allocator>(
    front_alloc: A,
    back_alloc: A,
    text: &UnitText<A>,
    position: usize,
) -> Result<UnitText<A>, AllocError>
    requires { position ≤ length text.now }
    ensures { IfOk result (λ whole. whole ≡ text.now) }
{
    let mut whole = text.slice_units(front_alloc, 0, position)?;
    let back = text.slice_units(back_alloc, position, text.unit_len())?;
    whole.concat(&back)?;
    Ok(whole)
}

/// Whether a text that was cut and joined again equals the original. It always does.
pub fn is_equal_after_cut<A: Allocator>(
    front_alloc: A,
    back_alloc: A,
    text: &UnitText<A>,
    position: usize,
) -> Result<bool, AllocError>
    requires { position ≤ length text.now }
    ensures { IfOk result (λ same. IsTrue same) }
{
    let whole = cut_and_joined(front_alloc, back_alloc, text, position)?;
    Ok(whole == *text)
}
