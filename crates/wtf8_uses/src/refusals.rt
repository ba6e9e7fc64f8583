//! Strings after a refused request for memory, and pushes that cannot be refused because capacity is reserved first.
ghost use Rattle.std.specs.Prelude.{◌≡◌, ℕ, List, ◌++◌, IfOk, OnOk, OnErr, IsTrue};
ghost use Rattle.wtf8.specs.Appending.{AppendsUnits, FitWithin, KeepsContents};
ghost use Rattle.wtf8.specs.Building.{CallsAppend};
ghost use Rattle.wtf8.specs.CodePoint.{number};
ghost use Rattle.wtf8.specs.Unicode.{units_of};
ghost use Rattle.wtf8.specs.View.{view_units};

use std::alloc::{AllocError, Allocator};
use wtf8::{Build, CodePoint, Wtf8, Wtf8Buf, laws};

/// Whether a refused push leaves the string equal to a clone made before it. Always true, also if the push succeeds.
pub fn is_kept_by_a_refusal<A: Allocator + Clone>(
    string: &mut Wtf8Buf<A>,
    code_point: CodePoint,
) -> Result<bool, AllocError>
    ensures { IfOk result (λ same. IsTrue same) }
{
    let before = string.clone()?;
    match string.push(code_point) {
        Ok(()) => Ok(true),
        Err(_) => Ok(*string == before),
    }
}

/// Appends two strings or neither: reserves for both first, so that no push is refused.
pub fn push_both<A: Allocator>(
    string: &mut Wtf8Buf<A>,
    front: Wtf8<'_>,
    back: Wtf8<'_>,
) -> Result<(), AllocError>
    ensures ok { OnOk result (AppendsUnits string.old (view_units front.entry ++ view_units back.entry) string.new) }
    ensures kept { OnErr result (KeepsContents string.old string.new) }
{
    let Some(both) = front.len().checked_add(back.len()) else {
        return Err(AllocError);
    };
    string.reserve(both)?;
    string.push_wtf8(front)?;
    string.push_wtf8(back)
}

/// Appends two code points or neither: reserves eight bytes first, so that no push is refused.
pub fn push_two_points<A: Allocator>(
    string: &mut Wtf8Buf<A>,
    first: CodePoint,
    second: CodePoint,
) -> Result<(), AllocError>
    ensures ok { OnOk result (AppendsUnits string.old (units_of (number first) ++ units_of (number second)) string.new) }
    ensures kept { OnErr result (KeepsContents string.old string.new) }
{
    laws::law_encoding_length(first);
    laws::law_encoding_length(second);
    string.reserve(8)?;
    string.push(first)?;
    string.push(second)
}

/// Appends what a list of pushes and extensions appends, or nothing of it if that is at most `most` bytes: these are
/// reserved first, so that no call is refused.
pub fn push_list<A: Allocator>(
    string: &mut Wtf8Buf<A>,
    calls: &[Build<'_>],
    most: usize,
) -> Result<(), AllocError>
    ensures ok { OnOk result ((v : List ℕ) → CallsAppend calls.now v → AppendsUnits string.old v string.new) }
    ensures kept { OnErr result ((v : List ℕ) → CallsAppend calls.now v → FitWithin v 0 most → KeepsContents string.old string.new) }
{
    laws::law_room();
    string.reserve(most)?;
    match string.apply_all(calls) {
        Ok(_) => Ok(()),
        Err(_) => Err(AllocError),
    }
}
