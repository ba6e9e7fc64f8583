//! Appending: a string, nothing, and lists of calls.
ghost use Rattle.std.specs.Prelude.{◌≡◌, ◌+◌, ◌++◌, ℕ, List, IfOk, IsTrue, OnOk, OnErr};
ghost use Rattle.wtf8.specs.Appending.{KeepsContents};
ghost use Rattle.wtf8.specs.Building.{CallsAppend, Run};
ghost use Rattle.wtf8.specs.Concatenation.{MeetsAsPair};

use std::alloc::{AllocError, Allocator, Global};
use wtf8::{Build, Stopped, Wtf8, Wtf8Buf, laws};

/// Appends a string to another. The bytes are appended unchanged, unless `string` ends with a lead surrogate and
/// `other` begins with a trail surrogate. If memory is refused, `string` is unchanged.
pub fn append_string(
    string: &mut Wtf8Buf<Global>,
    other: &Wtf8Buf<Global>,
) -> Result<(), AllocError>
    ensures units { OnOk result (string.new.units ≡ string.old.units ++ other.now.units) }
    ensures bytes { OnOk result (¬ (MeetsAsPair string.old.units other.now.units) → string.new.bytes ≡ string.old.bytes ++ other.now.bytes) }
    ensures kept { OnErr result (KeepsContents string.old string.new) }
{
    laws::law_joined_strings();
    string.push_wtf8(other.as_wtf8())
}

/// Appends the empty string, which changes nothing.
pub fn push_nothing<A: Allocator>(text: &mut Wtf8Buf<A>) -> Result<(), AllocError>
    ensures { OnOk result (text.new.units ≡ text.old.units) }
{
    text.push_wtf8(Wtf8::from_str(""))
}

/// Applies the same calls to two equal strings, and compares these: they are equal, unless memory is refused.
pub fn apply_to_equals<A: Allocator>(
    string: &mut Wtf8Buf<A>,
    other: &mut Wtf8Buf<A>,
    calls: &[Build<'_>],
) -> Result<bool, Stopped>
    requires { string.old.units ≡ other.old.units }
    ensures { IfOk result (λ same. IsTrue same) }
{
    laws::law_same_run(calls);
    string.apply_all(calls)?;
    other.apply_all(calls)?;
    Ok(*string == *other)
}

/// Applies two lists of calls, in order, as one list of both. Returns the number of refused truncations of each list.
/// `done` of an error counts the calls of the list that stopped.
pub fn apply_both<A: Allocator>(
    string: &mut Wtf8Buf<A>,
    first: &[Build<'_>],
    second: &[Build<'_>],
) -> Result<(usize, usize), Stopped>
    ensures { IfOk result (λ refused. Run string.old.units (first.now ++ second.now) string.new.units (refused.0 + refused.1)) }
{
    laws::law_runs_add_up();
    let in_first = string.apply_all(first)?;
    let in_second = string.apply_all(second)?;
    Ok((in_first, in_second))
}

/// Whether two lists of pushes and extensions build equal strings. They do if they append the same units, however the
/// units are divided among the calls.
pub fn build_equals(
    alloc: Global,
    calls: &[Build<'_>],
    others: &[Build<'_>],
) -> Result<bool, Stopped>
    ensures { IfOk result (λ same. (v : List ℕ) → CallsAppend calls.now v → CallsAppend others.now v → IsTrue same) }
{
    let mut string = Wtf8Buf::new(alloc);
    let mut other = Wtf8Buf::new(alloc);
    string.apply_all(calls)?;
    other.apply_all(others)?;
    Ok(string == other)
}
