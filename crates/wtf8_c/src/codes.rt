// What a call returns.
ghost use Rattle.std.specs.declared.cmp.Ordering.TheVariants.{Less, Equal, Greater};
ghost use Rattle.std.specs.Prelude.{◌≡◌, IsOk, IsErr, ◌↔◌};

use std::alloc::AllocError;
use std::cmp::Ordering;

/// The call did what it says.
pub(crate) const OK: i32 = 0;

/// A request for memory was refused.
pub(crate) const NO_MEMORY: i32 = 1;

/// The position is after the end or not a boundary, or the index is after the end.
pub(crate) const BAD_POSITION: i32 = 2;

/// The array is too short.
pub(crate) const ARRAY_TOO_SHORT: i32 = 3;

/// The string holds a surrogate.
pub(crate) const HAS_SURROGATE: i32 = 4;

/// The number is not a code point.
pub(crate) const BAD_CODE_POINT: i32 = 5;

/// The bytes are not UTF-8.
pub(crate) const NOT_UTF8: i32 = 6;

/// No code point is after the position, or before it, or the string is empty.
pub(crate) const END: i32 = 7;

/// A unit is greater than FF, so the string is not a text in Latin-1.
pub(crate) const NOT_LATIN1: i32 = 8;

/// The first of two strings comes before the second.
pub(crate) const BEFORE: i32 = -1;

/// Two strings are equal.
pub(crate) const SAME: i32 = 0;

/// The first of two strings comes after the second.
pub(crate) const AFTER: i32 = 1;

/// The code of a call that fails only if memory is refused.
pub(crate) fn code_of(outcome: Result<(), AllocError>) -> i32
    ensures ok { result ≡ OK ↔ IsOk outcome }
    ensures memory { result ≡ NO_MEMORY ↔ IsErr outcome }
{
    match outcome {
        Ok(()) => OK,
        Err(_) => NO_MEMORY,
    }
}

/// The code of the order of two strings.
pub(crate) fn code_of_order(order: Ordering) -> i32
    ensures before { result ≡ BEFORE ↔ order ≡ Less }
    ensures same { result ≡ SAME ↔ order ≡ Equal }
    ensures after { result ≡ AFTER ↔ order ≡ Greater }
{
    match order {
        Ordering::Less => BEFORE,
        Ordering::Equal => SAME,
        Ordering::Greater => AFTER,
    }
}
