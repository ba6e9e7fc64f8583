//! The error of tests, and checks that return it.
pub use crate::{assert_row, each_number, each_row, made};
use std::alloc::{AllocError, Global};
use wtf8::Wtf8;

/// What was wrong.
#[derive(Clone, Copy, Debug)]
pub enum Wrong {
    /// A request for memory was refused.
    Memory,
    /// A row of the test itself is no range of units, no boundary or no code point.
    Row,
    /// Other bytes.
    Bytes,
    /// Other code units.
    Units,
    /// Another number of requests for memory, or of the bytes in them.
    Requests,
    /// Another result of a call.
    Outcome,
    /// Another number of calls of a reader, of a writer or of its flush.
    Calls,
    /// With this number of requests granted, another result, other bytes or another number of requests.
    Granted(u64),
}

/// Why a test failed, and where. Its functions return this error, so that no `?` converts one: the proof of a function
/// that converts errors takes longer.
#[derive(Clone, Copy, Debug)]
pub struct Failed {
    pub wrong: Wrong,
    /// The index of the row in the test's table, or the length that the test was trying.
    pub row: Option<usize>,
}

/// The outcome of a check.
pub type Check = Result<(), Failed>;

/// What a call that allocates returns.
pub type Made<T> = Result<T, AllocError>;

impl Failed {
    /// The failure of a check that knows no row.
    pub fn by(wrong: Wrong) -> Failed {
        Failed { wrong, row: None }
    }
}

impl From<AllocError> for Failed {
    fn from(_: AllocError) -> Failed {
        Failed::by(Wrong::Memory)
    }
}

/// Fails with `wrong` unless `is_right`.
pub fn expect(is_right: bool, wrong: Wrong) -> Check {
    if is_right {
        Ok(())
    } else {
        Err(Failed::by(wrong))
    }
}

/// The outcome of the checks of row `row`, of which a failure then names the row.
pub fn in_row(row: usize, outcome: Check) -> Check {
    match outcome {
        Ok(()) => Ok(()),
        Err(failed) => Err(Failed {
            wrong: failed.wrong,
            row: Some(row),
        }),
    }
}

/// The value of a call, after whose error the function returns what is given, or else that memory was refused.
#[macro_export]
macro_rules! made {
    ($call:expr) => {
        made!(
            $call,
            Err($crate::wrong::Failed::by($crate::wrong::Wrong::Memory))
        )
    };
    ($call:expr, $otherwise:expr) => {
        match $call {
            Ok(value) => value,
            Err(_) => return $otherwise,
        }
    };
}

/// Returns the failure of a check, if it fails, with the row.
#[macro_export]
macro_rules! assert_row {
    ($row:expr, $check:expr) => {
        if let Err(failed) = $check {
            return $crate::wrong::in_row($row, Err(failed));
        }
    };
}

/// Checks each row of a table, whose index a failure then names.
#[macro_export]
macro_rules! each_row {
    ($row:pat in $table:ident => $check:expr) => {{
        for index in 0..$table.len() {
            let $row = $table[index];
            $crate::assert_row!(index, $check);
        }
        Ok(())
    }};
}

/// Makes a check with each of several numbers, which a failure then names.
#[macro_export]
macro_rules! each_number {
    ($number:ident in $numbers:expr => $check:expr) => {{
        for $number in $numbers {
            $crate::assert_row!($number, $check);
        }
        Ok(())
    }};
}

/// Fails unless the string has the bytes of `dump`.
pub fn expect_bytes(alloc: Global, text: Wtf8<'_>, dump: &str) -> Check {
    let Ok(found) = text.hex_dump(alloc) else {
        return Err(Failed::by(Wrong::Memory));
    };
    expect(found.as_str() == dump, Wrong::Bytes)
}
