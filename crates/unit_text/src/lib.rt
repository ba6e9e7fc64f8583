//! Strings whose 16-bit units are found by their index: `IndexedBuf`, a `Wtf8Buf` with the number of its units, and
//! `UnitText`, which is counted, cut and compared by units, as a JavaScript runtime does.
#![tactic(auto)]

mod comparisons;
mod debug_text;
mod editing;
mod indexed;
mod marks;
mod search;
mod slices;
mod text;

pub use indexed::IndexedBuf;
pub use text::UnitText;
