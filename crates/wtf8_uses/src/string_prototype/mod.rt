//! Calls of ECMAScript's strings over a `UnitText` (ECMAScript, "String.prototype"). Positions are indices of units.
//! The texts are only read: a call that returns a new text takes an allocator.
mod comparing;
mod search;
mod texts;
mod units;
mod well_formed;

pub use comparing::{ends_with, is_less, starts_with};
pub use search::{index_of, last_index_of, replace, replace_all, split};
pub use texts::{pad_start, repeat, substring, trim_ascii};
pub use units::{at, char_at, char_code_at, code_point_at};
pub use well_formed::{is_well_formed, to_well_formed};
