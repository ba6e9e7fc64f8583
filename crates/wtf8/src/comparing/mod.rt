// Equality, order and hash of strings, and their order by code units.
pub(crate) mod traits;
pub(crate) mod unit_order;
pub(crate) mod with_units;
