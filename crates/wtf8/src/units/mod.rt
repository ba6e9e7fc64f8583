// The 16-bit code units of a view: how many, where each is, parts and marks, and all of them written or appended.
pub(crate) mod blocks;
pub(crate) mod counts;
pub(crate) mod cuts;
pub(crate) mod marks;
pub(crate) mod packing_table;
pub(crate) mod positions;
pub(crate) mod slices;
pub(crate) mod unit_ends;
pub(crate) mod writing;
