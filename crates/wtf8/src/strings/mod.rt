// `Wtf8`, the view, its iterators, and what appends to well-formed bytes.
pub(crate) mod appending;
pub(crate) mod editing;
pub(crate) mod iters;
pub(crate) mod lossy;
pub(crate) mod middle;
pub(crate) mod utf8_prefix;
pub(crate) mod view;
