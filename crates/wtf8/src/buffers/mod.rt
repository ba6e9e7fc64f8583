// `Wtf8Buf`, the owned string, lists of building calls, and collecting.
pub(crate) mod buf;
pub(crate) mod build;
pub(crate) mod collect;
pub(crate) mod text;
