// Code points and surrogates, and the encoding of one code point.
pub(crate) mod code_point;
pub(crate) mod encoding;
