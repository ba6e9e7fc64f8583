//! WTF-8 strings: text that holds any 16-bit units.
#![tactic(auto)]

mod buffers;
mod codec;
mod comparing;
mod formatting;
mod from_utf16;
mod lanes;
pub mod laws;
mod strings;
mod units;
mod vec;

pub use buffers::buf::Wtf8Buf;
pub use buffers::build::{Build, Stopped};
pub use buffers::text::TextError;
pub use codec::code_point::CodePoint;
pub use from_utf16::encoded_len::encoded_len;
pub use from_utf16::front::{EncodedFront, encode_front};
pub use lanes::utf8::from_utf8;
pub use lanes::utf8_error::Utf8Error;
pub use strings::iters::{IllFormedUtf16CodeUnits, Wtf8CodePoints};
pub use strings::view::Wtf8;
pub use units::marks::UnitMark;
pub use units::slices::UnitSlice;
