// Where bytes are not UTF-8.
ghost use Rattle.std.specs.Prelude.{◌≡◌, Some};
ghost use Rattle.wtf8.specs.Utf8Error.{valid_up_to, error_len, error_text};

use std::error::Error;
use std::fmt;

/// The error of `from_utf8`, as `str::Utf8Error`, which only std can make.
#[derive(Clone, Copy, PartialEq, Eq, Debug)]
pub struct Utf8Error {
    pub(crate) valid_up_to: usize,
    pub(crate) error_len: Option<usize>,
}

impl Utf8Error {
    /// The number of bytes at the front that are UTF-8.
    pub fn valid_up_to(&self) -> usize
        ensures { result ≡ valid_up_to self.now }
    {
        self.valid_up_to
    }

    /// The number of bytes after these that are wrong together, or `None` if the bytes end within a code point.
    pub fn error_len(&self) -> Option<usize>
        ensures { result ≡ error_len self.now }
    {
        self.error_len
    }
}

impl fmt::Display for Utf8Error {
    ghost output = { λ e. Some (error_text (valid_up_to e) (error_len e)) };

    fn fmt<W: fmt::Write>(&self, f: &mut fmt::Formatter<W>) -> fmt::Result {
        let at = self.valid_up_to;
        match self.error_len {
            Some(len) => write!(f, "invalid utf-8 sequence of {len} bytes from index {at}"),
            None => write!(f, "incomplete utf-8 byte sequence from index {at}"),
        }
    }
}

impl Error for Utf8Error {}
