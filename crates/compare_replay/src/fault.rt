// The error of the program.
use std::alloc::AllocError;

/// Why the program stopped before the end of the input.
#[derive(Clone, Copy)]
pub enum Fault {
    /// A read failed.
    Read,
    /// A write failed.
    Write,
    /// A request for memory was refused.
    Memory,
    /// A line is not in hexadecimal.
    NotHexadecimal,
    /// The script of a line ends inside a call, or has an invalid byte or text.
    Malformed,
}

impl Fault {
    /// The exit status: 1 for a failed read or write, 2 for refused memory, 3 for a bad line.
    pub fn status(self) -> u8 {
        match self {
            Fault::Read | Fault::Write => 1,
            Fault::Memory => 2,
            Fault::NotHexadecimal | Fault::Malformed => 3,
        }
    }

    /// The message on standard error, in lower-case words without a newline.
    pub fn text(self) -> &'static str {
        match self {
            Fault::Read => "read failed",
            Fault::Write => "write failed",
            Fault::Memory => "out of memory",
            Fault::NotHexadecimal => "a line is not hexadecimal",
            Fault::Malformed => "a script is malformed",
        }
    }
}

impl From<AllocError> for Fault {
    fn from(_: AllocError) -> Fault {
        Fault::Memory
    }
}
