// Why a run stopped.
ghost use Rattle.std.specs.Prelude.{◌≡◌};

/// Why a run stopped before its end.
#[derive(Clone, Copy, PartialEq, Eq, Debug)]
pub enum Fault {
    /// A read returned an error.
    Read = 1,
    /// A write or the final flush returned an error, or a write accepted no byte.
    Write = 2,
    /// A request for memory was refused.
    Memory = 3,
}

impl Fault {
    ghost use Rattle.dump_lines.specs.Fault.{status_of, text_of};

    /// The exit status of the program: 1 if a read or a write failed, 2 if memory was refused.
    pub fn status(&self) -> u8
        ensures { result ≡ status_of self.now }
    {
        match self {
            Fault::Read | Fault::Write => 1,
            Fault::Memory => 2,
        }
    }

    /// The message that the program prints, in lower-case words with no newline.
    pub fn text(&self) -> &'static str
        ensures { result.now ≡ text_of self.now }
    {
        match self {
            Fault::Read => "read failed",
            Fault::Write => "write failed",
            Fault::Memory => "out of memory",
        }
    }
}
