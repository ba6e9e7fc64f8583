// Writers that fail.
use crate::inputs::repeated;
use dump_lines::{Fault, run};
use std::alloc::Global;
use std::io;
use std::io::{Error, ErrorKind, Write};
use wtf8_tests::wrong::{Check, Failed, Wrong, each_row, expect, made};

/// What a writer does at one of its calls.
#[derive(Clone, Copy)]
enum Failing {
    Fails(ErrorKind),
    TakesNothing,
}

/// Takes at most `most` bytes a call, and fails at one call, counted from 1, or at its flush; later calls would
/// succeed.
#[derive(Drop)]
struct FailingWriter {
    taken: Vec<u8>,
    most: usize,
    calls: u32,
    failing: u32,
    how: Failing,
    flushes: u32,
    flush_error: Option<ErrorKind>,
}

impl Write for FailingWriter {
    fn write(&mut self, buf: &[u8]) -> io::Result<usize> {
        self.calls = self.calls.wrapping_add(1);
        if self.calls == self.failing {
            return match self.how {
                Failing::Fails(error) => Err(Error::from(error)),
                Failing::TakesNothing => Ok(0),
            };
        }
        let count = buf.len().min(self.most);
        self.taken.extend_from_slice(&buf[..count])?;
        Ok(count)
    }

    fn flush(&mut self) -> io::Result<()> {
        self.flushes = self.flushes.wrapping_add(1);
        match self.flush_error {
            None => Ok(()),
            Some(error) => Err(Error::from(error)),
        }
    }
}

/// A writer that takes at most `most` bytes a call and fails at call `failing`, or at its flush.
fn writer_of(
    alloc: Global,
    most: usize,
    failing: u32,
    how: Failing,
    flush_error: Option<ErrorKind>,
) -> FailingWriter {
    FailingWriter {
        taken: Vec::new(alloc),
        most,
        calls: 0,
        failing,
        how,
        flushes: 0,
        flush_error,
    }
}

/// What a run into a writer came to: the fault, if there was one, the bytes that the writer took, and the numbers of its calls
/// and flushes.
type Ran<'a> = (Option<Fault>, &'a [u8], (u32, u32));

/// Fails unless a run on `given` into the writer comes to this.
fn expect_ran(
    alloc: Global,
    given: &[u8],
    writer: &mut FailingWriter,
    (fault, taken, made): Ran<'_>,
) -> Check {
    let mut rest = given;
    if run(alloc, &mut rest, writer).err() != fault {
        return Err(Failed::by(Wrong::Outcome));
    }
    if writer.taken.as_slice() != taken {
        return Err(Failed::by(Wrong::Bytes));
    }
    expect((writer.calls, writer.flushes) == made, Wrong::Calls)
}

/// An input, the number of bytes that the writer takes a call, the call at which it fails, and what it took before.
static WRITES: [(&str, usize, u32, &str); 8] = [
    ("0061 0062 0063\n", 2, 1, ""),
    ("0061 0062 0063\n", 2, 2, "61"),
    ("0061 0062 0063\n", 2, 3, "61 6"),
    ("0061 0062 0063\n", 2, 4, "61 62 "),
    ("0061 0062 0063\n", 2, 5, "61 62 63"),
    ("0061\n", 1, 1, ""),
    ("0061\n", 1, 2, "6"),
    ("0061\n", 1, 3, "61"),
];

/// Fails unless each of `WRITES` that fails like this ends a run.
fn expect_writes(alloc: Global, how: Failing) -> Check {
    each_row!((given, most, failing, taken) in WRITES => {
        let mut writer = writer_of(alloc, most, failing, how, None);
        let ran = (Some(Fault::Write), taken.as_bytes(), (failing, 0));
        expect_ran(alloc, given.as_bytes(), &mut writer, ran)
    })
}

#[test]
fn a_failed_write_ends_the_run(rt: HostRuntime) -> Check {
    expect_writes(rt.alloc(), Failing::Fails(ErrorKind::Interrupted))?;
    expect_writes(rt.alloc(), Failing::Fails(ErrorKind::Other))?;
    expect_writes(rt.alloc(), Failing::TakesNothing)
}

/// An input, the number of bytes that the writer takes a call, the number of its calls, and what it took.
static FLUSHES: [(&str, usize, u32, &str); 3] = [
    ("0061 0062 0063\n", 2, 5, "61 62 63\n"),
    ("0061\n", 1, 3, "61\n"),
    ("", 2, 0, ""),
];

/// Fails unless each of `FLUSHES` whose flush has this error comes to this fault.
fn expect_flushes(alloc: Global, flush_error: Option<ErrorKind>, fault: Option<Fault>) -> Check {
    each_row!((given, most, calls, taken) in FLUSHES => {
        let mut writer = writer_of(alloc, most, 0, Failing::TakesNothing, flush_error);
        let ran = (fault, taken.as_bytes(), (calls, 1));
        expect_ran(alloc, given.as_bytes(), &mut writer, ran)
    })
}

#[test]
fn a_failed_flush_ends_the_run(rt: HostRuntime) -> Check {
    expect_flushes(rt.alloc(), None, None)?;
    expect_flushes(rt.alloc(), Some(ErrorKind::Interrupted), Some(Fault::Write))?;
    expect_flushes(rt.alloc(), Some(ErrorKind::Other), Some(Fault::Write))
}

/// Fails unless a writer that takes 70 KiB a call is called twice for `given`, and takes `expected`.
fn expect_called_twice(alloc: Global, given: &[u8], expected: &[u8]) -> Check {
    let mut writer = writer_of(alloc, 70 * 1024, 0, Failing::TakesNothing, None);
    expect_ran(alloc, given, &mut writer, (None, expected, (2, 1)))
}

#[test]
fn a_writer_of_seventy_kibibytes_is_called_twice(rt: HostRuntime) -> Check {
    let alloc = rt.alloc();
    let input = made!(repeated(alloc, b"1F4A9 ", 6515, b"1F4A9\n0061\n"));
    let expected = made!(repeated(alloc, b"F0 9F 92 A9 ", 6515, b"F0 9F 92 A9\n61\n"));
    expect_called_twice(alloc, &input, &expected)
}
