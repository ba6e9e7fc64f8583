// Readers that return bytes in pieces, are interrupted, or fail. Expected values are of Python's codecs, or plain text.
use std::alloc::{Allocator, Global};
use std::io;
use std::io::{ErrorKind, Read};
use wtf8::Wtf8Buf;
use wtf8_tests::wrong::{Check, Wrong, each_row, expect, expect_bytes};
use wtf8_uses::reading::{ReadError, read_utf16};

/// Returns at most `most` bytes a read. Fails once, when at most `failing` bytes are left; later reads succeed.
#[derive(Drop)]
struct Pieces<'a> {
    rest: &'a [u8],
    most: usize,
    failing: usize,
    error: Option<io::Error>,
    calls: u32,
}

impl Read for Pieces<'_> {
    fn read(&mut self, buf: &mut [u8]) -> io::Result<usize> {
        self.calls = self.calls.wrapping_add(1);
        if let Some(error) = self.error {
            if self.rest.len() <= self.failing {
                self.error = None;
                return Err(error);
            }
        }
        let count = self.most.min(self.rest.len()).min(buf.len());
        let (piece, rest) = self.rest.split_at(count);
        buf[..count].copy_from_slice(piece);
        self.rest = rest;
        Ok(count)
    }
}

/// The name of an error.
fn name_of(error: ReadError) -> &'static str {
    match error {
        ReadError::Read(_) => "read",
        ReadError::HalfUnit => "half unit",
        ReadError::Memory => "memory",
    }
}

/// Fails unless the string that was read has the hex dump `expected`, or that is the name of the error.
fn expect_told<A: Allocator>(
    alloc: Global,
    returned: Result<Wtf8Buf<A>, ReadError>,
    expected: &str,
) -> Check {
    match returned {
        Ok(string) => expect_bytes(alloc, string.as_wtf8(), expected),
        Err(error) => expect(name_of(error) == expected, Wrong::Outcome),
    }
}

/// Input bytes, and the hex dump of the string that is read, or the name of the error.
static ROWS: [(&[u8], &str); 6] = [
    (b"", ""),
    (b"\x61\x00\x3D\xD8\xA9\xDC", "61 F0 9F 92 A9"),
    (b"\xA9\xDC\x3D\xD8", "ED B2 A9 ED A0 BD"),
    (b"\xFF\xFE\x61\x00", "EF BB BF 61"),
    (b"\x61", "half unit"),
    (b"\x61\x00\x3D", "half unit"),
];

/// Fails unless reading pieces of at most `most` bytes, with one interruption, gives `expected` in `calls` calls.
fn expect_read(alloc: Global, bytes: &[u8], most: usize, calls: usize, expected: &str) -> Check {
    let mut reader = Pieces {
        rest: bytes,
        most,
        failing: 2,
        error: Some(io::Error::from(ErrorKind::Interrupted)),
        calls: 0,
    };
    expect_told(alloc, read_utf16(alloc, &mut reader), expected)?;
    expect(reader.calls as usize == calls, Wrong::Requests)
}

/// Fails unless reading pieces of each size from 1 to 7 gives `expected`.
fn expect_read_in_pieces(alloc: Global, bytes: &[u8], expected: &str) -> Check {
    for most in 1..8 {
        // One call for each piece, one for the interruption and one for the end.
        let calls = bytes.len().div_ceil(most).wrapping_add(2);
        expect_read(alloc, bytes, most, calls, expected)?;
    }
    Ok(())
}

#[test]
fn pieces_of_any_size_are_one_input(rt: HostRuntime) -> Check {
    each_row!((bytes, expected) in ROWS => expect_read_in_pieces(rt.alloc(), bytes, expected))
}

/// Whether the reader's error is returned, with its kind and this error number of the system.
fn is_handed_on(
    alloc: Global,
    reader: &mut Pieces<'_>,
    error: io::Error,
    number: Option<i32>,
) -> bool {
    match read_utf16(alloc, reader) {
        Err(ReadError::Read(found)) => {
            found.kind() == error.kind() && found.raw_os_error() == number
        }
        _ => false,
    }
}

/// The number of bytes not read when the reader fails, the number of its calls, and the result of reading the rest.
static FAILING_ROWS: [(usize, u32, &str); 4] = [
    (6, 1, "61 62 63"),
    (5, 2, "half unit"),
    (2, 5, "63"),
    (0, 7, ""),
];

/// Fails unless the error is returned after `calls` calls, with `failing` bytes unread, which then give `left`.
fn expect_handed_on(
    alloc: Global,
    error: io::Error,
    number: Option<i32>,
    row: (usize, u32, &str),
) -> Check {
    let (failing, calls, left) = row;
    let mut reader = Pieces {
        rest: b"\x61\x00\x62\x00\x63\x00",
        most: 1,
        failing,
        error: Some(error),
        calls: 0,
    };
    let is_handed_on = is_handed_on(alloc, &mut reader, error, number);
    // The reader was not called after the error, and the bytes that were not read are still there.
    expect(is_handed_on && reader.calls == calls, Wrong::Outcome)?;
    expect_told(alloc, read_utf16(alloc, &mut reader), left)
}

/// Fails unless the error is returned in each of `FAILING_ROWS`.
fn expect_all_handed_on(alloc: Global, error: io::Error, number: Option<i32>) -> Check {
    each_row!(row in FAILING_ROWS => expect_handed_on(alloc, error, number, row))
}

/// Fails unless an error of each kind is handed on.
fn expect_kinds_handed_on(alloc: Global) -> Check {
    for kind in [
        ErrorKind::BrokenPipe,
        ErrorKind::WouldBlock,
        ErrorKind::UnexpectedEof,
        ErrorKind::Other,
        ErrorKind::TimedOut,
    ] {
        expect_all_handed_on(alloc, io::Error::from(kind), None)?;
    }
    Ok(())
}

#[test]
fn an_error_is_handed_on(rt: HostRuntime) -> Check {
    let alloc = rt.alloc();
    expect_kinds_handed_on(alloc)?;
    for number in [5, 32] {
        let error = io::Error::from_raw_os_error(number);
        expect_all_handed_on(alloc, error, Some(number))?;
    }
    Ok(())
}
