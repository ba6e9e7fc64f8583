// Readers that fail.
use dump_lines::{Fault, run};
use refusing::{Refusal, Refusing};
use std::alloc::Global;
use std::io;
use std::io::{Error, ErrorKind, Read};
use wtf8_tests::wrong::{Check, Failed, Wrong, each_row, expect};

/// Returns its bytes two at a time and fails at one call, counted from 1; later calls would succeed.
#[derive(Drop)]
struct FailingReader<'a> {
    rest: &'a [u8],
    error: ErrorKind,
    calls: u32,
    failing: u32,
}

impl<'a> Read for FailingReader<'a> {
    fn read(&mut self, buf: &mut [u8]) -> io::Result<usize> {
        self.calls = self.calls.wrapping_add(1);
        if self.calls == self.failing {
            return Err(Error::from(self.error));
        }
        let two = self.rest.len().min(2);
        let (mut given, rest) = self.rest.split_at(two);
        let count = given.read(buf)?;
        if count == two {
            self.rest = rest;
        }
        Ok(count)
    }
}

/// Fails unless a run on a reader of `given` that fails at call `failing`, with `granted` requests for memory granted and
/// the next one refused, ends with this fault after this number of calls of the reader, with nothing written.
fn expect_fault(
    alloc: Global,
    (given, error, failing): (&str, ErrorKind, u32),
    granted: u64,
    fault: Fault,
    calls: u32,
) -> Check {
    let heap = Refusing::new(alloc, 0);
    heap.refuse_after(granted, Refusal::Once);
    let mut reader = FailingReader {
        rest: given.as_bytes(),
        error,
        calls: 0,
        failing,
    };
    let mut out = Vec::new(alloc);
    if run(&heap, &mut reader, &mut out) != Err(fault) {
        return Err(Failed::by(Wrong::Outcome));
    }
    if !out.is_empty() {
        return Err(Failed::by(Wrong::Bytes));
    }
    expect(reader.calls == calls, Wrong::Calls)
}

/// Inputs, and the calls at which their readers fail.
static READS: [(&str, u32); 7] = [
    ("", 1),
    ("0061\n", 1),
    ("0061\n", 2),
    ("0061\n", 3),
    ("0061\n", 4),
    ("0061", 3),
    ("0061\n0062\n", 6),
];

/// Fails unless each of `READS` that fails with this error ends a run.
fn expect_reads(alloc: Global, error: ErrorKind) -> Check {
    each_row!((given, failing) in READS => {
        expect_fault(alloc, (given, error, failing), 99, Fault::Read, failing)
    })
}

#[test]
fn a_failed_read_ends_the_run_with_nothing_written(rt: HostRuntime) -> Check {
    expect_reads(rt.alloc(), ErrorKind::Other)?;
    expect_reads(rt.alloc(), ErrorKind::Interrupted)?;
    expect_reads(rt.alloc(), ErrorKind::WouldBlock)
}

/// The call at which a reader of "0061" fails, the number of requests granted, the fault, and the number of calls.
static FIRST: [(u32, u64, Fault, u32); 3] = [
    (1, 0, Fault::Read, 1),
    (2, 0, Fault::Memory, 1),
    (2, 1, Fault::Read, 2),
];

#[test]
fn the_first_of_two_faults_is_the_result(rt: HostRuntime) -> Check {
    each_row!((failing, granted, fault, calls) in FIRST => {
        let read = ("0061\n", ErrorKind::Other, failing);
        expect_fault(rt.alloc(), read, granted, fault, calls)
    })
}
