// Lines and inputs of each length, inputs without a last newline, a line with a newline inside, and the faults' statuses and
// texts. The program's stored run has the other lines.
use dump_lines::{Fault, dump_line, run};
use refusing::Refusing;
use std::alloc::Global;
use wtf8_tests::wrong::{Check, Failed, Made, Wrong, each_row, expect, in_row, made};

/// `bytes` repeated `times` times, then `end`.
pub fn repeated(alloc: Global, bytes: &[u8], times: usize, end: &[u8]) -> Made<Vec<u8>> {
    let mut all = Vec::new(alloc);
    for _ in 0..times {
        all.extend_from_slice(bytes)?;
    }
    all.extend_from_slice(end)?;
    Ok(all)
}

/// Fails unless a run reads all of `input` and writes `expected`, with at most 40 requests for memory.
pub fn expect_output(alloc: Global, input: &[u8], expected: &[u8]) -> Check {
    let heap = Refusing::new(alloc, u64::MAX);
    let mut rest = input;
    let mut out = Vec::new(alloc);
    let is_done = run(&heap, &mut rest, &mut out).is_ok() && rest.is_empty();
    if !is_done {
        return Err(Failed::by(Wrong::Outcome));
    }
    if out.as_slice() != expected {
        return Err(Failed::by(Wrong::Bytes));
    }
    // The input, the list, the string and the output double their capacity at each growth, the input at most 15 times.
    expect(heap.requests() <= 40, Wrong::Requests)
}

/// Fails unless a run on `times` times `bytes`, then `end`, writes `times` times `dump`, then `end_dump`.
fn expect_repeated(
    alloc: Global,
    times: usize,
    (bytes, end): (&[u8], &[u8]),
    (dump, end_dump): (&[u8], &[u8]),
) -> Check {
    let input = made!(repeated(alloc, bytes, times, end));
    let expected = made!(repeated(alloc, dump, times, end_dump));
    expect_output(alloc, &input, &expected)
}

/// Fails unless a run on a line of `letters` words "0061" and four others, and an empty line, writes their dumps.
fn expect_letters(alloc: Global, letters: usize) -> Check {
    let line = (
        b"0061 ".as_slice(),
        b"-999999 D83D DCA9 /999999\n\n".as_slice(),
    );
    let dump = (b"61 ".as_slice(), b"F0 9F 92 A9 !2\n\n".as_slice());
    in_row(letters, expect_repeated(alloc, letters, line, dump))
}

#[test]
fn lines_of_each_length(rt: HostRuntime) -> Check {
    for letters in 0..=300 {
        expect_letters(rt.alloc(), letters)?;
    }
    for letters in [1000, 5000, 20_000] {
        expect_letters(rt.alloc(), letters)?;
    }
    Ok(())
}

#[test]
fn an_input_of_many_lines_is_read_in_pieces(rt: HostRuntime) -> Check {
    expect_repeated(rt.alloc(), 2000, (b"0061\n", b""), (b"61\n", b""))
}

static INPUTS: [(&str, &str); 6] = [
    ("", ""),
    ("0061", "61\n"),
    ("0061\n", "61\n"),
    ("\n\n", "\n\n"),
    ("\n0061", "\n61\n"),
    ("0061\n061", "61\n?\n"),
];

#[test]
fn the_last_line_needs_no_newline(rt: HostRuntime) -> Check {
    each_row!((input, expected) in INPUTS => {
        expect_output(rt.alloc(), input.as_bytes(), expected.as_bytes())
    })
}

#[test]
fn a_newline_inside_a_line_is_malformed(rt: HostRuntime) -> Check {
    match dump_line(rt.alloc(), b"0061\n0062") {
        Ok(output) => expect(output.as_slice() == b"?".as_slice(), Wrong::Bytes),
        Err(_) => Err(Failed::by(Wrong::Memory)),
    }
}

/// Whether a fault has this number, this exit status and this text.
fn has_all(fault: Fault, number: u8, status: u8, text: &str) -> bool {
    fault as u8 == number && fault.status() == status && fault.text() == text
}

#[test]
fn faults_have_their_statuses_and_texts(rt: HostRuntime) {
    assert!(rt; has_all(Fault::Read, 1, 1, "read failed"));
    assert!(rt; has_all(Fault::Write, 2, 1, "write failed"));
    assert!(rt; has_all(Fault::Memory, 3, 2, "out of memory"));
}
