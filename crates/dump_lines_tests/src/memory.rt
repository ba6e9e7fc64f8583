// Each request for memory refused in turn, with all after it or alone.
use crate::inputs::repeated;
use dump_lines::{Fault, dump_line, run};
use refusing::{Lent, REFUSALS, Refusal, Refusing};
use std::alloc::Global;
use wtf8_tests::wrong::{Check, Failed, Wrong, each_row, expect, made};

/// A line, its output, and the number of requests, and of the bytes in them.
type Row = (&'static str, &'static str, u64, usize);

/// Requests are for the list of calls, of 24 bytes each, whose capacity is four at first and then doubles; for the string,
/// eight bytes at first; for the dump, all at once; and two for a count, one for its text and one to append it. A
/// malformed line needs its list and its output alone.
static ROWS: [Row; 8] = [
    ("", "", 0, 0),
    ("0061", "61", 3, 96 + 8 + 8),
    ("D83D DCA9", "F0 9F 92 A9", 3, 96 + 8 + 12),
    ("-1", "!1", 3, 96 + 8 + 8),
    (
        "0061 00E9 0020 D83D DCA9",
        "61 C3 A9 20 F0 9F 92 A9",
        4,
        96 + 192 + 8 + 24,
    ),
    ("?", "?", 1, 8),
    ("0061 D83D DCA9 -1 ?", "?", 2, 96 + 8),
    ("0061 D83D DCA9 -1 /1 ?", "?", 3, 96 + 192 + 8),
];

/// Fails unless `line` ends with an error at the request after `granted` ones, after which no other is made.
fn expect_refused(heap: Lent<'_>, line: &[u8], granted: u64, refusal: Refusal) -> Check {
    heap.refuse_after(granted, refusal);
    let is_refused = dump_line(heap, line).is_err();
    let is_counted = heap.requests() == granted.wrapping_add(1);
    expect(is_refused && is_counted, Wrong::Granted(granted))
}

/// Fails unless `line` has the output `expected`, by `requests` requests for `bytes` bytes.
fn expect_granted(
    heap: Lent<'_>,
    line: &[u8],
    expected: &[u8],
    requests: u64,
    bytes: usize,
) -> Check {
    heap.grant(99);
    let output = made!(dump_line(heap, line), Err(Failed::by(Wrong::Outcome)));
    if output.as_slice() != expected {
        return Err(Failed::by(Wrong::Bytes));
    }
    let are_made = heap.requests() == requests && heap.bytes() == bytes;
    expect(are_made, Wrong::Requests)
}

/// Fails unless `line` has the output `expected`, by `requests` requests for `bytes` bytes, and an error if one of the
/// requests is refused, after which no other is made.
fn expect_requests(
    heap: Lent<'_>,
    line: &[u8],
    expected: &[u8],
    requests: u64,
    bytes: usize,
) -> Check {
    for refusal in REFUSALS {
        for granted in 0..requests {
            expect_refused(heap, line, granted, refusal)?;
        }
    }
    expect_granted(heap, line, expected, requests, bytes)
}

/// Fails unless the row's line does what `expect_requests` requires.
fn expect_row(heap: Lent<'_>, (line, output, requests, bytes): Row) -> Check {
    let (line, output) = (line.as_bytes(), output.as_bytes());
    expect_requests(heap, line, output, requests, bytes)
}

#[test]
fn dump_line_ends_at_a_refused_request(rt: HostRuntime) -> Check {
    let heap = Refusing::new(rt.alloc(), 0);
    each_row!(row in ROWS => expect_row(&heap, row))
}

#[test]
fn a_long_malformed_line_needs_its_list_and_its_output(rt: HostRuntime) -> Check {
    let line = made!(repeated(rt.alloc(), b"0061 ", 1000, b"061"));
    let heap = Refusing::new(rt.alloc(), 0);
    // The list has a capacity of 4, 8 and so on up to 1,024 calls, which is nine requests, and the output is the tenth.
    expect_requests(&heap, line.as_slice(), b"?", 10, 24 * 2044 + 8)
}

/// Whether a run whose request after `granted` ones is refused made just `granted`, and wrote `expected`. Fails unless it
/// did, or ended at the refused one, with nothing written.
fn is_enough(
    alloc: Global,
    input: &[u8],
    expected: &[u8],
    granted: u64,
    refusal: Refusal,
) -> Result<bool, Failed> {
    let heap = Refusing::new(alloc, 0);
    heap.refuse_after(granted, refusal);
    let mut rest = input;
    let mut out = Vec::new(alloc);
    let result = run(&heap, &mut rest, &mut out);
    let (out, requests) = (out.as_slice(), heap.requests());
    match result {
        Ok(()) if out == expected && requests == granted => Ok(true),
        Err(Fault::Memory) if out.is_empty() && requests == granted.wrapping_add(1) => Ok(false),
        _ => Err(Failed::by(Wrong::Granted(granted))),
    }
}

/// The number of requests of a run whose output is `expected`. Fails unless with fewer granted it ends at the refused
/// one, with nothing written, or if it makes more than 59.
fn requests_of(
    alloc: Global,
    input: &[u8],
    expected: &[u8],
    refusal: Refusal,
) -> Result<u64, Failed> {
    for granted in 0..60 {
        if is_enough(alloc, input, expected, granted, refusal)? {
            return Ok(granted);
        }
    }
    Err(Failed::by(Wrong::Requests))
}

/// Fails unless a run whose output is `expected` makes at least `least` requests, and ends at each that is refused.
fn expect_ends(
    alloc: Global,
    input: &[u8],
    expected: &[u8],
    least: u64,
    refusal: Refusal,
) -> Check {
    let made = requests_of(alloc, input, expected, refusal)?;
    expect(least <= made, Wrong::Requests)
}

/// Inputs, and their outputs.
static INPUTS: [(&str, &str); 3] = [
    ("D83D DCA9\n", "F0 9F 92 A9\n"),
    ("0061 00E9 -9\n", "61 C3 A9 !1\n"),
    (
        "0061 -5 -6\n\n?\n-1\n0062 /1 00E9\n",
        "61 !2\n\n?\n!1\n62 C3 A9\n",
    ),
];

/// Fails unless a run on each of `INPUTS` makes four requests or more, and ends at each that is refused.
fn expect_all_end(alloc: Global, refusal: Refusal) -> Check {
    each_row!((input, output) in INPUTS => {
        expect_ends(alloc, input.as_bytes(), output.as_bytes(), 4, refusal)
    })
}

#[test]
fn a_run_ends_at_a_refused_request_with_nothing_written(rt: HostRuntime) -> Check {
    for refusal in REFUSALS {
        expect_all_end(rt.alloc(), refusal)?;
        // One request each: the input, the list of calls, the string and the output.
        let made = requests_of(rt.alloc(), b"D83D DCA9\n", b"F0 9F 92 A9\n", refusal)?;
        expect(made == 4, Wrong::Requests)?;
    }
    Ok(())
}

#[test]
fn a_run_on_a_long_line_ends_at_a_refused_request(rt: HostRuntime) -> Check {
    let line = made!(repeated(rt.alloc(), b"0061 ", 66, b"-999 D83D DCA9 -999\n"));
    let expected = made!(repeated(rt.alloc(), b"61 ", 66, b"F0 9F 92 A9 !2\n"));
    for refusal in REFUSALS {
        expect_ends(rt.alloc(), &line, &expected, 7, refusal)?;
    }
    Ok(())
}

#[test]
fn a_run_on_a_long_input_ends_at_a_refused_request(rt: HostRuntime) -> Check {
    let input = made!(repeated(rt.alloc(), b"none ", 1000, b""));
    for refusal in REFUSALS {
        expect_ends(rt.alloc(), &input, b"?\n", 2, refusal)?;
    }
    Ok(())
}
