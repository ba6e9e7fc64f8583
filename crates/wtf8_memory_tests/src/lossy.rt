// Bytes read as UTF-8, with U+FFFD for each part that is not, appended with each request for memory refused in turn.
use crate::shared::{Change, expect_each_refused, expect_granted};
use refusing::{Lent, Refusing};
use std::alloc::Global;
use wtf8_tests::wrong::Check;

/// Wrong bytes after "ab" and after "cd", and an unfinished code point, which a part leaves out.
static BYTES: &[u8] = b"ab\xFFcd\xE2\x80efghij\xF0\x9F";

/// The number of bytes before it.
const USED: usize = 13;

/// The requests of the appended parts: to 9 bytes, twice that, and twice that again.
const REQUESTS: u64 = 3;

/// "a" and D83D, then the text that CPython's incremental decoder with "replace" makes of the bytes.
const PART: &str = "61 ED A0 BD 61 62 EF BF BD 63 64 EF BF BD 65 66 67 68 69 6A";

/// The same with U+FFFD at the end.
const WHOLE: &str = "61 ED A0 BD 61 62 EF BF BD 63 64 EF BF BD 65 66 67 68 69 6A EF BF BD";

/// Fails unless the bytes are appended if all requests are granted, and else none.
fn expect_whole(alloc: Global, heap: Lent<'_>, change: Change<'_>, dump: &str) -> Check {
    expect_each_refused(alloc, heap, change, REQUESTS)?;
    expect_granted(alloc, heap, change, (REQUESTS, 9 + 18 + 36), dump)
}

#[test]
fn bytes_with_replacement_are_appended_or_refused_whole(rt: HostRuntime) -> Check {
    let heap = Refusing::new(rt.alloc(), 0);
    expect_whole(rt.alloc(), &heap, Change::PushLossy(BYTES), WHOLE)?;
    expect_whole(rt.alloc(), &heap, Change::PushLossyPart(BYTES, USED), PART)
}
