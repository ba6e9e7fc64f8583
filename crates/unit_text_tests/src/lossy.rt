// Bytes read as UTF-8, with U+FFFD for each part that is not, appended again and again to a buffer that counts its units.
// The units are what CPython's `bytes.decode` with `errors="replace"` gives, and its incremental decoder, which keeps the
// bytes from `used` on.
use crate::shared::buf_has_units;
use std::alloc::Global;
use unit_text::IndexedBuf;

/// Bytes, their units, the number of bytes before an unfinished code point at the end, and the units of these bytes.
type Row = (&'static [u8], &'static [u16], usize, &'static [u16]);

static ROWS: [Row; 5] = [
    (b"\xFF", &[0xFFFD], 1, &[0xFFFD]),
    (
        b"a\xE4\xB8\xAD\xF0\x9F\x92b\xF0\x9F\x92\xA9",
        &[0x61, 0x4E2D, 0xFFFD, 0x62, 0xD83D, 0xDCA9],
        12,
        &[0x61, 0x4E2D, 0xFFFD, 0x62, 0xD83D, 0xDCA9],
    ),
    (
        b"\xC3\xA9\xED\xA0\x80",
        &[0xE9, 0xFFFD, 0xFFFD, 0xFFFD],
        5,
        &[0xE9, 0xFFFD, 0xFFFD, 0xFFFD],
    ),
    (
        b"abc\xE2\x82",
        &[0x61, 0x62, 0x63, 0xFFFD],
        3,
        &[0x61, 0x62, 0x63],
    ),
    (b"\xF0\x9F\x92", &[0xFFFD], 0, &[]),
];

/// How often the bytes are appended, so that units are found by marks.
const TIMES: usize = 150;

/// `units` again and again; fewer if memory is refused.
fn repeated(alloc: Global, units: &[u16]) -> Vec<u16> {
    let mut all = Vec::new(alloc);
    for _ in 0..TIMES {
        let _ = all.extend_from_slice(units);
    }
    all
}

/// Whether the buffer has the units of all bytes that were appended.
fn is_whole(alloc: Global, &(bytes, units, ..): &Row) -> bool {
    let mut buf = IndexedBuf::new(alloc);
    buf.mark_units(alloc);
    for _ in 0..TIMES {
        if buf.push_utf8_lossy(bytes).is_err() {
            return false;
        }
    }
    buf_has_units(&buf, &repeated(alloc, units))
}

/// The same of all bytes but the unfinished ones.
fn is_part(alloc: Global, &(bytes, _, used, part): &Row) -> bool {
    let mut buf = IndexedBuf::new(alloc);
    buf.mark_units(alloc);
    for _ in 0..TIMES {
        if buf.push_utf8_lossy_part(bytes) != Ok(used) {
            return false;
        }
    }
    buf_has_units(&buf, &repeated(alloc, part))
}

#[test]
fn bytes_are_read_with_replacement(rt: HostRuntime) {
    for row in &ROWS {
        assert!(rt; is_whole(rt.alloc(), row) && is_part(rt.alloc(), row));
    }
}
