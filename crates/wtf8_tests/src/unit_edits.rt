//! Replacements of code units in the middle of a string. Python made the bytes, by its codecs of UTF-16 and UTF-8 that let
//! surrogates pass.

/// The units of a string, an index from which and one before which they are replaced, and the units in their place; then all
/// units after it, and their bytes.
pub type Edit = (
    (&'static [u16], (usize, usize), &'static [u16]),
    (&'static [u16], &'static str),
);

/// Pairs are cut, formed, formed again from two halves, and put back, at each end.
pub static EDITS: [Edit; 18] = [
    (
        (&[0x61, 0x62, 0x63], (1, 2), &[0xE9, 0x3042]),
        (&[0x61, 0xE9, 0x3042, 0x63], "61 C3 A9 E3 81 82 63"),
    ),
    (
        (&[0x61, 0xD83D, 0xDCA9, 0x62], (2, 2), &[0x63]),
        (
            &[0x61, 0xD83D, 0x63, 0xDCA9, 0x62],
            "61 ED A0 BD 63 ED B2 A9 62",
        ),
    ),
    (
        (&[0x61, 0xD83D, 0xDCA9, 0x62], (2, 2), &[0xDC00]),
        (
            &[0x61, 0xD83D, 0xDC00, 0xDCA9, 0x62],
            "61 F0 9F 90 80 ED B2 A9 62",
        ),
    ),
    (
        (&[0x61, 0xD83D, 0xDCA9, 0x62], (2, 2), &[0xD800]),
        (
            &[0x61, 0xD83D, 0xD800, 0xDCA9, 0x62],
            "61 ED A0 BD F0 90 82 A9 62",
        ),
    ),
    (
        (&[0x61, 0xD83D, 0xDCA9, 0x62], (2, 2), &[0xDC00, 0xD800]),
        (
            &[0x61, 0xD83D, 0xDC00, 0xD800, 0xDCA9, 0x62],
            "61 F0 9F 90 80 F0 90 82 A9 62",
        ),
    ),
    (
        (&[0x61, 0xD83D, 0xDCA9, 0x62], (2, 2), &[]),
        (&[0x61, 0xD83D, 0xDCA9, 0x62], "61 F0 9F 92 A9 62"),
    ),
    (
        (&[0x61, 0xD83D, 0xDCA9, 0x62], (1, 2), &[]),
        (&[0x61, 0xDCA9, 0x62], "61 ED B2 A9 62"),
    ),
    (
        (&[0x61, 0xD83D, 0xDCA9, 0x62], (2, 3), &[]),
        (&[0x61, 0xD83D, 0x62], "61 ED A0 BD 62"),
    ),
    (
        (&[0xD83D, 0x61, 0x62, 0xDCA9], (1, 3), &[]),
        (&[0xD83D, 0xDCA9], "F0 9F 92 A9"),
    ),
    (
        (
            &[0xD83D, 0x61, 0x62, 0xDCA9],
            (1, 3),
            &[0xDC00, 0x7A, 0xD800],
        ),
        (
            &[0xD83D, 0xDC00, 0x7A, 0xD800, 0xDCA9],
            "F0 9F 90 80 7A F0 90 82 A9",
        ),
    ),
    (
        (&[0xD83D, 0xDCA9, 0x61, 0xD83E, 0xDD84], (1, 4), &[]),
        (&[0xD83D, 0xDD84], "F0 9F 96 84"),
    ),
    (
        (&[0xD83D, 0xDCA9, 0x61, 0xD83E, 0xDD84], (1, 4), &[0x78]),
        (&[0xD83D, 0x78, 0xDD84], "ED A0 BD 78 ED B6 84"),
    ),
    (
        (&[0xD83D, 0xDCA9], (0, 2), &[0xDCA9, 0xD83D]),
        (&[0xDCA9, 0xD83D], "ED B2 A9 ED A0 BD"),
    ),
    ((&[], (0, 0), &[0x61]), (&[0x61], "61")),
    (
        (&[0x61], (1, 1), &[0xD83D, 0xDCA9]),
        (&[0x61, 0xD83D, 0xDCA9], "61 F0 9F 92 A9"),
    ),
    (
        (&[0xDCA9], (0, 0), &[0xD83D]),
        (&[0xD83D, 0xDCA9], "F0 9F 92 A9"),
    ),
    (
        (&[0xD83D], (1, 1), &[0xDCA9]),
        (&[0xD83D, 0xDCA9], "F0 9F 92 A9"),
    ),
    (
        (&[0xD83D, 0xD83D, 0xDCA9, 0xDCA9], (1, 3), &[]),
        (&[0xD83D, 0xDCA9], "F0 9F 92 A9"),
    ),
];
