//! A model of the memory of a growing string, and units and lengths of strings to try.

/// Eight units that repeat in a string: of one kind alone, or mixed, without lone surrogates and with some.
pub static KINDS: [[u16; 8]; 8] = [
    [0x61; 8],
    [0xE9; 8],
    [0x3042; 8],
    [0xD83D; 8],
    [0xDCA9; 8],
    [
        0xD83D, 0xDCA9, 0xD83D, 0xDCA9, 0xD83D, 0xDCA9, 0xD83D, 0xDCA9,
    ],
    [0x61, 0xE9, 0x3042, 0xD83D, 0xDCA9, 0x07FF, 0xE000, 0x20],
    [0x61, 0xE9, 0x3042, 0xD83D, 0xDCA9, 0xDCA9, 0x20, 0xD83D],
];

/// A unit, and lengths in units at which a string of it has about 4,096 or 65,536 bytes.
pub static ABOUT_POWERS: [(u16, &[usize]); 3] = [
    (0x61, &[4095, 4096, 4097, 65_535, 65_536, 65_537]),
    (0xE9, &[2047, 2048, 2049, 32_767, 32_768, 32_769]),
    (0x3042, &[1365, 1366, 21_845, 21_846]),
];

/// A model of the memory of a growing string: its length and capacity in bytes, and the number of requests and of the
/// bytes in them. It grows to the greatest of eight bytes, twice its capacity and what is needed.
#[derive(Clone, Copy)]
pub struct Room {
    pub len: usize,
    pub capacity: usize,
    pub requests: u64,
    pub bytes: usize,
}

pub const NO_ROOM: Room = Room {
    len: 0,
    capacity: 0,
    requests: 0,
    bytes: 0,
};

impl Room {
    /// Reserves `additional` more bytes.
    pub fn reserve(&mut self, additional: usize) {
        let needed = self.len.saturating_add(additional);
        if needed <= self.capacity {
            return;
        }
        self.capacity = self.capacity.saturating_mul(2).max(needed).max(8);
        self.requests = self.requests.wrapping_add(1);
        self.bytes = self.bytes.wrapping_add(self.capacity);
    }

    /// Appends `count` bytes at once.
    pub fn append(&mut self, count: usize) {
        self.reserve(count);
        self.len = self.len.wrapping_add(count);
    }
    /// Pushes units one by one after the unit `before`. A trail after a lead adds one byte to the lead's three.
    pub fn push_each(&mut self, before: u16, units: &[u16]) {
        let mut last = before;
        for unit in units {
            self.append(match *unit {
                0..=0x7F => 1,
                0x80..=0x7FF => 2,
                0xDC00..=0xDFFF if 0xD800 <= last && last <= 0xDBFF => 1,
                _ => 3,
            });
            last = *unit;
        }
    }
}
