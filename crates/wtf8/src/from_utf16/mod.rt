// Encodes UTF-16 code units as WTF-8. In a string, by the units that are left:
//
//     4 to 63, a whole list of ASCII      `short_ascii`: two blocks, which may overlap
//     at most 8, a whole list             `on_stack`: one code point at a time
//     to 63, to 128 if 64 are not ASCII   `on_stack`, only of a new string: as blocks
//     32 to 63, all ASCII                 two blocks, which may overlap
//     32 or more, the first one ASCII     the ASCII run; then `sparse` if few are not ASCII, one code point, or blocks
//     4 or more, others                   `kernel`: blocks, of which the last may have fewer units than the others
//     at most 3                           `decode`, the plain form of the conversion: one code point at a time
//
// In a slice, and for `on_stack`, `front`: blocks; one code point at a time if fewer than 4 units are left or a block has no room.
pub(crate) mod decode;
pub(crate) mod encoded_len;
pub(crate) mod front;
pub(crate) mod kernel;
pub(crate) mod on_stack;
pub(crate) mod room;
pub(crate) mod short_ascii;
pub(crate) mod shuffle_table;
pub(crate) mod sparse;
pub(crate) mod transcode;

/// The number of units that are encoded together: the 16-bit lanes of a vector of 32 bytes, or of two of 16.
pub(crate) const BLOCK_UNITS: usize = 16;

pub(crate) const TWO_BLOCKS: usize = 2 * BLOCK_UNITS;

pub(crate) const HALF_BLOCK: usize = BLOCK_UNITS / 2;

/// Also the least number of the last units that are encoded as a block. With 1 in its place, 17 units that are not ASCII take 1.2
/// of the instructions in a new string, and 1.1 pushed.
pub(crate) const QUARTER_BLOCK: usize = BLOCK_UNITS / 4;

/// How far units are encoded: the index of the next one, and whether no lone surrogate precedes it.
#[derive(Clone, Copy)]
pub(crate) struct Progress {
    pub(crate) at: usize,
    pub(crate) is_utf8: bool,
}
