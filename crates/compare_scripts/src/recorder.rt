// Records the bytes that a value feeds a hasher.
ghost use Rattle.std.specs.Prelude.{◌-◌, nat_lt, length, slice_index, Some, is_some, if◌then◌else◌};

use crate::tape::Tape;
use std::hash::{Hash, Hasher};

/// A hasher that keeps one byte of its input: the one after the next `in_front` bytes.
#[derive(Drop)]
struct ByteAt {
    in_front: usize,
    byte: Option<u8>,
}

impl Hasher for ByteAt {
    ghost write = { λ s bytes. if is_some s.byte then s
        else record { in_front = s.in_front - length bytes; byte = if nat_lt s.in_front (length bytes) then Some (slice_index bytes s.in_front) else s.byte } };

    ghost finish = { λ s. s.in_front };

    fn finish(&self) -> u64 {
        self.in_front as u64
    }

    fn write(&mut self, bytes: &[u8]) {
        if self.byte.is_none() {
            self.byte = bytes.get(self.in_front).copied();
            self.in_front = self.in_front.saturating_sub(bytes.len());
        }
    }
}

/// Writes the bytes that a value feeds a hasher. Hashes the value once for each byte.
pub fn write_hash_input<T: Hash>(tape: &mut Tape<'_>, value: &T) {
    tape.write_word("fed");
    for index in 0..usize::MAX {
        let Some(byte) = byte_fed(value, index) else {
            break;
        };
        write!(tape, " {byte:02X}");
    }
    tape.end_line();
}

/// The byte at an index of what a value feeds a hasher, or `None` past its end.
fn byte_fed<T: Hash>(value: &T, index: usize) -> Option<u8> {
    let mut state = ByteAt {
        in_front: index,
        byte: None,
    };
    value.hash(&mut state);
    state.byte
}
