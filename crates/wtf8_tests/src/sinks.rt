//! A sink that refuses one write.
use crate::wrong::{Failed, Wrong};
use std::alloc::Global;
use std::fmt;
use std::fmt::Write;

/// Takes all writes but number `refused`, counted from 1, which it refuses.
#[derive(Drop)]
pub struct Sink {
    taken: String,
    writes: u32,
    refused: u32,
}

impl Sink {
    pub fn new(alloc: Global, refused: u32) -> Sink {
        Sink {
            taken: String::new(alloc),
            writes: 0,
            refused,
        }
    }

    /// Whether the text written so far is `expected`.
    pub fn has_taken(&self, expected: &str) -> bool {
        self.taken.as_str() == expected
    }

    /// Fails unless the call that writes `expected` failed at the refused write and ended there, or wrote all if none
    /// was refused; `is_ok` is whether it succeeded. Returns the number of writes.
    pub fn expect_end(&self, is_ok: bool, expected: &str) -> Result<u32, Failed> {
        let (taken, writes) = (self.taken.as_str(), self.writes);
        if is_ok != (writes < self.refused) || (is_ok && taken != expected) {
            return Err(Failed::by(Wrong::Outcome));
        }
        if !expected.starts_with(taken) || (!is_ok && writes != self.refused) {
            return Err(Failed::by(Wrong::Outcome));
        }
        Ok(writes)
    }
}

impl Write for Sink {
    fn write_str(&mut self, s: &str) -> fmt::Result {
        self.writes = self.writes.wrapping_add(1);
        if self.writes == self.refused {
            return Err(fmt::Error);
        }
        self.taken.write_str(s)
    }
}
