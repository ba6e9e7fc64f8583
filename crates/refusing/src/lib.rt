//! An allocator for tests that refuses requests for memory after a number of them, and counts requests and their bytes.
#![tactic(auto)]

use std::alloc::{AllocError, Allocator, Global};
use std::cell::Cell;

/// Which requests are refused after the ones that are granted.
#[derive(Clone, Copy, PartialEq, Eq, Debug)]
pub enum Refusal {
    /// All of them.
    ForGood,
    /// The first one alone. A caller that repeats the refused request is granted it, so the repetition shows.
    Once,
}

/// Both, for tests that try each.
pub const REFUSALS: [Refusal; 2] = [Refusal::ForGood, Refusal::Once];

/// The requests that are still granted, and the number of requests made and of the bytes in them.
#[derive(Clone, Copy)]
struct Ledger {
    grants: u64,
    refusal: Refusal,
    requests: u64,
    bytes: usize,
}

/// An allocator for tests that wraps another one: it grants a set number of requests for memory, and refuses the ones
/// after them, all or the first alone.
///
/// A new block is a request, and so is a block that grows or shrinks. A deallocation is none. A granted request uses up
/// a grant even if the inner allocator then refuses it.
pub struct Refusing<B: Allocator> {
    inner: B,
    ledger: Cell<Ledger>,
}

/// The borrowed allocator that most tests of memory pass.
pub type Lent<'a> = &'a Refusing<Global>;

impl<B: Allocator> Refusing<B> {
    /// Wraps `inner`. The first `grants` requests are granted, and all after them refused.
    pub fn new(inner: B, grants: u64) -> Refusing<B> {
        Refusing {
            inner,
            ledger: Cell::new(opened(grants, Refusal::ForGood)),
        }
    }

    /// From now on the next `grants` requests are granted, and all after them refused. The counts restart at 0.
    pub fn grant(&self, grants: u64) {
        self.refuse_after(grants, Refusal::ForGood);
    }

    /// From now on the next `grants` requests are granted, and the ones after them refused, all or the first alone. The
    /// counts restart at 0.
    pub fn refuse_after(&self, grants: u64, refusal: Refusal) {
        self.ledger.set(opened(grants, refusal));
    }

    /// The number of requests that are still granted before one is refused.
    pub fn grants_left(&self) -> u64 {
        self.ledger.get().grants
    }

    /// The number of requests, refused ones included, since the grants were last set.
    pub fn requests(&self) -> u64 {
        self.ledger.get().requests
    }

    /// The number of bytes in all requests, refused ones included, since the grants were last set, modulo 2⁶⁴.
    pub fn bytes(&self) -> usize {
        self.ledger.get().bytes
    }
}

impl<B: Allocator> Drop for Refusing<B> {
    fn drop(self) {
        let Self {
            inner: _,
            ledger: _,
        } = self;
    }
}

/// A ledger with `grants` requests to grant, and none made.
fn opened(grants: u64, refusal: Refusal) -> Ledger {
    Ledger {
        grants,
        refusal,
        requests: 0,
        bytes: 0,
    }
}

/// Counts a request of `size` bytes. Returns whether it is granted, which uses up one of the grants.
fn use_grant(ledger: &Cell<Ledger>, size: usize) -> bool {
    let mut page = ledger.get();
    page.requests = page.requests.wrapping_add(1);
    page.bytes = page.bytes.wrapping_add(size);
    let left = page.grants;
    if left == 0 {
        if page.refusal == Refusal::Once {
            page.grants = u64::MAX;
        }
        ledger.set(page);
        return false;
    }
    page.grants = left - 1;
    ledger.set(page);
    true
}

unsafe impl<B: Allocator> Allocator for Refusing<B> {
    ghost dealloc_token = { λ heap ty ptr. B.dealloc_token heap.inner ty ptr };

    fn allocate(&self, size: usize, align: usize) -> Result<*mut u8, AllocError> {
        if !use_grant(&self.ledger, size) {
            return Err(AllocError);
        }
        self.inner.allocate(size, align)
    }

    unsafe fn deallocate(&self, ptr: *mut u8, size: usize, align: usize) {
        self.inner.deallocate(ptr, size, align);
    }
}
