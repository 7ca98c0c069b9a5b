//! The word of flags that a link shares with its door.

use std::sync::atomic::{AtomicU32, Ordering};

/// A read may find something.
pub(crate) const READ: u32 = 1;

/// The peer sends no more, or the connection failed. It stays, so that the end after the last bytes is found.
pub(crate) const READ_CLOSED: u32 = 2;

/// A write may find room.
pub(crate) const WRITE: u32 = 4;

/// The peer takes no more, or the connection failed. It stays.
pub(crate) const WRITE_CLOSED: u32 = 8;

/// The door raises bits, and the link lowers those that don't stay.
#[derive(Drop)]
pub(crate) struct Word {
    bits: AtomicU32,
}

impl Word {
    pub(crate) fn new() -> Word {
        Word {
            bits: AtomicU32::new(0),
        }
    }

    /// As a link begins: its first read and its first write try.
    pub(crate) fn begin(&self) {
        self.bits.store(READ | WRITE, Ordering::SeqCst);
    }

    pub(crate) fn raise(&self, bits: u32) {
        self.bits.fetch_or(bits, Ordering::SeqCst);
    }

    pub(crate) fn lower(&self, bits: u32) {
        self.bits.fetch_and(!bits, Ordering::SeqCst);
    }

    /// Whether one of these bits stands.
    pub(crate) fn has_some(&self, bits: u32) -> bool {
        self.bits.load(Ordering::SeqCst) & bits != 0
    }
}
