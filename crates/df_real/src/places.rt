//! The flag words of all links, by the tokens of their events.

use crate::word::{READ, READ_CLOSED, WRITE, WRITE_CLOSED, Word};
use mio::event::Event;
use std::alloc::{AllocError, Global};
use std::sync::Arc;

/// How many places there are before the first look for those that were given back.
const FIRST_LIMIT: usize = 64;

/// A place that no link has, with a share of its word.
#[derive(Drop)]
pub(crate) struct Spare {
    pub(crate) place: usize,
    pub(crate) word: Arc<Word>,
}

/// A link that ends drops its share, and so gives its place back.
#[derive(Drop)]
pub(crate) struct Places {
    alloc: Global,
    words: Vec<Arc<Word>>,
    spares: Vec<Spare>,
    /// With so many places, one looks for those that were given back before there are more: twice as many as were in
    /// use at the last look, so that looks cost little and the table stays small.
    limit: usize,
}

impl Places {
    pub(crate) fn new(alloc: Global) -> Places {
        Places {
            alloc,
            words: Vec::new(alloc),
            spares: Vec::new(alloc),
            limit: FIRST_LIMIT,
        }
    }

    /// A place for a link to come. Its word has no bits of an earlier link once it has begun.
    pub(crate) fn spare(&mut self) -> Result<Spare, AllocError> {
        if let Some(spare) = self.spares.pop() {
            return Ok(spare);
        }
        if self.words.len() >= self.limit {
            self.look();
        }
        match self.spares.pop() {
            Some(spare) => Ok(spare),
            None => self.grow(),
        }
    }

    /// Keeps the place for the next link. Where there is no memory for that, a later look finds it.
    pub(crate) fn put_back(&mut self, spare: Spare) {
        let _ = self.spares.push(spare);
    }

    /// Raises the bits that the event tells of.
    pub(crate) fn note(&self, event: &Event) {
        if let Some(word) = self.words.get(event.token().0) {
            word.raise(bits_of(event));
        }
    }

    /// Finds the places that were given back, as many as memory allows.
    fn look(&mut self) {
        for (place, word) in self.words.iter().enumerate() {
            if Arc::strong_count(word) > 1 {
                continue;
            }
            let Ok(word) = Arc::try_clone(word) else {
                break;
            };
            if self.spares.push(Spare { place, word }).is_err() {
                break;
            }
        }
        let used = self.words.len().saturating_sub(self.spares.len());
        self.limit = used.saturating_mul(2).saturating_add(FIRST_LIMIT);
    }

    fn grow(&mut self) -> Result<Spare, AllocError> {
        let place = self.words.len();
        let word = Arc::new(self.alloc, Word::new())?;
        let share = Arc::try_clone(&word)?;
        self.words.push(word)?;
        Ok(Spare { place, word: share })
    }
}

/// An error is told to both sides, each of which finds it by its next call.
fn bits_of(event: &Event) -> u32 {
    let failed = event.is_error();
    let mut bits = 0;
    if event.is_readable() {
        bits |= READ;
    }
    if event.is_read_closed() || failed {
        bits |= READ_CLOSED;
    }
    if event.is_writable() {
        bits |= WRITE;
    }
    if event.is_write_closed() || failed {
        bits |= WRITE_CLOSED;
    }
    bits
}
