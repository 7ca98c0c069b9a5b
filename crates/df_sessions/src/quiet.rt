//! Which sessions are passed over for a while.
//!
//! A session that had nothing to do for some rounds in a row gets turns only every so many rounds, and before a long
//! rest: so a thousand idle connections cost the busy ones little. This is a hint by places, no more: where memory for
//! it is short, or a session takes the place of one that ended, somebody is visited too often or a few rounds later.

use std::alloc::Global;

/// Rounds in a row without anything to do after which a session is passed over.
const PATIENCE: u8 = 8;

/// Rounds from one that visits everybody to the next.
const EVERY: u8 = 16;

/// Milliseconds that a round without work waits at the most.
const REST: u32 = 100;

/// Milliseconds that a round waits at the most that worked and passed somebody over: the next request of the others ends
/// the wait, and where none comes, everybody is visited.
const GLANCE: u32 = 1;

/// The rounds without work of each place, and what this round came to so far.
#[derive(Drop)]
pub struct Quiet {
    idle: Vec<u8>,
    round: u8,
    /// This round visits everybody.
    all: bool,
    /// It passed somebody over.
    passed: bool,
    /// Somebody did something in it.
    worked: bool,
}

impl Quiet {
    /// Takes no memory.
    pub fn new(alloc: Global) -> Quiet {
        Quiet {
            idle: Vec::new(alloc),
            round: 0,
            all: true,
            passed: false,
            worked: false,
        }
    }

    /// A round begins over so many places. It visits everybody where the last one passed somebody over and found nothing
    /// to do.
    pub fn begin(&mut self, places: usize) {
        self.round = self.round.wrapping_add(1);
        let missed = self.passed && !self.worked;
        self.all = missed || self.round % EVERY == 0;
        self.passed = false;
        self.worked = false;
        // Without memory nobody is passed over.
        if self.idle.resize(places, 0).is_err() {
            self.all = true;
        }
    }

    /// Whether the session at this place is passed over in this round.
    pub fn passes_over(&mut self, at: usize) -> bool {
        let quiet = match self.idle.get(at) {
            Some(rounds) => *rounds >= PATIENCE,
            None => false,
        };
        if quiet && !self.all {
            self.passed = true;
        }
        quiet && !self.all
    }

    /// The session at this place was visited, and did something or not. Says whether it is passed over from now on.
    pub fn note(&mut self, at: usize, worked: bool) -> bool {
        if worked {
            self.worked = true;
        }
        let Some(rounds) = self.idle.get_mut(at) else {
            return false;
        };
        let before = *rounds;
        *rounds = if worked { 0 } else { before.saturating_add(1) };
        before < PATIENCE && *rounds >= PATIENCE
    }

    /// Milliseconds to rest at the most after this round: none where there is more to do.
    pub fn pause(&self, more: bool) -> u32 {
        if !more && !self.passed {
            REST
        } else if !more && self.worked {
            GLANCE
        } else {
            0
        }
    }
}
