//! A reader of requests from a stream that comes in pieces.
//!
//!     next answers   when                                             then
//!     Words          a request is whole                               the next call goes on behind it
//!     NeedMore       what is left is a request's front                feed, and call again
//!     Bad            whatever follows, what is left is no request     the same answer for ever
//!
//! Frames without words, `*0` and `*-1`, are skipped. Want of memory is an answer of its own: no byte is
//! lost, and the call may be made again.

ghost use Rattle.std.specs.Prelude.{◌≡◌, ◌≢◌, ◌++◌, [], Some, None, IfOk, OnOk, OnErr};
ghost use Rattle.df_model.specs.Framing.{Splits};

use crate::held::Held;
use crate::input::{self, Begun, Input, Step};
use bytes::Bytes;
use df_model::{BadKind, NoMemory};
use std::alloc::Global;
use std::marker::Model;

/// Words of the longest list whose room is kept between requests, so that an idle connection holds little.
const MOST_KEPT: usize = 64;

/// What a reader gives.
pub enum Next {
    /// The words of a request, as slices of what was read: no byte is copied for them.
    Words(Vec<Bytes>),
    /// Nothing more is whole. To call again before a piece is fed gives the same answer.
    NeedMore,
    /// What was expected at the first bad byte, and its place in the connection's input, from 0. A place
    /// past the greatest `u64` is given as that.
    Bad { kind: BadKind, at: u64 },
}

/// The stream of one connection. Contracts see what is left of it, how many bytes stood before that,
/// and the first bad byte once it was found.
#[derive(Drop)]
pub struct Reader {
    alloc: Global,
    input: Input,
    /// The answer that was given once it was Bad.
    failed: Option<(BadKind, u64)>,
}

impl Model for Reader {
    ghost use Rattle.df_resp.specs.Stream.{Stream, rest_of, IsSound, IsPlaced};

    ghost Value = { Stream };

    ghost view = { λ r. record { rest = rest_of r.input.begun r.input.held; before = r.input.before; failed = r.failed } };

    ghost invariant = { λ r. IsSound r.input.begun × IsPlaced r.input.before r.input.place (rest_of r.input.begun r.input.held) r.input.held };
}

impl Reader {
    ghost use Rattle.std.specs.Prelude.{ℕ};
    ghost use Rattle.df_model.specs.declared.session.BadKind.{BadKind as Kind};
    ghost use Rattle.df_resp.specs.Stream.{Counts};
    ghost use Rattle.df_resp.specs.Next.{Gives};

    /// Takes no memory.
    pub fn new(alloc: Global) -> Reader
        ensures rest { result.rest ≡ [] }
        ensures before { result.before ≡ 0 }
        ensures failed { result.failed ≡ None }
    {
        Reader {
            alloc,
            input: Input {
                begun: Begun {
                    words: Vec::new(alloc),
                    missing: 0,
                    total: 0,
                },
                held: Held::new(alloc),
                before: 0,
                place: 0,
            },
            failed: None,
        }
    }

    /// Adds a piece, of any length, to the stream. After Bad this changes nothing.
    pub fn feed(&mut self, piece: &[u8]) -> Result<(), NoMemory>
        ensures rest { OnOk result (self.old.failed ≡ None → self.new.rest ≡ self.old.rest ++ piece.now) }
        ensures before { self.new.before ≡ self.old.before }
        ensures failed { self.new.failed ≡ self.old.failed }
        ensures bad { self.old.failed ≢ None → self.new ≡ self.old }
        ensures err { OnErr result (self.new ≡ self.old) }
    {
        if self.failed.is_none() {
            self.input.held.add(piece)?;
        }
        Ok(())
    }

    /// The next request, or that there is none yet, or that the stream is bad.
    pub fn next(&mut self) -> Result<Next, NoMemory>
        ensures ok { self.old.failed ≡ None → IfOk result (λ next. Gives next self.old self.new) }
        ensures again { (kind : Kind) (at : ℕ) → self.old.failed ≡ Some (kind, at) → (result ≡ Ok (Next.Bad kind at)) × (self.new ≡ self.old) }
        ensures count { Counts self.old.before self.old.rest self.new.before self.new.rest }
        // Want of memory loses no byte, but frames without words may have been skipped.
        ensures err { OnErr result ((self.new.failed ≡ self.old.failed) × Splits self.old.rest [] self.new.rest) }
    {
        if let Some((kind, at)) = self.failed {
            return Ok(Next::Bad { kind, at });
        }
        'frames: loop {
            match input::take_next(self.alloc, &mut self.input)? {
                Step::On => {}
                Step::Whole(words) => return Ok(Next::Words(words)),
                Step::More => return Ok(Next::NeedMore),
                Step::Bad(kind, at) => {
                    let at = self.input.place.saturating_add(at as u64);
                    self.failed = Some((kind, at));
                    return Ok(Next::Bad { kind, at });
                }
            }
        }
    }

    /// Takes the list of a request's words back, for the words of the next one. A reader whose lists aren't
    /// given back makes a new one for each request.
    pub fn give_back(&mut self, mut words: Vec<Bytes>)
        ensures { self.new ≡ self.old }
    {
        words.clear();
        if self.input.begun.words.capacity() == 0 && words.capacity() <= MOST_KEPT {
            self.input.begun.words = words;
        }
    }
    /// Lets memory go in which nothing is kept. A reader that waits for long had better be told so, since it keeps a
    /// block of some 16 KiB for the next piece.
    pub fn shrink(&mut self)
        ensures { self.new ≡ self.old }
    {
        self.input.held.shrink();
        if self.input.begun.words.is_empty() {
            self.input.begun.words = Vec::new(self.alloc);
        }
    }
}
