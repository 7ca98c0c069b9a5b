//! The bytes of a reply.
//!
//! A short reply stands in place, so that most replies take no memory. A longer one goes to one buffer that grows,
//! and a large byte string that is moved in is never copied. A connection clears its reply for the next call and
//! keeps the room.

ghost use Rattle.std.specs.Prelude.{◌≡◌, ◌++◌, ◌<◌, [], drop, length, IfOk, OnOk, OnErr};
ghost use Rattle.df_colls.specs.Runs.{IsFront};

use crate::rest::Rest;
use crate::short::Short;
use df_model::{Bin, NoMemory};
use std::alloc::Global;
use std::marker::Model;
use std::mem;

/// Where the bytes lie: in place while they find room there, else all in buffers.
#[derive(Debug, Drop)]
pub(crate) enum Body {
    Here(Short, Global),
    Away(Rest),
}

/// An encoded reply. Contracts see its bytes.
#[derive(Debug)]
pub struct Pieces {
    pub(crate) body: Body,
}

/// A line of a processor's cache.
const _: () = prove!(mem::size_of::<Pieces>() <= 64);

/// A byte string that is moved in stays a buffer of its own from this length on; a shorter one is cheaper to
/// copy.
const LARGE: usize = 1024;

/// A call of its own, so that whoever drops a reply has one way on and not two.
impl Drop for Pieces {
    fn drop(self) {
        let Pieces { body } = self;
        match body {
            Body::Here(_, _) => {}
            Body::Away(_) => {}
        }
    }
}

impl Model for Pieces {
    ghost use Rattle.std.specs.Prelude.{List, ℕ};
    ghost use Rattle.df_values.specs.Bodies.{bytes_in};

    ghost Value = { List ℕ };

    ghost view = { λ p. bytes_in p.body };
}

impl Pieces {
    /// No bytes. Takes no memory.
    pub fn new(alloc: Global) -> Pieces
        ensures { result ≡ [] }
    {
        Pieces {
            body: Body::Here(Short::new(), alloc),
        }
    }

    /// Drops all bytes; their room stays, up to some tens of kilobytes. Takes no memory.
    pub fn clear(&mut self)
        ensures { self.new ≡ [] }
    {
        match &mut self.body {
            Body::Here(short, _) => short.clear(),
            Body::Away(rest) => rest.clear(),
        }
    }

    /// Where its memory comes from.
    pub(crate) fn alloc(&self) -> Global {
        match &self.body {
            Body::Here(_, alloc) => *alloc,
            Body::Away(rest) => rest.alloc(),
        }
    }

    /// How many bytes there are in all buffers.
    pub fn len(&self) -> usize
        ensures { result ≡ length self.now }
    {
        match &self.body {
            Body::Here(short, _) => short.len(),
            Body::Away(rest) => rest.len(),
        }
    }

    /// Adds a copy of the bytes.
    pub fn add(&mut self, bytes: &[u8]) -> Result<(), NoMemory>
        ensures ok { OnOk result (self.new ≡ self.old ++ bytes.now) }
        ensures err { OnErr result (self.new ≡ self.old) }
    {
        match &mut self.body {
            Body::Here(short, alloc) => {
                if bytes.len() <= short.room() {
                    short.add(bytes);
                    return Ok(());
                }
                let mut rest = moved(short, *alloc, bytes.len())?;
                rest.add(bytes)?;
                self.body = Body::Away(rest);
                Ok(())
            }
            Body::Away(rest) => rest.add(bytes),
        }
    }

    /// Adds a byte string, which isn't copied where it is large.
    pub fn push(&mut self, alloc: Global, bin: Bin) -> Result<(), NoMemory>
        ensures ok { OnOk result (self.new ≡ self.old ++ bin) }
        ensures err { OnErr result (self.new ≡ self.old) }
    {
        if bin.len() < LARGE {
            return self.add(bin.as_slice());
        }
        match &mut self.body {
            Body::Here(short, _) => {
                let mut rest = moved(short, alloc, 0)?;
                rest.push(alloc, bin)?;
                self.body = Body::Away(rest);
                Ok(())
            }
            Body::Away(rest) => rest.push(alloc, bin),
        }
    }

    /// Adds a copy of another reply.
    pub fn add_all(&mut self, other: &Pieces) -> Result<(), NoMemory>
        ensures { OnOk result (self.new ≡ self.old ++ other.now) }
    {
        let mut at = 0;
        'runs: while at < other.len() {
            let run = other.run(at);
            self.add(run)?;
            at += run.len();
        }
        Ok(())
    }

    /// Bytes from this place on, as they stand in one buffer: at least one, where there is one. A loop that writes
    /// the reply goes from run to run.
    pub fn run(&self, from: usize) -> &[u8]
        ensures front { IsFront (drop from self.now) result.now }
        ensures goes_on { from < length self.now → 0 < length result.now }
    {
        match &self.body {
            Body::Here(short, _) => {
                let short = short.as_slice();
                &short[from.min(short.len())..]
            }
            Body::Away(rest) => rest.run(from),
        }
    }

    /// Appends all bytes. Memory is asked for once, and where there is none, nothing is appended.
    pub fn append_to(&self, to: &mut Vec<u8>) -> Result<(), NoMemory>
        ensures ok { OnOk result (to.new.items ≡ to.old.items ++ self.now) }
        ensures err { OnErr result (to.new.items ≡ to.old.items) }
    {
        match &self.body {
            Body::Here(short, _) => to.extend_from_slice(short.as_slice())?,
            Body::Away(rest) => {
                to.reserve(rest.len())?;
                rest.append_to(to);
            }
        }
        Ok(())
    }
}

/// The bytes in a buffer, with room for `more`.
pub(crate) fn moved(short: &Short, alloc: Global, more: usize) -> Result<Rest, NoMemory>
    ensures { IfOk result (λ rest. rest ≡ short.now) }
{
    let mut rest = Rest::new(alloc);
    rest.reserve(short.len().saturating_add(more))?;
    rest.add(short.as_slice())?;
    Ok(rest)
}
