//! A link over a source and a sink, of which it takes so many bytes at the most.

ghost use Rattle.std.specs.Prelude.{◌≡◌, ◌<◌, length, eqb};
ghost use Rattle.df_outside.specs.PairLinks.{IsPair, pair_flow};

use crate::links::Link;
use crate::{Got, Put, Sink, Source};
use std::marker::Model;

/// Reads from the source and writes to the sink. It never has to wait. Where it took its limit of bytes, a read fails
/// and the source isn't asked.
#[derive(Drop)]
pub struct PairLink<S: Source + Send, O: Sink + Send> {
    source: S,
    sink: O,
    /// Bytes that may still be taken.
    left: u64,
    /// Reads that were refused at the limit; it stays at its last value.
    refused: u64,
}

impl<S: Source + Send, O: Sink + Send> Model for PairLink<S, O> {
    ghost use Rattle.df_outside.specs.PairLinks.{PairState, IsPair};

    ghost Value = { PairState };

    ghost view = { λ l. record { input = S.inflow l.source; output = O.outflow l.sink; left = l.left; refused = l.refused } };

    ghost invariant = { λ l. IsPair (record { input = S.inflow l.source; output = O.outflow l.sink; left = l.left; refused = l.refused }) };
}

impl<S: Source + Send, O: Sink + Send> PairLink<S, O> {
    /// A link that takes at most `limit` bytes.
    pub fn new(source: S, sink: O, limit: u64) -> PairLink<S, O>
        requires { 0 < limit }
        ensures { result ≡ record { input = S.inflow source; output = O.outflow sink; left = limit; refused = 0 } }
    {
        PairLink {
            source,
            sink,
            left: limit,
            refused: 0,
        }
    }

    /// As many bytes were taken as may be.
    pub fn is_spent(&self) -> bool
        ensures { result ≡ eqb self.now.left 0 }
    {
        self.left == 0
    }

    pub fn into_parts(self) -> (S, O)
        ensures input { S.inflow result.0 ≡ self.input }
        ensures output { O.outflow result.1 ≡ self.output }
        ensures pair { IsPair self }
    {
        let PairLink {
            source,
            sink,
            left: _,
            refused: _,
        } = self;
        (source, sink)
    }
}

impl<S: Source + Send, O: Sink + Send> Link for PairLink<S, O> {
    ghost flow = { pair_flow };

    fn read(&mut self, buf: &mut [u8]) -> Got {
        if self.left == 0 {
            self.refused = self.refused.saturating_add(1);
            return Got::Failed;
        }
        let room = buf.len().min(self.left as usize);
        match self.source.read(&mut buf[..room]) {
            Got::Took(count) => {
                self.left -= count as u64;
                Got::Took(count)
            }
            Got::End => Got::End,
            Got::NotYet => Got::NotYet,
            Got::Failed => Got::Failed,
            Got::NoMemory => Got::NoMemory,
        }
    }

    fn write(&mut self, piece: &[u8]) -> Put {
        self.sink.write(piece)
    }

    /// Nothing is to be closed.
    fn close(&mut self) {}
}
