//! What arrives at a link in memory, with a place up to which it was taken.

ghost use Rattle.std.specs.Prelude.{◌≡◌, ◌<◌, length, []};
ghost use Rattle.df_outside.specs.Arrivals.{Arrives, coming};

use crate::Got;
use crate::buffers::copy_front;
use crate::pieces::rest_of;
use df_model::Bin;
use std::marker::Model;

/// What arrives at a link: bytes, or a read that has to wait.
#[derive(Debug, Drop)]
pub enum Arrival {
    /// An empty one is passed over.
    Bytes(Bin),
    NotYet,
}

/// Contracts see the bytes that were taken, and the arrivals that are left without the empty ones.
#[derive(Debug, Drop)]
pub(crate) struct Arrivals {
    arrivals: Vec<Arrival>,
    /// The number of the arrival that comes next, from 0.
    number: usize,
    /// How many of its bytes were taken.
    at: usize,
}

impl Model for Arrivals {
    ghost use Rattle.std.specs.Prelude.{◌≤◌, length, drop};
    ghost use Rattle.df_outside.specs.Arrivals.{Taken, taken_at, first_bytes};

    ghost Value = { Taken };

    ghost view = { λ a. taken_at a.number a.at a.arrivals.items };

    ghost invariant = { λ a. (a.number ≤ length a.arrivals.items) × (a.at ≤ length (first_bytes (drop a.number a.arrivals.items))) };
}

impl Arrivals {
    /// All of these are still to come.
    pub(crate) fn new(arrivals: Vec<Arrival>) -> Arrivals
        ensures { result ≡ record { taken = []; left = coming arrivals.items } }
    {
        Arrivals {
            arrivals,
            number: 0,
            at: 0,
        }
    }

    /// Moves the next bytes to the front of the buffer, or passes over one that waits; End where none is left.
    pub(crate) fn take(&mut self, buf: &mut [u8]) -> Got
        requires { 0 < length buf.old }
        ensures { Arrives result self.old self.new buf.old buf.new }
    {
        'arrivals: while let Some(arrival) = self.arrivals.as_slice().get(self.number) {
            match arrival {
                Arrival::NotYet => {
                    self.number += 1;
                    return Got::NotYet;
                }
                Arrival::Bytes(piece) => {
                    let rest = rest_of(piece, self.at);
                    if !rest.is_empty() {
                        let count = copy_front(rest, buf);
                        self.at += count;
                        return Got::Took(count);
                    }
                    self.number += 1;
                    self.at = 0;
                }
            }
        }
        Got::End
    }
}
