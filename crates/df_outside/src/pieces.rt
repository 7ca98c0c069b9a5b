//! Bytes in pieces, with a place up to which they were taken.

ghost use Rattle.std.specs.Prelude.{◌≡◌, ◌<◌, ◌≤◌, ◌++◌, [], length, take, drop, min, ◌^◌};
ghost use Rattle.df_outside.specs.Cuts.{filled, next_bytes, cut_after};

use crate::buffers::copy_front;
use df_model::{Bin, Bins};
use std::marker::Model;

/// Contracts see the bytes that were taken, and the pieces that are left without the empty ones.
#[derive(Debug, Drop)]
pub(crate) struct Pieces {
    pieces: Bins,
    /// The number of the piece that comes next, from 0.
    number: usize,
    /// How many of its bytes were taken.
    at: usize,
}

impl Model for Pieces {
    ghost use Rattle.std.specs.Prelude.{◌≤◌, length, drop};
    ghost use Rattle.df_outside.specs.Cuts.{Cut, cut_at, first_of_pieces};

    ghost Value = { Cut };

    ghost view = { λ p. cut_at p.number p.at p.pieces.items };

    ghost invariant = { λ p. (p.number ≤ length p.pieces.items) × (p.at ≤ length (first_of_pieces (drop p.number p.pieces.items))) };
}

impl Pieces {
    /// All of these bytes are still to come.
    pub(crate) fn new(pieces: Bins) -> Pieces
        ensures { result ≡ record { taken = []; left = filled pieces.items } }
    {
        Pieces {
            pieces,
            number: 0,
            at: 0,
        }
    }

    /// Moves the next bytes to the front of the buffer, and says how many: none at the end.
    pub(crate) fn take(&mut self, buf: &mut [u8]) -> usize
        requires { 0 < length buf.old }
        ensures count { result ≡ length (next_bytes (length buf.old) self.old.left) }
        ensures buffer { buf.new ≡ next_bytes (length buf.old) self.old.left ++ drop result buf.old }
        ensures cut { self.new ≡ cut_after (length buf.old) self.old }
        ensures end { result ≡ 0 → self.old.left ≡ [] }
    {
        'pieces: while let Some(piece) = self.pieces.as_slice().get(self.number) {
            let rest = rest_of(piece, self.at);
            if !rest.is_empty() {
                let count = copy_front(rest, buf);
                self.at += count;
                return count;
            }
            self.number += 1;
            self.at = 0;
        }
        0
    }
}

/// The bytes from this place on.
pub(crate) fn rest_of(piece: &Bin, at: usize) -> &[u8]
    requires { at ≤ length piece.now }
    ensures rest { result.now ≡ drop at piece.now }
    ensures fits { length piece.now < 2 ^ 64 }
{
    &piece.as_slice()[at..]
}
