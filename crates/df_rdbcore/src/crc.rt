//! The sum at a file's end: CRC-64 with the polynomial 0xad93d23594c935a9, bits lowest first, from 0.

ghost use Rattle.std.specs.Prelude.{◌≡◌, ◌+◌, ◌*◌, ◌<◌, ◌≤◌, ◌++◌, length};
ghost use Rattle.std.specs.List.{concat, flat_map};
ghost use Rattle.df_model.specs.Values.{Bytes};
ghost use Rattle.df_rdbcore.specs.Crc.{shifts, with_byte, crc_from};

use crate::crc_table::{FAR_TABLES, TABLES};
use std::marker::Model;

/// A sum of the bytes so far. Contracts see the number.
#[derive(Debug, Drop)]
pub struct Crc {
    sum: u64,
}

impl Model for Crc {
    ghost use Rattle.std.specs.Prelude.{ℕ};

    ghost Value = { ℕ };

    ghost view = { λ c. c.sum };
}

impl Crc {
    /// The sum of no bytes.
    pub fn new() -> Crc
        ensures { result ≡ 0 }
    {
        Crc { sum: 0 }
    }

    /// Takes further bytes into the sum.
    pub fn add(&mut self, piece: &[u8])
        ensures { self.new ≡ crc_from self.old piece.now }
    {
        let (eights, rest) = piece.as_chunks::<8>();
        let (rows, left) = eights.as_chunks::<4>();
        let sum = with_eights(with_rows(self.sum, rows), left);
        self.sum = with_bytes(sum, rest);
    }

    /// The sum of all bytes that were added.
    pub fn sum(&self) -> u64
        ensures { result ≡ self.now }
    {
        self.sum
    }
}

/// What was added, in four lanes: each stands against the word of eight bytes at its place in the next row of four. Contracts
/// see the remainder that they are together, 256 bits wide.
#[derive(Drop)]
struct Lanes {
    first: u64,
    second: u64,
    third: u64,
    fourth: u64,
}

impl Model for Lanes {
    ghost use Rattle.std.specs.Prelude.{ℕ};
    ghost use Rattle.df_rdbcore.specs.Crc.{widened};

    ghost Value = { ℕ };

    ghost view = { λ l. widened l.first (widened l.second (widened l.third l.fourth)) };
}

impl Lanes {
    fn new(sum: u64) -> Lanes
        ensures { result ≡ sum }
    {
        Lanes {
            first: sum,
            second: 0,
            third: 0,
            fourth: 0,
        }
    }

    /// With a row that isn't the last. No lane waits for another.
    fn passed(self, row: &[[u8; 8]; 4]) -> Lanes
        ensures { (rest : Bytes) → 32 ≤ length rest → crc_from result rest ≡ crc_from self (concat row.now ++ rest) }
    {
        let [first, second, third, fourth] = row;
        Lanes {
            first: far(self.first, first),
            second: far(self.second, second),
            third: far(self.third, third),
            fourth: far(self.fourth, fourth),
        }
    }

    /// With the last row, in which each word meets what the one before it left.
    fn joined(self, row: &[[u8; 8]; 4]) -> u64
        ensures sum { result ≡ crc_from self (concat row.now) }
        ensures long { 32 ≤ length (concat row.now) }
    {
        let [first, second, third, fourth] = row;
        let sum = with_eight(self.first, first);
        let sum = with_eight(sum ^ self.second, second);
        let sum = with_eight(sum ^ self.third, third);
        with_eight(sum ^ self.fourth, fourth)
    }
}

/// Four words a step.
fn with_rows(from: u64, rows: &[[[u8; 8]; 4]]) -> u64
    ensures { result ≡ crc_from from (flat_map concat rows.now) }
{
    let Some((last, others)) = rows.split_last() else {
        return from;
    };
    let mut lanes = Lanes::new(from);
    'rows: for row in others {
        lanes = lanes.passed(row);
    }
    lanes.joined(last)
}

/// Eight bytes a step.
fn with_eights(from: u64, eights: &[[u8; 8]]) -> u64
    ensures { result ≡ crc_from from (concat eights.now) }
{
    let mut sum = from;
    'eights: for eight in eights {
        sum = with_eight(sum, eight);
    }
    sum
}

/// A byte a step.
fn with_bytes(from: u64, bytes: &[u8]) -> u64
    ensures { result ≡ crc_from from bytes.now }
{
    let mut sum = from;
    'bytes: for b in bytes {
        sum = step(sum, *b);
    }
    sum
}

fn with_eight(sum: u64, eight: &[u8; 8]) -> u64
    ensures sum { result ≡ crc_from sum eight.now }
    ensures long { length eight.now ≡ 8 }
{
    let [a, b, c, d, e, f, g, h] = (sum ^ u64::from_le_bytes(*eight)).to_le_bytes();
    moved(7, a)
        ^ moved(6, b)
        ^ moved(5, c)
        ^ moved(4, d)
        ^ moved(3, e)
        ^ moved(2, f)
        ^ moved(1, g)
        ^ moved(0, h)
}

/// A word of a lane, moved past the three beside it too.
fn far(sum: u64, eight: &[u8; 8]) -> u64
    ensures sum { result ≡ shifts 192 (crc_from sum eight.now) }
    ensures long { length eight.now ≡ 8 }
{
    let [a, b, c, d, e, f, g, h] = (sum ^ u64::from_le_bytes(*eight)).to_le_bytes();
    moved_far(7, a)
        ^ moved_far(6, b)
        ^ moved_far(5, c)
        ^ moved_far(4, d)
        ^ moved_far(3, e)
        ^ moved_far(2, f)
        ^ moved_far(1, g)
        ^ moved_far(0, h)
}

fn step(sum: u64, byte: u8) -> u64
    ensures { result ≡ with_byte sum byte }
{
    let low = (sum & 0xff) as u8;
    moved(0, low ^ byte) ^ (sum >> 8)
}

/// A byte of the remainder, moved out of it and then past so many zero bytes.
fn moved(zeros: usize, low: u8) -> u64
    requires { zeros < 8 }
    ensures { result ≡ shifts (8 * zeros + 8) low }
{
    TABLES[zeros][usize::from(low)]
}

/// The same past 24 zero bytes more.
fn moved_far(zeros: usize, low: u8) -> u64
    requires { zeros < 8 }
    ensures { result ≡ shifts (8 * zeros + 200) low }
{
    FAR_TABLES[zeros][usize::from(low)]
}
