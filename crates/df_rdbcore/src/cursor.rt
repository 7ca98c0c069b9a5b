//! A cursor over a file that comes in pieces.
//!
//! A call that finds no whole byte, length or string answers None and takes nothing: feed, and call again. So
//! memory grows with the bytes that were fed, whatever length a file announces. Where the file has ended, None says
//! that it ended too early.

ghost use Rattle.std.specs.Prelude.{◌≡◌, ◌≤◌, ◌++◌, [], length, take, OnOk, OnErr};
ghost use Rattle.df_rdbcore.specs.Reading.{Takes, TakesByte, TakesLength, TakesText};

use crate::front::{Seen, SeenText, length_at, text_at};
use crate::{Crc, LoadFault};
use bytes::BytesMut;
use df_model::{Bin, NoMemory};
use itoa::Buffer;
use std::alloc::Global;
use std::marker::Model;

/// Contracts see what was fed and isn't taken, how many bytes were taken, and their sum.
#[derive(Drop)]
pub struct Cursor {
    held: BytesMut,
    place: u64,
    crc: Crc,
}

impl Model for Cursor {
    ghost use Rattle.df_rdbcore.specs.Reading.{Stand};

    ghost Value = { Stand };

    ghost view = { λ c. record { rest = c.held.items; place = c.place; sum = c.crc } };
}

impl Cursor {
    /// At a file's begin. Takes no memory.
    pub fn new(alloc: Global) -> Cursor
        ensures rest { result.rest ≡ [] }
        ensures place { result.place ≡ 0 }
        ensures sum { result.sum ≡ 0 }
    {
        Cursor {
            held: BytesMut::new(alloc),
            place: 0,
            crc: Crc::new(),
        }
    }

    /// Adds the next piece of the file.
    pub fn feed(&mut self, piece: &[u8]) -> Result<(), NoMemory>
        ensures ok { OnOk result (self.new.rest ≡ self.old.rest ++ piece.now) }
        ensures err { OnErr result (self.new.rest ≡ self.old.rest) }
        ensures place { self.new.place ≡ self.old.place }
        ensures sum { self.new.sum ≡ self.old.sum }
    {
        self.held.extend_from_slice(piece)?;
        Ok(())
    }

    /// Takes a byte, None where there is none.
    pub fn byte(&mut self) -> Option<u8>
        ensures { TakesByte result self.old self.new }
    {
        if self.held.is_empty() {
            return None;
        }
        let byte = self.held.as_slice()[0];
        self.take(1);
        Some(byte)
    }

    /// Takes a length in any of its forms, and answers its number.
    pub fn len(&mut self) -> Result<Option<u64>, LoadFault>
        ensures { TakesLength result self.old self.new }
    {
        match length_at(self.held.as_slice()) {
            Seen::More => Ok(None),
            Seen::Bad => Err(LoadFault::BadLength { at: self.place }),
            Seen::Whole(n, used) => {
                self.take(used);
                Ok(Some(n))
            }
        }
    }

    /// Takes a string in any of its forms, and answers a copy of its bytes. A number's are its decimal.
    pub fn string(&mut self, alloc: Global) -> Result<Option<Bin>, LoadFault>
        ensures { TakesText result self.old self.new }
    {
        match text_at(self.held.as_slice()) {
            SeenText::More => Ok(None),
            SeenText::Bad => Err(LoadFault::BadLength { at: self.place }),
            SeenText::Compressed => Err(LoadFault::Unsupported {
                code: 0xc3,
                at: self.place,
            }),
            SeenText::Plain(from, n) => {
                let Ok(text) = Bin::from_slice(alloc, &self.held.as_slice()[from..from + n]) else {
                    return Err(LoadFault::NoMemory);
                };
                self.take(from + n);
                Ok(Some(text))
            }
            SeenText::Number(number, used) => {
                let mut buffer = Buffer::new();
                let Ok(text) = Bin::from_slice(alloc, buffer.format(number).as_bytes()) else {
                    return Err(LoadFault::NoMemory);
                };
                self.take(used);
                Ok(Some(text))
            }
        }
    }

    /// How many bytes were taken: the place in the file of the next one. Past the greatest `u64` it stays there.
    pub fn place(&self) -> u64
        ensures { result ≡ self.now.place }
    {
        self.place
    }

    /// The sum of the bytes that were taken.
    pub fn sum(&self) -> u64
        ensures { result ≡ self.now.sum }
    {
        self.crc.sum()
    }

    fn take(&mut self, count: usize)
        requires { count ≤ length self.old.rest }
        ensures { Takes (take count self.old.rest) self.old self.new }
    {
        self.crc.add(&self.held.as_slice()[..count]);
        self.place = self.place.saturating_add(count as u64);
        self.held.advance(count);
    }
}
