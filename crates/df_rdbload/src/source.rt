//! A disk's file, piece by piece: what stands next in it.
//!
//! A call takes a whole byte, length or string, and reads on until one stands there. What a form begins with is looked
//! at before the rest of it is read, so that the first fault in reading order is answered.

ghost use Rattle.std.specs.Prelude.{◌≡◌, ◌+◌, ◌^◌, ◌<◌, ◌++◌, length, IfOk, IfErr, OnOk, OnErr};
ghost use Rattle.df_outside.specs.Disks.{Told};
ghost use Rattle.df_rdbcore.specs.Texts.{IsLength, IsText};
ghost use Rattle.df_rdbcore.specs.Reading.{TakesByte, TakesLength, TakesText};
ghost use Rattle.df_rdbcore.specs.declared.fault.LoadFault.TheVariants.{Truncated};
ghost use Rattle.df_rdbload.specs.Stops.{LengthStops, TextStops};
ghost use Rattle.df_rdbload.specs.Sources.{start, room, StillCounts, IsCaused, IsByte, ByteStops, Reads, SameReading, Fetched, KeepFails, Reading, SeesEnd};

use df_model::{Bin, NoMemory};
use df_outside::{Disk, Had};
use df_rdbcore::{Cursor, LoadFault};
use std::alloc::Global;
use std::marker::Model;

/// Bytes that are asked for at once: few enough to stay in a processor's cache.
const PIECE: usize = 65_536;

/// What reading on came to.
#[derive(Clone, Copy)]
pub enum Piece {
    Kept,
    End,
    Missing,
}

/// A file from its begin on. Contracts see what was read and taken of it.
#[derive(Drop)]
pub struct Source {
    cursor: Cursor,
    /// The place that is read next.
    next: u64,
    buffer: Vec<u8>,
    /// The file's end was seen.
    ended: bool,
    /// The disk said that there is no file.
    missing: bool,
}

impl Model for Source {
    ghost use Rattle.std.specs.Prelude.{◌<◌, vec_len};
    ghost use Rattle.df_rdbload.specs.Sources.{Stage};

    ghost Value = { Stage };

    ghost view = { λ s. record { cursor = s.cursor; next = s.next; ended = s.ended; missing = s.missing } };

    ghost invariant = { λ s. 0 < vec_len s.buffer };
}

impl Source {
    /// At a file's begin, with the room for a piece.
    pub fn new(alloc: Global) -> Result<Source, NoMemory>
        ensures { IfOk result (λ source. source ≡ start) }
    {
        let buffer = vec![in alloc; 0u8; PIECE]?;
        Ok(Source {
            cursor: Cursor::new(alloc),
            next: 0,
            buffer,
            ended: false,
            missing: false,
        })
    }

    /// Takes a byte.
    pub fn byte<K: Disk>(&mut self, disk: &mut K) -> Result<u8, LoadFault>
        ensures reads { Reads IsByte ByteStops result (K.stored disk.old) (K.stored disk.new) (K.faults disk.old) (K.faults disk.new) self.old self.new }
        ensures takes { OnOk result (room self.new < room self.old) }
    {
        'feed: loop {
            if let Some(byte) = self.byte_here() {
                return Ok(byte);
            }
            let goes_on = self.more(disk)?;
            if !goes_on {
                return Err(self.too_short());
            }
        }
    }

    /// Takes a length.
    pub fn len<K: Disk>(&mut self, disk: &mut K) -> Result<u64, LoadFault>
        ensures { Reads IsLength LengthStops result (K.stored disk.old) (K.stored disk.new) (K.faults disk.old) (K.faults disk.new) self.old self.new }
    {
        'feed: loop {
            if let Some(n) = self.len_here()? {
                return Ok(n);
            }
            let goes_on = self.more(disk)?;
            if !goes_on {
                return Err(self.too_short());
            }
        }
    }

    /// Takes a string.
    pub fn string<K: Disk>(&mut self, alloc: Global, disk: &mut K) -> Result<Bin, LoadFault>
        ensures { Reads IsText TextStops result (K.stored disk.old) (K.stored disk.new) (K.faults disk.old) (K.faults disk.new) self.old self.new }
    {
        'feed: loop {
            if let Some(text) = self.string_here(alloc)? {
                return Ok(text);
            }
            let goes_on = self.more(disk)?;
            if !goes_on {
                return Err(self.too_short());
            }
        }
    }

    /// Whether all bytes of the file were taken. If not, a further one is taken.
    pub fn is_at_end<K: Disk>(&mut self, disk: &mut K) -> Result<bool, LoadFault>
        ensures { SeesEnd result (K.stored disk.old) (K.stored disk.new) (K.faults disk.old) (K.faults disk.new) self.old self.new }
    {
        'feed: loop {
            if let Some(_byte) = self.byte_here() {
                return Ok(false);
            }
            let goes_on = self.more(disk)?;
            if !goes_on {
                return Ok(true);
            }
        }
    }

    /// The place of the next byte that is taken.
    pub fn place(&self) -> u64
        ensures { result ≡ self.now.cursor.place }
    {
        self.cursor.place()
    }

    /// The sum of the bytes that were taken.
    pub fn sum(&self) -> u64
        ensures { result ≡ self.now.cursor.sum }
    {
        self.cursor.sum()
    }

    /// Whether the disk said that there is no file.
    pub fn is_missing(&self) -> bool
        ensures { result ≡ self.now.missing }
    {
        self.missing
    }

    /// Reads a piece; false where the file has ended.
    pub fn more<K: Disk>(&mut self, disk: &mut K) -> Result<bool, LoadFault>
        ensures { Reading result (K.stored disk.old) (K.stored disk.new) (K.faults disk.old) (K.faults disk.new) self.old self.new }
    {
        if self.ended {
            return Ok(false);
        }
        match fetch(
            disk,
            &mut self.cursor,
            &mut self.next,
            self.buffer.as_mut_slice(),
        )? {
            Piece::Kept => Ok(true),
            Piece::End => {
                self.ended = true;
                Ok(false)
            }
            Piece::Missing => {
                self.ended = true;
                self.missing = true;
                Ok(false)
            }
        }
    }

    /// The fault of a file that has ended.
    fn too_short(&self) -> LoadFault
        ensures { result ≡ Truncated self.now.next }
    {
        LoadFault::Truncated { at: self.next }
    }

    fn byte_here(&mut self) -> Option<u8>
        ensures cursor { TakesByte result self.old.cursor self.new.cursor }
        ensures others { SameReading self.old self.new }
    {
        self.cursor.byte()
    }

    fn len_here(&mut self) -> Result<Option<u64>, LoadFault>
        ensures cursor { TakesLength result self.old.cursor self.new.cursor }
        ensures others { SameReading self.old self.new }
    {
        self.cursor.len()
    }

    fn string_here(&mut self, alloc: Global) -> Result<Option<Bin>, LoadFault>
        ensures cursor { TakesText result self.old.cursor self.new.cursor }
        ensures others { SameReading self.old self.new }
    {
        self.cursor.string(alloc)
    }
}

/// Asks for the next piece, and keeps what comes.
fn fetch<K: Disk>(
    disk: &mut K,
    cursor: &mut Cursor,
    next: &mut u64,
    buffer: &mut [u8],
) -> Result<Piece, LoadFault>
    requires { 0 < length buffer.old }
    ensures kept { Told (K.stored disk.old) (K.stored disk.new) (λ a b. b ≡ a) }
    ensures rises { StillCounts (K.faults disk.old) (K.faults disk.new) }
    ensures caused { IsCaused result (K.faults disk.old) (K.faults disk.new) }
    ensures fetched { Fetched result (K.stored disk.old) cursor.old cursor.new next.old next.new }
{
    let at = *next;
    match disk.read(at, buffer) {
        Had::Took(n) => {
            keep(cursor, next, &buffer[..n])?;
            Ok(Piece::Kept)
        }
        Had::End => Ok(Piece::End),
        Had::Missing => Ok(Piece::Missing),
        Had::Failed => Err(LoadFault::ReadFault { at }),
        Had::NoMemory => Err(LoadFault::NoMemory),
    }
}

/// Keeps a piece. A byte whose place is past the greatest `u64` can't be asked for, so that the file seems to end
/// before it.
fn keep(cursor: &mut Cursor, next: &mut u64, piece: &[u8]) -> Result<(), LoadFault>
    ensures rest { OnOk result (cursor.new.rest ≡ cursor.old.rest ++ piece.now) }
    ensures next { OnOk result (next.new ≡ next.old + length piece.now) }
    ensures fits { OnOk result (next.new < 2 ^ 64) }
    ensures err_rest { OnErr result (cursor.new.rest ≡ cursor.old.rest) }
    ensures err_next { OnErr result (next.new ≡ next.old) }
    ensures place { cursor.new.place ≡ cursor.old.place }
    ensures sum { cursor.new.sum ≡ cursor.old.sum }
    ensures why { IfErr result (λ fault. KeepFails fault (next.old + length piece.now)) }
{
    let Some(after) = next.checked_add(piece.len() as u64) else {
        return Err(LoadFault::Truncated { at: u64::MAX });
    };
    if cursor.feed(piece).is_err() {
        return Err(LoadFault::NoMemory);
    }
    *next = after;
    Ok(())
}
