//! The disk: one named file, which is replaced as a whole.
//!
//! A new content goes to a second file beside the named one, whose name ends in `.new`, and the named file stays as it is.
//! `sync` asks the system to put that content on the disk, `replace` renames it over the named file and does the same for
//! the folder. So a stop at any moment leaves the old or the new content whole, as far as the system keeps its promises.

ghost use Rattle.std.specs.Prelude.{◌≡◌, ◌≤◌, None, IfOk, length};
ghost use Rattle.std.specs.Io.{ReadsAtMost};
ghost use Rattle.df_outside.specs.Faults.{Rose};
ghost use Rattle.df_real.specs.Answers.{DoneOf, HadOf};

use crate::again::{read_again_at, write_again};
use df_outside::{Disk, Done, Had};
use std::alloc::Global;
use std::fs::File;
use std::io::ErrorKind;
use std::rt::Files;
use std::{fs, io};

/// Bytes of a new content that are gathered to one write (64 KiB).
const GATHERED: usize = 65536;

/// Reads and writes the file that `choose` names.
#[derive(Drop)]
pub struct FileDisk<R> {
    rt: R,
    alloc: Global,
    names: Option<Names>,
    /// The chosen file, once it was read.
    file: Option<File>,
    fresh: Option<Fresh>,
    /// Calls that failed; it stays at its last value.
    faults: u64,
    reason: Option<ErrorKind>,
}

/// The chosen file, the one beside it that a new content goes to, and the folder of both.
#[derive(Drop)]
struct Names {
    file: String,
    fresh: String,
    folder: String,
}

/// A new content: what was written of it, and what waits to be.
#[derive(Drop)]
struct Fresh {
    file: File,
    gathered: Vec<u8>,
}

impl Names {
    fn new(alloc: Global, name: &str) -> io::Result<Names> {
        let folder = match name.rsplit_once('/') {
            None => ".",
            Some(("", _)) => "/",
            Some((folder, _)) => folder,
        };
        Ok(Names {
            file: String::from_str(alloc, name)?,
            fresh: format!(in alloc; "{name}.new")?,
            folder: String::from_str(alloc, folder)?,
        })
    }
}

impl Fresh {
    fn begin(rt: &impl Files<File = File>, alloc: Global, name: &str) -> io::Result<Fresh> {
        let gathered = Vec::with_capacity(alloc, GATHERED)?;
        Ok(Fresh {
            file: fs::create(rt, name)?,
            gathered,
        })
    }

    /// Gathers the piece, or writes it where it is too long for that.
    fn append(&mut self, piece: &[u8]) -> io::Result<()> {
        if piece.len() > GATHERED - self.gathered.len().min(GATHERED) {
            self.flush()?;
        }
        if piece.len() > GATHERED {
            return write_whole(&self.file, piece);
        }
        self.gathered.extend_from_slice(piece)?;
        Ok(())
    }

    /// Writes what is gathered, and asks the system to put all on the disk.
    fn sync(&mut self) -> io::Result<()> {
        self.flush()?;
        self.file.sync_all()
    }

    fn flush(&mut self) -> io::Result<()> {
        write_whole(&self.file, self.gathered.as_slice())?;
        self.gathered.clear();
        Ok(())
    }
}

/// Writes the whole piece, in as many calls as the system wants.
fn write_whole(file: &File, piece: &[u8]) -> io::Result<()> {
    let mut writer = file;
    let mut rest = piece;
    'writes: while !rest.is_empty() {
        let count = write_again(&mut writer, rest)?;
        if count == 0 {
            return Err(io::Error::from(ErrorKind::WriteZero));
        }
        rest = &rest[count..];
    }
    Ok(())
}

/// Puts the fresh file in place of the named one, and makes sure of that.
fn put_in_place(rt: &impl Files<File = File>, names: &Names) -> io::Result<()> {
    let folder = fs::open(rt, names.folder.as_str())?;
    fs::rename(rt, names.fresh.as_str(), names.file.as_str())?;
    folder.sync_all()
}

impl<R: Files<File = File>> FileDisk<R> {
    /// No file is chosen yet. Takes no memory and asks the system for nothing.
    pub fn new(rt: R, alloc: Global) -> FileDisk<R>
        ensures { result.faults ≡ 0 }
    {
        FileDisk {
            rt,
            alloc,
            names: None,
            file: None,
            fresh: None,
            faults: 0,
            reason: None,
        }
    }

    /// Why the last call that failed did, where one did.
    pub fn reason(&self) -> Option<ErrorKind> {
        self.reason
    }
}

impl<R> FileDisk<R> {
    /// What a call came to whose answer tells no more than whether it failed.
    fn done(&mut self, answer: io::Result<()>) -> Done
        ensures { DoneOf result self.old.faults self.new.faults }
    {
        match answer {
            Ok(()) => Done::Ok,
            Err(fault) if fault.kind() == ErrorKind::OutOfMemory => Done::NoMemory,
            Err(fault) => {
                self.count_fault(fault.kind());
                Done::Failed
            }
        }
    }

    /// What a read into so many bytes came to.
    fn had(&mut self, answer: io::Result<usize>, most: usize) -> Had
        requires { IfOk answer (λ count. count ≤ most) }
        ensures { HadOf result most self.old.faults self.new.faults }
    {
        match answer {
            Ok(0) => Had::End,
            Ok(count) => Had::Took(count),
            Err(fault) if fault.kind() == ErrorKind::OutOfMemory => Had::NoMemory,
            Err(fault) if fault.kind() == ErrorKind::NotFound => Had::Missing,
            Err(fault) => {
                self.count_fault(fault.kind());
                Had::Failed
            }
        }
    }

    fn count_fault(&mut self, reason: ErrorKind)
        ensures rises { Rose self.old.faults self.new.faults }
        ensures grows { self.old.faults ≤ self.new.faults }
    {
        self.faults = self.faults.saturating_add(1);
        self.reason = Some(reason);
    }
}

impl<R: Files<File = File>> FileDisk<R> {
    /// Reads the chosen file, which is opened where it wasn't yet.
    fn read_from(&mut self, at: u64, buf: &mut [u8]) -> io::Result<usize>
        ensures bound { ReadsAtMost result buf.new }
        ensures len { length buf.new ≡ length buf.old }
        ensures faults { self.new.faults ≡ self.old.faults }
    {
        if self.file.is_none() {
            self.file = Some(self.open()?);
        }
        match &self.file {
            Some(file) => read_again_at(file, at, buf),
            None => Ok(0),
        }
    }

    fn open(&self) -> io::Result<File> {
        match &self.names {
            Some(names) => fs::open(&self.rt, names.file.as_str()),
            None => Err(io::Error::from(ErrorKind::InvalidInput)),
        }
    }

    fn begin_fresh(&self) -> io::Result<Fresh> {
        match &self.names {
            Some(names) => Fresh::begin(&self.rt, self.alloc, names.fresh.as_str()),
            None => Err(io::Error::from(ErrorKind::InvalidInput)),
        }
    }

    fn put_in_place(&self) -> io::Result<()> {
        match &self.names {
            Some(names) => put_in_place(&self.rt, names),
            None => Err(io::Error::from(ErrorKind::InvalidInput)),
        }
    }
}

impl<R: Files<File = File> + Drop + Send> Disk for FileDisk<R> {
    ghost stored = { λ _. None };

    ghost faults = { λ d. d.faults };

    fn choose(&mut self, name: &str) -> Done {
        self.file = None;
        self.fresh = None;
        match Names::new(self.alloc, name) {
            Ok(names) => {
                self.names = Some(names);
                Done::Ok
            }
            Err(fault) => self.done(Err(fault)),
        }
    }

    fn read(&mut self, at: u64, buf: &mut [u8]) -> Had {
        let answer = self.read_from(at, buf);
        self.had(answer, buf.len())
    }

    fn begin(&mut self) -> Done {
        self.fresh = None;
        match self.begin_fresh() {
            Ok(fresh) => {
                self.fresh = Some(fresh);
                Done::Ok
            }
            Err(fault) => self.done(Err(fault)),
        }
    }

    fn append(&mut self, piece: &[u8]) -> Done {
        let answer = match &mut self.fresh {
            Some(fresh) => fresh.append(piece),
            None => Err(io::Error::from(ErrorKind::InvalidInput)),
        };
        self.done(answer)
    }

    fn sync(&mut self) -> Done {
        let answer = match &mut self.fresh {
            Some(fresh) => fresh.sync(),
            None => Err(io::Error::from(ErrorKind::InvalidInput)),
        };
        self.done(answer)
    }

    fn replace(&mut self) -> Done {
        self.file = None;
        self.fresh = None;
        let answer = self.put_in_place();
        self.done(answer)
    }
}
