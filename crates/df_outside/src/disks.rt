//! A disk that keeps one named file, which is replaced as a whole.

ghost use Rattle.std.specs.Prelude.{Option, ℕ, ◌<◌, length};
ghost use Rattle.df_outside.specs.Disks.{Stored, Chooses, HasRead, Begins, HasAppended, Syncs, Replaces, IsSynced};

/// What a call on a disk came to.
#[derive(Clone, Copy, Debug, PartialEq, Eq)]
pub enum Done {
    Ok,
    /// A fault. The file is as before; what was appended isn't used before the next `begin`.
    Failed,
    /// Memory ran out; the file is as before.
    NoMemory,
}

/// What a read of the file came to.
#[derive(Clone, Copy, Debug, PartialEq, Eq)]
pub enum Had {
    /// So many bytes of the file stand in front of the buffer, one at least.
    Took(usize),
    /// The place is at the file's end or past it.
    End,
    /// There is no file.
    Missing,
    Failed,
    NoMemory,
}

/// A disk with one chosen file.
///
/// A stop at any moment leaves the file as it is then; a stop inside `replace` leaves the old or the
/// new whole content; what was only appended is lost.
pub trait Disk: Drop + Send {
    /// The file, what was appended, and the contents that were put in place, where the disk tells them.
    ghost stored: { Self → Option Stored };

    /// How many calls have failed.
    ghost faults: { Self → ℕ };

    /// Names the file. It is called once, first.
    fn choose(&mut self, name: &str) -> Done
        ensures { Chooses result (stored self.old) (stored self.new) (faults self.old) (faults self.new) };

    /// Reads from a place in bytes, from 0.
    fn read(&mut self, at: u64, buf: &mut [u8]) -> Had
        requires { 0 < length buf.old }
        ensures { HasRead result at buf.new (stored self.old) (stored self.new) (faults self.old) (faults self.new) };

    /// Begins a new content, with no bytes.
    fn begin(&mut self) -> Done
        ensures { Begins result (stored self.old) (stored self.new) (faults self.old) (faults self.new) };

    /// Adds a piece to the new content.
    fn append(&mut self, piece: &[u8]) -> Done
        ensures { HasAppended result piece.now (stored self.old) (stored self.new) (faults self.old) (faults self.new) };

    /// Makes sure of what was appended.
    fn sync(&mut self) -> Done
        ensures { Syncs result (stored self.old) (stored self.new) (faults self.old) (faults self.new) };

    /// Puts the new content in place of the file.
    fn replace(&mut self) -> Done
        requires { IsSynced (stored self.old) }
        ensures { Replaces result (stored self.old) (stored self.new) (faults self.old) (faults self.new) };
}
