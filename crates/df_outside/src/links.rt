//! Links: connections, from which bytes are read and to which bytes are written.

ghost use Rattle.std.specs.Prelude.{◌≡◌, ◌<◌, length};
ghost use Rattle.df_outside.specs.Links.{Flow, LinkReads, LinkWrites};

use crate::{Got, Put};

/// One connection. A read and a write each fail apart from the other, and each may have to wait.
///
/// Failed comes only where the count of faults of that method rose, NotYet only where `waits` rose. A
/// count that stands at its last value, 2^64 - 1, counts as one that rose.
pub trait Link: Drop + Send {
    /// What was taken and written, whether it has ended, the counts of faults and of waits, and what may still be taken.
    ghost flow: { Self → Flow };

    /// Puts the next bytes in front of the buffer, as many as it likes.
    fn read(&mut self, buf: &mut [u8]) -> Got
        requires { 0 < length buf.old }
        ensures { LinkReads result (flow self.old) (flow self.new) buf.new };

    /// Writes the first bytes of the piece, as many as it likes.
    fn write(&mut self, piece: &[u8]) -> Put
        requires { 0 < length piece.now }
        ensures { LinkWrites result (flow self.old) (flow self.new) piece.now };

    /// Closes the connection. Nothing is read or written after it.
    fn close(&mut self)
        ensures { flow self.new ≡ flow self.old };
}
