//! Streams of bytes.

ghost use Rattle.std.specs.Prelude.{◌<◌, length};
ghost use Rattle.df_outside.specs.Streams.{Inflow, Outflow, Reads, Writes};

/// What a read came to.
#[derive(Clone, Copy, Debug, PartialEq, Eq)]
pub enum Got {
    /// So many bytes stand in front of the buffer, one at least.
    Took(usize),
    /// Nothing comes any more, now and from then on.
    End,
    /// Nothing is there yet. Sources never say so, links do.
    NotYet,
    /// A fault. A further read may succeed.
    Failed,
    /// Memory ran out, and nothing was taken.
    NoMemory,
}

/// What a write came to.
#[derive(Clone, Copy, Debug, PartialEq, Eq)]
pub enum Put {
    /// So many bytes of the piece were written, its first ones, one at least.
    Took(usize),
    /// There is no room yet. Sinks never say so, links do.
    NotYet,
    /// A fault, and nothing was written. A further write may succeed.
    Failed,
    /// Memory ran out, and nothing was written.
    NoMemory,
}

/// Where bytes come from.
pub trait Source: Drop {
    /// What was taken, whether it has ended, and the count of faults.
    ghost inflow: { Self → Inflow };

    /// Puts the next bytes in front of the buffer, as many as it likes.
    fn read(&mut self, buf: &mut [u8]) -> Got
        requires { 0 < length buf.old }
        ensures { Reads result (inflow self.old) (inflow self.new) buf.new };
}

/// Where bytes go.
pub trait Sink: Drop {
    /// What was written, and the count of faults.
    ghost outflow: { Self → Outflow };

    /// Writes the first bytes of the piece, as many as it likes.
    fn write(&mut self, piece: &[u8]) -> Put
        requires { 0 < length piece.now }
        ensures { Writes result (outflow self.old) (outflow self.new) piece.now };
}
