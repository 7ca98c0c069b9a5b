//! How a session goes on and why it ends.

/// What RESP expects at the first byte that makes an input bad.
#[derive(Clone, Copy, Debug, PartialEq, Eq)]
pub enum BadKind {
    /// The `*` of a request or the `$` of a word.
    Start,
    /// What stands after `*` up to its line feed.
    Count,
    /// What stands after `$` up to its line feed.
    Length,
    /// The CR and LF after a word's bytes.
    End,
}

/// Why a session ended.
#[derive(Clone, Copy, Debug, PartialEq, Eq)]
pub enum Why {
    /// The input ended.
    InputEnd,
    /// QUIT.
    Quit,
    /// SHUTDOWN.
    Asked,
    /// Another session asked for the end.
    Stopped,
    /// The input is bad: what was expected, and the place in bytes from the connection's start.
    Protocol(BadKind, u64),
    ReadFault,
    WriteFault,
    /// There were too many connections.
    TooMany,
    /// A number was needed and no draw was left.
    Spent,
    /// Memory ran out outside a reply.
    NoMemory,
}

/// A session that ended: its place among the accepted ones from 0, its link, and why.
#[derive(Debug, Drop)]
pub struct SessionEnd<L> {
    pub id: u64,
    pub link: L,
    pub why: Why,
}

/// What one turn of a session came to.
#[derive(Clone, Copy, Debug, PartialEq, Eq)]
pub enum Turn {
    Moved,
    NotYet,
    Ended(Why),
}
