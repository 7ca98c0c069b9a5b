//! A request as the machine hears it, and what the machine says to it.

use df_model::ErrorText;

/// A request that speaks to the session itself.
#[derive(Clone, Copy, Debug, PartialEq, Eq)]
pub enum Control {
    Multi,
    Exec,
    Discard,
    Quit,
    Shutdown,
}

/// A request, as the machine hears it.
#[derive(Debug, Drop)]
pub enum Heard {
    /// A command, which stands in the call beside.
    Command,
    Control(Control),
    /// An unknown name, or a wrong count of words.
    Refused(ErrorText),
}

/// What a request gives. The replies at once are named and not made, so that their bytes are put where they are sent.
#[derive(Debug, Drop)]
pub enum Said {
    /// OK.
    Ok,
    /// QUEUED.
    Queued,
    Error(ErrorText),
    /// The reply of the command beside, which needs no keyspace.
    AtOnce,
    /// The reply of the call beside, once it ran.
    Run,
    /// OK, and the session ends.
    Bye,
    /// The session ends without a reply.
    Stop,
    /// Memory ran out. A transaction is broken by it.
    NoMemory,
}
