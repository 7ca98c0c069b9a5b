//! The types of requests, calls and replies, and what they mean.
//!
//! Contracts see a byte string as its list of bytes and a list with room as its elements, so commands
//! and replies are plain data in the definitions of specs/. Read those in this order: Values, Keyspace,
//! Words, Reads, Meaning, Replies, Framing, Session, Calls, History, Output.
#![tactic(auto)]

mod bin;
mod command;
mod keys;
pub mod laws;
mod reply;
mod reserved;
mod session;
mod text;

pub use bin::{Bin, NoMemory};
pub use command::{
    Beside, Call, Command, Commands, Family, Guard, Kind, ManyOp, OneOp, PlainOp, Side, WholeOp,
};
pub use keys::{KeyModes, Keys, Mode};
pub use reply::{ErrorText, Replies, Reply};
pub use reserved::{Bins, Pairs, Reserved};
pub use session::{BadKind, SessionEnd, Turn, Why};
pub use text::{IN_PLACE, Text};
