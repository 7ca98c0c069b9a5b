//! One key's value, what a command makes of it, and the bytes of its reply.
//!
//! A command is prepared first: its reply is written, and a `Change` is made for which all memory is there. Then the
//! change is done, and can't fail. What a value is to a command stands in specs/Seen, what a change makes of it in
//! specs/Edits, and what preparing a command promises in specs/Prepares.
#![tactic(auto)]

mod change;
mod edit;
mod pieces;
mod replies;
mod rest;
mod short;
mod string;
mod value;

pub use change::Change;
pub use edit::Edit;
pub use pieces::Pieces;
pub use string::StrVal;
pub use value::Value;
