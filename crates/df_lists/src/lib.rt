//! Commands on lists: what each replies, and what becomes of its key.
//!
//! A command is prepared: its reply is written where it lies, nothing but spare room of the list changes, and
//! all memory that the change needs is taken. What is held is told apart first, then the command. The pushes are
//! one body over the two ends of a list, and so are the pops.
#![tactic(auto)]

mod dispatch;
mod look;
mod place_in;
mod pop;
mod push;
mod removal;
mod resize;

pub use dispatch::prepare_into;
