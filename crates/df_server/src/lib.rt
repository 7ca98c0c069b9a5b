//! The server: the words of the command line, and one session over a source and a sink.
#![tactic(auto)]

mod pipe;
mod program;
mod serve_words;
mod server;

pub use program::offline;
pub use server::{Ended, serve};
