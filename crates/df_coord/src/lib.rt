//! How calls run over shards: a call draws a number, asks its shards, and hears their answers.
#![tactic(auto)]

mod asking;
mod hearing;
mod one_hop;
mod state;

pub use one_hop::OneHop;
pub use state::State;
