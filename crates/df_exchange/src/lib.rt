//! A round of hops of a call over shards: a message to each shard that has a part, and what their answers tell.
#![tactic(auto)]

mod asking;
mod hearing;
pub mod laws;

pub use asking::ask;
pub use hearing::hear;
