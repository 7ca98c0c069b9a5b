//! What a call, or one command, asks for on every shard: all shards in one pass over its keys.
#![tactic(auto)]

mod few;
mod find;
mod gather;
mod mode;
mod named;
mod put;

pub use find::{find_keys, find_keys_of};
