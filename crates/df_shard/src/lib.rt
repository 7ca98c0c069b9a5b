//! One shard: its keys, who holds them and who waits, and its log.
//!
//! What if two calls that conflict come in any order? The lower number has to run first, so who comes too late is
//! refused and draws again. What if memory runs out? Each step takes all its memory before its first change.
#![tactic(auto)]

mod arming;
mod asked;
mod entries;
mod handling;
mod leaving;
mod parts;
mod queueing;
mod quick;
mod running;
mod schedule;
mod serving;
mod shard;
mod waiting;

pub use shard::Shard;
