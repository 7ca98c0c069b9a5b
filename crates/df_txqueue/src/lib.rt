//! The queue of the calls that wait on one shard, in the order of their numbers.
#![tactic(auto)]

mod place;
mod queue;

pub use place::Place;
pub use queue::TxQueue;
