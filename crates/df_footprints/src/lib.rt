//! What a call asks for on each shard: the keys that it reads and writes there, or all of them.
#![tactic(auto)]

mod asked;
mod gather;
mod laws;
mod mode;
mod named;

pub use asked::{footprint, one_key};
pub use laws::{conflicts_both_ways, what_does_not_conflict_is_left_alone};
