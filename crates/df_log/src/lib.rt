//! An entry of a shard's log: what a callback did there, and what it answered.
#![tactic(auto)]

mod entry;

pub use entry::Entry;
