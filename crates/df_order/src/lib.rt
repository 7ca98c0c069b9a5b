//! The order of calls on shards: what logs alone tell, and what each step of a shard keeps.
//!
//! Nothing here runs. The definitions are in `specs/`, and each law is the contract of a function that does nothing
//! and holds of any commands.
#![tactic(auto)]

pub mod laws;

pub use laws::Commands;
