//! The world of shards and calls: what may happen in it, and what holds whatever happened.
//!
//! Nothing here runs. The definitions are in `specs/`, and each law is the contract of a function that does nothing
//! and holds of any commands.
#![tactic(auto)]

pub mod laws;
