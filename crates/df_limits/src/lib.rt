//! What the keyspace keeps to, whatever is called: no byte string of it is longer than a word of a request may be.
//!
//! There is nothing to run here. specs/Limits says what the limits are, and `laws` has the law.
#![tactic(auto)]

pub mod laws;
