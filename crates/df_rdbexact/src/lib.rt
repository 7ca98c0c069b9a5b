//! That `load`'s answer is exact both ways: a file that spells a keyspace has no fault, and none has two.
//!
//! There is nothing to run here. `laws` has the laws.
#![tactic(auto)]

pub mod laws;
