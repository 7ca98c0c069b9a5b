//! What the program prints: whole pieces, in as many writes as the sink wants.
#![tactic(auto)]

mod write;

pub use write::{Written, write_all};
