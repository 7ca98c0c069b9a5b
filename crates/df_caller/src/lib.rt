//! What a connection needs of whatever runs its calls.
//!
//! A connection knows nothing of shards, of tables or of numbers: it gives a call, takes steps until the call came to
//! an end, and what it may say of its session follows from the calls that were answered, each with its reply.
#![tactic(auto)]

mod caller;
pub mod laws;
mod slip;

pub use caller::{Caller, Went};
pub use slip::Slip;
