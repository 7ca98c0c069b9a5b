//! What runs a connection's calls over shards, whatever they are, and what it tells of them.
#![tactic(auto)]

mod calls;
mod crossing;
mod left;
mod rows;
mod runs;

pub use calls::Calls;
pub use rows::Rows;
