//! The serial order law: however the hops of calls interleave on their shards, there is one list of calls that one
//! thread could have run, with the same replies.
//!
//! Nothing here runs. The definitions are in `specs/`: on which shards a command runs (Courses), which hops are due
//! (Due), what stands in the logs when all ran (Done), and the one history (History).
#![tactic(auto)]

pub mod laws;
