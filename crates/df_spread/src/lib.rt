//! A command whose keys stand on several shards, run over copies of what these keys hold.
//!
//! The copies go into a table of their own, in which the command runs as in any other. What it changed there is what
//! is to change on the shards.
#![tactic(auto)]

mod changes;
mod gather;
mod run;
mod same;

pub use run::run_over;
