//! What is left at the end of a run, and the promise that it keeps.
#![tactic(auto)]

pub mod closing;
pub mod laws;
pub mod one_call;

pub use closing::close_run;
