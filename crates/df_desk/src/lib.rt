//! A mailbox of one place: a caller whose calls are run, at once, on one table.
#![tactic(auto)]

mod answered;
mod desk;
mod exec;
pub mod laws;
mod place;
mod ran;

pub use answered::Answered;
pub use desk::Desk;
