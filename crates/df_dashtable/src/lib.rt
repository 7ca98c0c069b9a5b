//! A table of keys: a directory of segments, found by the first bits of a key's hash.
//!
//! Each bucket has a version. A bucket that is older than the table goes to a hook before its first change, so that
//! what the table held at one moment can be written while it changes.
#![tactic(auto)]

mod change;
mod clear;
mod grow;
mod hook;
mod keys;
mod table;
mod touch;
mod walk;

pub use hook::{Hook, NoHook};
pub use table::{DashTable, Spot};
