//! Lists of byte strings, as a key holds them.
#![tactic(auto)]

mod list_val;
mod removal;

pub use list_val::ListVal;
