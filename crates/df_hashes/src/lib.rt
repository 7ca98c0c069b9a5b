//! The commands of one key that are about hashes.
//!
//! `look` has those that only look, `write` those that may change what the key holds. A missing key is an
//! empty hash to both. What a command is to answer stands in df_model, specs/Meaning/Hashes.
#![tactic(auto)]

mod count;
mod dispatch;
mod listing;
mod look;
mod write;

pub use dispatch::prepare_into;
