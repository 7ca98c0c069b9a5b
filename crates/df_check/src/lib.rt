//! `check FILE`: whether an RDB file loads, and how many keys it has, or what is wrong in it and where.
#![tactic(auto)]

mod fault_text;
mod run;
mod words;

pub use run::check;
pub use words::file_named;
