//! Writing RDB files, entry by entry, each value from where it lies.
//!
//! What is written stands in df_rdbcore's specs/Written. That it spells the entries that were given is a law there.
#![tactic(auto)]

mod entry;
mod value;
mod writer;

pub use entry::plain_entry;
pub use writer::Writer;
