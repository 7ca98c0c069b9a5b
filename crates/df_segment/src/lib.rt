//! A part of the table: some sixty buckets of up to 14 entries, each near the bucket that its key's hash names.
//!
//! A bucket keeps one byte of hash beside each entry, so that a look-up compares few keys. Memory is taken as
//! entries come: an empty bucket takes none but its head.
#![tactic(auto)]

mod bucket;
mod entry;
mod flags;
mod segment;

pub use bucket::Bucket;
pub use entry::Entry;
pub use segment::{Place, Segment};
