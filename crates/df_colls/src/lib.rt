//! Finite maps and sets of byte strings, with room that puts may use.
//!
//! Both are entries in the byte order of their keys. A contract sees the map or the set alone, and how
//! many puts find room; the entries lie in chunks, so that a put in a large one moves little.
#![tactic(auto)]

mod chunks;
mod combine;
mod copies;
mod entries;
mod hash;
mod set;
mod sums;

pub use hash::HashVal;
pub use set::SetVal;
