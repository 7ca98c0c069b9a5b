//! Byte strings read as text: numbers, names, hashes and patterns; and the places that numbers mean.
//!
//! Each call is exact against its definition in df_model; laws tie the numbers to the decimals that
//! are written.
#![tactic(auto)]

mod class;
mod hash;
pub mod laws;
mod name;
mod number;
mod pattern;
mod ranges;

pub use hash::{fnv64, shard_at, shard_of};
pub use name::is_name;
pub use number::{parse_i64, parse_u64, push_i64};
pub use pattern::glob;
pub use ranges::{ends, place};
