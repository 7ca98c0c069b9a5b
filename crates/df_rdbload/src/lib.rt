//! Loading RDB files: a disk's file in pieces, up to its keys or its first fault.
//!
//! Which files spell which keyspace stands in df_rdbcore's specs/Files, and where reading stops in specs/FileStops.
#![tactic(auto)]

mod end;
mod file;
mod head;
mod parts;
mod source;
mod values;

pub use file::{Loaded, load};
