//! RDB files: what their bytes spell, and the parts that a writer and a loader share.
//!
//! specs/Files says which files spell which keyspace.
#![tactic(auto)]

mod crc;
mod crc_table;
mod cursor;
mod fault;
mod front;
pub mod laws;
mod lengths;

pub use crc::Crc;
pub use cursor::Cursor;
pub use fault::{LoadFault, PartFault, Twice};
pub use lengths::{push_len, push_string};
