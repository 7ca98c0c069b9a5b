//! The command that the words of a request spell.
//!
//! The first word is looked for in a table of names (df_model's specs/Reads), in any case. Each row
//! has a shape, which says how many further words there are and what each one is; a shape is one
//! function here, and a small enum says which command of the shape it makes. The words are read where
//! they lie: what becomes part of the command is copied once, and nothing else is.
#![tactic(auto)]

mod fields;
mod keyless;
mod many_keys;
mod one_key;
mod ops;
mod options;
mod read;
mod reader;
mod refusal;
mod table;

pub use read::{read_into, read_linked};
pub use refusal::Refusal;
