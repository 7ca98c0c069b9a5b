//! Keys with their values, and every command run on them.
//!
//! A command goes in two steps: its reply is written and all memory of its change is taken; the change is made, which
//! takes none. So want of memory leaves the keys as they were.
#![tactic(auto)]

mod combos;
mod copies;
mod many;
mod moves;
mod one;
mod run;
mod several;
mod smove;
mod table;
mod whole;

pub use many::run_many;
pub use one::Fate;
pub use table::Table;
pub use whole::run_whole;
