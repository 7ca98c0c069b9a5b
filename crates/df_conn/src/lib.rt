//! One connection: requests come in over a link, calls go out to a caller, replies go back over the link.
//!
//! It knows nothing of what runs its calls. At any time what was taken, walked, told, written and waits fits together,
//! and at its end what it wrote is a front of the output of its session.
#![tactic(auto)]

mod answer;
mod conn;
mod hear;
pub mod laws;
mod talk;

pub use conn::{Conn, Stage, turned_away_line};
