//! The loop of a server with one worker over one table: sessions in any number, and one list of all their calls.
#![tactic(auto)]

mod gone;
pub mod laws;
mod quiet;
mod rounds;
mod seat;
mod table_sessions;
mod welcome;

pub use gone::Gone;
pub use rounds::{Entry, Served, serve};
pub use seat::Seat;
pub use table_sessions::{Met, TableSessions};
