//! From rounds of hops to the reply of a call: where a call stands between two rounds, which round is next, and that
//! what stands in the logs behind the last one gives its reply.
//!
//! The definitions are in `specs/`: one command (Standing, Replies), a call with its commands in turn (Progress), one
//! round (Underway), and what a call keeps between two rounds (Between).
#![tactic(auto)]

pub mod laws;
pub mod parts;

pub use parts::{draw_call, take_answer, ticket_for};
