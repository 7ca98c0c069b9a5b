//! How calls of many hops run over shards: a call takes its places, asks round by round, and leaves.
#![tactic(auto)]

mod hops;
mod leaving;
mod line;
mod many_hops;
mod places;
mod room;
mod state;

pub use many_hops::ManyHops;
pub use room::Room;
pub use state::{State, Turned};
