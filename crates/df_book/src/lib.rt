//! The book of numbers and logs. Callers draw numbers for their calls, and shards enter in their logs what they did
//! for these calls. Reading order of the definitions: Weights, Logs, Draws, Passes, Closed; then, for how it is
//! proved, Views, Rule, Steps.
#![tactic(auto)]

mod book;
mod closing;
mod crossing;
mod draw;
mod opening;
mod passes;
mod rule;
mod shards;
mod view;
mod witness;

pub use book::Book;
pub use closing::Closed;
pub use draw::Draw;
pub use passes::{CallerPass, Receipt, ShardPass, Ticket};
pub use witness::Witness;
