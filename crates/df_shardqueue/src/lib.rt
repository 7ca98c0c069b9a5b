//! A bounded queue whose items have one mark, chosen when the queue is made.
#![tactic(auto)]

mod lane;
pub mod laws;
mod marked;
mod queue;
mod rule;
mod view;

pub use lane::Lane;
pub use marked::Marked;
pub use queue::{QueuePass, ShardQueue, queue_like};
