//! How messages go to shards and answers come back.
//!
//! Whoever runs a call on shards knows of the way no more than a post tells: what awaits its answer on each shard, and
//! that something had to wait. So the same call runs in one thread and over queues between threads.
#![tactic(auto)]

mod awaited;
mod bodies;
mod local;
mod post;
mod round;
mod slot;
mod way;

pub use awaited::{Awaited, Kind, PartKind};
pub use local::LocalPost;
pub use post::Post;
pub use round::Round;
