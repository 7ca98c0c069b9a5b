//! Who holds which keys of a shard, and who may have what it asks for.
#![tactic(auto)]

mod count;
mod grant;
mod index;
mod intents;
mod search;
mod trail;

pub use grant::Grant;
pub use intents::{Intents, room_of};
