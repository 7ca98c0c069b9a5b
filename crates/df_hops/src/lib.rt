//! What goes to a shard and what comes back, each with the facts that it keeps.
//!
//! A message shows a shard what its caller drew, by its ticket; an answer shows the caller what the shard did, by its
//! receipt. What either says is tied to what it shows by equations in its type, so nobody has to know who made it.
#![tactic(auto)]

mod answer;
mod asking;
mod crossing;
mod message;
mod sizes;

pub use answer::{Answer, AnswerBody, Outcome, Values, Why};
pub use asking::{cancel, conclude, hop, quick, schedule};
pub use message::{Body, Changes, Message, Part};
