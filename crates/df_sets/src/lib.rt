//! The commands on sets, each prepared against what its key holds, and sets combined.
//!
//! What a command replies and makes of its key stands in the rows of df_model's Meaning/Sets. A missing key counts
//! as the empty set, and a set that loses its last member is removed.
#![tactic(auto)]

mod add;
mod combination;
mod count;
mod dispatch;
mod fold;
mod look;
mod remove;

pub use combination::Combine;
pub use dispatch::prepare_into;
pub use fold::{combine, first, next};
pub use look::put_members;
