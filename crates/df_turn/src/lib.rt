//! One command over shards, round by round: what each shard is asked next, and what comes of the answers.
//!
//!     command            first round        second                  third
//!     no key             none: it is answered at once
//!     keys on one shard  Run, there
//!     SAVE               Begin
//!     DBSIZE             Count
//!     KEYS               Walk
//!     FLUSHALL           Stage nothing      Clear, or Unstage
//!     several keys       Read               Stage what changes      Apply, or Unstage
//!
//! A round goes to every shard but those that have nothing to do. Unstage is asked of all that were asked to stage, where
//! one of them found no memory. No message and no number is known here.
#![tactic(auto)]

mod alone;
mod course;
mod ends;
mod heard;
mod named;
mod several;
mod turn;
mod whole;

pub use course::{Course, course_of};
pub use turn::{Next, Rest, Turn};
