//! What the program runs on: standard input and output as a source and a sink, and TCP connections as links that
//! come through a door.
//!
//! A real object tells nothing of its bytes, so no clause speaks of them. What is proved is the form of each answer:
//! a fault or a wait is counted before it is answered, and End is answered from then on.
#![tactic(auto)]

mod again;
mod door;
mod file_disk;
mod link;
mod places;
mod streams;
mod word;

pub use door::MioDoor;
pub use file_disk::FileDisk;
pub use link::MioLink;
pub use streams::{StdSink, StdSource};
