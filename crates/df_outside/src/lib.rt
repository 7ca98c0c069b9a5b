//! What lies outside: where bytes come from, where they go, the door that connections come through, and the
//! disk that keeps a file.
//!
//! Each object has a count of faults that never falls, and a call answers Failed only where the count
//! rose in that call or stands at its last value. Code that is generic over these traits can't raise a
//! count by itself, so a body that gives up without a fault is no body of its contract.
//! What an object gives or holds is told by the objects in memory; a real stream or disk tells nothing.
#![tactic(auto)]

mod arrivals;
mod buffers;
mod disks;
mod doors;
mod fault_plan;
mod gates;
mod links;
mod mem_disk;
mod mem_door;
mod mem_link;
mod mem_sink;
mod mem_source;
mod pair_link;
mod pieces;
mod puts;
mod streams;

pub use arrivals::Arrival;
pub use disks::{Disk, Done, Had};
pub use doors::{Came, Door, Poller};
pub use gates::{Gate, NoGate};
pub use links::Link;
pub use mem_disk::MemDisk;
pub use mem_door::MemDoor;
pub use mem_link::MemLink;
pub use mem_sink::MemSink;
pub use mem_source::MemSource;
pub use pair_link::PairLink;
pub use streams::{Got, Put, Sink, Source};
