//! Doors, through which links come, and what rests where nothing can be done.

ghost use Rattle.df_outside.specs.Doors.{Hall, StaysOpen, Binds, Accepts};

use crate::disks::Done;
use crate::links::Link;

/// What an accept came to.
#[derive(Debug, Drop)]
pub enum Came<L> {
    Link(L),
    /// Nobody is there yet. A later accept may hand out a link.
    NotYet,
    /// Nobody comes any more, now and from then on.
    Closed,
    /// A fault. A further accept may succeed.
    Failed,
    /// Memory ran out.
    NoMemory,
}

/// What can wait a while. So that it can say that it leaves the door as it is, the door's meanings stand here.
pub trait Poller: Drop + Send {
    /// How many links were handed out, whether it is shut, and the count of faults.
    ghost hall: { Self → Hall };

    /// May wait for at most so long, and tells nothing.
    fn rest(&mut self, millis: u32)
        ensures { StaysOpen (hall self.old) (hall self.new) };
}

/// Where connections come in.
pub trait Door: Poller {
    type Link: Link;

    /// Listens on this port. It is called once, first; 0 lets the system choose.
    fn bind(&mut self, port: u16) -> Done
        ensures { Binds result (Self.hall self.old) (Self.hall self.new) };

    /// Hands out the next connection: nothing was taken from it or written to it, and its counts are 0.
    fn accept(&mut self) -> Came<Self::Link>
        ensures { Accepts Self.Link.flow result (Self.hall self.old) (Self.hall self.new) };
}
