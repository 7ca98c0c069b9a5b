//! The door: a listening socket, and the events of all sockets.

ghost use Rattle.std.specs.Prelude.{◌≡◌, ◌≤◌};
ghost use Rattle.df_outside.specs.Doors.{Accepts, Binds};
ghost use Rattle.df_outside.specs.Faults.{Rose};
ghost use Rattle.df_real.specs.Answers.{hall_of};

use crate::again::accept_again;
use crate::link::MioLink;
use crate::places::{Places, Spare};
use df_outside::{Came, Done, Door, Link, Poller};
use mio::net::{TcpListener, TcpStream};
use mio::{Events, Interest, Poll, Token};
use std::alloc::Global;
use std::io;
use std::io::ErrorKind;
use std::net::{IpAddr, Net, SocketAddr};
use std::time::Duration;

/// Events that one rest takes from the system. Those left over come at the next.
const EVENTS: usize = 1024;

/// Linux's numbers of the errors for want of a descriptor, in the process and in the system.
const EMFILE: i32 = 24;

const ENFILE: i32 = 23;

/// The listener's token, which is no place of a link.
const LISTENER: Token = Token(usize::MAX);

/// Listens on one address. It registers each connection once, for changes of what can be read and written, and asks the
/// system only where a rest saw a change.
#[derive(Drop)]
pub struct MioDoor<R> {
    rt: R,
    address: SocketAddr,
    sockets: Sockets,
}

/// What the door has beside its handle.
#[derive(Drop)]
struct Sockets {
    poll: Poll,
    events: Events,
    /// None before `bind`.
    listener: Option<TcpListener>,
    /// Somebody may be there.
    ready: bool,
    places: Places,
    /// Calls that failed; it stays at its last value.
    faults: u64,
    reason: Option<ErrorKind>,
}

impl<R: Net + Drop> MioDoor<R> {
    /// Listens on nothing yet. It fails where the system gives no descriptor, or where memory ran out.
    pub fn new(rt: R, alloc: Global, address: IpAddr) -> io::Result<MioDoor<R>> {
        let poll = Poll::new(&rt)?;
        let events = Events::with_capacity(alloc, EVENTS)?;
        Ok(MioDoor {
            rt,
            address: SocketAddr::new(address, 0),
            sockets: Sockets {
                poll,
                events,
                listener: None,
                ready: false,
                places: Places::new(alloc),
                faults: 0,
                reason: None,
            },
        })
    }

    /// Where it was last asked to listen; the port is 0 before that, and where the system is to choose it.
    pub fn address(&self) -> SocketAddr {
        self.address
    }

    /// Why the last call that failed did, where one did.
    pub fn reason(&self) -> Option<ErrorKind> {
        self.sockets.reason
    }
}

impl Sockets {
    fn count_fault(&mut self, reason: ErrorKind)
        ensures rises { Rose self.old.faults self.new.faults }
        ensures grows { self.old.faults ≤ self.new.faults }
    {
        self.faults = self.faults.saturating_add(1);
        self.reason = Some(reason);
    }

    /// Watches for connections, where there is a listener.
    fn open(&mut self, listener: io::Result<TcpListener>) -> Done
        ensures { Binds result (hall_of self.old.faults) (hall_of self.new.faults) }
    {
        let watched = match listener {
            Ok(listener) => self.watch(listener),
            Err(fault) => Err(fault),
        };
        match watched {
            Ok(()) => Done::Ok,
            Err(fault) => {
                self.count_fault(fault.kind());
                Done::Failed
            }
        }
    }

    fn watch(&mut self, listener: TcpListener) -> io::Result<()>
        ensures { self.new.faults ≡ self.old.faults }
    {
        let mut listener = listener;
        self.poll
            .registry()
            .register(&mut listener, LISTENER, Interest::READABLE)?;
        self.listener = Some(listener);
        self.ready = true;
        Ok(())
    }

    fn rest(&mut self, millis: u32)
        ensures { self.old.faults ≤ self.new.faults }
    {
        let most = Duration::from_millis(u64::from(millis));
        match self.poll.poll(&mut self.events, Some(most)) {
            Ok(()) => {
                if spread(&self.events, &self.places) {
                    self.ready = true;
                }
            }
            Err(fault) => self.count_fault(fault.kind()),
        }
    }

    fn accept(&mut self) -> Came<MioLink>
        ensures { Accepts ⟦<MioLink as Link>⟧.flow result (hall_of self.old.faults) (hall_of self.new.faults) }
    {
        if !self.ready {
            return Came::NotYet;
        }
        // The memory first, so that no connection is taken and lost.
        let Ok(spare) = self.places.spare() else {
            return Came::NoMemory;
        };
        let Some(listener) = &self.listener else {
            self.places.put_back(spare);
            return Came::NotYet;
        };
        match accept_again(listener) {
            Ok(stream) => self.welcome(stream, spare),
            Err(fault) => {
                self.places.put_back(spare);
                if lacks_descriptor(&fault) {
                    return Came::NoMemory;
                }
                self.nobody(fault.kind())
            }
        }
    }

    /// Watches the connection and hands it out.
    fn welcome(&mut self, stream: TcpStream, spare: Spare) -> Came<MioLink>
        ensures { Accepts ⟦<MioLink as Link>⟧.flow result (hall_of self.old.faults) (hall_of self.new.faults) }
    {
        let mut stream = stream;
        // Replies are written whole, so there is nothing to gather. A socket that refuses is as good, only slower.
        let _ = stream.set_nodelay(true);
        spare.word.begin();
        let both = Interest::READABLE | Interest::WRITABLE;
        let registry = self.poll.registry();
        match registry.register(&mut stream, Token(spare.place), both) {
            Ok(()) => Came::Link(MioLink::new(stream, spare.word)),
            Err(fault) => {
                self.places.put_back(spare);
                self.count_fault(fault.kind());
                Came::Failed
            }
        }
    }

    /// What an accept that took no connection answers.
    fn nobody(&mut self, reason: ErrorKind) -> Came<MioLink>
        ensures { Accepts ⟦<MioLink as Link>⟧.flow result (hall_of self.old.faults) (hall_of self.new.faults) }
    {
        match reason {
            ErrorKind::WouldBlock => {
                self.ready = false;
                Came::NotYet
            }
            // It went away before it was taken.
            ErrorKind::ConnectionAborted | ErrorKind::ConnectionReset => Came::NotYet,
            _ => {
                self.count_fault(reason);
                Came::Failed
            }
        }
    }
}

/// Whether the process or the system has no descriptor left. The connection waits in the queue until one is free.
fn lacks_descriptor(fault: &io::Error) -> bool {
    match fault.raw_os_error() {
        Some(code) => code == EMFILE || code == ENFILE,
        None => false,
    }
}

impl<R: Net + Drop + Send> Poller for MioDoor<R> {
    ghost hall = { λ d. hall_of d.sockets.faults };

    fn rest(&mut self, millis: u32) {
        self.sockets.rest(millis);
    }
}

impl<R: Net + Drop + Send> Door for MioDoor<R> {
    type Link = MioLink;

    fn bind(&mut self, port: u16) -> Done {
        self.address.set_port(port);
        self.sockets.open(TcpListener::bind(&self.rt, self.address))
    }

    fn accept(&mut self) -> Came<MioLink> {
        self.sockets.accept()
    }
}

/// Raises the bits of the links that the events name; says whether they name the listener.
fn spread(events: &Events, places: &Places) -> bool {
    let mut came = false;
    for event in events {
        if event.token() == LISTENER {
            came = true;
        } else {
            places.note(event);
        }
    }
    came
}
