//! All sessions of one table.

ghost use Rattle.std.specs.Prelude.{◌≡◌, ◌≤◌, ◌<◌, [], false, length};
ghost use Rattle.std.specs.List.{AllByRecursion};
ghost use Rattle.df_sessions.specs.AllSessions.{EndsFor, IsLate, LeavesSeats, Promises, asks_with};
ghost use Rattle.df_sessions.specs.Entries.{EntersFor, Meets};

use crate::gone::Gone;
use crate::quiet::Quiet;
use crate::seat::Seat;
use crate::welcome::Welcome;
use df_desk::Desk;
use df_model::{Turn, Why};
use df_outside::{Came, Door, Link};
use df_table::Table;
use std::alloc::Global;
use std::marker::Model;
use std::snapshot::Snapshot;

/// Turns that a session gets before the next one has its own.
const SHARE: u32 = 256;

/// What one look at the door came to.
#[derive(Clone, Copy, Debug)]
pub enum Met {
    /// A session was opened.
    Entered,
    /// Nobody is there, or there is no place or no memory for a session now.
    Nobody,
    /// Nobody comes any more.
    Closed,
    /// A fault of the door.
    Failed,
}

/// The open sessions, those that ended, and the table that serves them.
#[derive(Drop)]
pub struct TableSessions<L: Link> {
    alloc: Global,
    table: Table,
    /// Sessions so far: the next one's place.
    count: u64,
    seats: Vec<Seat<L, Desk>>,
    /// There is room for the open ones too.
    gone: Vec<Gone<L>>,
    /// A session asked for the end of all.
    asked: bool,
    start: Snapshot<Table>,
}

impl<L: Link> Model for TableSessions<L> {
    ghost use Rattle.std.specs.Prelude.{◌+◌, ◌≤◌, vec_len, vec_capacity};
    ghost use Rattle.df_model.specs.contracts.reply.Reply as reply_type;
    ghost use Rattle.std.specs.Coded.{codes};
    ghost use Rattle.df_sessions.specs.AllSessions.{AllSessions, Holds, AllGoing, EndsFor, Crowd};
    ghost use Rattle.df_model.specs.Values.{coded_value};
    ghost use Rattle.df_model.specs.Keyspace.{coded_keyspace};

    ghost Value = { AllSessions };

    ghost coded = { Prim.hlevel (codes, reply_type.the_row.coded, coded_value, coded_keyspace) };

    ghost view = { λ s. record { start = s.start.value.keys; keys = s.table.keys; count = s.count; seats = s.seats.items; gone = s.gone.items; asked = s.asked } };

    ghost invariant = { λ s. Holds s.start.value.keys s.table.keys s.count s.seats.items s.gone.items × AllGoing s.seats.items × (vec_len s.seats + vec_len s.gone ≤ vec_capacity s.gone) × EndsFor s.asked s.gone.items × Crowd s.count s.seats.items s.gone.items };
}

impl<L: Link> TableSessions<L> {
    /// No session yet. Takes no memory.
    pub fn new(alloc: Global, table: Table) -> TableSessions<L>
        ensures { result ≡ record { start = table.keys; keys = table.keys; count = 0; seats = []; gone = []; asked = false } }
    {
        let start = Snapshot::of(&table);
        TableSessions {
            alloc,
            table,
            count: 0,
            seats: Vec::new(alloc),
            gone: Vec::new(alloc),
            asked: false,
            start,
        }
    }

    /// How many sessions are open.
    pub fn len(&self) -> usize
        ensures { result ≡ length self.now.seats }
    {
        self.seats.len()
    }

    /// How many there were so far.
    pub fn count(&self) -> u64
        ensures { result ≡ self.now.count }
    {
        self.count
    }

    /// Whether a session asked for the end of all.
    pub fn is_asked(&self) -> bool
        ensures { result ≡ self.now.asked }
    {
        self.asked
    }

    /// Looks at the door once, where there is a place and memory for a session, and opens one for the link that came.
    pub fn admit<D: Door<Link = L>>(&mut self, door: &mut D) -> Met
        ensures start { self.new.start ≡ self.old.start }
        ensures meets { Meets result (D.hall door.old) (D.hall door.new) self.old.count self.new.count }
        ensures enters { EntersFor result self.old.seats self.new.seats }
    {
        let Some(welcome) = Welcome::of_next(self.alloc, self.seats.as_slice(), self.count) else {
            return Met::Nobody;
        };
        let Ok(()) = self.seats.reserve(1) else {
            return Met::Nobody;
        };
        let Ok(()) = self.gone.reserve(self.seats.len() + 1) else {
            return Met::Nobody;
        };
        match door.accept() {
            Came::Link(link) => {
                self.seats
                    .push_reserved(welcome.seat(self.alloc, self.count, link));
                self.count += 1;
                Met::Entered
            }
            Came::Closed => Met::Closed,
            Came::Failed => Met::Failed,
            Came::NotYet => Met::Nobody,
            Came::NoMemory => Met::Nobody,
        }
    }

    /// A turn of the session at this place, with its mailbox. Where it ended, it goes, and the last one takes its
    /// place.
    pub fn turn(&mut self, at: usize, buffer: &mut [u8]) -> Turn
        requires at { at < length self.old.seats }
        requires room { 0 < length buffer.old }
        ensures start { self.new.start ≡ self.old.start }
        ensures count { self.new.count ≡ self.old.count }
        ensures left { LeavesSeats result (length self.old.seats) (length self.new.seats) }
    {
        let stopping = self.asked;
        let seat = &mut self.seats[at];
        match seat.go_on(self.alloc, &mut self.table, buffer, stopping) {
            Turn::Moved => Turn::Moved,
            Turn::NotYet => Turn::NotYet,
            Turn::Ended(why) => {
                let seat = self.seats.swap_remove(at);
                self.gone.push_reserved(seat.finish());
                self.asked = asks_also(stopping, why);
                Turn::Ended(why)
            }
        }
    }

    /// Lets memory go that the session at this place doesn't need while it waits.
    fn shrink(&mut self, at: usize)
        requires { at < length self.old.seats }
        ensures { self.new ≡ self.old }
    {
        self.seats[at].shrink();
    }

    /// Gives the session at this place turns until it has to wait, has ended or had its share. Says whether it had its
    /// share.
    pub fn visit(&mut self, at: usize, buffer: &mut [u8], quiet: &mut Quiet) -> bool
        requires at { at < length self.old.seats }
        requires room { 0 < length buffer.old }
        ensures start { self.new.start ≡ self.old.start }
        ensures count { self.new.count ≡ self.old.count }
        ensures left { at ≤ length self.new.seats }
    {
        'turns: for turn in 0..SHARE {
            match self.turn(at, buffer) {
                Turn::Moved => {}
                Turn::NotYet => {
                    if quiet.note(at, turn > 0) {
                        self.shrink(at);
                    }
                    return false;
                }
                Turn::Ended(_) => {
                    let _quiet = quiet.note(at, true);
                    return false;
                }
            }
        }
        let _quiet = quiet.note(at, true);
        true
    }

    /// Visits the session at this place, unless it is passed over in this round. Says whether it had its share.
    fn call_on(&mut self, at: usize, buffer: &mut [u8], quiet: &mut Quiet) -> bool
        requires at { at < length self.old.seats }
        requires room { 0 < length buffer.old }
        ensures start { self.new.start ≡ self.old.start }
        ensures count { self.new.count ≡ self.old.count }
        ensures left { at ≤ length self.new.seats }
    {
        if quiet.passes_over(at) {
            return false;
        }
        self.visit(at, buffer, quiet)
    }

    /// Gives each session that isn't passed over its turns. Says whether one had its share, and so may go on at once.
    pub fn round(&mut self, buffer: &mut [u8], quiet: &mut Quiet) -> bool
        requires { 0 < length buffer.old }
        ensures start { self.new.start ≡ self.old.start }
        ensures count { self.new.count ≡ self.old.count }
    {
        let mut busy = false;
        let mut at = self.seats.len();
        'seats: while at > 0 {
            at -= 1;
            if self.call_on(at, buffer, quiet) {
                busy = true;
            }
        }
        busy
    }

    /// The sessions, all of which ended. All that was served is one list.
    pub fn finish(self) -> Vec<Gone<L>>
        requires { self.seats ≡ [] }
        ensures promises { Promises self.start self.count result.items }
        ensures ends { EndsFor self.asked result.items }
        ensures late { AllByRecursion (IsLate result.items) result.items }
    {
        let TableSessions {
            alloc: _,
            table: _,
            count: _,
            seats: _,
            gone,
            asked: _,
            start: _,
        } = self;
        gone
    }
}

/// Whether a session asked for the end of all, now that one ended so.
fn asks_also(asked: bool, why: Why) -> bool
    ensures { result ≡ asks_with asked why }
{
    match why {
        Why::Asked => true,
        Why::InputEnd => asked,
        Why::Quit => asked,
        Why::Stopped => asked,
        Why::Protocol(_, _) => asked,
        Why::ReadFault => asked,
        Why::WriteFault => asked,
        Why::TooMany => asked,
        Why::Spent => asked,
        Why::NoMemory => asked,
    }
}
