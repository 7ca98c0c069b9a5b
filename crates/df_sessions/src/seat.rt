//! An open session.

ghost use Rattle.std.specs.Prelude.{◌≡◌, ◌<◌, [], length, false, true};
ghost use Rattle.df_conn.specs.Turns.{IsGoing, is_away, is_over};
ghost use Rattle.df_sessions.specs.Sessions.{Sits, Sat, Same, Left, IsDueAfter};
ghost use Rattle.df_sessions.specs.AllSessions.{Ran};
ghost use Rattle.df_sessions.specs.Welcomes.{IsWelcome};
ghost use Rattle.df_sessions.specs.declared.welcome.Welcome.{Welcome};
ghost use Rattle.df_desk.specs.States.{Served};

use crate::gone::Gone;
use df_caller::Caller;
use df_conn::Conn;
use df_desk::Desk;
use df_model::Turn;
use df_outside::Link;
use df_table::Table;
use std::alloc::Global;
use std::marker::Model;

/// A connection with its mailbox: between its turns all that it took, walked, was told, said and wrote fits together.
#[derive(Drop)]
pub struct Seat<L: Link, C: Caller> {
    conn: Conn<L, C>,
}

impl<L: Link, C: Caller> Model for Seat<L, C> {
    ghost use Rattle.df_model.specs.contracts.reply.Reply as reply_type;
    ghost use Rattle.std.specs.Coded.{codes};
    ghost use Rattle.std.specs.Prelude.{length};
    ghost use Rattle.df_conn.specs.Turns.{see, Going, waiting_in};
    ghost use Rattle.df_sessions.specs.Sessions.{Sitting};

    ghost Value = { Sitting };

    ghost coded = { Prim.hlevel (codes, reply_type.the_row.coded) };

    ghost view = { λ s. record { id = s.conn.id; stage = s.conn.stage; desk = record { calling = C.calling s.conn.caller; ran = C.ran s.conn.caller }; first = L.flow s.conn.first.value; flow = L.flow s.conn.link; rest = length s.conn.talk.reader.rest; waits = waiting_in s.conn.talk } };

    ghost invariant = { λ s. Going (see s.conn.id s.conn.stage (C.calling s.conn.caller) (L.flow s.conn.first.value) (L.flow s.conn.link) s.conn.talk) };
}

impl<L: Link, C: Caller> Seat<L, C> {
    /// One turn of its connection.
    pub fn turn(&mut self, buffer: &mut [u8], stopping: bool) -> Turn
        requires going { IsGoing self.old.stage }
        requires room { 0 < length buffer.old }
        ensures sat { Sat stopping result self.old self.new }
        ensures ran { self.new.desk.ran ≡ self.old.desk.ran }
    {
        let turn = self.conn.turn(buffer, stopping);
        // That this is a number of 64 bits is what a proof needs of it.
        let _kept = self.conn.output_len();
        turn
    }
}

impl<L: Link> Seat<L, Desk> {
    /// A session at its start, which is served.
    pub fn new(alloc: Global, id: u64, link: L) -> Seat<L, Desk>
        ensures { Sits result id (L.flow link) false }
    {
        Seat {
            conn: Conn::new(alloc, id, link, Desk::new()),
        }
    }

    /// One that is turned away, with this line.
    pub fn turned_away(alloc: Global, id: u64, link: L, line: Vec<u8>) -> Seat<L, Desk>
        requires { IsWelcome (Welcome.Away line) id }
        ensures { Sits result id (L.flow link) true }
    {
        Seat {
            conn: Conn::turned_away(alloc, id, link, Desk::new(), line),
        }
    }

    /// Whether it is turned away.
    pub fn is_away(&self) -> bool
        ensures { result ≡ is_away self.now.stage }
    {
        self.conn.is_away()
    }

    /// Lets memory go that an idle session doesn't need.
    pub fn shrink(&mut self)
        ensures { self.new ≡ self.old }
    {
        self.conn.shrink();
    }

    /// Runs the call that waits in its mailbox, where one does.
    pub fn serve(&mut self, alloc: Global, table: &mut Table)
        ensures same { Same self.old self.new }
        ensures served { Served self.old.desk self.new.desk table.old.keys table.new.keys }
    {
        self.conn.caller.serve(alloc, table)
    }

    /// A turn, and then its mailbox.
    pub fn go_on(
        &mut self,
        alloc: Global,
        table: &mut Table,
        buffer: &mut [u8],
        stopping: bool,
    ) -> Turn
        requires going { IsGoing self.old.stage }
        requires room { 0 < length buffer.old }
        ensures sat { Sat stopping result self.old self.new }
        ensures ran { Ran self.old.desk.ran self.new.desk.ran table.old.keys table.new.keys }
        ensures due { IsDueAfter result self.new }
    {
        let turn = self.turn(buffer, stopping);
        match turn {
            Turn::Ended(_) => {}
            Turn::Moved => self.serve(alloc, table),
            Turn::NotYet => self.serve(alloc, table),
        }
        turn
    }

    /// What is left of it.
    pub fn finish(self) -> Gone<L>
        requires over { is_over self.stage ≡ true }
        ensures { Left self result }
    {
        let Seat { conn } = self;
        let (end, desk, first) = conn.finish();
        Gone {
            end,
            first,
            answered: desk.finish(),
        }
    }
}
