//! The calls of one connection over shards, one after the other.

ghost use Rattle.std.specs.Prelude.{◌≡◌, ◌+◌, ◌<◌, ◌∷◌, ℕ, [], None, IfErr, IfSome, OnErr, OnOk, length};
ghost use Rattle.df_book.specs.Draws.{Bounded};
ghost use Rattle.df_hops.specs.Shown.{book_shown};
ghost use Rattle.df_post.specs.Postings.{IsIdle, shards_of};
ghost use Rattle.df_post.specs.Locals.{posting_of};
ghost use Rattle.df_many.specs.Rooms.{AllIdle, IsRoom};
ghost use Rattle.df_calls.specs.Calling.{Handed, calling_of, is_pending};

use crate::left::noted;
use crate::rows::Rows;
use crate::runs::{
    Runs, alone, begin_many, begin_one, finished, for_many, for_one, pass_of, stepped,
};
use df_book::{Book, CallerPass, Witness};
use df_caller::{Caller, Slip, Went};
use df_coord::OneHop;
use df_hops::{Answer, Message};
use df_many::Room;
use df_post::LocalPost;
use std::alloc::Global;
use std::marker::Model;

/// What runs a connection's calls over shards. Whoever serves the shards takes its messages and puts the answers here.
#[derive(Drop)]
pub struct Calls<'a> {
    alloc: Global,
    book: &'a Book,
    shards: u32,
    /// The connection's place, which comes back with each answer.
    conn: u32,
    runs: Runs<'a>,
    /// How often a step had to wait, at most 2^64 - 1.
    stalls: u64,
    /// For clauses alone: the pass when the last call ended, and the rows of all that ended.
    rested: Witness<CallerPass>,
    rows: Rows,
}

impl<'a> Model for Calls<'a> {
    ghost use Rattle.df_model.specs.contracts.reply.Reply as reply;
    ghost use Rattle.std.specs.Coded.{codes};
    ghost use Rattle.df_model.specs.Values.{coded_value};
    ghost use Rattle.df_model.specs.Keyspace.{coded_keyspace};
    ghost use Rattle.df_calls.specs.Calling.{CallsView, IsKept, view_of};

    ghost Value = { CallsView };

    ghost coded = { Prim.hlevel (codes, reply.the_row.coded, coded_value, coded_keyspace) };

    ghost view = { view_of };

    ghost invariant = { IsKept };
}

impl<'a> Calls<'a> {
    /// No calls yet, of a session whose pass was just split off. Takes no memory.
    pub fn new(
        alloc: Global,
        book: &'a Book,
        shards: u32,
        conn: u32,
        pass: CallerPass,
        room: Room,
        post: LocalPost,
    ) -> Calls<'a>
        requires some { 0 < shards }
        requires book { (pass.book ≡ book.now) × (book.now.words ≡ shards + 2) }
        requires caller { pass.first ≡ 0 }
        requires bounded { Bounded pass.own pass.made pass.seen }
        requires fresh { (id : ℕ) × (pass.sessions ≡ id ∷ []) × (pass.own ≡ []) × (pass.made ≡ []) }
        requires room { IsRoom book.now shards room × AllIdle room.round }
        requires post { (post.book ≡ book.now) × (shards_of (posting_of post) ≡ shards) × IsIdle (posting_of post) }
        ensures book { (result.book ≡ book.now) × (result.shards ≡ shards) }
        ensures pass { result.rested ≡ pass }
        ensures none { (result.rows ≡ []) × (result.under ≡ None) }
        ensures post { result.post ≡ post }
    {
        let rested = Witness::of(&pass);
        Calls {
            alloc,
            book,
            shards,
            conn,
            runs: Runs::One(OneHop::new(book, shards, conn, pass, post), room),
            stalls: 0,
            rested,
            rows: Rows::none(),
        }
    }

    /// Takes out the message that lies on the way to the shard. None exactly where none does.
    pub fn message(&mut self, shard: u32) -> Option<Message>
        requires there { shard < self.old.shards }
        ensures message { IfSome result (λ m. (m.shard ≡ shard) × (m.ticket.book ≡ self.old.book)) }
        ensures same { self.new ≡ record self.old { post = self.new.post } }
    {
        match &mut self.runs {
            Runs::One(hop, _) => hop.post.message(shard),
            Runs::Many(many) => many.post.message(shard),
            Runs::Neither => unreachable!(),
        }
    }

    /// Puts an answer on the way back from the shard. Err where one lies there already.
    pub fn answer(&mut self, shard: u32, answer: Answer) -> Result<(), Answer>
        requires there { shard < self.old.shards }
        requires book { book_shown self.old.book answer.body ≡ self.old.book }
        ensures same { self.new ≡ record self.old { post = self.new.post } }
        ensures back { IfErr result (λ given. given ≡ answer) }
    {
        match &mut self.runs {
            Runs::One(hop, _) => hop.post.answer(shard, answer),
            Runs::Many(many) => many.post.answer(shard, answer),
            Runs::Neither => unreachable!(),
        }
    }

    /// Where no call is under way: the pass with all that came of its calls, and the room for the next connection's.
    pub fn finish(self) -> (CallerPass, Rows, Room)
        requires idle { self.under ≡ None }
        ensures { Handed self.entry.shards self.entry result.0 result.1.rows }
    {
        let Calls { runs, rows, .. } = self;
        let (pass, room) = finished(runs);
        (pass, rows, room)
    }
}

impl<'a> Caller for Calls<'a> {
    ghost calling = { calling_of };

    ghost ran = { λ c. [] };

    fn begin(&mut self, slip: Box<Slip>) {
        match alone(&slip.call, self.shards) {
            Some((shard, hash)) => {
                for_one(&mut self.runs, self.book, self.shards, self.conn);
                begin_one(&mut self.runs, slip, shard, hash);
            }
            None => {
                for_many(
                    &mut self.runs,
                    self.alloc,
                    self.book,
                    self.shards,
                    self.conn,
                );
                begin_many(&mut self.runs, slip);
            }
        }
    }

    fn step(&mut self) -> Went {
        let went = stepped(&mut self.runs);
        if is_pending(&went) {
            self.stalls = self.stalls.saturating_add(1);
            return went;
        }
        noted(
            self.shards,
            &mut self.rested,
            &mut self.rows,
            pass_of(&self.runs),
            went,
        )
    }
}

fn is_pending(went: &Went) -> bool
    ensures { result ≡ is_pending went.now }
{
    match went {
        Went::Pending => true,
        Went::Finished(_) => false,
        Went::Unsaid(_) => false,
        Went::NoMemory(_) => false,
        Went::Spent(_) => false,
    }
}
