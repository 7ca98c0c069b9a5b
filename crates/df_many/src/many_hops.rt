//! What runs a connection's calls of any number of hops, one after the other.

ghost use Rattle.std.specs.Prelude.{◌≡◌, ◌+◌, ◌<◌, true, is_some, None, Some};
ghost use Rattle.df_model.specs.Calls.{IsCall};
ghost use Rattle.df_book.specs.Draws.{Bounded};
ghost use Rattle.df_caller.specs.Calling.{Rose};
ghost use Rattle.df_caller.specs.declared.caller.Went.TheVariants as went;
ghost use Rattle.df_post.specs.Postings.{IsIdle, shards_of};
ghost use Rattle.df_many.specs.Rooms.{AllIdle, IsRoom};
ghost use Rattle.df_many.specs.Lines.{HasPost, Holds, SameLine, Stepped, under};

use crate::line::Line;
use crate::room::Room;
use crate::state::State;
use df_book::{Book, CallerPass, Witness};
use df_caller::{Slip, Went};
use df_post::Post;
use std::alloc::Global;

/// Runs calls over shards, of as many hops as they need. Between its steps `Holds` and `HasPost` are true of it (specs/Lines).
#[derive(Drop)]
pub struct ManyHops<'a, P> {
    line: Line<'a>,
    /// The way to the shards. Who serves them takes messages from it and puts answers there.
    pub post: P,
}

impl<'a, P: Post> ManyHops<'a, P> {
    /// No call. Takes no memory.
    pub fn new(
        alloc: Global,
        book: &'a Book,
        shards: u32,
        conn: u32,
        pass: CallerPass,
        room: Room,
        post: P,
    ) -> ManyHops<'a, P>
        requires some { 0 < shards }
        requires book { (pass.book ≡ book.now) × (book.now.words ≡ shards + 2) }
        requires caller { pass.first ≡ 0 }
        requires bounded { Bounded pass.own pass.made pass.seen }
        requires room { IsRoom book.now shards room }
        requires idle { AllIdle room.round × IsIdle (P.posting post) }
        requires post { ((P.posting post).book ≡ book.now) × (shards_of (P.posting post) ≡ shards) }
        ensures holds { Holds result.line.state result.line × HasPost result.line (P.posting result.post) }
        ensures idle { under result.line.state ≡ None }
        ensures same { (result.line.pass ≡ pass) × (result.post ≡ post) × (result.line.shards ≡ shards) × (result.line.book.now ≡ book.now) }
    {
        let before = Witness::of(&pass);
        let line = Line {
            alloc,
            book,
            conn,
            shards,
            pass,
            state: State::Idle,
            before,
            room,
            stalls: 0,
        };
        ManyHops { line, post }
    }

    /// Begins the call of the slip. Takes no memory.
    pub fn begin(&mut self, slip: Box<Slip>)
        requires holds { Holds self.old.line.state self.old.line × HasPost self.old.line (P.posting self.old.post) }
        requires idle { under self.old.line.state ≡ None }
        requires call { IsCall slip.value.call }
        ensures holds { Holds self.new.line.state self.new.line × HasPost self.new.line (P.posting self.new.post) }
        ensures begun { under self.new.line.state ≡ Some slip.value.call }
        ensures before { self.new.line.before.value ≡ self.old.line.pass }
        ensures same { (self.new.line.pass ≡ self.old.line.pass) × (self.new.post ≡ self.old.post) × (self.new.line.shards ≡ self.old.line.shards) × (self.new.line.book.now ≡ self.old.line.book.now) × (self.new.line.stalls ≡ self.old.line.stalls) }
    {
        self.line.before = Witness::of(&self.line.pass);
        self.line.state = State::Due(slip);
    }

    /// Goes on with the call under way: sends what it asks, and hears the answers once all have come.
    pub fn step(&mut self) -> Went
        requires holds { Holds self.old.line.state self.old.line × HasPost self.old.line (P.posting self.old.post) }
        requires under { is_some (under self.old.line.state) ≡ true }
        ensures holds { Holds self.new.line.state self.new.line × HasPost self.new.line (P.posting self.new.post) }
        ensures stepped { Stepped result self.old.line.state self.old.line self.new.line }
        ensures waits { result ≡ went.Pending → Rose self.old.line.stalls self.new.line.stalls }
        ensures same { SameLine self.old.line self.new.line }
    {
        if !self.line.room.round.go(&mut self.post) {
            return self.line.pend();
        }
        let went = self.line.go_on();
        let _all = self.line.room.round.go(&mut self.post);
        went
    }

    /// The pass as it is.
    pub fn pass(&self) -> &CallerPass
        ensures { result.now ≡ self.now.line.pass }
    {
        &self.line.pass
    }

    /// The pass, the room and the way to the shards, where no call is under way.
    pub fn finish(self) -> (CallerPass, Room, P)
        requires holds { Holds self.line.state self.line × HasPost self.line (P.posting self.post) }
        requires idle { under self.line.state ≡ None }
        ensures same { (result.0 ≡ self.entry.line.pass) × (result.2 ≡ self.entry.post) }
        ensures room { IsRoom self.entry.line.book.now self.entry.line.shards result.1 × AllIdle result.1.round }
        ensures idle { IsIdle (P.posting result.2) }
    {
        let ManyHops { line, post } = self;
        let Line { pass, room, .. } = line;
        (pass, room, post)
    }
}
