//! What runs a connection's calls of one hop, one after the other: single commands that run on one shard alone.
//!
//!     state     of the call under way
//!     Idle      there is none
//!     Due       its number is to be drawn
//!     Unsent    it was drawn, and found no room on the way
//!     Sent      its shard has it
//!
//! What if a lower number comes too late? Its shard refuses it and hands the slip back, and the next step draws again.

ghost use Rattle.std.specs.Prelude.{◌≡◌, ◌+◌, ◌<◌, true, is_some, None, Some};
ghost use Rattle.df_book.specs.Draws.{Bounded};
ghost use Rattle.df_caller.specs.Calling.{Rose};
ghost use Rattle.df_caller.specs.declared.caller.Went.TheVariants as went;
ghost use Rattle.df_post.specs.Postings.{IsIdle, shards_of};
ghost use Rattle.df_hops.specs.Parts.{hash_for};
ghost use Rattle.df_coord.specs.Asking.{RunsAlone};
ghost use Rattle.df_coord.specs.OneHops.{Going, Says, Stepped, see, under};
ghost use Rattle.df_coord.specs.declared.state.State.TheVariants as states;

use crate::asking::ask;
use crate::hearing::{Heard, hear};
use crate::state::State;
use df_book::{Book, CallerPass, Witness};
use df_caller::{Slip, Went};
use df_hops::{Message, Why};
use df_model::{Call, ErrorText};
use df_post::Post;
use std::mem;

/// Runs calls of one hop over shards. Between its steps `Going` holds of it (specs/OneHops).
#[derive(Drop)]
pub struct OneHop<'a, P> {
    book: &'a Book,
    /// The connection's place, which comes back with each answer.
    conn: u32,
    shards: u32,
    pass: CallerPass,
    state: State,
    /// The pass when the call under way began, for clauses alone.
    before: Witness<CallerPass>,
    /// How often a step had to wait, at most 2^64 - 1.
    stalls: u64,
    /// The way to the shards. Who serves them takes messages from it and puts answers there.
    pub post: P,
}

impl<'a, P: Post> OneHop<'a, P> {
    /// No call. Takes no memory.
    pub fn new(book: &'a Book, shards: u32, conn: u32, pass: CallerPass, post: P) -> OneHop<'a, P>
        requires some { 0 < shards }
        requires book { (pass.book ≡ book.now) × (book.now.words ≡ shards + 2) }
        requires caller { pass.first ≡ 0 }
        requires bounded { Bounded pass.own pass.made pass.seen }
        requires post { ((P.posting post).book ≡ book.now) × (shards_of (P.posting post) ≡ shards) }
        requires idle { IsIdle (P.posting post) }
        ensures going { Going (see result.book.now result.shards result.before.value result.pass result.state (P.posting result.post)) }
        ensures idle { under result.state ≡ None }
        ensures same { (result.pass ≡ pass) × (result.post ≡ post) × (result.shards ≡ shards) × (result.book.now ≡ book.now) }
    {
        let before = Witness::of(&pass);
        OneHop {
            book,
            conn,
            shards,
            pass,
            state: State::Idle,
            before,
            stalls: 0,
            post,
        }
    }

    /// Begins the call of the slip, on the shard where it runs; with its key's hash, or any where it isn't a command of
    /// one key. Takes no memory.
    pub fn begin(&mut self, slip: Box<Slip>, shard: u32, hash: u64)
        requires going { Going (see self.old.book.now self.old.shards self.old.before.value self.old.pass self.old.state (P.posting self.old.post)) }
        requires idle { under self.old.state ≡ None }
        requires runs { RunsAlone self.old.shards shard slip.value.call }
        requires hash { hash ≡ hash_for hash slip.value.call }
        ensures going { Going (see self.new.book.now self.new.shards self.new.before.value self.new.pass self.new.state (P.posting self.new.post)) }
        ensures begun { under self.new.state ≡ Some slip.value.call }
        ensures before { self.new.before.value ≡ self.old.pass }
        ensures same { (self.new.pass ≡ self.old.pass) × (self.new.post ≡ self.old.post) × (self.new.shards ≡ self.old.shards) × (self.new.book.now ≡ self.old.book.now) × (self.new.stalls ≡ self.old.stalls) }
    {
        self.before = Witness::of(&self.pass);
        self.state = State::Due(slip, shard, hash);
    }

    /// Goes on with the call under way: draws and sends, or hears its answer.
    pub fn step(&mut self) -> Went
        requires going { Going (see self.old.book.now self.old.shards self.old.before.value self.old.pass self.old.state (P.posting self.old.post)) }
        requires under { is_some (under self.old.state) ≡ true }
        ensures going { Going (see self.new.book.now self.new.shards self.new.before.value self.new.pass self.new.state (P.posting self.new.post)) }
        ensures stepped { Stepped result (see self.old.book.now self.old.shards self.old.before.value self.old.pass self.old.state (P.posting self.old.post)) (see self.new.book.now self.new.shards self.new.before.value self.new.pass self.new.state (P.posting self.new.post)) }
        ensures waits { result ≡ went.Pending → Rose self.old.stalls self.new.stalls }
        ensures same { (self.new.before.value ≡ self.old.before.value) × (self.new.book.now ≡ self.old.book.now) × (self.new.shards ≡ self.old.shards) }
    {
        match mem::replace(&mut self.state, State::Idle) {
            State::Idle => unreachable!(),
            State::Due(slip, shard, hash) => self.start(slip, shard, hash),
            State::Unsent(m, hash, call) => self.send(m, hash, call),
            State::Sent(number, shard, hash, call) => self.wait(number, shard, hash, call),
        }
    }

    /// Draws a number for the call, and sends it.
    fn start(&mut self, slip: Box<Slip>, shard: u32, hash: u64) -> Went
        requires going { Going (see self.old.book.now self.old.shards self.old.before.value self.old.pass (states.Due slip shard hash) (P.posting self.old.post)) }
        requires taken { self.old.state ≡ states.Idle }
        ensures going { Going (see self.new.book.now self.new.shards self.new.before.value self.new.pass self.new.state (P.posting self.new.post)) }
        ensures stepped { Stepped result (see self.old.book.now self.old.shards self.old.before.value self.old.pass (states.Due slip shard hash) (P.posting self.old.post)) (see self.new.book.now self.new.shards self.new.before.value self.new.pass self.new.state (P.posting self.new.post)) }
        ensures waits { result ≡ went.Pending → Rose self.old.stalls self.new.stalls }
        ensures same { (self.new.before.value ≡ self.old.before.value) × (self.new.book.now ≡ self.old.book.now) × (self.new.shards ≡ self.old.shards) }
    {
        if self.book.left(&self.pass) == 0 {
            return Went::Spent(slip);
        }
        let call = Witness::of(&slip.call);
        let m = ask(
            self.book,
            &mut self.pass,
            self.shards,
            self.conn,
            slip,
            shard,
            hash,
        );
        self.send(m, hash, call)
    }

    /// Sends the call's message.
    fn send(&mut self, m: Message, hash: u64, call: Witness<Call>) -> Went
        requires going { Going (see self.old.book.now self.old.shards self.old.before.value self.old.pass (states.Unsent m hash call) (P.posting self.old.post)) }
        requires taken { self.old.state ≡ states.Idle }
        ensures going { Going (see self.new.book.now self.new.shards self.new.before.value self.new.pass self.new.state (P.posting self.new.post)) }
        ensures stepped { Stepped result (see self.old.book.now self.old.shards self.old.before.value self.old.pass (states.Unsent m hash call) (P.posting self.old.post)) (see self.new.book.now self.new.shards self.new.before.value self.new.pass self.new.state (P.posting self.new.post)) }
        ensures waits { (result ≡ went.Pending) × Rose self.old.stalls self.new.stalls }
        ensures same { (self.new.before.value ≡ self.old.before.value) × (self.new.book.now ≡ self.old.book.now) × (self.new.shards ≡ self.old.shards) }
    {
        let number = m.number;
        let shard = m.shard;
        match self.post.send(m) {
            Ok(()) => {
                self.state = State::Sent(number, shard, hash, call);
                self.pend()
            }
            Err(m) => {
                self.state = State::Unsent(m, hash, call);
                self.pend()
            }
        }
    }

    fn pend(&mut self) -> Went
        ensures same { (self.new.state ≡ self.old.state) × (self.new.pass ≡ self.old.pass) × (self.new.post ≡ self.old.post) × (self.new.before.value ≡ self.old.before.value) × (self.new.book.now ≡ self.old.book.now) × (self.new.shards ≡ self.old.shards) }
        ensures waits { (result ≡ went.Pending) × Rose self.old.stalls self.new.stalls }
    {
        self.stalls = self.stalls.saturating_add(1);
        Went::Pending
    }

    /// Takes the call's answer, if it came.
    fn wait(&mut self, number: u64, shard: u32, hash: u64, call: Witness<Call>) -> Went
        requires going { Going (see self.old.book.now self.old.shards self.old.before.value self.old.pass (states.Sent number shard hash call) (P.posting self.old.post)) }
        requires taken { self.old.state ≡ states.Idle }
        ensures going { Going (see self.new.book.now self.new.shards self.new.before.value self.new.pass self.new.state (P.posting self.new.post)) }
        ensures stepped { Stepped result (see self.old.book.now self.old.shards self.old.before.value self.old.pass (states.Sent number shard hash call) (P.posting self.old.post)) (see self.new.book.now self.new.shards self.new.before.value self.new.pass self.new.state (P.posting self.new.post)) }
        ensures waits { result ≡ went.Pending → Rose self.old.stalls self.new.stalls }
        ensures same { (self.new.before.value ≡ self.old.before.value) × (self.new.book.now ≡ self.old.book.now) × (self.new.shards ≡ self.old.shards) }
    {
        let Some(answer) = self.post.take(shard) else {
            self.state = State::Sent(number, shard, hash, call);
            return self.pend();
        };
        match hear(self.book, &mut self.pass, self.shards, answer) {
            Heard::Ran(slip) => Went::Finished(slip),
            Heard::Wanted(slip) => say_memory(slip),
            Heard::Passed(Why::NoMemory, slip) => Went::NoMemory(slip),
            Heard::Passed(Why::Refused { .. }, slip) => self.start(slip, shard, hash),
        }
    }

    /// The pass as it is.
    pub fn pass(&self) -> &CallerPass
        ensures { result.now ≡ self.now.pass }
    {
        &self.pass
    }

    /// The pass and the way to the shards, where no call is under way.
    pub fn finish(self) -> (CallerPass, P)
        requires going { Going (see self.book.now self.shards self.before.value self.pass self.state (P.posting self.post)) }
        requires idle { under self.state ≡ None }
        ensures same { (result.0 ≡ self.entry.pass) × (result.1 ≡ self.entry.post) }
        ensures idle { IsIdle (P.posting result.1) }
    {
        let OneHop { pass, post, .. } = self;
        (pass, post)
    }
}

/// Says in the slip that the call found no memory.
fn say_memory(slip: Box<Slip>) -> Went
    ensures { Says result }
{
    let mut slip = slip;
    match slip.reply.put_error(&ErrorText::Memory) {
        Ok(()) => Went::Finished(slip),
        Err(_) => Went::Unsaid(slip),
    }
}
