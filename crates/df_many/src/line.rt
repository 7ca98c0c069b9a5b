//! The calls of many hops of one connection, but for the way to the shards.
//!
//!     state         of the call under way                                     next
//!     Idle          there is none
//!     Due           its number is to be drawn                                 Placing
//!     Placing       its shards were asked for places                          Hopping, Leaving, or Withdrawing
//!     Withdrawing   those that gave one were asked to let go                  Due, or the end
//!     Hopping       its shards were asked for the hops of a round             Hopping, or Leaving
//!     Leaving       it ran, and its shards were asked to let go               the end
//!
//! What if a lower number comes too late? A shard refuses it; the call lets go of its other places, and draws again.
//! What if there is no memory? Before the draw: nothing was done. At a place: the call lets go of the others, and nothing
//! was done. At a hop: the command's rounds say what follows, and its reply that there was no memory. At the reply of an
//! EXEC: its other commands run, and nothing is said.

ghost use Rattle.std.specs.Prelude.{◌≡◌, ◌<◌, ℕ, true, is_some, Some};
ghost use Rattle.df_caller.specs.Calling.{Rose};
ghost use Rattle.df_caller.specs.declared.caller.Went.TheVariants as went;
ghost use Rattle.df_keys.specs.Asked.{FootprintsStand};
ghost use Rattle.df_post.specs.Rounds.{is_done, place_at};
ghost use Rattle.df_post.specs.declared.awaited.Kind.TheVariants as kinds;
ghost use Rattle.df_plan.specs.Plans.{Planned};
ghost use Rattle.df_many.specs.Rooms.{AllOf, IsRoom, SameWay};
ghost use Rattle.df_many.specs.Lines.{GoesOn, HasRun, Holds, IsDue, IsLast, MayAsk, MaySetOut, SameLine, Stepped, under};
ghost use Rattle.df_many.specs.declared.state.State.TheVariants as states;

use crate::hops::{ask_hops, hear_hops};
use crate::leaving::{ask_to_leave, hear_left};
use crate::places::{Placed, ask_places, hear_places};
use crate::room::Room;
use crate::state::{State, Turned};
use df_book::{Book, CallerPass, Witness};
use df_caller::{Slip, Went};
use df_model::Call;
use df_rounds::draw_call;
use std::alloc::Global;
use std::mem;

/// Between two steps `Holds` is true of it (specs/Lines).
#[derive(Drop)]
pub struct Line<'a> {
    pub(crate) alloc: Global,
    pub(crate) book: &'a Book,
    /// The connection's place, which comes back with each answer.
    pub(crate) conn: u32,
    pub(crate) shards: u32,
    pub(crate) pass: CallerPass,
    pub(crate) state: State,
    /// The pass when the call under way began, for clauses alone.
    pub(crate) before: Witness<CallerPass>,
    pub(crate) room: Room,
    /// How often a step had to wait, at most 2^64 - 1.
    pub(crate) stalls: u64,
}

impl<'a> Line<'a> {
    /// Goes on with the call under way, once all that it asked is answered.
    pub(crate) fn go_on(&mut self) -> Went
        requires holds { Holds self.old.state self.old }
        requires under { is_some (under self.old.state) ≡ true }
        requires done { (s : ℕ) → is_done (place_at s self.old.room.round) ≡ true }
        ensures holds { Holds self.new.state self.new }
        ensures stepped { Stepped result self.old.state self.old self.new }
        ensures waits { result ≡ went.Pending → Rose self.old.stalls self.new.stalls }
        ensures same { SameLine self.old self.new }
        ensures way { SameWay self.old.room.round self.new.room.round }
    {
        match mem::replace(&mut self.state, State::Idle) {
            State::Idle => unreachable!(),
            State::Due(slip) => self.start(slip),
            State::Placing(turned) => self.placed(turned),
            State::Withdrawing(slip, again) => self.withdrew(slip, again),
            State::Hopping(turned) => self.hopped(turned),
            State::Leaving(slip, said, call) => self.left(slip, said, call),
        }
    }

    /// Takes the call's memory, draws its number, and asks for its places.
    fn start(&mut self, slip: Box<Slip>) -> Went
        requires holds { Holds (states.Due slip) self.old }
        requires taken { self.old.state ≡ states.Idle }
        ensures holds { Holds self.new.state self.new }
        ensures stepped { Stepped result (states.Due slip) self.old self.new }
        ensures waits { result ≡ went.Pending → Rose self.old.stalls self.new.stalls }
        ensures same { SameLine self.old self.new }
        ensures way { SameWay self.old.room.round self.new.room.round }
    {
        if self.book.left(&self.pass) == 0 {
            return Went::Spent(slip);
        }
        let mut slip = slip;
        let Room { plan, keys, .. } = &mut self.room;
        match plan.prepare(self.alloc, self.shards, &mut slip, keys) {
            Ok(()) => self.draw(slip),
            Err(_) => Went::NoMemory(slip),
        }
    }

    /// Draws the call's number, and asks for its places.
    fn draw(&mut self, slip: Box<Slip>) -> Went
        requires holds { Holds (states.Due slip) self.old }
        requires taken { self.old.state ≡ states.Idle }
        requires left { 0 < self.old.pass.budget }
        requires keys { FootprintsStand self.old.shards slip.value.call self.old.room.keys.items }
        requires planned { Planned self.old.shards slip.value.call self.old.room.plan slip.value.reply }
        ensures holds { Holds self.new.state self.new }
        ensures under { under self.new.state ≡ Some slip.value.call }
        ensures waits { (result ≡ went.Pending) × Rose self.old.stalls self.new.stalls }
        ensures same { SameLine self.old self.new }
        ensures way { SameWay self.old.room.round self.new.room.round }
    {
        let call = Witness::of(&slip.call);
        let number = draw_call(self.book, &mut self.pass, &slip.call);
        ask_places(
            self.book,
            &mut self.pass,
            &mut self.room,
            self.shards,
            self.conn,
            number,
        );
        self.state = State::Placing(Turned { slip, number, call });
        self.pend()
    }

    /// Hears whether the call has its places, and asks for its first hops, or lets go.
    fn placed(&mut self, turned: Turned) -> Went
        requires holds { Holds (states.Placing turned) self.old }
        requires taken { self.old.state ≡ states.Idle }
        requires done { (s : ℕ) → is_done (place_at s self.old.room.round) ≡ true }
        ensures holds { Holds self.new.state self.new }
        ensures under { under self.new.state ≡ Some turned.call.value }
        ensures waits { (result ≡ went.Pending) × Rose self.old.stalls self.new.stalls }
        ensures same { SameLine self.old self.new }
        ensures way { SameWay self.old.room.round self.new.room.round }
    {
        match hear_places(&mut self.room, self.shards) {
            Placed::Everywhere => self.set_out(turned),
            Placed::Refused => self.withdraw(turned.slip, turned.number, true),
            Placed::NoMemory => self.withdraw(turned.slip, turned.number, false),
        }
    }

    /// Its first commands begin: it asks for its first hops, or is over.
    fn set_out(&mut self, turned: Turned) -> Went
        requires holds { Holds states.Idle self.old }
        requires taken { self.old.state ≡ states.Idle }
        requires may { MaySetOut turned self.old }
        ensures holds { Holds self.new.state self.new }
        ensures under { under self.new.state ≡ Some turned.call.value }
        ensures waits { (result ≡ went.Pending) × Rose self.old.stalls self.new.stalls }
        ensures same { SameLine self.old self.new }
        ensures way { SameWay self.old.room.round self.new.room.round }
    {
        let mut turned = turned;
        let asks = self
            .room
            .plan
            .set_out(self.alloc, self.shards, &mut turned.slip);
        self.go_by(turned, asks)
    }

    /// Asks for the hops that come next, or lets go of the places of a call that is over.
    fn go_by(&mut self, turned: Turned, asks: bool) -> Went
        requires holds { Holds states.Idle self.old }
        requires taken { self.old.state ≡ states.Idle }
        requires goes { GoesOn asks turned self.old }
        ensures holds { Holds self.new.state self.new }
        ensures under { under self.new.state ≡ Some turned.call.value }
        ensures waits { (result ≡ went.Pending) × Rose self.old.stalls self.new.stalls }
        ensures same { SameLine self.old self.new }
        ensures way { SameWay self.old.room.round self.new.room.round }
    {
        if asks {
            return self.ask(turned);
        }
        let Turned { slip, number, call } = turned;
        let said = self.room.plan.said();
        self.leave(slip, number, said, call)
    }

    /// Lets go of the places that the call was given: to be drawn again, or else for want of memory.
    fn withdraw(&mut self, slip: Box<Slip>, number: u64, again: bool) -> Went
        requires holds { Holds states.Idle self.old }
        requires taken { self.old.state ≡ states.Idle }
        requires due { IsDue slip.value.call self.old }
        requires last { IsLast number self.old }
        ensures holds { Holds self.new.state self.new }
        ensures under { under self.new.state ≡ Some slip.value.call }
        ensures waits { (result ≡ went.Pending) × Rose self.old.stalls self.new.stalls }
        ensures same { SameLine self.old self.new }
        ensures way { SameWay self.old.room.round self.new.room.round }
    {
        self.ask_to_leave(number, false);
        self.state = State::Withdrawing(slip, again);
        self.pend()
    }

    /// The places are given back: the call is drawn again, or found no memory.
    fn withdrew(&mut self, slip: Box<Slip>, again: bool) -> Went
        requires holds { Holds (states.Withdrawing slip again) self.old }
        requires taken { self.old.state ≡ states.Idle }
        requires done { (s : ℕ) → is_done (place_at s self.old.room.round) ≡ true }
        ensures holds { Holds self.new.state self.new }
        ensures stepped { Stepped result (states.Withdrawing slip again) self.old self.new }
        ensures waits { result ≡ went.Pending → Rose self.old.stalls self.new.stalls }
        ensures same { SameLine self.old self.new }
        ensures way { SameWay self.old.room.round self.new.room.round }
    {
        hear_left(&mut self.room, self.shards);
        if again {
            return self.start(slip);
        }
        Went::NoMemory(slip)
    }

    /// Asks for the hops of the call's next round.
    fn ask(&mut self, turned: Turned) -> Went
        requires holds { Holds states.Idle self.old }
        requires taken { self.old.state ≡ states.Idle }
        requires may { MayAsk turned self.old }
        ensures holds { Holds self.new.state self.new }
        ensures under { under self.new.state ≡ Some turned.call.value }
        ensures waits { (result ≡ went.Pending) × Rose self.old.stalls self.new.stalls }
        ensures same { SameLine self.old self.new }
        ensures way { SameWay self.old.room.round self.new.room.round }
    {
        ask_hops(
            self.book,
            &mut self.pass,
            &mut self.room,
            self.shards,
            self.conn,
            turned.number,
        );
        self.state = State::Hopping(turned);
        self.pend()
    }

    /// Hears what the hops of a round came to, and asks for the next ones, or lets go.
    fn hopped(&mut self, turned: Turned) -> Went
        requires holds { Holds (states.Hopping turned) self.old }
        requires taken { self.old.state ≡ states.Idle }
        requires done { (s : ℕ) → is_done (place_at s self.old.room.round) ≡ true }
        ensures holds { Holds self.new.state self.new }
        ensures under { under self.new.state ≡ Some turned.call.value }
        ensures waits { (result ≡ went.Pending) × Rose self.old.stalls self.new.stalls }
        ensures same { SameLine self.old self.new }
        ensures way { SameWay self.old.room.round self.new.room.round }
    {
        hear_hops(self.book, &mut self.pass, &mut self.room, self.shards);
        let mut turned = turned;
        let Room { plan, outcomes, .. } = &mut self.room;
        let asks = plan.go_on(self.alloc, self.shards, &mut turned.slip, outcomes);
        self.go_by(turned, asks)
    }

    /// Lets go of the places of a call that ran.
    fn leave(&mut self, slip: Box<Slip>, number: u64, said: bool, call: Witness<Call>) -> Went
        requires holds { Holds states.Idle self.old }
        requires taken { self.old.state ≡ states.Idle }
        requires ran { HasRun call.value said slip.value.reply self.old }
        requires last { IsLast number self.old }
        ensures holds { Holds self.new.state self.new }
        ensures under { under self.new.state ≡ Some call.value }
        ensures waits { (result ≡ went.Pending) × Rose self.old.stalls self.new.stalls }
        ensures same { SameLine self.old self.new }
        ensures way { SameWay self.old.room.round self.new.room.round }
    {
        self.ask_to_leave(number, true);
        self.state = State::Leaving(slip, said, call);
        self.pend()
    }

    /// The places are given back, and the call has ended.
    fn left(&mut self, slip: Box<Slip>, said: bool, call: Witness<Call>) -> Went
        requires holds { Holds (states.Leaving slip said call) self.old }
        requires taken { self.old.state ≡ states.Idle }
        requires done { (s : ℕ) → is_done (place_at s self.old.room.round) ≡ true }
        ensures holds { Holds self.new.state self.new }
        ensures stepped { Stepped result (states.Leaving slip said call) self.old self.new }
        ensures goes { result ≡ went.Pending → ⊥ }
        ensures same { SameLine self.old self.new }
        ensures way { SameWay self.old.room.round self.new.room.round }
    {
        hear_left(&mut self.room, self.shards);
        if said {
            Went::Finished(slip)
        } else {
            Went::Unsaid(slip)
        }
    }

    /// Asks each shard where the call has its place to let go of it.
    fn ask_to_leave(&mut self, number: u64, done: bool)
        requires holds { Holds states.Idle self.old }
        requires last { IsLast number self.old }
        ensures line { self.new ≡ record self.old { room = self.new.room } }
        ensures room { IsRoom self.old.book.now self.old.shards self.new.room }
        ensures asked { AllOf kinds.Free self.new.room.round }
        ensures way { SameWay self.old.room.round self.new.room.round }
    {
        ask_to_leave(
            self.book,
            &mut self.pass,
            &mut self.room,
            self.shards,
            self.conn,
            number,
            done,
        );
    }

    /// The step had to wait.
    pub(crate) fn pend(&mut self) -> Went
        ensures waits { (result ≡ went.Pending) × Rose self.old.stalls self.new.stalls }
        ensures same { self.new ≡ record self.old { stalls = self.new.stalls } }
    {
        self.stalls = self.stalls.saturating_add(1);
        Went::Pending
    }
}
