//! What a Quick asks, taken out of its message, and when it has its turn.

ghost use Rattle.std.specs.Prelude.{◌≡◌, true, Some, None, IfOk};
ghost use Rattle.df_footprints.specs.Footprints.{footprint_of, only_key};
ghost use Rattle.df_hops.specs.Parts.{hash_for};
ghost use Rattle.df_hops.specs.Said.{call_said};
ghost use Rattle.df_shard.specs.Bodies.{is_quick};
ghost use Rattle.df_shard.specs.Came.{Brought, with_pass};
ghost use Rattle.df_shard.specs.Turns.{HasTurn, IsHeld, MayStart};

use crate::queueing::limit_for;
use crate::shard::Shard;
use df_book::Book;
use df_caller::Slip;
use df_footprints::{footprint, one_key};
use df_hops::{Body, Message, Why};
use df_intents::Grant;
use df_model::{Keys, NoMemory};

/// A Quick whose ticket was taken.
#[derive(Drop)]
pub(crate) struct Asked {
    pub(crate) conn: u32,
    pub(crate) number: u64,
    pub(crate) hop: u32,
    /// Of the call's one key, where it has one.
    pub(crate) hash: u64,
    pub(crate) slip: Box<Slip>,
}

/// When a Quick has its turn.
#[derive(Drop)]
pub(crate) enum Turn {
    Now,
    Never(Why),
    /// Behind those that hold these keys.
    Later(Keys),
}

impl Shard {
    pub(crate) fn receive(&mut self, book: &Book, m: Message) -> Asked
        requires book { (self.old.pass.book ≡ book.now) × (m.ticket.book ≡ book.now) }
        requires here { (m.shard ≡ self.old.index) × (is_quick m.body ≡ true) }
        ensures book { self.new.pass.book ≡ book.now }
        ensures pass { self.new ≡ with_pass self.old self.new.pass }
        ensures asked { (result.conn ≡ m.conn) × (result.number ≡ m.number) }
        ensures call { call_said m.body ≡ Some result.slip.value.call }
        ensures hash { result.hash ≡ hash_for result.hash result.slip.value.call }
        ensures brought { Brought self.new result.number result.hop result.slip.value.call }
    {
        let Message {
            shard: _,
            conn,
            number,
            body,
            ticket,
        } = m;
        let Body::Quick(hop, hash, slip) = body else {
            unreachable!()
        };
        self.take_ticket(book, ticket);
        Asked {
            conn,
            number,
            hop,
            hash,
            slip,
        }
    }

    /// Takes no memory but for the keys of a call that has to wait, or that isn't a command of one key.
    pub(crate) fn turn(&self, asked: &Asked) -> Turn
        requires brought { Brought self.now asked.now.number asked.now.hop asked.now.slip.value.call }
        requires hash { asked.now.hash ≡ hash_for asked.now.hash asked.now.slip.value.call }
        ensures { HasTurn self.now asked.now.number asked.now.slip.value.call result }
    {
        if asked.number <= self.ran {
            return Turn::Never(Why::Refused { limit: self.ran });
        }
        if self.queue.is_queued(asked.number) {
            // No caller sends this.
            return Turn::Never(Why::NoMemory);
        }
        match one_key(&asked.slip.call) {
            Some((key, mode)) => match self.intents.grant_key(asked.hash, key, mode) {
                Grant::Free => Turn::Now,
                Grant::Waits => self.turn_of_key(asked),
            },
            None => self.turn_of_keys(asked),
        }
    }

    /// The turn of a call whose one key is held.
    fn turn_of_key(&self, asked: &Asked) -> Turn
        requires brought { Brought self.now asked.now.number asked.now.hop asked.now.slip.value.call }
        requires above { MayStart self.now asked.now.number }
        requires held { IsHeld self.now asked.now.slip.value.call }
        ensures { HasTurn self.now asked.now.number asked.now.slip.value.call result }
    {
        if let Some(limit) = limit_for(&self.queue, asked.number) {
            return Turn::Never(Why::Refused { limit });
        }
        match self.asks(asked) {
            Ok(keys) => Turn::Later(keys),
            Err(_) => Turn::Never(Why::NoMemory),
        }
    }

    /// The turn of any other call.
    fn turn_of_keys(&self, asked: &Asked) -> Turn
        requires brought { Brought self.now asked.now.number asked.now.hop asked.now.slip.value.call }
        requires above { MayStart self.now asked.now.number }
        requires keys { only_key asked.now.slip.value.call ≡ None }
        ensures { HasTurn self.now asked.now.number asked.now.slip.value.call result }
    {
        let Ok(keys) = self.asks(asked) else {
            return Turn::Never(Why::NoMemory);
        };
        if self.intents.is_free(&keys) {
            return Turn::Now;
        }
        match limit_for(&self.queue, asked.number) {
            Some(limit) => Turn::Never(Why::Refused { limit }),
            None => Turn::Later(keys),
        }
    }

    /// What the call asks for here.
    fn asks(&self, asked: &Asked) -> Result<Keys, NoMemory>
        requires brought { Brought self.now asked.now.number asked.now.hop asked.now.slip.value.call }
        ensures { IfOk result (λ keys. footprint_of self.now.shards asked.now.slip.value.call self.now.index ≡ Some keys) }
    {
        match footprint(self.alloc, &asked.slip.call, self.index, self.shards)? {
            Some(keys) => Ok(keys),
            None => unreachable!(),
        }
    }
}
