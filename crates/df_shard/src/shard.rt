//! The shard's type, which keeps the scheduler's invariant: its keys are those that its log leaves, the log is in order,
//! and who waits has its place, its intents and, where a hop of it is armed, the right to enter it.

ghost use Rattle.std.specs.Prelude.{◌≡◌, ◌+◌, ◌<◌, [], IsTrue, ◌↔◌, Some, OnOk, OnErr, IfErr};
ghost use Rattle.df_model.specs.Hash.{shard_of};
ghost use Rattle.df_model.specs.Keyspace.{Keyspace, no_keys, with_held};
ghost use Rattle.df_values.specs.Seen.{seen};
ghost use Rattle.df_log.specs.Parts.{own_keys};
ghost use Rattle.df_book.specs.Passes.{new_shard};
ghost use Rattle.df_end.specs.Shards.{ShardLeft};
ghost use Rattle.df_shard.specs.Came.{Took};

use crate::waiting::Waiting;
use df_book::{Book, ShardPass, Ticket};
use df_intents::Intents;
use df_model::Bin;
use df_table::Table;
use df_txqueue::TxQueue;
use df_values::Value;
use std::alloc::Global;
use std::marker::Model;
use std::snapshot::Snapshot;

/// A shard of the keyspace. It runs calls in an order that is that of their numbers wherever two conflict.
#[derive(Drop)]
pub struct Shard {
    pub(crate) alloc: Global,
    pub(crate) index: u32,
    pub(crate) shards: u32,
    /// The greatest number that ran.
    pub(crate) ran: u64,
    pub(crate) intents: Intents,
    pub(crate) queue: TxQueue,
    pub(crate) waiting: Vec<Waiting>,
    pub(crate) table: Table,
    pub(crate) pass: ShardPass,
    /// The keys that were loaded, for clauses alone.
    pub(crate) first: Snapshot<Table>,
}

impl Model for Shard {
    ghost use Rattle.df_shard.specs.Holds.{View};

    ghost Value = { View };

    ghost use Rattle.std.specs.Coded.{codes};
    ghost use Rattle.df_model.specs.contracts.reply.Reply as reply;
    ghost use Rattle.df_model.specs.Values.{coded_value};
    ghost use Rattle.df_model.specs.Keyspace.{coded_keyspace};

    ghost coded = { Prim.hlevel (codes, reply.the_row.coded, coded_value, coded_keyspace) };

    ghost use Rattle.df_shard.specs.Fields.{HoldsIn, view_of};

    ghost view = { view_of };

    ghost invariant = { HoldsIn };
}

impl Shard {
    /// A shard with no keys, where nobody waits. Takes no memory.
    pub fn new(alloc: Global, shards: u32, index: u32, pass: ShardPass) -> Shard
        requires { (pass ≡ new_shard pass.book index) × (pass.book.words ≡ shards + 2) × (index < shards) }
        ensures { (result.pass ≡ pass) × (result.first ≡ no_keys) × (result.index ≡ index) × (result.shards ≡ shards) × (result.places ≡ []) }
    {
        let table = Table::new(alloc);
        let first = Snapshot::of(&table);
        Shard {
            alloc,
            index,
            shards,
            ran: 0,
            intents: Intents::new(alloc),
            queue: TxQueue::new(alloc),
            waiting: Vec::new(alloc),
            table,
            pass,
            first,
        }
    }

    /// Lets the key hold the value before anything ran. Where there is no memory both come back.
    pub fn load(&mut self, key: Bin, value: Value) -> Result<(), (Bin, Value)>
        requires fresh { (self.old.pass.log ≡ []) × (self.old.places ≡ []) }
        requires own { shard_of key self.old.shards ≡ self.old.index }
        ensures first { OnOk result (self.new.first ≡ with_held self.old.first key (Some (seen value))) }
        ensures rest { self.new ≡ record self.old { first = self.new.first; keys = self.new.keys } }
        ensures same { OnErr result (self.new ≡ self.old) }
        ensures back { IfErr result (λ given. given ≡ (key, value)) }
    {
        if self.table.reserve(1).is_err() {
            return Err((key, value));
        }
        self.table.put(key, value);
        self.first = Snapshot::of(&self.table);
        Ok(())
    }

    /// Whether nobody waits.
    pub fn is_empty(&self) -> bool
        ensures { IsTrue result ↔ (self.now.places ≡ []) }
    {
        self.queue.is_empty()
    }

    /// Its pass, with what the shard leaves at its end.
    pub fn finish(self) -> ShardPass
        requires { self.places ≡ [] }
        ensures pass { result ≡ self.pass }
        ensures left { (K : Keyspace) → self.first ≡ own_keys self.shards self.index K → ShardLeft self.shards K result }
    {
        let Shard { pass, .. } = self;
        pass
    }

    /// Takes the ticket of a message.
    pub(crate) fn take_ticket(&mut self, book: &Book, ticket: Ticket)
        requires book { (self.old.pass.book ≡ book.now) × (ticket.book ≡ book.now) }
        ensures { Took self.old self.new ticket }
    {
        book.take_ticket(&mut self.pass, ticket);
    }
}
