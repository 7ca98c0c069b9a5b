//! What threads hold of a book. None of it can be copied, and a ticket or a receipt has no bytes.
//!
//! Each is generic in what the table's slots hold, which is always `Said`: so the check finds by itself that it may
//! go to another thread.
use crate::view::{Said, View};
use atomic_table::Seat;
use std::marker::Model;

/// A caller's pass: one that was split from the book's first pass, or that first pass itself.
#[derive(Drop)]
pub struct CallerPassOf<S> {
    pub(crate) budget: u64,
    pub(crate) seat: Seat<S, View>,
}

impl<S> Model for CallerPassOf<S> {
    ghost use Rattle.std.specs.Prelude.{◌≡◌, []};
    ghost use Rattle.df_book.specs.Passes.{Caller};
    ghost use Rattle.df_book.specs.declared.view.Note.TheVariants.{Nothing};

    ghost Value = { Caller };

    ghost use Rattle.std.specs.Coded.{codes};
    ghost use Rattle.df_model.specs.contracts.reply.Reply as reply;
    ghost use Rattle.df_model.specs.Values.{coded_value};
    ghost use Rattle.df_model.specs.Keyspace.{coded_keyspace};

    ghost coded = { Prim.hlevel (codes, reply.the_row.coded, coded_value, coded_keyspace) };

    ghost use Rattle.df_book.specs.Shown.{caller_of};

    ghost view = { λ p. caller_of p.seat.table_id p.seat.me.0 };

    ghost invariant = { λ p. (p.seat.me.1 ≡ []) × (p.seat.me.0.note ≡ Nothing) × (p.budget ≡ p.seat.me.0.budget) };
}

/// A shard's pass, which alone lengthens the shard's log.
#[derive(Drop)]
pub struct ShardPassOf<S> {
    pub(crate) shard: u32,
    pub(crate) seat: Seat<S, View>,
}

impl<S> Model for ShardPassOf<S> {
    ghost use Rattle.std.specs.Prelude.{◌≡◌, ◌+◌, ◌<◌, [], ◌∷◌};
    ghost use Rattle.df_book.specs.Passes.{Shard};
    ghost use Rattle.df_book.specs.Weights.{Each};
    ghost use Rattle.df_book.specs.declared.view.Note.TheVariants.{Nothing};

    ghost Value = { Shard };

    ghost use Rattle.std.specs.Coded.{codes};
    ghost use Rattle.df_model.specs.contracts.reply.Reply as reply;
    ghost use Rattle.df_model.specs.Values.{coded_value};
    ghost use Rattle.df_model.specs.Keyspace.{coded_keyspace};

    ghost coded = { Prim.hlevel (codes, reply.the_row.coded, coded_value, coded_keyspace) };

    ghost use Rattle.df_book.specs.Shown.{shard_seen};

    ghost view = { λ p. shard_seen p.seat.table_id p.shard p.seat.me.0 };

    ghost invariant = { λ p. (p.seat.me.1 ≡ []) × (p.seat.me.0.note ≡ Nothing) × (p.seat.me.0.first ≡ 0) × (p.seat.me.0.owns ≡ p.shard ∷ []) × (p.shard + 1 < p.seat.table_id.words) × (p.seat.me.0.own ≡ []) × (p.seat.me.0.made ≡ []) × Each (λ c. c.0 ≡ p.shard) p.seat.me.0.counted };
}

/// A copy of what a caller has drawn and seen, for a shard. A running ticket is also the right to one entry.
#[derive(Drop)]
pub struct TicketOf<S> {
    pub(crate) seat: Seat<S, View>,
}

impl<S> Model for TicketOf<S> {
    ghost use Rattle.std.specs.Prelude.{◌≡◌, []};
    ghost use Rattle.df_book.specs.Passes.{Ticket};

    ghost Value = { Ticket };

    ghost use Rattle.std.specs.Coded.{codes};
    ghost use Rattle.df_model.specs.contracts.reply.Reply as reply;
    ghost use Rattle.df_model.specs.Values.{coded_value};
    ghost use Rattle.df_model.specs.Keyspace.{coded_keyspace};

    ghost coded = { Prim.hlevel (codes, reply.the_row.coded, coded_value, coded_keyspace) };

    ghost use Rattle.df_book.specs.Shown.{ticket_seen};

    ghost view = { λ p. ticket_seen p.seat.table_id p.seat.me.0 };

    ghost invariant = { λ p. (p.seat.me.1 ≡ []) × (p.seat.me.0.first ≡ 0) × (p.seat.me.0.owns ≡ []) × (p.seat.me.0.own ≡ []) × (p.seat.me.0.made ≡ []) × (p.seat.me.0.counted ≡ []) };
}

/// A copy of a shard's log and of what the shard had seen, for a caller.
#[derive(Drop)]
pub struct ReceiptOf<S> {
    pub(crate) seat: Seat<S, View>,
}

impl<S> Model for ReceiptOf<S> {
    ghost use Rattle.std.specs.Prelude.{◌≡◌, []};
    ghost use Rattle.df_book.specs.Passes.{Receipt};

    ghost Value = { Receipt };

    ghost use Rattle.std.specs.Coded.{codes};
    ghost use Rattle.df_model.specs.contracts.reply.Reply as reply;
    ghost use Rattle.df_model.specs.Values.{coded_value};
    ghost use Rattle.df_model.specs.Keyspace.{coded_keyspace};

    ghost coded = { Prim.hlevel (codes, reply.the_row.coded, coded_value, coded_keyspace) };

    ghost use Rattle.df_book.specs.Shown.{receipt_seen};

    ghost view = { λ p. receipt_seen p.seat.table_id p.seat.me.0 };

    ghost invariant = { λ p. (p.seat.me.1 ≡ []) × (p.seat.me.0.first ≡ 0) × (p.seat.me.0.owns ≡ []) × (p.seat.me.0.own ≡ []) × (p.seat.me.0.made ≡ []) × (p.seat.me.0.budget ≡ 0) × (p.seat.me.0.sessions ≡ []) };
}

pub type CallerPass = CallerPassOf<Said>;

pub type ShardPass = ShardPassOf<Said>;

pub type Ticket = TicketOf<Said>;

pub type Receipt = ReceiptOf<Said>;
