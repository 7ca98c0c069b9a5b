//! The end of a book.
ghost use Rattle.std.specs.Prelude.{◌≡◌, ◌≤◌, ℕ, [], ◌∷◌, length};
ghost use Rattle.df_book.specs.Weights.{Each, count};
ghost use Rattle.df_book.specs.Logs.{Within, at_log};
ghost use Rattle.df_book.specs.Draws.{IsDraw, Numbered};
ghost use Rattle.df_book.specs.Passes.{AllJoined};
ghost use Rattle.df_book.specs.Closed.{Settled};
ghost use Rattle.df_book.specs.Shown.{closed_of};
ghost use Rattle.df_book.specs.Steps.{EachJoined, SessionsOnce};
ghost use Rattle.df_book.specs.Taken.{TakesAll};

use crate::book::BookOf;
use crate::passes::{CallerPass, CallerPassOf, ShardPass, ShardPassOf};
use crate::rule::{Learn, Merge, Ruling, Settle, Tally};
use crate::view::{Said, View};
use atomic_table::Seat;
use std::marker::Model;

/// What is left of a book. Contracts see its logs and draws.
#[derive(Drop)]
pub struct Closed {
    seat: Seat<Said, View>,
}

impl Model for Closed {
    ghost use Rattle.df_book.specs.Closed.{Closed as Ended};

    ghost Value = { Ended };

    ghost use Rattle.std.specs.Coded.{codes};
    ghost use Rattle.df_model.specs.contracts.reply.Reply as reply;
    ghost use Rattle.df_model.specs.Values.{coded_value};
    ghost use Rattle.df_model.specs.Keyspace.{coded_keyspace};

    ghost coded = { Prim.hlevel (codes, reply.the_row.coded, coded_value, coded_keyspace) };

    ghost use Rattle.df_book.specs.Shown.{closed_of};

    ghost view = { λ p. closed_of p.seat.me.0 };
}

impl BookOf<Said, Ruling> {
    /// The greatest number that was drawn, or 0.
    pub fn last(&self, pass: &mut CallerPass) -> u64
        requires book { pass.old.book ≡ self.now }
        requires joined { AllJoined pass.old }
        ensures same { pass.new ≡ pass.old }
        ensures all { Numbered pass.old.own }
        ensures greatest { result ≡ length pass.old.own }
    {
        self.table.shared.load::<Tally>(&mut pass.seat, 0) - 1
    }

    // The first pass takes over a log.
    fn absorb(&self, first: &mut Seat<Said, View>, pass: ShardPass)
        requires book { (first.old.table_id ≡ self.now) × (pass.book ≡ self.now) }
        ensures book { first.new.table_id ≡ first.old.table_id }
        ensures slots { first.new.me.1 ≡ first.old.me.1 }
        ensures taken { TakesAll first.old.me.0 (pass ∷ []) first.new.me.0 }
    {
        let ShardPassOf { shard: _, seat } = pass;
        let shared = &self.table.shared;
        shared.join_seat::<Merge>(first, seat);
        shared.load::<Learn>(first, 0);
    }

    fn seal(self, mut first: Seat<Said, View>) -> Closed
        requires book { first.table_id ≡ self }
        requires slots { first.me.1 ≡ [] }
        requires joined { EachJoined first.me.0 }
        ensures view { result ≡ closed_of first.me.0 }
        ensures settled { Settled (closed_of first.me.0) }
        ensures sessions { SessionsOnce first.me.0 }
    {
        self.table.shared.load::<Settle>(&mut first, 0);
        let BookOf { table } = self;
        table.close().free();
        Closed { seat: first }
    }

    /// Joins the shards' passes into the first one, and gives the book's memory back. Tickets and receipts that are
    /// still out are copies, and change nothing.
    pub fn close(self, caller: CallerPass, shards: Vec<ShardPass>) -> Closed
        requires book { (caller.book ≡ self) × Each (λ p. p.book ≡ self) shards.items }
        requires joined { AllJoined caller }
        ensures draws { (result.draws ≡ caller.own) × (result.made ≡ caller.made) }
        ensures seen { Within caller.seen result.logs × Each (λ p. Within p.seen result.logs) shards.items }
        ensures whole { Each (λ p. at_log result.logs p.shard ≡ p.log) shards.items }
        ensures known { Each (λ p. Each (IsDraw result.draws) p.known) shards.items }
        ensures settled { Settled result }
        // Each place among the split passes is that of one of these.
        ensures sessions { (i : ℕ) → count i caller.sessions ≤ 1 }
    {
        let CallerPassOf {
            budget: _,
            mut seat,
        } = caller;
        for pass in shards {
            self.absorb(&mut seat, pass);
        }
        self.seal(seat)
    }
}
