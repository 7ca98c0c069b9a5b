//! A book: one counter, from which callers draw numbers, and a log for each shard and for the place of saves.
//!
//! The counter is word 0 of a table of words, and word i + 1 is the length of log i. What callers and shards know is
//! no word: it stands in the views of the table's seats, which only contracts see. Each step of a seat keeps one rule
//! over all views, and each fact that a call tells follows from it.
//!
//! The first pass counts all numbers that may be drawn. Passes for callers are split from it and joined into it again.
//! A caller shows a shard what it drew and saw by a ticket, and the shard shows its log by a receipt.
ghost use Rattle.std.specs.Prelude.{◌≡◌, ◌+◌, ◌<◌, ◌≤◌, ◌^◌, ℕ, length, true, false};
ghost use Rattle.df_book.specs.Weights.{Each, count};
ghost use Rattle.df_book.specs.Logs.{AllBelow, BothSeen, at_log};
ghost use Rattle.df_book.specs.Draws.{Bounded, OwnAgreed};
ghost use Rattle.df_book.specs.Passes.{after_draw, after_receipt, after_running, after_split, joined, running_of, split_off, ticket_of};

use crate::passes::{CallerPass, CallerPassOf, Receipt, ReceiptOf, Ticket, TicketOf};
use crate::rule::{
    CutCaller, CutRunning, CutTicket, DrawNumber, Learn, Merge, NoteCut, NoteSaid, Ruling, Sizes,
};
use crate::view::{Said, View};
use crate::witness::Witness;
use atomic_table::{Table, TableRule};
use df_model::Call;
use std::alloc::Global;
use std::marker::Model;

/// The book, which threads share by reference. Contracts see which book it is.
#[derive(Drop)]
pub struct BookOf<S, P: TableRule<S, View, Sizes>> {
    pub(crate) table: Table<S, View, Sizes, P, Global>,
}

impl<S, P: TableRule<S, View, Sizes>> Model for BookOf<S, P> {
    ghost use Rattle.std.specs.Prelude.{◌≡◌, suc};
    ghost use Rattle.df_book.specs.Passes.{BookName};

    ghost Value = { BookName };

    ghost view = { λ b. b.table.shared.table_id };

    ghost invariant = { λ b. (b.table.shared.table_id.slots ≡ 0) × (b.table.shared.table_id.words ≡ suc (suc b.table.shared.key.shards)) };
}

pub type Book = BookOf<Said, Ruling>;

impl BookOf<Said, Ruling> {
    /// How many numbers the pass may still draw.
    pub fn left(&self, pass: &CallerPass) -> u64
        ensures { result ≡ pass.now.budget }
    {
        pass.budget
    }

    /// Splits off a pass with so many draws.
    pub fn split(&self, from: &mut CallerPass, draws: u64) -> CallerPass
        requires book { from.old.book ≡ self.now }
        requires first { (from.old.first ≡ 1) × (draws ≤ from.old.budget) }
        ensures left { from.new ≡ after_split from.old draws }
        ensures given { result ≡ split_off from.old draws }
    {
        let shared = &self.table.shared;
        shared.compare_exchange::<NoteCut>(&mut from.seat, 0, draws, draws);
        let seat = shared.split_seat::<CutCaller>(&mut from.seat);
        from.budget -= draws;
        CallerPassOf {
            budget: draws,
            seat,
        }
    }

    /// Draws the next number, for this call. It is above every number in what the caller has seen, in notes too.
    pub fn draw(&self, pass: &mut CallerPass, call: &Call) -> u64
        requires book { pass.old.book ≡ self.now }
        requires caller { (pass.old.first ≡ 0) × (0 < pass.old.budget) }
        ensures above_seen { AllBelow result pass.old.seen }
        ensures above_own { Each (λ d. d.number < result) pass.old.own }
        ensures range { (0 < result) × (result < 2 ^ 63) }
        // No running ticket of it was made.
        ensures fresh { count result pass.old.made ≡ 0 }
        ensures drawn { pass.new ≡ after_draw pass.old call.now result }
    {
        let shared = &self.table.shared;
        let said = Said::Call(Witness::of(call));
        shared.compare_exchange_with::<NoteSaid>(&mut pass.seat, 0, 0, 0, &said);
        pass.budget -= 1;
        shared.fetch_add::<DrawNumber>(&mut pass.seat, 0, 1)
    }

    /// A copy of what the caller has drawn and seen. Where it is a running ticket, it is one of the last number drawn.
    pub fn ticket(&self, pass: &mut CallerPass, runs: bool) -> Ticket
        requires book { pass.old.book ≡ self.now }
        requires drawn { 0 < length pass.old.own }
        ensures plain { runs ≡ false → (pass.new ≡ pass.old) × (result ≡ ticket_of pass.old) }
        ensures running { runs ≡ true → (pass.new ≡ after_running pass.old) × (result ≡ running_of pass.old) }
    {
        let shared = &self.table.shared;
        if runs {
            let seat = shared.split_seat::<CutRunning>(&mut pass.seat);
            TicketOf { seat }
        } else {
            let seat = shared.split_seat::<CutTicket>(&mut pass.seat);
            TicketOf { seat }
        }
    }

    /// The caller has then seen the log of the receipt, or more of it, and of each other log what the shard had seen.
    pub fn take_receipt(&self, pass: &mut CallerPass, receipt: Receipt)
        requires book { (pass.old.book ≡ self.now) × (receipt.book ≡ pass.old.book) }
        ensures taken { pass.new ≡ after_receipt pass.old receipt pass.new.seen }
        ensures seen { BothSeen pass.old.seen receipt.seen pass.new.seen }
        ensures shown { at_log receipt.seen receipt.shard ≡ receipt.log }
        // So its calls have no entries but those that it made running tickets for.
        ensures bounded { Bounded pass.new.own pass.new.made pass.new.seen }
        ensures agreed { OwnAgreed pass.new.own pass.new.known }
    {
        let ReceiptOf { seat } = receipt;
        let shared = &self.table.shared;
        shared.join_seat::<Merge>(&mut pass.seat, seat);
        shared.load::<Learn>(&mut pass.seat, 0);
    }

    /// Gives all of one pass to another.
    pub fn join(&self, into: &mut CallerPass, from: CallerPass)
        requires book { (into.old.book ≡ self.now) × (from.book ≡ into.old.book) }
        requires split { from.first ≡ 0 }
        ensures both { into.new ≡ joined into.old from into.new.seen }
        ensures seen { BothSeen into.old.seen from.seen into.new.seen }
        ensures bounded { Bounded into.new.own into.new.made into.new.seen }
        ensures agreed { OwnAgreed into.new.own into.new.known }
    {
        let CallerPassOf { budget, seat } = from;
        let shared = &self.table.shared;
        shared.join_seat::<Merge>(&mut into.seat, seat);
        shared.load::<Learn>(&mut into.seat, 0);
        into.budget += budget;
    }
}
