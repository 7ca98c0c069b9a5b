//! What a shard does with its log.
ghost use Rattle.std.specs.Prelude.{◌≡◌, ◌<◌};
ghost use Rattle.df_book.specs.Logs.{BothSeen, HasRoom, IsFresh, IsPrefix, at_log};
ghost use Rattle.df_book.specs.Draws.{Agreed, draws_of};
ghost use Rattle.df_book.specs.Passes.{after_entry, after_ticket, met, receipt_of};

use crate::book::BookOf;
use crate::passes::{Receipt, ReceiptOf, ShardPass, Ticket, TicketOf};
use crate::rule::{CutReceipt, EnterEntry, Learn, Merge, NoteSaid, Ruling};
use crate::view::Said;
use crate::witness::Witness;
use df_log::Entry;

impl BookOf<Said, Ruling> {
    /// The shard then knows what the ticket's caller had drawn and seen, and counts a running ticket for its number.
    pub fn take_ticket(&self, pass: &mut ShardPass, ticket: Ticket)
        requires book { (pass.old.book ≡ self.now) × (ticket.book ≡ pass.old.book) }
        ensures taken { pass.new ≡ after_ticket pass.old ticket pass.new.seen }
        ensures seen { BothSeen pass.old.seen ticket.seen pass.new.seen }
        // Of its own log nobody has seen more than there is.
        ensures own { at_log pass.new.seen pass.new.shard ≡ pass.new.log }
        ensures agreed { Agreed pass.new.known }
    {
        let TicketOf { seat } = ticket;
        let shared = &self.table.shared;
        shared.join_seat::<Merge>(&mut pass.seat, seat);
        shared.load::<Learn>(&mut pass.seat, 0);
    }

    /// The log grows by the entry, of which a receipt comes back.
    pub fn enter(&self, pass: &mut ShardPass, entry: Entry) -> Receipt
        requires book { pass.old.book ≡ self.now }
        requires drawn { 0 < draws_of entry.number pass.old.known }
        requires running { HasRoom pass.old.log pass.old.counted entry }
        requires fresh { IsFresh pass.old.log entry }
        ensures grown { pass.new ≡ after_entry pass.old entry }
        ensures receipt { result ≡ receipt_of pass.new }
    {
        let shared = &self.table.shared;
        let said = Said::Entry(Witness::of(&entry));
        shared.compare_exchange_with::<NoteSaid>(&mut pass.seat, 0, 0, 0, &said);
        shared.fetch_add::<EnterEntry>(&mut pass.seat, pass.shard as usize + 1, 1);
        self.show(pass)
    }

    /// A receipt of the log so far.
    pub fn show(&self, pass: &mut ShardPass) -> Receipt
        requires book { pass.old.book ≡ self.now }
        ensures same { pass.new ≡ pass.old }
        ensures receipt { result ≡ receipt_of pass.old }
    {
        let seat = self.table.shared.split_seat::<CutReceipt>(&mut pass.seat);
        ReceiptOf { seat }
    }

    /// Of two receipts of one log, the first then shows the longer.
    pub fn meet(&self, into: &mut Receipt, from: Receipt)
        requires book { (into.old.book ≡ self.now) × (from.book ≡ into.old.book) }
        requires shard { from.shard ≡ into.old.shard }
        ensures met { into.new ≡ met into.old from into.new.seen }
        ensures seen { BothSeen into.old.seen from.seen into.new.seen }
        ensures prefix { IsPrefix into.old.log into.new.log × IsPrefix from.log into.new.log }
    {
        let ReceiptOf { seat } = from;
        let shared = &self.table.shared;
        shared.join_seat::<Merge>(&mut into.seat, seat);
        shared.load::<Learn>(&mut into.seat, 0);
    }
}
