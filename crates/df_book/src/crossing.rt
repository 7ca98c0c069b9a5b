//! What goes to other threads: the book by reference, passes, tickets, receipts and witnesses by value. A lost `Send` or
//! `Sync` shows here at once, and not at the first thread above.
use crate::book::Book;
use crate::passes::{CallerPass, Receipt, ShardPass, Ticket};
use crate::witness::Witness;
use df_model::Call;

fn is_send<T: Send>(_: &T) {}

fn is_sync<T: Sync>(_: &T) {}

fn cross(book: &Book, caller: &CallerPass, shard: &ShardPass) {
    is_sync(book);
    is_send(book);
    is_send(caller);
    is_send(shard);
}

fn cross_shown(ticket: &Ticket, receipt: &Receipt, witness: &Witness<Call>) {
    is_send(ticket);
    is_send(receipt);
    is_send(witness);
}
