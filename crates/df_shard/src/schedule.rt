//! A Schedule: a call asks for its keys and its place, and is taken or refused.

ghost use Rattle.std.specs.Prelude.{◌≡◌, ◌⊎◌, ℕ, ◌<◌, ◌≤◌, true, false, Some, IfNone, IfSome};
ghost use Rattle.df_model.specs.declared.keys.Keys.{Keys};
ghost use Rattle.df_footprints.specs.Footprints.{footprint_of};
ghost use Rattle.df_book.specs.Draws.{call_at, draws_of};
ghost use Rattle.df_txqueue.specs.Places.{is_queued};
ghost use Rattle.df_hops.specs.Said.{keys_said};
ghost use Rattle.df_hops.specs.Shown.{limit_said};
ghost use Rattle.df_shard.specs.Bodies.{is_plain, is_schedule, is_taken, limit_in};
ghost use Rattle.df_shard.specs.Came.{with_pass};
ghost use Rattle.df_shard.specs.Turns.{ComesLate};
ghost use Rattle.df_shard.specs.Holds.{tail_of};

use crate::queueing::{limit_for, queue_up};
use crate::shard::Shard;
use crate::waiting::{Armed, Waiting};
use df_book::Book;
use df_hops::{Answer, AnswerBody, Body, Message};
use df_model::{Keys, Reserved};
use df_txqueue::TxQueue;

/// An answer without a receipt.
pub(crate) fn plain_answer(conn: u32, shard: u32, number: u64, body: AnswerBody) -> Answer
    requires plain { is_plain body ≡ true }
    requires limit { number ≤ limit_said number body }
    ensures { (result.conn ≡ conn) × (result.shard ≡ shard) × (result.number ≡ number) × (result.body ≡ body) }
{
    Answer {
        conn,
        shard,
        number,
        hop: 0,
        body,
    }
}

/// The limit by which a call above all that ran is refused.
fn refusal(queue: &TxQueue, number: u64, is_free: bool) -> Option<u64>
    ensures none { IfNone result ((is_free ≡ true) ⊎ (tail_of queue.now.places ≤ number)) }
    ensures some { IfSome result (λ limit. (is_free ≡ false) × (number < limit) × (limit ≡ tail_of queue.now.places)) }
{
    if is_free {
        None
    } else {
        limit_for(queue, number)
    }
}

impl Shard {
    /// A Schedule: the call has its intents and its place, or is refused and has nothing.
    pub fn schedule(&mut self, book: &Book, m: Message) -> Answer
        requires book { (self.old.pass.book ≡ book.now) × (m.ticket.book ≡ book.now) }
        requires here { (m.shard ≡ self.old.index) × (is_schedule m.body ≡ true) }
        ensures book { self.new.pass.book ≡ book.now }
        ensures same { (self.new.index ≡ self.old.index) × (self.new.shards ≡ self.old.shards) × (self.new.first ≡ self.old.first) }
        ensures answered { (result.number ≡ m.number) × (result.shard ≡ m.shard) × (result.conn ≡ m.conn) }
        ensures plain { is_plain result.body ≡ true }
        // Refused by what ran, exactly.
        ensures ran { m.number ≤ self.old.ran → limit_in result.body ≡ Some self.old.ran }
        // Or by the tail, exactly where its keys are held and it would go in front of a call that waits.
        ensures tail { self.old.ran < m.number → (l : ℕ) → limit_in result.body ≡ Some l → (l ≡ tail_of self.old.places) × ((keys : Keys) → keys_said m.body ≡ Some keys → ComesLate self.old m.number keys) }
        ensures late { (keys : Keys) → keys_said m.body ≡ Some keys → ComesLate self.old m.number keys → limit_in result.body ≡ Some (tail_of self.old.places) }
        ensures taken { is_taken result.body ≡ true → is_queued m.number self.new.places ≡ true }
        ensures kept { is_taken result.body ≡ false → self.new ≡ with_pass self.old self.new.pass }
    {
        let Message {
            shard,
            conn,
            number,
            body,
            ticket,
        } = m;
        let Body::Schedule(keys) = body else {
            unreachable!()
        };
        self.take_ticket(book, ticket);
        let body = self.take_in(conn, number, Box::into_inner(keys));
        plain_answer(conn, shard, number, body)
    }

    fn take_in(&mut self, conn: u32, number: u64, keys: Keys) -> AnswerBody
        requires drawn { 0 < draws_of number self.old.pass.known }
        requires asks { footprint_of self.old.shards (call_at self.old.pass.known number) self.old.index ≡ Some keys }
        ensures plain { is_plain result ≡ true }
        ensures limit { number ≤ limit_said number result }
        ensures pass { self.new.pass ≡ self.old.pass }
        ensures same { (self.new.index ≡ self.old.index) × (self.new.shards ≡ self.old.shards) × (self.new.first ≡ self.old.first) }
        ensures ran { number ≤ self.old.ran → limit_in result ≡ Some self.old.ran }
        ensures tail { self.old.ran < number → (l : ℕ) → limit_in result ≡ Some l → (l ≡ tail_of self.old.places) × ComesLate self.old number keys }
        ensures late { ComesLate self.old number keys → limit_in result ≡ Some (tail_of self.old.places) }
        ensures taken { is_taken result ≡ true → is_queued number self.new.places ≡ true }
        ensures kept { is_taken result ≡ false → self.new ≡ self.old }
    {
        if number <= self.ran {
            let limit = self.ran;
            return AnswerBody::Refused { limit };
        }
        if self.queue.is_queued(number) {
            return AnswerBody::Taken;
        }
        let is_free = self.intents.is_free(&keys);
        if let Some(limit) = refusal(&self.queue, number, is_free) {
            return AnswerBody::Refused { limit };
        }
        let call = Waiting {
            number,
            conn,
            above: 0,
            armed: Armed::Nothing,
            staged: Reserved::new(self.alloc),
        };
        let queued = queue_up(
            &mut self.intents,
            &mut self.queue,
            &mut self.waiting,
            keys,
            call,
        );
        match queued {
            Ok(()) => AnswerBody::Taken,
            Err(_call) => AnswerBody::NoMemory,
        }
    }
}
