//! Messages of any kind.

ghost use Rattle.std.specs.Prelude.{◌≡◌, ◌≢◌, ◌⊎◌, ℕ, ◌<◌, ◌≤◌, true, false, None, Some, is_some, IfNone, IfSome};
ghost use Rattle.df_model.specs.declared.command.Call.{Call};
ghost use Rattle.df_model.specs.declared.keys.Keys.{Keys};
ghost use Rattle.df_footprints.specs.Footprints.{only_key};
ghost use Rattle.df_txqueue.specs.Places.{is_queued, with_place};
ghost use Rattle.df_hops.specs.Said.{call_said, keys_said};
ghost use Rattle.df_hops.specs.Shown.{book_shown};
ghost use Rattle.df_hops.specs.declared.message.Body.TheVariants as bodies;
ghost use Rattle.df_shard.specs.Arming.{after_hop};
ghost use Rattle.df_shard.specs.Bodies.{is_hop, is_plain, is_quick, is_schedule, is_silent, is_unheard, limit_answered, limit_scheduled, was_passed, was_taken};
ghost use Rattle.df_shard.specs.Came.{with_pass};
ghost use Rattle.df_shard.specs.Holds.{place_for, tail_of};
ghost use Rattle.df_shard.specs.Leaving.{after_leave};
ghost use Rattle.df_shard.specs.Turns.{ComesLate, IsBehind};

use crate::schedule::plain_answer;
use crate::shard::Shard;
use df_book::Book;
use df_hops::{Answer, AnswerBody, Body, Message};

impl Shard {
    /// Serves a message. There is no answer yet to a Hop, nor to a Quick that waits; a Pull gets none, since no cut runs.
    /// What is sent to another shard changes nothing, as a Pull and a DropCut do.
    pub fn handle(&mut self, book: &Book, m: Message) -> Option<Answer>
        requires book { (self.old.pass.book ≡ book.now) × (m.ticket.book ≡ book.now) }
        ensures book { self.new.pass.book ≡ book.now }
        ensures same { (self.new.index ≡ self.old.index) × (self.new.shards ≡ self.old.shards) × (self.new.first ≡ self.old.first) }
        ensures answered { IfSome result (λ answer. (answer.number ≡ m.number) × (answer.shard ≡ m.shard) × (answer.conn ≡ m.conn)) }
        ensures receipt { IfSome result (λ answer. book_shown book.now answer.body ≡ book.now) }
        ensures astray { m.shard ≢ self.old.index → self.new ≡ self.old }
        ensures silent { is_silent m.body ≡ true → is_some result ≡ false }
        ensures none { IfNone result ((is_silent m.body ≡ true) ⊎ ((is_quick m.body ≡ true) × (self.new.places ≡ with_place (place_for m.number false) self.old.places))) }
        ensures hop { m.shard ≡ self.old.index → is_hop m.body ≡ true → self.new ≡ after_hop (with_pass self.old self.new.pass) m.number m.body }
        ensures cancel { m.shard ≡ self.old.index → m.body ≡ bodies.Cancel → self.new ≡ after_leave true (with_pass self.old self.new.pass) m.number }
        ensures conclude { m.shard ≡ self.old.index → m.body ≡ bodies.Conclude → self.new ≡ after_leave false (with_pass self.old self.new.pass) m.number }
        // No cut runs, so there is nothing to pull or drop.
        ensures pulled { m.shard ≡ self.old.index → (hop : ℕ) → m.body ≡ bodies.Pull hop → self.new ≡ self.old }
        ensures dropped { m.shard ≡ self.old.index → m.body ≡ bodies.DropCut → self.new ≡ self.old }
        // A call that was taken has its place, and one that was not, or a Quick that was passed, has nothing.
        ensures taken { m.shard ≡ self.old.index → is_schedule m.body ≡ true → was_taken result ≡ true → is_queued m.number self.new.places ≡ true }
        ensures kept { m.shard ≡ self.old.index → is_schedule m.body ≡ true → was_taken result ≡ false → self.new ≡ with_pass self.old self.new.pass }
        ensures passed { m.shard ≡ self.old.index → is_quick m.body ≡ true → was_passed result ≡ true → self.new ≡ with_pass self.old self.new.pass }
        // A Schedule and a Quick are refused by what ran, exactly.
        ensures ran { m.shard ≡ self.old.index → is_schedule m.body ≡ true → m.number ≤ self.old.ran → limit_scheduled result ≡ Some self.old.ran }
        ensures ran_quick { m.shard ≡ self.old.index → is_quick m.body ≡ true → m.number ≤ self.old.ran → limit_answered result ≡ Some self.old.ran }
        // Or by the greatest that waits, where their keys are held and they would go in front of it.
        ensures late { m.shard ≡ self.old.index → (keys : Keys) → keys_said m.body ≡ Some keys → ComesLate self.old m.number keys → limit_scheduled result ≡ Some (tail_of self.old.places) }
        ensures late_quick { m.shard ≡ self.old.index → (call : Call) → call_said m.body ≡ Some call → IsBehind self.old m.number call → (limit_answered result ≡ Some (tail_of self.old.places)) ⊎ ((only_key call ≡ None) × (is_unheard result ≡ true)) }
        ensures tail { m.shard ≡ self.old.index → is_schedule m.body ≡ true → self.old.ran < m.number → (l : ℕ) → limit_scheduled result ≡ Some l → (l ≡ tail_of self.old.places) × ((keys : Keys) → keys_said m.body ≡ Some keys → ComesLate self.old m.number keys) }
        ensures tail_quick { m.shard ≡ self.old.index → is_quick m.body ≡ true → self.old.ran < m.number → (l : ℕ) → limit_answered result ≡ Some l → (l ≡ tail_of self.old.places) × ((call : Call) → call_said m.body ≡ Some call → IsBehind self.old m.number call) }
    {
        if m.shard != self.index {
            return misled(m);
        }
        match m.body {
            Body::Schedule(_) => Some(self.schedule(book, m)),
            Body::Quick(_, _, _) => self.quick(book, m),
            Body::Hop(_, _) => {
                self.hop(book, m);
                None
            }
            Body::Cancel => Some(self.cancel(book, m)),
            Body::Conclude => Some(self.conclude(book, m)),
            Body::Pull(_) => misled(m),
            Body::DropCut => misled(m),
        }
    }
}

/// What is answered where nothing was done.
fn misled(m: Message) -> Option<Answer>
    ensures answered { IfSome result (λ answer. (answer.number ≡ m.number) × (answer.shard ≡ m.shard) × (answer.conn ≡ m.conn)) }
    ensures plain { IfSome result (λ answer. is_plain answer.body ≡ true) }
    ensures silent { is_silent m.body ≡ true → is_some result ≡ false }
    ensures none { IfNone result (is_silent m.body ≡ true) }
{
    match m.body {
        Body::Hop(_, _) => None,
        Body::Pull(_) => None,
        Body::Schedule(_) => freed(m),
        Body::Quick(_, _, _) => freed(m),
        Body::Cancel => freed(m),
        Body::Conclude => freed(m),
        Body::DropCut => freed(m),
    }
}

fn freed(m: Message) -> Option<Answer>
    ensures answered { IfSome result (λ answer. (answer.number ≡ m.number) × (answer.shard ≡ m.shard) × (answer.conn ≡ m.conn)) }
    ensures plain { IfSome result (λ answer. is_plain answer.body ≡ true) }
    ensures some { is_some result ≡ true }
{
    Some(plain_answer(m.conn, m.shard, m.number, AnswerBody::Freed))
}
