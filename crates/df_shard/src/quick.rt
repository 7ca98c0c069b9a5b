//! A Quick: all of a call that has one hop, on this shard. It runs at once, is passed, or waits and is answered later.

ghost use Rattle.std.specs.Prelude.{◌≡◌, ◌⊎◌, ℕ, ◌<◌, ◌≤◌, true, false, None, Some, IfErr, IfNone, IfSome, OnErr, OnOk, OnSome};
ghost use Rattle.df_model.specs.declared.command.Call.{Call};
ghost use Rattle.df_footprints.specs.Footprints.{only_key};
ghost use Rattle.df_txqueue.specs.Places.{with_place};
ghost use Rattle.df_hops.specs.Said.{call_said};
ghost use Rattle.df_hops.specs.Shown.{book_shown, limit_of};
ghost use Rattle.df_hops.specs.declared.answer.Why.TheVariants as whys;
ghost use Rattle.df_shard.specs.Bodies.{is_quick, is_unheard, limit_answered, was_passed, why_in};
ghost use Rattle.df_shard.specs.Came.{Brought, with_pass};
ghost use Rattle.df_shard.specs.Turns.{IsBehind, IsFree, IsLast, MayStart};
ghost use Rattle.df_shard.specs.Holds.{place_for, tail_of};

use crate::asked::{Asked, Turn};
use crate::entries::passed;
use crate::queueing::queue_up;
use crate::running::{ran_body, run_call};
use crate::shard::Shard;
use crate::waiting::{Armed, Waiting};
use df_book::{Book, Witness};
use df_caller::Slip;
use df_hops::{Answer, AnswerBody, Message, Why};
use df_model::{Keys, Reserved};

impl Shard {
    /// A Quick: it runs at once, is passed, or waits and is answered later.
    pub fn quick(&mut self, book: &Book, m: Message) -> Option<Answer>
        requires book { (self.old.pass.book ≡ book.now) × (m.ticket.book ≡ book.now) }
        requires here { (m.shard ≡ self.old.index) × (is_quick m.body ≡ true) }
        ensures book { self.new.pass.book ≡ book.now }
        ensures same { (self.new.index ≡ self.old.index) × (self.new.shards ≡ self.old.shards) × (self.new.first ≡ self.old.first) }
        ensures answered { IfSome result (λ answer. (answer.number ≡ m.number) × (answer.shard ≡ m.shard) × (answer.conn ≡ m.conn)) }
        ensures receipt { IfSome result (λ answer. book_shown book.now answer.body ≡ book.now) }
        // Refused by what ran, exactly.
        ensures ran { m.number ≤ self.old.ran → limit_answered result ≡ Some self.old.ran }
        // Or by the tail, only where its keys are held and it would go in front of a call that waits.
        ensures tail { self.old.ran < m.number → (l : ℕ) → limit_answered result ≡ Some l → (l ≡ tail_of self.old.places) × ((call : Call) → call_said m.body ≡ Some call → IsBehind self.old m.number call) }
        // Then it is refused, but where the list of a call's several keys finds no memory.
        ensures late { (call : Call) → call_said m.body ≡ Some call → IsBehind self.old m.number call → (limit_answered result ≡ Some (tail_of self.old.places)) ⊎ ((only_key call ≡ None) × (is_unheard result ≡ true)) }
        ensures passed { was_passed result ≡ true → self.new ≡ with_pass self.old self.new.pass }
        ensures waits { IfNone result (self.new.places ≡ with_place (place_for m.number false) self.old.places) }
    {
        let asked = self.receive(book, m);
        match self.turn(&asked) {
            Turn::Now => Some(self.run_now(book, asked)),
            Turn::Never(why) => Some(self.pass_by(book, asked, why)),
            Turn::Later(keys) => self.wait(book, asked, keys),
        }
    }

    fn run_now(&mut self, book: &Book, asked: Asked) -> Answer
        requires book { self.old.pass.book ≡ book.now }
        requires brought { Brought self.old asked.number asked.hop asked.slip.value.call }
        requires above { MayStart self.old asked.number }
        requires free { IsFree self.old asked.slip.value.call }
        ensures book { self.new.pass.book ≡ book.now }
        ensures same { (self.new.index ≡ self.old.index) × (self.new.shards ≡ self.old.shards) × (self.new.first ≡ self.old.first) }
        ensures answered { (result.number ≡ asked.number) × (result.shard ≡ self.old.index) × (result.conn ≡ asked.conn) }
        ensures receipt { book_shown book.now result.body ≡ book.now }
        ensures body { why_in result.body ≡ None }
    {
        let Asked {
            conn,
            number,
            hop,
            hash: _,
            slip,
        } = asked;
        let mut slip = slip;
        let keys = Witness::of(&self.table);
        let (entry, is_said) = run_call(self.alloc, &mut self.table, number, hop, &mut slip);
        self.ran = number;
        let receipt = book.enter(&mut self.pass, entry);
        Answer {
            conn,
            shard: self.index,
            number,
            hop: hop as u64,
            body: ran_body(is_said, slip, receipt, keys),
        }
    }

    fn pass_by(&mut self, book: &Book, asked: Asked, why: Why) -> Answer
        requires book { self.old.pass.book ≡ book.now }
        requires brought { Brought self.old asked.number asked.hop asked.slip.value.call }
        requires limit { asked.number ≤ limit_of asked.number why }
        ensures book { self.new.pass.book ≡ book.now }
        ensures pass { self.new ≡ with_pass self.old self.new.pass }
        ensures answered { (result.number ≡ asked.number) × (result.shard ≡ self.old.index) × (result.conn ≡ asked.conn) }
        ensures receipt { book_shown book.now result.body ≡ book.now }
        ensures body { why_in result.body ≡ Some why }
    {
        let Asked {
            conn,
            number,
            hop,
            hash: _,
            slip,
        } = asked;
        let receipt = book.enter(&mut self.pass, passed(number, why));
        Answer {
            conn,
            shard: self.index,
            number,
            hop: hop as u64,
            body: AnswerBody::Passed { why, slip, receipt },
        }
    }

    fn wait(&mut self, book: &Book, asked: Asked, keys: Keys) -> Option<Answer>
        requires book { self.old.pass.book ≡ book.now }
        requires brought { Brought self.old asked.number asked.hop asked.slip.value.call }
        requires turn { IsLast self.old asked.number asked.slip.value.call keys }
        ensures book { self.new.pass.book ≡ book.now }
        ensures same { (self.new.index ≡ self.old.index) × (self.new.shards ≡ self.old.shards) × (self.new.first ≡ self.old.first) }
        ensures answered { IfSome result (λ answer. (answer.number ≡ asked.number) × (answer.shard ≡ self.old.index) × (answer.conn ≡ asked.conn) × (why_in answer.body ≡ Some whys.NoMemory)) }
        ensures receipt { IfSome result (λ answer. book_shown book.now answer.body ≡ book.now) }
        ensures passed { OnSome result (self.new ≡ with_pass self.old self.new.pass) }
        ensures waits { IfNone result (self.new.places ≡ with_place (place_for asked.number false) self.old.places) }
    {
        let Asked {
            conn,
            number,
            hop,
            hash,
            slip,
        } = asked;
        let queued = self.queue_quick(conn, number, hop, slip, keys);
        let Err(slip) = queued else {
            return None;
        };
        let asked = Asked {
            conn,
            number,
            hop,
            hash,
            slip,
        };
        Some(self.pass_by(book, asked, Why::NoMemory))
    }

    fn queue_quick(
        &mut self,
        conn: u32,
        number: u64,
        hop: u32,
        slip: Box<Slip>,
        keys: Keys,
    ) -> Result<(), Box<Slip>>
        requires brought { Brought self.old number hop slip.value.call }
        requires turn { IsLast self.old number slip.value.call keys }
        ensures same { (self.new.pass ≡ self.old.pass) × (self.new.index ≡ self.old.index) × (self.new.shards ≡ self.old.shards) × (self.new.first ≡ self.old.first) }
        ensures waits { OnOk result (self.new.places ≡ with_place (place_for number false) self.old.places) }
        ensures back { IfErr result (λ given. given ≡ slip) }
        ensures kept { OnErr result (self.new ≡ self.old) }
    {
        let call = Waiting {
            number,
            conn,
            above: 0,
            armed: Armed::Quick(hop, slip),
            staged: Reserved::new(self.alloc),
        };
        let queued = queue_up(
            &mut self.intents,
            &mut self.queue,
            &mut self.waiting,
            keys,
            call,
        );
        match queued {
            Ok(()) => Ok(()),
            Err(call) => {
                let Waiting { armed, .. } = call;
                match armed {
                    Armed::Quick(_, slip) => Err(slip),
                    Armed::Nothing | Armed::Hop(_, _) => unreachable!(),
                }
            }
        }
    }
}
