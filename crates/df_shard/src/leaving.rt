//! Cancel and Conclude: a call gives up its place, its intents and what is armed of it. They take no memory.

ghost use Rattle.std.specs.Prelude.{◌≡◌, ◌==◌, [], true, false, not, map};
ghost use Rattle.std.specs.List.{filter};
ghost use Rattle.df_intents.specs.Holders as holders;
ghost use Rattle.df_hops.specs.declared.message.Body.TheVariants as bodies;
ghost use Rattle.df_hops.specs.declared.answer.AnswerBody.TheVariants as answers;
ghost use Rattle.df_shard.specs.Bodies.{is_plain};
ghost use Rattle.df_shard.specs.Holds.{staged_at, wait_at, wait_of};
ghost use Rattle.df_shard.specs.Leaving.{after_leave, may_leave};
ghost use Rattle.df_shard.specs.Changes.{left, waiting_without};
ghost use Rattle.df_shard.specs.Came.{with_pass};

use crate::schedule::plain_answer;
use crate::shard::Shard;
use crate::waiting::{Waiting, find};
use df_book::Book;
use df_hops::{Answer, AnswerBody, Message};
use df_intents::Intents;

fn release(intents: &mut Intents, number: u64)
    ensures { intents.new.holders ≡ holders.without number intents.old.holders }
{
    if intents.holds(number) {
        let _keys = intents.release(number);
    }
}

fn forget(waiting: &mut Vec<Waiting>, number: u64)
    ensures { map wait_of waiting.new.items ≡ waiting_without number (map wait_of waiting.old.items) }
{
    waiting.retain(|w| w.number != number);
}

impl Shard {
    /// A call that ran nothing lets go. One that isn't here or ran a hop here, of which no caller sends this, stays as it is.
    pub fn cancel(&mut self, book: &Book, m: Message) -> Answer
        requires book { (self.old.pass.book ≡ book.now) × (m.ticket.book ≡ book.now) }
        requires here { (m.shard ≡ self.old.index) × (m.body ≡ bodies.Cancel) }
        ensures book { self.new.pass.book ≡ book.now }
        ensures left { self.new ≡ after_leave true (with_pass self.old self.new.pass) m.number }
        ensures answered { (result.number ≡ m.number) × (result.shard ≡ m.shard) × (result.conn ≡ m.conn) }
        ensures freed { result.body ≡ answers.Freed }
        ensures plain { is_plain result.body ≡ true }
    {
        self.let_go(book, m, true)
    }

    /// A call that is done lets go. One that isn't here or has changes staged, of which no caller sends this, stays as it
    /// is.
    pub fn conclude(&mut self, book: &Book, m: Message) -> Answer
        requires book { (self.old.pass.book ≡ book.now) × (m.ticket.book ≡ book.now) }
        requires here { (m.shard ≡ self.old.index) × (m.body ≡ bodies.Conclude) }
        ensures book { self.new.pass.book ≡ book.now }
        ensures left { self.new ≡ after_leave false (with_pass self.old self.new.pass) m.number }
        ensures answered { (result.number ≡ m.number) × (result.shard ≡ m.shard) × (result.conn ≡ m.conn) }
        ensures freed { result.body ≡ answers.Freed }
        ensures plain { is_plain result.body ≡ true }
    {
        self.let_go(book, m, false)
    }

    fn let_go(&mut self, book: &Book, m: Message, gives_up: bool) -> Answer
        requires book { (self.old.pass.book ≡ book.now) × (m.ticket.book ≡ book.now) }
        requires here { m.shard ≡ self.old.index }
        ensures book { self.new.pass.book ≡ book.now }
        ensures left { self.new ≡ after_leave gives_up (with_pass self.old self.new.pass) m.number }
        ensures answered { (result.number ≡ m.number) × (result.shard ≡ m.shard) × (result.conn ≡ m.conn) }
        ensures freed { result.body ≡ answers.Freed }
    {
        let Message {
            shard,
            conn,
            number,
            body: _,
            ticket,
        } = m;
        self.take_ticket(book, ticket);
        self.leave_if(number, gives_up);
        plain_answer(conn, shard, number, AnswerBody::Freed)
    }

    fn leave_if(&mut self, number: u64, gives_up: bool)
        ensures { self.new ≡ after_leave gives_up self.old number }
    {
        if may_leave(&self.waiting, number, gives_up) {
            self.leave(number);
        }
    }

    pub(crate) fn leave(&mut self, number: u64)
        requires bare { staged_at number self.old.waiting ≡ [] }
        ensures { self.new ≡ left self.old number }
    {
        release(&mut self.intents, number);
        let _place = self.queue.remove(number);
        forget(&mut self.waiting, number);
    }
}

fn may_leave(waiting: &Vec<Waiting>, number: u64, gives_up: bool) -> bool
    ensures { result ≡ may_leave gives_up (wait_at number (map wait_of waiting.now.items)) }
{
    let Some(at) = find(waiting, number) else {
        return false;
    };
    let call = &waiting[at];
    call.staged.len() == 0 && (!gives_up || call.above == 0)
}
