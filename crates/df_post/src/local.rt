//! A post in one thread: a way to each shard, from which whoever serves the shards takes messages and puts answers.

ghost use Rattle.std.specs.Prelude.{◌≡◌, ◌<◌, true, false, not, is_some, None, Some, IfErr, IfNone, IfOk, IfSome, OnErr, OnOk, OnSome, length};
ghost use Rattle.df_hops.specs.Shown.{book_shown};
ghost use Rattle.df_post.specs.Postings.{Sent, Stalled, Took, awaits_at, shards_of};
ghost use Rattle.df_post.specs.Ways.{WaySent, WayTook, fits_there};
ghost use Rattle.df_post.specs.Locals.{ChangedAt, bare_ways, posting_of, way_at};

use crate::post::Post;
use crate::way::Way;
use df_book::{Book, Witness};
use df_hops::{Answer, Message};
use df_model::NoMemory;
use std::alloc::Global;
use std::marker::Model;

/// Room for one message to each shard and for one answer back.
#[derive(Drop)]
pub struct LocalPost {
    /// Whose messages go here, for clauses alone.
    book: Witness<Book>,
    ways: Vec<Way>,
    stalls: u64,
}

impl Model for LocalPost {
    ghost use Rattle.df_post.specs.Locals.{LocalView};

    ghost Value = { LocalView };

    ghost use Rattle.df_post.specs.Locals.{IsKept, local_of};

    ghost view = { local_of };

    ghost invariant = { IsKept };
}

impl LocalPost {
    /// A post for shards 0 to `shards` - 1 of this book. Its memory is taken here, and no call takes more.
    pub fn new(alloc: Global, book: &Book, shards: u32) -> Result<LocalPost, NoMemory>
        ensures book { IfOk result (λ post. post.book ≡ book.now) }
        ensures ways { IfOk result (λ post. post.ways ≡ bare_ways book.now 0 shards) }
    {
        let ways = new_ways(alloc, book, shards)?;
        Ok(LocalPost {
            book: Witness::of(book),
            ways,
            stalls: 0,
        })
    }

    /// Takes out the message that lies on the way to the shard. None exactly where none does.
    pub fn message(&mut self, shard: u32) -> Option<Message>
        requires there { shard < length self.old.ways }
        ensures message { IfSome result (λ m. (m.shard ≡ shard) × (m.ticket.book ≡ self.old.book)) }
        ensures some { OnSome result ((way_at shard self.old).sent ≡ true) }
        ensures none { IfNone result ((way_at shard self.old).sent ≡ false) }
        ensures changed { ChangedAt shard self.old self.new × (self.new.stalls ≡ self.old.stalls) }
        ensures after { way_at shard self.new ≡ record (way_at shard self.old) { sent = false } }
        ensures posting { posting_of self.new ≡ posting_of self.old }
    {
        self.ways[shard as usize].message()
    }

    /// Puts an answer on the way back from the shard. Err exactly where one lies there already.
    pub fn answer(&mut self, shard: u32, answer: Answer) -> Result<(), Answer>
        requires there { shard < length self.old.ways }
        requires book { book_shown self.old.book answer.body ≡ self.old.book }
        ensures put { OnOk result (((way_at shard self.old).lies ≡ None) × (way_at shard self.new ≡ record (way_at shard self.old) { lies = Some (fits_there (way_at shard self.old).awaits shard answer) })) }
        ensures full { OnErr result ((is_some (way_at shard self.old).lies ≡ true) × (way_at shard self.new ≡ way_at shard self.old)) }
        ensures back { IfErr result (λ given. given ≡ answer) }
        ensures changed { ChangedAt shard self.old self.new × (self.new.stalls ≡ self.old.stalls) }
        ensures posting { posting_of self.new ≡ posting_of self.old }
    {
        self.ways[shard as usize].answer(answer)
    }

    /// Whether no message lies on the way to the shard.
    pub fn is_free(&self, shard: u32) -> bool
        requires there { shard < length self.now.ways }
        ensures { result ≡ not (way_at shard self.now).sent }
    {
        self.ways[shard as usize].is_free()
    }

    fn stall(&mut self)
        ensures stalled { Stalled (posting_of self.old) (posting_of self.new) }
        ensures ways { (self.new.ways ≡ self.old.ways) × (self.new.book ≡ self.old.book) }
    {
        self.stalls = self.stalls.saturating_add(1);
    }
}

/// A way for each shard.
fn new_ways(alloc: Global, book: &Book, shards: u32) -> Result<Vec<Way>, NoMemory>
    ensures { IfOk result (λ ways. ways.items ≡ bare_ways book.now 0 shards) }
{
    let mut ways = Vec::new(alloc);
    'shards: for shard in 0..shards {
        ways.push(Way::new(book, shard))?;
    }
    Ok(ways)
}

impl Post for LocalPost {
    ghost posting = { posting_of };

    fn send(&mut self, m: Message) -> Result<(), Message>
        requires book { m.ticket.book ≡ self.old.book }
        requires there { m.shard < shards_of (posting_of self.old) }
        requires idle { awaits_at m.shard (posting_of self.old) ≡ None }
        ensures sent { OnOk result (Sent (posting_of self.old) (posting_of self.new) m) }
        ensures stalled { OnErr result (Stalled (posting_of self.old) (posting_of self.new)) }
        ensures back { IfErr result (λ given. given ≡ m) }
        // It comes back exactly where a message lies on the way already.
        ensures way { OnOk result (ChangedAt m.shard self.old self.new × WaySent (way_at m.shard self.old) (way_at m.shard self.new) m × (self.new.stalls ≡ self.old.stalls)) }
        ensures full { OnErr result (((way_at m.shard self.old).sent ≡ true) × (self.new.ways ≡ self.old.ways)) }
    {
        match self.ways[m.shard as usize].send(m) {
            Ok(()) => Ok(()),
            Err(m) => {
                self.stall();
                Err(m)
            }
        }
    }

    fn take(&mut self, shard: u32) -> Option<Answer>
        requires awaits { is_some (awaits_at shard (posting_of self.old)) ≡ true }
        ensures took { IfSome result (Took (posting_of self.old) (posting_of self.new) shard) }
        ensures none { IfNone result (Stalled (posting_of self.old) (posting_of self.new)) }
        // None exactly where no answer lies there that fits.
        ensures way { IfSome result (λ answer. ChangedAt shard self.old self.new × WayTook (way_at shard self.old) (way_at shard self.new) answer × (self.new.stalls ≡ self.old.stalls)) }
        ensures early { IfNone result (((way_at shard self.old).lies ≡ Some true → ⊥) × ChangedAt shard self.old self.new × (way_at shard self.new ≡ record (way_at shard self.old) { lies = None })) }
    {
        match self.ways[shard as usize].take() {
            Some(answer) => Some(answer),
            None => {
                self.stall();
                None
            }
        }
    }
}
