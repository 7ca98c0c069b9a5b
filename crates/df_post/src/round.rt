//! The messages of one time to several shards, and their answers.
//!
//! A call over several shards adds a message to each of some, goes until all have answered, and takes the answers.
//! Then there is room for the next time.

ghost use Rattle.std.specs.Prelude.{◌≡◌, ℕ, ◌<◌, true, false, IfNone, IfOk, IfSome, length, set};
ghost use Rattle.df_hops.specs.Shown.{book_shown};
ghost use Rattle.df_post.specs.Fits.{awaited_by, fits};
ghost use Rattle.df_post.specs.Rounds as rounds;
ghost use Rattle.df_post.specs.declared.awaited.Awaited.{Awaited};
ghost use Rattle.df_post.specs.Rounds.{Counts, Goes, Matches, is_done, place_at, slot_at};

use crate::post::Post;
use crate::slot::{Slot, go, hand_out};
use df_book::{Book, Witness};
use df_hops::{Answer, Message};
use df_model::NoMemory;
use std::alloc::Global;
use std::marker::Model;
use std::mem;

/// What a call asked of shards at one time, one message each, and what came back.
#[derive(Drop)]
pub struct Round {
    /// Whose messages, for clauses alone.
    book: Witness<Book>,
    /// That of each shard, in order.
    slots: Vec<Slot>,
}

impl Model for Round {
    ghost use Rattle.df_post.specs.Rounds.{RoundView};

    ghost Value = { RoundView };

    ghost use Rattle.df_post.specs.Rounds.{IsKept, round_of};

    ghost view = { round_of };

    ghost invariant = { IsKept };
}

impl Round {
    /// No message, and room for one to each of shards 0 to `shards` - 1. Its memory is taken here, and no call takes
    /// more.
    pub fn new(alloc: Global, book: &Book, shards: u32) -> Result<Round, NoMemory>
        ensures book { IfOk result (λ round. round.book ≡ book.now) }
        ensures room { IfOk result (λ round. length round.places ≡ shards) }
        ensures idle { IfOk result (λ round. (s : ℕ) → place_at s round ≡ rounds.Idle) }
    {
        let slots = new_slots(alloc, shards)?;
        Ok(Round {
            book: Witness::of(book),
            slots,
        })
    }

    /// Lets the message go to its shard, at the next `go`.
    pub fn add(&mut self, m: Message)
        requires there { m.shard < length self.old.places }
        requires book { m.ticket.book ≡ self.old.book }
        requires idle { place_at m.shard self.old ≡ rounds.Idle }
        ensures { self.new ≡ record self.old { places = set self.old.places m.shard (rounds.Unsent (awaited_by m)) } }
    {
        let slot = &mut self.slots[m.shard as usize];
        *slot = Slot::Unsent(m);
    }

    /// Sends what is not sent, takes what came, and tells whether all is answered. Takes no memory.
    pub fn go<P: Post>(&mut self, post: &mut P) -> bool
        requires matches { Matches self.old (P.posting post.old) }
        ensures matches { Matches self.new (P.posting post.new) }
        ensures same { (self.new.book ≡ self.old.book) × (length self.new.places ≡ length self.old.places) × ((P.posting post.new).book ≡ (P.posting post.old).book) }
        ensures goes { (s : ℕ) → Goes (place_at s self.old) (place_at s self.new) }
        // A message that could go no further was counted as a wait.
        ensures counts { (s : ℕ) → Counts (place_at s self.old) (place_at s self.new) (P.posting post.old).stalls (P.posting post.new).stalls }
        ensures done { result ≡ true → (s : ℕ) → is_done (place_at s self.new) ≡ true }
        ensures waits { result ≡ false → (s : ℕ) × (is_done (place_at s self.new) ≡ false) }
    {
        let mut done = true;
        'shards: for shard in 0..self.count() {
            done &= self.go_at(shard, post);
        }
        done
    }

    /// The same for one shard.
    fn go_at<P: Post>(&mut self, shard: u32, post: &mut P) -> bool
        requires there { shard < length self.old.places }
        requires matches { Matches self.old (P.posting post.old) }
        ensures matches { Matches self.new (P.posting post.new) }
        ensures same { (self.new.book ≡ self.old.book) × ((P.posting post.new).book ≡ (P.posting post.old).book) }
        ensures one { self.new.places ≡ set self.old.places shard (place_at shard self.new) }
        ensures goes { Goes (place_at shard self.old) (place_at shard self.new) }
        ensures counts { Counts (place_at shard self.old) (place_at shard self.new) (P.posting post.old).stalls (P.posting post.new).stalls }
        ensures done { result ≡ is_done (place_at shard self.new) }
    {
        let slot = &mut self.slots[shard as usize];
        let next = go(mem::replace(slot, Slot::Idle), shard, post);
        let done = next.is_done();
        *slot = next;
        done
    }

    fn count(&self) -> u32
        ensures { result ≡ length self.now.places }
    {
        self.slots.len() as u32
    }

    /// The answer that came from the shard, if one did; then there is room for a message again.
    pub fn take(&mut self, shard: u32) -> Option<Answer>
        requires there { shard < length self.old.places }
        ensures took { IfSome result (λ answer. (a : Awaited) × (place_at shard self.old ≡ rounds.Answered a) × (fits a shard answer ≡ true) × (book_shown self.old.book answer.body ≡ self.old.book) × (self.new ≡ record self.old { places = set self.old.places shard rounds.Idle })) }
        ensures none { IfNone result ((self.new ≡ self.old) × ((a : Awaited) → place_at shard self.old ≡ rounds.Answered a → ⊥)) }
    {
        let slot = &mut self.slots[shard as usize];
        let (left, answer) = hand_out(mem::replace(slot, Slot::Idle));
        *slot = left;
        answer
    }
}

/// A slot for each shard.
fn new_slots(alloc: Global, shards: u32) -> Result<Vec<Slot>, NoMemory>
    ensures room { IfOk result (λ slots. length slots.items ≡ shards) }
    ensures idle { IfOk result (λ slots. (s : ℕ) → slot_at s slots.items ≡ Slot.Idle) }
{
    let mut slots = Vec::new(alloc);
    'shards: for _shard in 0..shards {
        slots.push(Slot::Idle)?;
    }
    Ok(slots)
}
