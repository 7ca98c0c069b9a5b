//! The way to one shard and back: room for one message and for one answer.

ghost use Rattle.std.specs.Prelude.{◌≡◌, true, false, not, None, Some, is_some, IfErr, IfNone, IfSome, OnErr, OnOk, OnSome};
ghost use Rattle.df_hops.specs.Shown.{book_shown};
ghost use Rattle.df_post.specs.Ways.{WaySent, WayTook, fits_there};

use crate::awaited::Awaited;
use df_book::{Book, Witness};
use df_hops::{Answer, Message};
use std::marker::Model;

/// The way to a shard and back.
#[derive(Drop)]
pub struct Way {
    /// Whose messages go here, for clauses alone.
    book: Witness<Book>,
    shard: u32,
    awaits: Option<Awaited>,
    out: Option<Message>,
    back: Option<Answer>,
}

impl Model for Way {
    ghost use Rattle.df_post.specs.Ways.{WayView};

    ghost Value = { WayView };

    ghost use Rattle.df_post.specs.Ways.{IsKept, way_of};

    ghost view = { way_of };

    ghost invariant = { IsKept };
}

impl Way {
    /// Nothing on its way.
    pub(crate) fn new(book: &Book, shard: u32) -> Way
        ensures { result ≡ record { book = book.now; shard = shard; awaits = None; sent = false; lies = None } }
    {
        Way {
            book: Witness::of(book),
            shard,
            awaits: None,
            out: None,
            back: None,
        }
    }

    pub(crate) fn send(&mut self, m: Message) -> Result<(), Message>
        requires mine { (m.shard ≡ self.old.shard) × (m.ticket.book ≡ self.old.book) }
        ensures same { (self.new.book ≡ self.old.book) × (self.new.shard ≡ self.old.shard) }
        ensures sent { OnOk result (WaySent self.old self.new m) }
        ensures full { OnErr result ((self.old.sent ≡ true) × (self.new ≡ self.old)) }
        ensures back { IfErr result (λ given. given ≡ m) }
    {
        if self.out.is_some() {
            return Err(m);
        }
        self.awaits = Some(Awaited::of(&m));
        self.out = Some(m);
        Ok(())
    }

    /// What came and doesn't fit is dropped.
    pub(crate) fn take(&mut self) -> Option<Answer>
        ensures same { (self.new.book ≡ self.old.book) × (self.new.shard ≡ self.old.shard) }
        ensures took { IfSome result (WayTook self.old self.new) }
        ensures none { IfNone result (self.new ≡ record self.old { lies = None }) }
        ensures early { IfNone result (self.old.lies ≡ Some true → ⊥) }
    {
        let answer = self.back.take()?;
        let awaited = self.awaits?;
        if !awaited.fits(self.shard, &answer) {
            return None;
        }
        self.awaits = None;
        Some(answer)
    }

    /// Takes the message out.
    pub(crate) fn message(&mut self) -> Option<Message>
        ensures same { (self.new.book ≡ self.old.book) × (self.new.shard ≡ self.old.shard) }
        ensures message { IfSome result (λ m. (m.shard ≡ self.old.shard) × (m.ticket.book ≡ self.old.book)) }
        ensures some { OnSome result (self.old.sent ≡ true) }
        ensures none { IfNone result (self.old.sent ≡ false) }
        ensures after { self.new ≡ record self.old { sent = false } }
    {
        if self.out.is_none() {
            return None;
        }
        self.out.take()
    }

    /// Puts an answer there.
    pub(crate) fn answer(&mut self, answer: Answer) -> Result<(), Answer>
        requires book { book_shown self.old.book answer.body ≡ self.old.book }
        ensures same { (self.new.book ≡ self.old.book) × (self.new.shard ≡ self.old.shard) }
        ensures put { OnOk result ((self.old.lies ≡ None) × (self.new ≡ record self.old { lies = Some (fits_there self.old.awaits self.old.shard answer) })) }
        ensures full { OnErr result ((is_some self.old.lies ≡ true) × (self.new ≡ self.old)) }
        ensures back { IfErr result (λ given. given ≡ answer) }
    {
        if self.back.is_some() {
            return Err(answer);
        }
        self.back = Some(answer);
        Ok(())
    }

    /// Whether no message lies there.
    pub(crate) fn is_free(&self) -> bool
        ensures { result ≡ not self.now.sent }
    {
        self.out.is_none()
    }
}
