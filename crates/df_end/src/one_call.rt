//! A run of one call on one shard, by the book's calls alone: what the records ask is what these calls tell.

ghost use Rattle.std.specs.Prelude.{◌≡◌, ◌<◌, ◌∷◌, [], IfOk};
ghost use Rattle.df_model.specs.Keyspace.{no_keys};
ghost use Rattle.df_book.specs.Logs.{at_log};
ghost use Rattle.df_book.specs.Draws.{Bounded};
ghost use Rattle.df_end.specs.Rounds.{CallWent};
ghost use Rattle.df_book.specs.Passes.{AllJoined, first_pass, new_shard};
ghost use Rattle.df_model.specs.Spoken.{Session};
ghost use Rattle.df_end.specs.Promise.{Promise};
ghost use Rattle.df_end.specs.OneCall.{Idle, SpeaksOfOne, Visited, flushall, flushed, flush_row};

use crate::closing::close_run;
use df_book::{Book, CallerPass, Closed, ShardPass};
use df_log::Entry;
use df_model::{Call, Command, NoMemory, WholeOp};
use std::alloc::Global;

fn the_call() -> Call
    ensures { result ≡ flushall }
{
    Call::Single(Command::Whole(WholeOp::Flushall))
}

// What a shard enters for FLUSHALL.
fn entry_of(number: u64) -> Entry
    ensures { result ≡ flushed number }
{
    Entry::new(number, 0)
}

// Runs FLUSHALL for a caller that has seen all of the shard's log.
fn flush(book: &Book, caller: &mut CallerPass, shard: &mut ShardPass, call: &Call) -> u64
    requires call { call.now ≡ flushall }
    requires book { (caller.old.book ≡ book.now) × (shard.old.book ≡ book.now) }
    requires caller { (caller.old.first ≡ 0) × (0 < caller.old.budget) }
    requires bounded { Bounded caller.old.own caller.old.made caller.old.seen }
    requires shard { (shard.old.shard ≡ 0) × (at_log caller.old.seen 0 ≡ shard.old.log) }
    requires idle { Idle shard.old }
    ensures book { (caller.new.book ≡ book.now) × (shard.new.book ≡ book.now) }
    ensures caller { caller.new.first ≡ 0 }
    ensures shard { shard.new.shard ≡ 0 }
    ensures idle { Idle shard.new }
    ensures went { CallWent 1 caller.old caller.new flushall (flush_row caller.old result ∷ []) }
{
    let number = book.draw(caller, call);
    let ticket = book.ticket(caller, true);
    book.take_ticket(shard, ticket);
    let receipt = book.enter(shard, entry_of(number));
    book.take_receipt(caller, receipt);
    number
}

// A session that calls FLUSHALL once, from its pass's split to its join.
fn visit(book: &Book, first: &mut CallerPass, shard: &mut ShardPass)
    requires first { first.old ≡ first_pass book.now 1 }
    requires shard { shard.old ≡ new_shard book.now 0 }
    ensures first { (first.new.book ≡ book.now) × AllJoined first.new }
    ensures shard { (shard.new.book ≡ book.now) × (shard.new.shard ≡ 0) }
    ensures idle { Idle shard.new }
    ensures lobby { (w : Session) → SpeaksOfOne w → Visited w first.new }
{
    let mut caller = book.split(first, 1);
    flush(book, &mut caller, shard, &the_call());
    book.join(first, caller);
}

/// A run of one session, which calls FLUSHALL once.
pub fn one_call(alloc: Global) -> Result<Closed, NoMemory>
    ensures promise { IfOk result (λ c. (w : Session) → SpeaksOfOne w → Promise 1 no_keys c (w ∷ [])) }
{
    let (book, mut passes, mut first) = Book::new(alloc, 1, 1)?;
    let Some(saves) = passes.pop() else {
        unreachable!()
    };
    let Some(mut shard) = passes.pop() else {
        unreachable!()
    };
    visit(&book, &mut first, &mut shard);
    passes.push(shard)?;
    passes.push(saves)?;
    Ok(close_run(book, first, passes))
}
