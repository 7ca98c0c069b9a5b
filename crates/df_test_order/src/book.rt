//! A book from its opening to its end, and threads that share one.
ghost use Rattle.std.specs.Prelude.{◌≡◌, ◌+◌, ◌<◌, [], ◌∷◌, ◌++◌, length, IfOk, suc};
ghost use Rattle.df_log.specs.Acts.{Clear, Applied};
ghost use Rattle.df_book.specs.Logs.{AllBelow, at_log};
ghost use Rattle.df_book.specs.Passes.{AllJoined, draw_by, first_pass, new_shard};
ghost use Rattle.df_book.specs.Closed.{Settled};
ghost use Rattle.df_test_order.specs.Runs.{cleared};

use df_book::{Book, CallerPass, Closed, ShardPass};
use df_log::Entry;
use df_model::{Call, Command, NoMemory, WholeOp};
use std::alloc::Global;
use std::thread::{Threads, join_mut};

fn flushall() -> Call {
    Call::Single(Command::Whole(WholeOp::Flushall))
}

// What a shard enters for FLUSHALL.
fn entry_of(number: u64) -> Entry
    ensures { result ≡ cleared number }
{
    Entry::new(number, 0)
}

// Runs a call on one shard, for a caller that has seen all of the shard's log.
fn run_on(book: &Book, caller: &mut CallerPass, shard: &mut ShardPass, call: &Call) -> u64
    requires book { (caller.old.book ≡ book.now) × (shard.old.book ≡ book.now) }
    requires caller { (caller.old.first ≡ 0) × (0 < caller.old.budget) }
    requires seen { at_log caller.old.seen shard.old.shard ≡ shard.old.log }
    ensures above { AllBelow result caller.old.seen }
    ensures caller { (caller.new.book ≡ book.now) × (caller.new.first ≡ 0) × (caller.new.sessions ≡ caller.old.sessions) × (caller.new.budget + 1 ≡ caller.old.budget) }
    ensures drawn { caller.new.own ≡ caller.old.own ++ draw_by caller.old call.now result ∷ [] }
    ensures shard { (shard.new.book ≡ book.now) × (shard.new.shard ≡ shard.old.shard) }
    ensures entered { shard.new.log ≡ shard.old.log ++ cleared result ∷ [] }
    ensures seen { at_log caller.new.seen shard.new.shard ≡ shard.new.log }
{
    let number = book.draw(caller, call);
    let ticket = book.ticket(caller, true);
    book.take_ticket(shard, ticket);
    let receipt = book.enter(shard, entry_of(number));
    book.take_receipt(caller, receipt);
    number
}

// Three callers, one after the other. The third has seen what the first did.
fn three(
    book: &Book,
    first: &mut CallerPass,
    north: &mut ShardPass,
    south: &mut ShardPass,
    call: &Call,
) -> (u64, u64, u64)
    requires first { first.old ≡ first_pass book.now 9 }
    requires shards { (north.old ≡ new_shard book.now 0) × (south.old ≡ new_shard book.now 1) }
    ensures ordered { result.0 < result.2 }
    ensures joined { (first.new.book ≡ book.now) × AllJoined first.new }
    ensures drawn { length first.new.own ≡ 3 }
    ensures shards { (north.new.book ≡ book.now) × (north.new.shard ≡ 0) × (south.new.book ≡ book.now) × (south.new.shard ≡ 1) }
    ensures north { north.new.log ≡ cleared result.0 ∷ cleared result.2 ∷ [] }
    ensures south { south.new.log ≡ cleared result.1 ∷ [] }
{
    let mut one = book.split(first, 3);
    let mut two = book.split(first, 3);
    let mut three = book.split(first, 3);
    let a = run_on(book, &mut one, north, call);
    let b = run_on(book, &mut two, south, call);
    let receipt = book.show(north);
    book.take_receipt(&mut three, receipt);
    let c = run_on(book, &mut three, north, call);
    book.join(first, one);
    book.join(first, two);
    book.join(first, three);
    (a, b, c)
}

// A book of two shards, the first pass, the shards' passes, and that of the place of saves.
fn opened(
    alloc: Global,
) -> Result<(Book, CallerPass, ShardPass, ShardPass, Vec<ShardPass>), NoMemory>
    ensures { IfOk result (λ r. (r.1 ≡ first_pass r.0 9) × (r.2 ≡ new_shard r.0 0) × (r.3 ≡ new_shard r.0 1) × (r.4.items ≡ new_shard r.0 2 ∷ [])) }
{
    let (book, mut shards, first) = Book::new(alloc, 2, 9)?;
    let Some(saves) = shards.pop() else {
        unreachable!()
    };
    let Some(south) = shards.pop() else {
        unreachable!()
    };
    let Some(north) = shards.pop() else {
        unreachable!()
    };
    shards.push(saves)?;
    Ok((book, first, north, south, shards))
}

// A closed book, the last number, how many were left, and the numbers.
fn in_turn(alloc: Global) -> Result<(Closed, u64, u64, (u64, u64, u64)), NoMemory>
    ensures drawn { IfOk result (λ r. (length r.0.draws ≡ 3) × (r.1 ≡ 3) × Settled r.0) }
    ensures logs { IfOk result (λ r. (at_log r.0.logs 0 ≡ cleared r.3.0 ∷ cleared r.3.2 ∷ []) × (at_log r.0.logs 1 ≡ cleared r.3.1 ∷ [])) }
{
    let (book, mut first, mut north, mut south, mut shards) = opened(alloc)?;
    let numbers = three(&book, &mut first, &mut north, &mut south, &flushall());
    shards.push(north)?;
    shards.push(south)?;
    let last = book.last(&mut first);
    let left = book.left(&first);
    Ok((book.close(first, shards), last, left, numbers))
}

#[test]
fn three_callers_in_turn_draw_one_two_and_three(rt: HostRuntime) -> Result<(), NoMemory> {
    let (_closed, last, left, numbers) = in_turn(rt.alloc())?;
    assert_eq!(rt; (last, left, numbers), (3, 6, (1, 2, 3)));
    Ok(())
}

fn twice(book: &Book, caller: &mut CallerPass, shard: &mut ShardPass, call: &Call) -> (u64, u64)
    requires book { (caller.old.book ≡ book.now) × (shard.old.book ≡ book.now) }
    requires caller { (caller.old.first ≡ 0) × (1 < caller.old.budget) }
    requires seen { at_log caller.old.seen shard.old.shard ≡ shard.old.log }
    ensures caller { (caller.new.book ≡ book.now) × (caller.new.first ≡ 0) × (caller.new.sessions ≡ caller.old.sessions) }
    ensures shard { (shard.new.book ≡ book.now) × (shard.new.shard ≡ shard.old.shard) }
    ensures entered { shard.new.log ≡ shard.old.log ++ cleared result.0 ∷ cleared result.1 ∷ [] }
{
    let a = run_on(book, caller, shard, call);
    let b = run_on(book, caller, shard, call);
    (a, b)
}

// Two threads, each with a caller and a shard of its own.
fn both<R: Threads>(
    rt: &R,
    book: &Book,
    one: &mut CallerPass,
    other: &mut CallerPass,
    north: &mut ShardPass,
    south: &mut ShardPass,
    call: &Call,
) -> ((u64, u64), (u64, u64))
    requires book { (one.old.book ≡ book.now) × (other.old.book ≡ book.now) × (north.old.book ≡ book.now) × (south.old.book ≡ book.now) }
    requires callers { (one.old.first ≡ 0) × (1 < one.old.budget) × (other.old.first ≡ 0) × (1 < other.old.budget) }
    requires seen { (at_log one.old.seen north.old.shard ≡ north.old.log) × (at_log other.old.seen south.old.shard ≡ south.old.log) }
    ensures callers { (one.new.book ≡ book.now) × (one.new.first ≡ 0) × (one.new.sessions ≡ one.old.sessions) × (other.new.book ≡ book.now) × (other.new.first ≡ 0) × (other.new.sessions ≡ other.old.sessions) }
    ensures shards { (north.new.book ≡ book.now) × (north.new.shard ≡ north.old.shard) × (south.new.book ≡ book.now) × (south.new.shard ≡ south.old.shard) }
    ensures north { north.new.log ≡ north.old.log ++ cleared result.0.0 ∷ cleared result.0.1 ∷ [] }
    ensures south { south.new.log ≡ south.old.log ++ cleared result.1.0 ∷ cleared result.1.1 ∷ [] }
{
    join_mut(
        rt,
        &mut || twice(book, one, north, call),
        &mut || twice(book, other, south, call),
    )
}

// Two callers at once, each on a shard of its own.
fn side_by_side<R: Threads>(
    rt: &R,
    book: &Book,
    first: &mut CallerPass,
    north: &mut ShardPass,
    south: &mut ShardPass,
    call: &Call,
) -> ((u64, u64), (u64, u64))
    requires first { first.old ≡ first_pass book.now 9 }
    requires shards { (north.old ≡ new_shard book.now 0) × (south.old ≡ new_shard book.now 1) }
    ensures joined { (first.new.book ≡ book.now) × AllJoined first.new }
    ensures shards { (north.new.book ≡ book.now) × (north.new.shard ≡ 0) × (south.new.book ≡ book.now) × (south.new.shard ≡ 1) }
    ensures north { north.new.log ≡ cleared result.0.0 ∷ cleared result.0.1 ∷ [] }
    ensures south { south.new.log ≡ cleared result.1.0 ∷ cleared result.1.1 ∷ [] }
{
    let mut one = book.split(first, 4);
    let mut other = book.split(first, 4);
    let numbers = both(rt, book, &mut one, &mut other, north, south, call);
    book.join(first, one);
    book.join(first, other);
    numbers
}

// The last number, and those of each thread.
fn at_once<R: Threads>(rt: &R, alloc: Global) -> Result<(u64, (u64, u64), (u64, u64)), NoMemory> {
    let (book, mut first, mut north, mut south, _shards) = opened(alloc)?;
    let call = flushall();
    let (one, other) = side_by_side(rt, &book, &mut first, &mut north, &mut south, &call);
    Ok((book.last(&mut first), one, other))
}

#[test]
fn two_threads_draw_different_numbers(rt: HostRuntime) -> Result<(), NoMemory> {
    let (last, one, other) = at_once(&rt, rt.alloc())?;
    let apart = one.0 != other.0 && one.0 != other.1 && one.1 != other.0 && one.1 != other.1;
    assert!(rt; apart && one.0 < one.1 && other.0 < other.1);
    assert_eq!(rt; last, 4);
    Ok(())
}
