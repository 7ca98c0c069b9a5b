//! What runs the calls of a connection: a call of one hop by the short way, any other by the long one.

ghost use Rattle.std.specs.Prelude.{◌≡◌, ◌+◌, ◌<◌, ℕ, true, is_some, None, Some};
ghost use Rattle.df_model.specs.Calls.{IsCall};
ghost use Rattle.df_book.specs.Passes.{BookName, Caller};
ghost use Rattle.df_coord.specs.Asking.{RunsAlone};
ghost use Rattle.df_hops.specs.Parts.{hash_for};
ghost use Rattle.df_calls.specs.Calling.{IsAlone, IsMany, IsOne, RunsHold, SteppedTo, pass_in, under_in};

use df_book::{Book, CallerPass};
use df_caller::{Slip, Went};
use df_coord::OneHop;
use df_many::{ManyHops, Room};
use df_model::{Call, Command};
use df_post::LocalPost;
use df_text::{fnv64, shard_at};
use df_turn::{Course, course_of};
use std::alloc::Global;
use std::mem;

/// One of both. They take turns, and hand the pass and the way to the shards to one another.
#[derive(Drop)]
pub(crate) enum Runs<'a> {
    /// Calls of one hop, with the room that the other one needs.
    One(OneHop<'a, LocalPost>, Room),
    /// Any calls.
    Many(ManyHops<'a, LocalPost>),
    /// While they change over.
    Neither,
}

/// The shard on which all of the call runs, if it is a single command that runs on one alone; and its key's hash, where it
/// is a command of one key. Takes no memory.
pub(crate) fn alone(call: &Call, shards: u32) -> Option<(u32, u64)>
    requires { 0 < shards }
    ensures { IsAlone shards call.now result }
{
    match call {
        Call::Single(command) => command_alone(command, shards),
        Call::Exec(_) => None,
    }
}

fn command_alone(command: &Command, shards: u32) -> Option<(u32, u64)>
    requires { 0 < shards }
    ensures { IsAlone shards (Call.Single command.now) result }
{
    if let Command::One(key, _) = command {
        let hash = fnv64(key.as_slice());
        return Some((shard_at(hash, shards), hash));
    }
    match course_of(command, shards) {
        Course::Alone(shard) => Some((shard, 0)),
        Course::Nowhere => None,
        Course::Spread => None,
        Course::Names => None,
        Course::Counts => None,
        Course::Cuts => None,
        Course::Clears => None,
    }
}

/// Changes over to what runs calls of one hop, where the other one ran the last. Takes no memory.
pub(crate) fn for_one<'a>(runs: &mut Runs<'a>, book: &'a Book, shards: u32, conn: u32)
    requires some { 0 < shards }
    requires book { book.now.words ≡ shards + 2 }
    requires holds { (rested : Caller) × RunsHold book.now shards rested runs.old }
    requires idle { under_in runs.old ≡ None }
    ensures holds { (rested : Caller) → RunsHold book.now shards rested runs.old → RunsHold book.now shards rested runs.new }
    ensures one { IsOne runs.new }
    ensures idle { under_in runs.new ≡ None }
{
    if let Runs::One(_, _) = runs {
        return;
    }
    let was = mem::replace(runs, Runs::Neither);
    *runs = to_one(was, book, shards, conn);
}

fn to_one<'a>(runs: Runs<'a>, book: &'a Book, shards: u32, conn: u32) -> Runs<'a>
    requires some { 0 < shards }
    requires book { book.now.words ≡ shards + 2 }
    requires holds { (rested : Caller) × RunsHold book.now shards rested runs }
    requires idle { under_in runs ≡ None }
    ensures holds { (rested : Caller) → RunsHold book.now shards rested runs.entry → RunsHold book.now shards rested result }
    ensures one { IsOne result }
    ensures idle { under_in result ≡ None }
{
    match runs {
        Runs::One(hop, room) => Runs::One(hop, room),
        Runs::Many(many) => {
            let (pass, room, post) = many.finish();
            Runs::One(OneHop::new(book, shards, conn, pass, post), room)
        }
        Runs::Neither => unreachable!(),
    }
}

/// Changes over to what runs any call, where the other one ran the last. Takes no memory.
pub(crate) fn for_many<'a>(
    runs: &mut Runs<'a>,
    alloc: Global,
    book: &'a Book,
    shards: u32,
    conn: u32,
)
    requires some { 0 < shards }
    requires book { book.now.words ≡ shards + 2 }
    requires holds { (rested : Caller) × RunsHold book.now shards rested runs.old }
    requires idle { under_in runs.old ≡ None }
    ensures holds { (rested : Caller) → RunsHold book.now shards rested runs.old → RunsHold book.now shards rested runs.new }
    ensures many { IsMany runs.new }
    ensures idle { under_in runs.new ≡ None }
{
    if let Runs::Many(_) = runs {
        return;
    }
    let was = mem::replace(runs, Runs::Neither);
    *runs = to_many(was, alloc, book, shards, conn);
}

fn to_many<'a>(runs: Runs<'a>, alloc: Global, book: &'a Book, shards: u32, conn: u32) -> Runs<'a>
    requires some { 0 < shards }
    requires book { book.now.words ≡ shards + 2 }
    requires holds { (rested : Caller) × RunsHold book.now shards rested runs }
    requires idle { under_in runs ≡ None }
    ensures holds { (rested : Caller) → RunsHold book.now shards rested runs.entry → RunsHold book.now shards rested result }
    ensures many { IsMany result }
    ensures idle { under_in result ≡ None }
{
    match runs {
        Runs::One(hop, room) => {
            let (pass, post) = hop.finish();
            Runs::Many(ManyHops::new(alloc, book, shards, conn, pass, room, post))
        }
        Runs::Many(many) => Runs::Many(many),
        Runs::Neither => unreachable!(),
    }
}

/// Begins a call of one hop.
pub(crate) fn begin_one(runs: &mut Runs<'_>, slip: Box<Slip>, shard: u32, hash: u64)
    requires holds { (z : BookName) × (shards : ℕ) × (rested : Caller) × RunsHold z shards rested runs.old × RunsAlone shards shard slip.value.call }
    requires hash { hash ≡ hash_for hash slip.value.call }
    requires one { IsOne runs.old }
    requires idle { under_in runs.old ≡ None }
    ensures holds { (z : BookName) (shards : ℕ) (rested : Caller) → RunsHold z shards rested runs.old → RunsHold z shards rested runs.new }
    ensures begun { under_in runs.new ≡ Some slip.value.call }
{
    match runs {
        Runs::One(hop, _) => hop.begin(slip, shard, hash),
        Runs::Many(_) => unreachable!(),
        Runs::Neither => unreachable!(),
    }
}

/// Begins any call.
pub(crate) fn begin_many(runs: &mut Runs<'_>, slip: Box<Slip>)
    requires holds { (z : BookName) × (shards : ℕ) × (rested : Caller) × RunsHold z shards rested runs.old }
    requires call { IsCall slip.value.call }
    requires many { IsMany runs.old }
    requires idle { under_in runs.old ≡ None }
    ensures holds { (z : BookName) (shards : ℕ) (rested : Caller) → RunsHold z shards rested runs.old → RunsHold z shards rested runs.new }
    ensures begun { under_in runs.new ≡ Some slip.value.call }
{
    match runs {
        Runs::One(_, _) => unreachable!(),
        Runs::Many(many) => many.begin(slip),
        Runs::Neither => unreachable!(),
    }
}

/// Goes on with the call under way.
pub(crate) fn stepped(runs: &mut Runs<'_>) -> Went
    requires holds { (z : BookName) × (shards : ℕ) × (rested : Caller) × RunsHold z shards rested runs.old }
    requires under { is_some (under_in runs.old) ≡ true }
    ensures { (z : BookName) (shards : ℕ) (rested : Caller) → RunsHold z shards rested runs.old → SteppedTo result z shards rested runs.old runs.new }
{
    match runs {
        Runs::One(hop, _) => hop.step(),
        Runs::Many(many) => many.step(),
        Runs::Neither => unreachable!(),
    }
}

/// The pass as it is.
pub(crate) fn pass_of<'r>(runs: &'r Runs<'_>) -> &'r CallerPass
    requires holds { (z : BookName) × (shards : ℕ) × (rested : Caller) × RunsHold z shards rested runs.now }
    ensures { (any : Caller) → result.now ≡ pass_in any runs.now }
{
    match runs {
        Runs::One(hop, _) => hop.pass(),
        Runs::Many(many) => many.pass(),
        Runs::Neither => unreachable!(),
    }
}

/// The pass and the room, where no call is under way.
pub(crate) fn finished(runs: Runs<'_>) -> (CallerPass, Room)
    requires holds { (z : BookName) × (shards : ℕ) × (rested : Caller) × RunsHold z shards rested runs }
    requires idle { under_in runs ≡ None }
    ensures { (z : BookName) (shards : ℕ) (rested : Caller) → RunsHold z shards rested runs.entry → result.0 ≡ rested }
{
    match runs {
        Runs::One(hop, room) => {
            let (pass, _post) = hop.finish();
            (pass, room)
        }
        Runs::Many(many) => {
            let (pass, room, _post) = many.finish();
            (pass, room)
        }
        Runs::Neither => unreachable!(),
    }
}
