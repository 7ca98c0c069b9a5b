//! Where a command's keys stand, and so how it runs.

ghost use Rattle.std.specs.Prelude.{◌≡◌, ◌<◌};
ghost use Rattle.df_model.specs.Hash.{shard_of as shard_on};
ghost use Rattle.df_model.specs.Meaning.{firsts, many};
ghost use Rattle.df_core.specs.Courses.{Nowhere, course_of, course_of_whole};
ghost use Rattle.df_turn.specs.Courses.{course_by, course_in, with_key, with_keys};

use df_model::{Bin, Command, ManyOp, WholeOp};
use df_text::shard_of;

/// How a command runs over shards.
#[derive(Clone, Copy, Debug, PartialEq, Eq)]
pub enum Course {
    /// It names no key, and is answered without a shard.
    Nowhere,
    /// All its keys stand on this shard.
    Alone(u32),
    /// Its keys stand on several shards.
    Spread,
    /// It is of every key of every shard: KEYS, DBSIZE, SAVE, FLUSHALL.
    Names,
    Counts,
    Cuts,
    Clears,
}

/// The course of a command over so many shards. Takes no memory; hashes each key once.
pub fn course_of(command: &Command, shards: u32) -> Course
    requires { 0 < shards }
    ensures { course_in result ≡ course_of shards command.now }
{
    match command {
        Command::Plain(_) => Course::Nowhere,
        Command::One(key, _) => Course::Alone(shard_of(key.as_slice(), shards)),
        Command::Many(op) => of_many(op, shards),
        Command::Whole(op) => of_whole(op, shards),
        Command::Wrong(_) => Course::Nowhere,
    }
}

fn of_whole(op: &WholeOp, shards: u32) -> Course
    ensures { course_in result ≡ course_of_whole shards op.now }
{
    match op {
        WholeOp::Dbsize => Course::Counts,
        WholeOp::Keys(_) => Course::Names,
        WholeOp::Flushall => flushed(shards),
        WholeOp::Flushdb => flushed(shards),
        WholeOp::Save => Course::Cuts,
    }
}

/// Of one shard all keys go in one hop.
fn flushed(shards: u32) -> Course
    ensures { course_in result ≡ course_of_whole shards WholeOp.Flushall }
{
    if shards == 1 {
        Course::Alone(0)
    } else {
        Course::Clears
    }
}

fn of_many(op: &ManyOp, shards: u32) -> Course
    requires { 0 < shards }
    ensures { course_in result ≡ course_by shards (many op.now) }
{
    match op {
        ManyOp::Exists(keys)
        | ManyOp::Mget(keys)
        | ManyOp::Sinter(keys)
        | ManyOp::Sunion(keys)
        | ManyOp::Sdiff(keys)
        | ManyOp::Del(keys)
        | ManyOp::Unlink(keys) => of_keys(keys.as_slice(), shards),
        ManyOp::Mset(pairs) | ManyOp::Msetnx(pairs) => of_pairs(pairs.as_slice(), shards),
        ManyOp::Rename(from, to)
        | ManyOp::Renamenx(from, to)
        | ManyOp::Lmove(from, to, _, _)
        | ManyOp::Rpoplpush(from, to)
        | ManyOp::Smove(from, to, _) => of_both(from, to, shards),
        ManyOp::Sinterstore(to, keys)
        | ManyOp::Sunionstore(to, keys)
        | ManyOp::Sdiffstore(to, keys) => of_stored(to, keys.as_slice(), shards),
    }
}

fn of_keys(keys: &[Bin], shards: u32) -> Course
    requires { 0 < shards }
    ensures { course_in result ≡ with_keys shards keys.now Nowhere }
{
    let mut course = Course::Nowhere;
    'keys: for key in keys {
        course = with_key(course, key, shards);
    }
    course
}

/// Of pairs the first of each is a key.
fn of_pairs(pairs: &[(Bin, Bin)], shards: u32) -> Course
    requires { 0 < shards }
    ensures { course_in result ≡ with_keys shards (firsts pairs.now) Nowhere }
{
    let mut course = Course::Nowhere;
    'pairs: for pair in pairs {
        course = with_key(course, &pair.0, shards);
    }
    course
}

fn of_both(from: &Bin, to: &Bin, shards: u32) -> Course
    requires { 0 < shards }
    ensures { course_in result ≡ with_key (shard_on to.now shards) (with_key (shard_on from.now shards) Nowhere) }
{
    with_key(with_key(Course::Nowhere, from, shards), to, shards)
}

fn of_stored(to: &Bin, keys: &[Bin], shards: u32) -> Course
    requires { 0 < shards }
    ensures { course_in result ≡ with_key (shard_on to.now shards) (with_keys shards keys.now Nowhere) }
{
    with_key(of_keys(keys, shards), to, shards)
}

/// The course with one key more.
fn with_key(course: Course, key: &Bin, shards: u32) -> Course
    requires { 0 < shards }
    ensures { course_in result ≡ with_key (shard_on key.now shards) (course_in course) }
{
    let shard = shard_of(key.as_slice(), shards);
    match course {
        Course::Nowhere => Course::Alone(shard),
        Course::Alone(other) => both_on(shard, other),
        Course::Spread => Course::Spread,
        Course::Names => Course::Names,
        Course::Counts => Course::Counts,
        Course::Cuts => Course::Cuts,
        Course::Clears => Course::Clears,
    }
}

fn both_on(shard: u32, other: u32) -> Course
    ensures { course_in result ≡ with_key shard (course_in (Course.Alone other)) }
{
    if shard == other {
        Course::Alone(other)
    } else {
        Course::Spread
    }
}
