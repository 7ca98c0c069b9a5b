//! Commands and calls, as plain data.
//!
//! A command names no key, one key, several keys, or the whole keyspace. What it means stands in
//! specs/Meaning; how the words of a request spell it stands in specs/Reads. A variant is its name in
//! lower case with a capital; TYPE alone is `KindOf`. The fields are the further words in their order.

ghost use Rattle.std.specs.Prelude.{◌≡◌};
ghost use Rattle.df_model.specs.Families.{family_of};

use crate::{Bin, Bins, ErrorText, Pairs, Reserved};

/// Which kind of value a key holds.
#[derive(Clone, Copy, Debug, PartialEq, Eq)]
pub enum Kind {
    Str,
    List,
    Hash,
    Set,
}

/// When SET puts its value: always, only where the key is missing, only where it is there.
#[derive(Clone, Copy, Debug, PartialEq, Eq)]
pub enum Guard {
    Always,
    Nx,
    Xx,
}

/// On which side of an element LINSERT puts the new one.
#[derive(Clone, Copy, Debug, PartialEq, Eq)]
pub enum Beside {
    Before,
    After,
}

/// An end of a list.
#[derive(Clone, Copy, Debug, PartialEq, Eq)]
pub enum Side {
    Left,
    Right,
}

/// What the commands of one key are about: any kind of value, or one kind.
#[derive(Clone, Copy, Debug, PartialEq, Eq)]
pub enum Family {
    Any,
    Strings,
    Lists,
    Hashes,
    Sets,
}

/// Commands that need no keyspace. They are answered at once and take no number.
#[derive(Debug, Drop)]
pub enum PlainOp {
    /// The message to send back, if there is one.
    Ping(Option<Bin>),
    Echo(Bin),
    /// The number of a database, which is 0.
    Select(i64),
}

/// Commands of one key, which stands beside them in `Command::One`.
#[derive(Debug)]
pub enum OneOp {
    KindOf,
    Get,
    Set(Bin, Guard),
    Setnx(Bin),
    Getset(Bin),
    Getdel,
    Append(Bin),
    Strlen,
    Getrange(i64, i64),
    Setrange(i64, Bin),
    Incr,
    Decr,
    Incrby(i64),
    Decrby(i64),
    Lpush(Bins),
    Rpush(Bins),
    Lpushx(Bins),
    Rpushx(Bins),
    Lpop(Option<i64>),
    Rpop(Option<i64>),
    Llen,
    Lrange(i64, i64),
    Lindex(i64),
    Lset(i64, Bin),
    Linsert(Beside, Bin, Bin),
    Lrem(i64, Bin),
    Ltrim(i64, i64),
    Hset(Pairs),
    Hmset(Pairs),
    Hsetnx(Bin, Bin),
    Hget(Bin),
    Hmget(Bins),
    Hdel(Bins),
    Hlen,
    Hexists(Bin),
    Hstrlen(Bin),
    Hkeys,
    Hvals,
    Hgetall,
    Hincrby(Bin, i64),
    Sadd(Bins),
    Srem(Bins),
    Scard,
    Sismember(Bin),
    Smismember(Bins),
    Smembers,
}

/// A call of its own, so that whoever drops a command has one way on and not one a variant.
impl Drop for OneOp {
    fn drop(self) {
        match self {
            OneOp::KindOf
            | OneOp::Get
            | OneOp::Set(_, _)
            | OneOp::Setnx(_)
            | OneOp::Getset(_)
            | OneOp::Getdel
            | OneOp::Append(_)
            | OneOp::Strlen
            | OneOp::Getrange(_, _)
            | OneOp::Setrange(_, _)
            | OneOp::Incr
            | OneOp::Decr
            | OneOp::Incrby(_)
            | OneOp::Decrby(_)
            | OneOp::Lpush(_)
            | OneOp::Rpush(_)
            | OneOp::Lpushx(_)
            | OneOp::Rpushx(_)
            | OneOp::Lpop(_)
            | OneOp::Rpop(_)
            | OneOp::Llen
            | OneOp::Lrange(_, _)
            | OneOp::Lindex(_)
            | OneOp::Lset(_, _)
            | OneOp::Linsert(_, _, _)
            | OneOp::Lrem(_, _)
            | OneOp::Ltrim(_, _)
            | OneOp::Hset(_)
            | OneOp::Hmset(_)
            | OneOp::Hsetnx(_, _)
            | OneOp::Hget(_)
            | OneOp::Hmget(_)
            | OneOp::Hdel(_)
            | OneOp::Hlen
            | OneOp::Hexists(_)
            | OneOp::Hstrlen(_)
            | OneOp::Hkeys
            | OneOp::Hvals
            | OneOp::Hgetall
            | OneOp::Hincrby(_, _)
            | OneOp::Sadd(_)
            | OneOp::Srem(_)
            | OneOp::Scard
            | OneOp::Sismember(_)
            | OneOp::Smismember(_)
            | OneOp::Smembers => {}
        }
    }
}

impl OneOp {
    /// The family, each of which has a crate of its own above.
    pub fn family(&self) -> Family
        ensures { result ≡ family_of self.now }
    {
        match self {
            OneOp::KindOf => Family::Any,
            OneOp::Get
            | OneOp::Set(_, _)
            | OneOp::Setnx(_)
            | OneOp::Getset(_)
            | OneOp::Getdel
            | OneOp::Append(_)
            | OneOp::Strlen
            | OneOp::Getrange(_, _)
            | OneOp::Setrange(_, _)
            | OneOp::Incr
            | OneOp::Decr
            | OneOp::Incrby(_)
            | OneOp::Decrby(_) => Family::Strings,
            OneOp::Lpush(_)
            | OneOp::Rpush(_)
            | OneOp::Lpushx(_)
            | OneOp::Rpushx(_)
            | OneOp::Lpop(_)
            | OneOp::Rpop(_)
            | OneOp::Llen
            | OneOp::Lrange(_, _)
            | OneOp::Lindex(_)
            | OneOp::Lset(_, _)
            | OneOp::Linsert(_, _, _)
            | OneOp::Lrem(_, _)
            | OneOp::Ltrim(_, _) => Family::Lists,
            OneOp::Hset(_)
            | OneOp::Hmset(_)
            | OneOp::Hsetnx(_, _)
            | OneOp::Hget(_)
            | OneOp::Hmget(_)
            | OneOp::Hdel(_)
            | OneOp::Hlen
            | OneOp::Hexists(_)
            | OneOp::Hstrlen(_)
            | OneOp::Hkeys
            | OneOp::Hvals
            | OneOp::Hgetall
            | OneOp::Hincrby(_, _) => Family::Hashes,
            OneOp::Sadd(_)
            | OneOp::Srem(_)
            | OneOp::Scard
            | OneOp::Sismember(_)
            | OneOp::Smismember(_)
            | OneOp::Smembers => Family::Sets,
        }
    }
}

/// Commands that name several keys, or may do so.
#[derive(Debug, Drop)]
pub enum ManyOp {
    Del(Bins),
    Unlink(Bins),
    Exists(Bins),
    Mget(Bins),
    Mset(Pairs),
    Msetnx(Pairs),
    Rename(Bin, Bin),
    Renamenx(Bin, Bin),
    Lmove(Bin, Bin, Side, Side),
    Rpoplpush(Bin, Bin),
    Smove(Bin, Bin, Bin),
    Sinter(Bins),
    Sunion(Bins),
    Sdiff(Bins),
    Sinterstore(Bin, Bins),
    Sunionstore(Bin, Bins),
    Sdiffstore(Bin, Bins),
}

/// Commands of the whole keyspace.
#[derive(Debug, Drop)]
pub enum WholeOp {
    Dbsize,
    /// The pattern that a key has to match.
    Keys(Bin),
    Flushall,
    Flushdb,
    Save,
}

/// A command, once its words were read.
#[derive(Debug)]
pub enum Command {
    Plain(PlainOp),
    One(Bin, OneOp),
    Many(ManyOp),
    Whole(WholeOp),
    /// Its name and its count of words are right, and an option or a number can't be read.
    Wrong(ErrorText),
}

/// As of `OneOp`.
impl Drop for Command {
    fn drop(self) {
        match self {
            Command::Plain(_)
            | Command::One(_, _)
            | Command::Many(_)
            | Command::Whole(_)
            | Command::Wrong(_) => {}
        }
    }
}

/// Commands in their order.
pub type Commands = Reserved<Command>;

/// What is run as one: a command, or the commands of an EXEC.
#[derive(Debug)]
pub enum Call {
    Single(Command),
    Exec(Commands),
}

/// As of `OneOp`.
impl Drop for Call {
    fn drop(self) {
        match self {
            Call::Single(_) | Call::Exec(_) => {}
        }
    }
}
