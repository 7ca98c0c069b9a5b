//! Which keys a command names, and in which mode.

ghost use Rattle.std.specs.Prelude.{◌≡◌};
ghost use Rattle.df_model.specs.Meaning.{one};
ghost use Rattle.df_model.specs.declared.command.Command.TheVariants.{Many};
ghost use Rattle.df_footprints.specs.Footprints.{keys_of, strongest};
ghost use Rattle.df_footprints.specs.Naming.{keys_named, mode_of_row};

use crate::mode::mode_of_count;
use df_model::{Bin, Command, ManyOp, Mode, OneOp};

/// The keys of a command, lent.
#[derive(Clone, Copy, Debug)]
pub(crate) enum Named<'a> {
    Nothing,
    One(&'a Bin, Mode),
    Read(&'a [Bin]),
    Written(&'a [Bin]),
    /// The first of each pair is written.
    WrittenPairs(&'a [(Bin, Bin)]),
    BothWritten(&'a Bin, &'a Bin),
    /// What these hold is read, and a result is put under one further key.
    Stored(&'a [Bin], &'a Bin),
}

/// The keys that a command names. One of the whole keyspace names none.
pub(crate) fn keys_of(command: &Command) -> Named<'_>
    ensures { keys_named result ≡ keys_of command.now }
{
    match command {
        Command::One(key, op) => Named::One(key, mode_of(op)),
        Command::Many(op) => keys_of_many(op),
        Command::Plain(_) | Command::Whole(_) | Command::Wrong(_) => Named::Nothing,
    }
}

fn keys_of_many(op: &ManyOp) -> Named<'_>
    ensures { keys_named result ≡ keys_of (Many op.now) }
{
    match op {
        ManyOp::Exists(keys)
        | ManyOp::Mget(keys)
        | ManyOp::Sinter(keys)
        | ManyOp::Sunion(keys)
        | ManyOp::Sdiff(keys) => Named::Read(keys.as_slice()),
        ManyOp::Del(keys) | ManyOp::Unlink(keys) => Named::Written(keys.as_slice()),
        ManyOp::Mset(pairs) | ManyOp::Msetnx(pairs) => Named::WrittenPairs(pairs.as_slice()),
        ManyOp::Rename(from, to)
        | ManyOp::Renamenx(from, to)
        | ManyOp::Lmove(from, to, _, _)
        | ManyOp::Rpoplpush(from, to)
        | ManyOp::Smove(from, to, _) => Named::BothWritten(from, to),
        ManyOp::Sinterstore(to, keys)
        | ManyOp::Sunionstore(to, keys)
        | ManyOp::Sdiffstore(to, keys) => Named::Stored(keys.as_slice(), to),
    }
}

/// The mode in which a command of one key asks for it.
pub(crate) fn mode_of(op: &OneOp) -> Mode
    ensures { result ≡ mode_of_row (one op.now) }
{
    match op {
        OneOp::KindOf
        | OneOp::Get
        | OneOp::Strlen
        | OneOp::Getrange(_, _)
        | OneOp::Llen
        | OneOp::Lrange(_, _)
        | OneOp::Lindex(_)
        | OneOp::Hget(_)
        | OneOp::Hmget(_)
        | OneOp::Hlen
        | OneOp::Hexists(_)
        | OneOp::Hstrlen(_)
        | OneOp::Hkeys
        | OneOp::Hvals
        | OneOp::Hgetall
        | OneOp::Scard
        | OneOp::Sismember(_)
        | OneOp::Smismember(_)
        | OneOp::Smembers => Mode::Shared,
        OneOp::Set(_, _)
        | OneOp::Setnx(_)
        | OneOp::Getset(_)
        | OneOp::Getdel
        | OneOp::Append(_)
        | OneOp::Setrange(_, _)
        | OneOp::Incr
        | OneOp::Decr
        | OneOp::Incrby(_)
        | OneOp::Decrby(_)
        | OneOp::Lpush(_)
        | OneOp::Rpush(_)
        | OneOp::Lpushx(_)
        | OneOp::Rpushx(_)
        | OneOp::Lpop(_)
        | OneOp::Rpop(_)
        | OneOp::Lset(_, _)
        | OneOp::Linsert(_, _, _)
        | OneOp::Lrem(_, _)
        | OneOp::Ltrim(_, _)
        | OneOp::Hset(_)
        | OneOp::Hmset(_)
        | OneOp::Hsetnx(_, _)
        | OneOp::Hdel(_)
        | OneOp::Hincrby(_, _)
        | OneOp::Sadd(_)
        | OneOp::Srem(_) => Mode::Exclusive,
    }
}

impl<'a> Named<'a> {
    /// Exclusive where one of the keys may be written.
    pub(crate) fn strongest(self) -> Mode
        ensures { result ≡ strongest (keys_named self.entry) }
    {
        match self {
            Named::Nothing | Named::Read(_) => Mode::Shared,
            Named::One(_, mode) => mode,
            Named::Written(keys) => mode_of_count(keys.len()),
            Named::WrittenPairs(pairs) => mode_of_count(pairs.len()),
            Named::BothWritten(_, _) | Named::Stored(_, _) => Mode::Exclusive,
        }
    }
}
