//! The modes in which commands ask for their keys.

ghost use Rattle.std.specs.Prelude.{◌≡◌, IsTrue, false, Some};
ghost use Rattle.df_model.specs.Meaning.{one};
ghost use Rattle.df_footprints.specs.Footprints.{all_of_op, some_whole, stronger};
ghost use Rattle.df_footprints.specs.Naming.{mode_of_row};

use df_model::{Command, Mode, OneOp, WholeOp};

/// Whether a key that is asked for in the one mode, if it is, need not be asked for in the other.
pub(crate) fn is_covered(held: Option<Mode>, mode: Mode) -> bool
    ensures covered { IsTrue result → held ≡ Some (stronger mode held) }
    ensures not_covered { result ≡ false → stronger mode held ≡ mode }
{
    match held {
        Some(Mode::Exclusive) => true,
        Some(Mode::Shared) => match mode {
            Mode::Shared => true,
            Mode::Exclusive => false,
        },
        None => false,
    }
}

/// Whether one of the commands asks for every key.
pub(crate) fn some_whole(commands: &[Command]) -> bool
    ensures { result ≡ some_whole commands.now }
{
    'commands: for command in commands {
        if let Command::Whole(_) = command {
            return true;
        }
    }
    false
}

/// The mode in which a command of the whole keyspace asks for every key.
pub(crate) fn mode_of_whole(op: &WholeOp) -> Mode
    ensures { result ≡ all_of_op op.now }
{
    match op {
        WholeOp::Dbsize | WholeOp::Keys(_) | WholeOp::Save => Mode::Shared,
        WholeOp::Flushall | WholeOp::Flushdb => Mode::Exclusive,
    }
}

/// The mode in which a command of one key asks for it.
pub(crate) fn mode_of(op: &OneOp) -> Mode
    ensures { result ≡ mode_of_row (one op.now) }
{
    match op {
        OneOp::KindOf
        | OneOp::Get
        | OneOp::Strlen
        | OneOp::Getrange(_, _)
        | OneOp::Llen
        | OneOp::Lrange(_, _)
        | OneOp::Lindex(_)
        | OneOp::Hget(_)
        | OneOp::Hmget(_)
        | OneOp::Hlen
        | OneOp::Hexists(_)
        | OneOp::Hstrlen(_)
        | OneOp::Hkeys
        | OneOp::Hvals
        | OneOp::Hgetall
        | OneOp::Scard
        | OneOp::Sismember(_)
        | OneOp::Smismember(_)
        | OneOp::Smembers => Mode::Shared,
        OneOp::Set(_, _)
        | OneOp::Setnx(_)
        | OneOp::Getset(_)
        | OneOp::Getdel
        | OneOp::Append(_)
        | OneOp::Setrange(_, _)
        | OneOp::Incr
        | OneOp::Decr
        | OneOp::Incrby(_)
        | OneOp::Decrby(_)
        | OneOp::Lpush(_)
        | OneOp::Rpush(_)
        | OneOp::Lpushx(_)
        | OneOp::Rpushx(_)
        | OneOp::Lpop(_)
        | OneOp::Rpop(_)
        | OneOp::Lset(_, _)
        | OneOp::Linsert(_, _, _)
        | OneOp::Lrem(_, _)
        | OneOp::Ltrim(_, _)
        | OneOp::Hset(_)
        | OneOp::Hmset(_)
        | OneOp::Hsetnx(_, _)
        | OneOp::Hdel(_)
        | OneOp::Hincrby(_, _)
        | OneOp::Sadd(_)
        | OneOp::Srem(_) => Mode::Exclusive,
    }
}
