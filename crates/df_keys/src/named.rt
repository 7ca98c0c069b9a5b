//! Which keys a command names, and in which mode.

ghost use Rattle.std.specs.Prelude.{◌≡◌};
ghost use Rattle.df_model.specs.declared.command.Command.TheVariants.{Many};
ghost use Rattle.df_footprints.specs.Footprints.{keys_of};
ghost use Rattle.df_keys.specs.Gathered.{keys_named};

use crate::mode::mode_of;
use df_model::{Bin, Command, ManyOp, Mode};

/// The keys of a command, lent.
#[derive(Clone, Copy, Debug)]
pub(crate) enum Named<'a> {
    Nothing,
    One(&'a Bin, Mode),
    Read(&'a [Bin]),
    Written(&'a [Bin]),
    /// The first of each pair is written.
    WrittenPairs(&'a [(Bin, Bin)]),
    BothWritten(&'a Bin, &'a Bin),
    /// What these hold is read, and a result is put under one further key.
    Stored(&'a [Bin], &'a Bin),
}

/// The keys that a command names. One of the whole keyspace names none.
pub(crate) fn keys_of(command: &Command) -> Named<'_>
    ensures { keys_named result ≡ keys_of command.now }
{
    match command {
        Command::One(key, op) => Named::One(key, mode_of(op)),
        Command::Many(op) => keys_of_many(op),
        Command::Plain(_) | Command::Whole(_) | Command::Wrong(_) => Named::Nothing,
    }
}

pub(crate) fn keys_of_many(op: &ManyOp) -> Named<'_>
    ensures { keys_named result ≡ keys_of (Many op.now) }
{
    match op {
        ManyOp::Exists(keys)
        | ManyOp::Mget(keys)
        | ManyOp::Sinter(keys)
        | ManyOp::Sunion(keys)
        | ManyOp::Sdiff(keys) => Named::Read(keys.as_slice()),
        ManyOp::Del(keys) | ManyOp::Unlink(keys) => Named::Written(keys.as_slice()),
        ManyOp::Mset(pairs) | ManyOp::Msetnx(pairs) => Named::WrittenPairs(pairs.as_slice()),
        ManyOp::Rename(from, to)
        | ManyOp::Renamenx(from, to)
        | ManyOp::Lmove(from, to, _, _)
        | ManyOp::Rpoplpush(from, to)
        | ManyOp::Smove(from, to, _) => Named::BothWritten(from, to),
        ManyOp::Sinterstore(to, keys)
        | ManyOp::Sunionstore(to, keys)
        | ManyOp::Sdiffstore(to, keys) => Named::Stored(keys.as_slice(), to),
    }
}

impl Named<'_> {
    /// How many keys these are, each as often as it is named.
    pub(crate) fn count(self) -> usize {
        match self {
            Named::Nothing => 0,
            Named::One(_, _) => 1,
            Named::Read(keys) | Named::Written(keys) => keys.len(),
            Named::WrittenPairs(pairs) => pairs.len(),
            Named::BothWritten(_, _) => 2,
            Named::Stored(keys, _) => keys.len().saturating_add(1),
        }
    }
}
