//! Modes in which keys are asked for, and the commands that ask for all keys.

ghost use Rattle.std.specs.Prelude.{◌≡◌, ◌==◌, IsTrue, cond, false, Some};
ghost use Rattle.df_model.specs.declared.keys.Mode.TheVariants.{Shared, Exclusive};
ghost use Rattle.df_footprints.specs.Footprints.{all_of_op, mode_of, mode_of_all, some_whole, stronger, strongest, keys_of, whole_mode};

use crate::named::keys_of;
use df_model::{Command, Mode, WholeOp};

/// Exclusive if one of the two is.
fn stronger(mode: Mode, other: Mode) -> Mode
    ensures { result ≡ stronger mode (Some other) }
{
    match mode {
        Mode::Exclusive => Mode::Exclusive,
        Mode::Shared => other,
    }
}

/// Whether a key that is asked for in the one mode, if it is, need not be asked for in the other.
pub(crate) fn is_covered(held: Option<Mode>, mode: Mode) -> bool
    ensures covered { IsTrue result → held ≡ Some (stronger mode held) }
    ensures not_covered { result ≡ false → stronger mode held ≡ mode }
{
    match held {
        Some(Mode::Exclusive) => true,
        Some(Mode::Shared) => match mode {
            Mode::Shared => true,
            Mode::Exclusive => false,
        },
        None => false,
    }
}

/// The strongest mode of so many keys that are written.
pub(crate) fn mode_of_count(count: usize) -> Mode
    ensures { result ≡ cond (count == 0) Shared Exclusive }
{
    if count == 0 {
        Mode::Shared
    } else {
        Mode::Exclusive
    }
}

/// The mode in which a command of the whole keyspace asks for every key.
pub(crate) fn mode_of_whole(op: &WholeOp) -> Mode
    ensures { result ≡ all_of_op op.now }
{
    match op {
        WholeOp::Dbsize | WholeOp::Keys(_) | WholeOp::Save => Mode::Shared,
        WholeOp::Flushall | WholeOp::Flushdb => Mode::Exclusive,
    }
}

/// Whether one of the commands asks for every key.
pub(crate) fn some_whole(commands: &[Command]) -> bool
    ensures { result ≡ some_whole commands.now }
{
    'commands: for command in commands {
        if let Command::Whole(_) = command {
            return true;
        }
    }
    false
}

/// The mode in which the commands ask for every key, if one of them does so.
pub(crate) fn mode_of_all(commands: &[Command]) -> Mode
    ensures { result ≡ mode_of_all commands.now }
{
    let mut mode = Mode::Shared;
    'commands: for command in commands {
        mode = stronger(mode, mode_of_one(command));
    }
    mode
}

/// Exclusive if the command may write a key.
fn mode_of_one(command: &Command) -> Mode
    ensures { result ≡ stronger (mode_of (whole_mode command.now)) (Some (strongest (keys_of command.now))) }
{
    match command {
        Command::Whole(op) => mode_of_whole(op),
        _ => keys_of(command).strongest(),
    }
}
