//! Counters, and what calls do to them.

use df_model::{Bin, Call, Command, Commands, NoMemory, OneOp};
use df_text::shard_of;
use std::alloc::Global;
use std::collections::BTreeMap;

pub(crate) const SHARDS: u32 = 2;

/// Of each command of a call, what it was answered, once it has run.
pub(crate) type Replies = [Option<i64>; 2];

pub(crate) type Store = BTreeMap<Bin, i64>;

/// A command of the key with this name: INCR or GET.
fn command_of(alloc: Global, name: &str, raises: bool) -> Result<Command, NoMemory> {
    let key = Bin::from_slice(alloc, name.as_bytes())?;
    let op = if raises { OneOp::Incr } else { OneOp::Get };
    Ok(Command::One(key, op))
}

/// GET of a key, INCR of a key, or INCR of two keys in an EXEC.
pub(crate) fn call_of(
    alloc: Global,
    name: &str,
    raises: bool,
    second: &str,
) -> Result<Call, NoMemory> {
    let first = command_of(alloc, name, raises)?;
    if second.is_empty() {
        return Ok(Call::Single(first));
    }
    let mut commands = Commands::new(alloc);
    commands.reserve(2)?;
    commands.push(first);
    commands.push(command_of(alloc, second, true)?);
    commands.seal();
    Ok(Call::Exec(commands))
}

/// Runs a command where its key stands on the shard, or anywhere if no shard is named.
fn run_command(
    alloc: Global,
    store: &mut Store,
    command: &Command,
    shard: Option<u32>,
) -> Result<Option<i64>, NoMemory> {
    let Command::One(key, op) = command else {
        return Ok(None);
    };
    if shard.is_some() && shard != Some(shard_of(key.as_slice(), SHARDS)) {
        return Ok(None);
    }
    let held = store.get(key).copied().unwrap_or(0);
    if let OneOp::Incr = op {
        store.insert(key.copy(alloc)?, held.wrapping_add(1))?;
        return Ok(Some(held.wrapping_add(1)));
    }
    Ok(Some(held))
}

/// Runs those commands of the call whose keys stand on the shard, or all of them.
pub(crate) fn run(
    alloc: Global,
    store: &mut Store,
    call: &Call,
    shard: Option<u32>,
) -> Result<Replies, NoMemory> {
    match call {
        Call::Single(command) => Ok([run_command(alloc, store, command, shard)?, None]),
        Call::Exec(commands) => {
            let mut replies = [None, None];
            'replies: for (i, reply) in replies.iter_mut().enumerate() {
                if let Some(command) = commands.get(i) {
                    *reply = run_command(alloc, store, command, shard)?;
                }
            }
            Ok(replies)
        }
    }
}
