//! The keys of commands, each on its shard.

ghost use Rattle.std.specs.Prelude.{◌≡◌, ◌<◌, length, false, OnOk};
ghost use Rattle.df_model.specs.declared.command.Call.TheVariants.{Single};
ghost use Rattle.df_model.specs.declared.command.Command.TheVariants.{Many};
ghost use Rattle.df_footprints.specs.Footprints.{footprint_of_commands, some_whole};
ghost use Rattle.df_keys.specs.Asked.{FootprintsStand};
ghost use Rattle.df_keys.specs.Gathered.{StandAs};

use crate::gather::{add_all, add_named, count_of, no_modes};
use crate::mode::{mode_of, mode_of_whole, some_whole};
use crate::named::keys_of_many;
use crate::put::{put_all, put_each, put_gathered, put_none, put_one};
use df_model::{Call, Command, Keys, ManyOp, NoMemory};
use std::alloc::Global;

/// What the call asks for on each shard, put into the places of `keys`, one for each shard: the keys that its commands name there, copied, in
/// byte order, each once in its strongest mode; or all keys, where a command asks for all. Hashes each key once. Where memory runs out,
/// nothing is said of what stands in the places.
pub fn find_keys(
    alloc: Global,
    call: &Call,
    shards: u32,
    keys: &mut Vec<Option<Box<Keys>>>,
) -> Result<(), NoMemory>
    requires some { 0 < shards }
    requires room { length keys.old.items ≡ shards }
    ensures room { length keys.new.items ≡ shards }
    ensures found { OnOk result (FootprintsStand shards call.now keys.new.items) }
{
    match call {
        Call::Single(command) => find_keys_of(alloc, command, shards, keys),
        Call::Exec(commands) => {
            if some_whole(commands.as_slice()) {
                put_each(alloc, call, shards, keys)
            } else {
                find_named(alloc, commands.as_slice(), shards, keys)
            }
        }
    }
}

/// As `find_keys`, of a call that is this command alone.
pub fn find_keys_of(
    alloc: Global,
    command: &Command,
    shards: u32,
    keys: &mut Vec<Option<Box<Keys>>>,
) -> Result<(), NoMemory>
    requires some { 0 < shards }
    requires room { length keys.old.items ≡ shards }
    ensures room { length keys.new.items ≡ shards }
    ensures found { OnOk result (FootprintsStand shards (Single command.now) keys.new.items) }
{
    match command {
        Command::Plain(_) | Command::Wrong(_) => {
            put_none(keys);
            Ok(())
        }
        Command::One(key, op) => put_one(alloc, key, mode_of(op), shards, keys),
        Command::Many(op) => find_many(alloc, op, shards, keys),
        Command::Whole(op) => put_all(alloc, mode_of_whole(op), keys),
    }
}

/// Of a command of several keys.
fn find_many(
    alloc: Global,
    op: &ManyOp,
    shards: u32,
    keys: &mut Vec<Option<Box<Keys>>>,
) -> Result<(), NoMemory>
    requires some { 0 < shards }
    requires room { length keys.old.items ≡ shards }
    ensures room { length keys.new.items ≡ shards }
    ensures found { OnOk result (FootprintsStand shards (Single (Many op.now)) keys.new.items) }
{
    let named = keys_of_many(op);
    let mut maps = no_modes(alloc, shards, named.count())?;
    add_named(alloc, shards, &mut maps, named)?;
    put_gathered(alloc, maps, keys)
}

/// Of commands none of which asks for every key.
fn find_named(
    alloc: Global,
    commands: &[Command],
    shards: u32,
    keys: &mut Vec<Option<Box<Keys>>>,
) -> Result<(), NoMemory>
    requires some { 0 < shards }
    requires room { length keys.old.items ≡ shards }
    requires named { some_whole commands.now ≡ false }
    ensures room { length keys.new.items ≡ shards }
    ensures found { OnOk result (StandAs shards (λ s. footprint_of_commands shards s commands.now) keys.new.items) }
{
    let mut maps = no_modes(alloc, shards, count_of(commands))?;
    add_all(alloc, shards, &mut maps, commands)?;
    put_gathered(alloc, maps, keys)
}
