//! What a call asks for on a shard.

ghost use Rattle.std.specs.Prelude.{◌≡◌, ◌<◌, ◌∷◌, [], IfOk, IfSome};
ghost use Rattle.std.specs.FinMap as fin;
ghost use Rattle.df_model.specs.declared.command.Call.TheVariants.{Single};
ghost use Rattle.df_footprints.specs.Footprints.{AsksAlone, footprint_of, footprint_of_commands, key_of, on_shard, only_key, some_keys, with_modes};
ghost use Rattle.df_footprints.specs.Naming.{key_lent};

use crate::gather::{Place, add_named, into_keys};
use crate::mode::{mode_of_all, mode_of_whole, some_whole};
use crate::named::{keys_of, mode_of};
use df_model::{Bin, Call, Command, KeyModes, Keys, Mode, NoMemory};
use std::alloc::Global;
use std::collections::BTreeMap;

/// What the call asks for on this shard, if anything: the keys that its commands name there, in byte order, or all
/// keys where a command asks for all. The keys are copies. Costs time in proportion to the bytes of all keys that the
/// call names, and a search in the keys of the shard for each of these. A command of one key takes memory
/// for one list of one key.
pub fn footprint(
    alloc: Global,
    call: &Call,
    shard: u32,
    shards: u32,
) -> Result<Option<Keys>, NoMemory>
    requires { 0 < shards }
    ensures { IfOk result (λ keys. keys ≡ footprint_of shards call.now shard) }
{
    if shard >= shards {
        return Ok(None);
    }
    let place = Place { shard, shards };
    match call {
        Call::Single(command) => of_command(alloc, command, place),
        Call::Exec(commands) => of_commands(alloc, commands.as_slice(), place),
    }
}

/// The key of a call that is a single command of one key, and the mode in which the call asks for it. No other call has
/// one, nor has an EXEC of one such command. Takes no memory, and looks at no byte of the key.
pub fn one_key(call: &Call) -> Option<(&Bin, Mode)>
    ensures key { key_lent result ≡ only_key call.now }
    ensures alone { IfSome result (λ asked. AsksAlone call.now asked.0.now asked.1) }
{
    match call {
        Call::Single(command) => one_key_of(command),
        Call::Exec(_) => None,
    }
}

fn one_key_of(command: &Command) -> Option<(&Bin, Mode)>
    ensures key { key_lent result ≡ key_of command.now }
    ensures alone { IfSome result (λ asked. AsksAlone (Single command.now) asked.0.now asked.1) }
{
    match command {
        Command::One(key, op) => Some((key, mode_of(op))),
        Command::Plain(_) | Command::Many(_) | Command::Whole(_) | Command::Wrong(_) => None,
    }
}

fn of_command(alloc: Global, command: &Command, place: Place) -> Result<Option<Keys>, NoMemory>
    requires { 0 < place.shards }
    ensures { IfOk result (λ keys. keys ≡ footprint_of_commands place.shards place.shard (command.now ∷ [])) }
{
    match command {
        Command::Whole(op) => Ok(Some(Keys::All(mode_of_whole(op)))),
        Command::One(key, op) => of_key(alloc, key, mode_of(op), place),
        Command::Many(_) => {
            let mut modes = BTreeMap::new(alloc);
            add_named(alloc, &mut modes, place, keys_of(command))?;
            into_keys(alloc, modes)
        }
        Command::Plain(_) | Command::Wrong(_) => Ok(None),
    }
}

fn of_key(alloc: Global, key: &Bin, mode: Mode, place: Place) -> Result<Option<Keys>, NoMemory>
    requires { 0 < place.shards }
    ensures { IfOk result (λ keys. keys ≡ some_keys (fin.entries (with_modes (on_shard place.shards place.shard ((key.now, mode) ∷ [])) fin.empty))) }
{
    if !place.has(key) {
        return Ok(None);
    }
    let mut keys = KeyModes::new(alloc);
    keys.reserve(1)?;
    keys.push((key.copy(alloc)?, mode));
    keys.seal();
    Ok(Some(Keys::Some(keys)))
}

fn of_commands(alloc: Global, commands: &[Command], place: Place) -> Result<Option<Keys>, NoMemory>
    requires { 0 < place.shards }
    ensures { IfOk result (λ keys. keys ≡ footprint_of_commands place.shards place.shard commands.now) }
{
    if some_whole(commands) {
        return Ok(Some(Keys::All(mode_of_all(commands))));
    }
    let mut modes = BTreeMap::new(alloc);
    'commands: for command in commands {
        add_named(alloc, &mut modes, place, keys_of(command))?;
    }
    into_keys(alloc, modes)
}
