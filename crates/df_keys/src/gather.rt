//! The keys that commands name, each put to its shard as they are gone over.

ghost use Rattle.std.specs.Prelude.{◌≡◌, ◌<◌, ◌∷◌, ℕ, [], length, OnOk, IfOk};
ghost use Rattle.df_model.specs.Meaning.{firsts};
ghost use Rattle.df_model.specs.declared.keys.Mode.TheVariants.{Exclusive};
ghost use Rattle.df_footprints.specs.Footprints.{in_mode, keys_of_all};
ghost use Rattle.df_footprints.specs.Naming.{Adds};
ghost use Rattle.df_keys.specs.Gathered.{AreEmpty, Gathers, entries_of, keys_named};

use crate::few::add_to_few;
use crate::mode::is_covered;
use crate::named::{Named, keys_of};
use df_model::{Bin, Command, KeyModes, Mode, NoMemory};
use df_text::shard_of;
use std::alloc::Global;
use std::collections::BTreeMap;

/// So many keys of a call are kept in lists, and more in trees. With as many, lists take two thirds of the instructions where four
/// shards have the keys, and a quarter more where one has all.
const FEW: usize = 64;

/// The keys of a shard in byte order, each in its strongest mode.
#[derive(Drop)]
pub(crate) enum Modes {
    Few(KeyModes),
    Many(BTreeMap<Bin, Mode>),
}

/// Of each shard none yet, with what suits so many keys.
pub(crate) fn no_modes(alloc: Global, shards: u32, count: usize) -> Result<Vec<Modes>, NoMemory>
    ensures { IfOk result (λ maps. AreEmpty shards maps.items) }
{
    let mut maps = Vec::new(alloc);
    maps.reserve(shards as usize)?;
    'shards: for _shard in 0..shards {
        maps.push(none(alloc, count))?;
    }
    Ok(maps)
}

fn none(alloc: Global, count: usize) -> Modes
    ensures { entries_of result ≡ [] }
{
    if count <= FEW {
        Modes::Few(KeyModes::new(alloc))
    } else {
        Modes::Many(BTreeMap::new(alloc))
    }
}

/// How many keys these commands name. The same one may be counted twice.
pub(crate) fn count_of(commands: &[Command]) -> usize {
    let mut count: usize = 0;
    'commands: for command in commands {
        count = count.saturating_add(keys_of(command).count());
    }
    count
}

/// Adds the keys of all these commands.
pub(crate) fn add_all(
    alloc: Global,
    shards: u32,
    maps: &mut Vec<Modes>,
    commands: &[Command],
) -> Result<(), NoMemory>
    requires some { 0 < shards }
    requires count { length maps.old.items ≡ shards }
    ensures { OnOk result (Gathers shards (keys_of_all commands.now) maps.old.items maps.new.items) }
{
    'commands: for command in commands {
        add_named(alloc, shards, maps, keys_of(command))?;
    }
    Ok(())
}

/// Adds these keys. A key is copied when it is first added, and once more if it was read and is now to be written.
pub(crate) fn add_named(
    alloc: Global,
    shards: u32,
    maps: &mut Vec<Modes>,
    named: Named<'_>,
) -> Result<(), NoMemory>
    requires some { 0 < shards }
    requires count { length maps.old.items ≡ shards }
    ensures { OnOk result (Gathers shards (keys_named named.entry) maps.old.items maps.new.items) }
{
    match named {
        Named::Nothing => Ok(()),
        Named::One(key, mode) => add_key(alloc, shards, maps, key, mode),
        Named::Read(keys) => add_keys(alloc, shards, maps, keys, Mode::Shared),
        Named::Written(keys) => add_keys(alloc, shards, maps, keys, Mode::Exclusive),
        Named::WrittenPairs(pairs) => add_firsts(alloc, shards, maps, pairs),
        Named::BothWritten(one, other) => {
            add_key(alloc, shards, maps, one, Mode::Exclusive)?;
            add_key(alloc, shards, maps, other, Mode::Exclusive)
        }
        Named::Stored(keys, key) => {
            add_keys(alloc, shards, maps, keys, Mode::Shared)?;
            add_key(alloc, shards, maps, key, Mode::Exclusive)
        }
    }
}

fn add_keys(
    alloc: Global,
    shards: u32,
    maps: &mut Vec<Modes>,
    keys: &[Bin],
    mode: Mode,
) -> Result<(), NoMemory>
    requires some { 0 < shards }
    requires count { length maps.old.items ≡ shards }
    ensures { OnOk result (Gathers shards (in_mode mode keys.now) maps.old.items maps.new.items) }
{
    'keys: for key in keys {
        add_key(alloc, shards, maps, key, mode)?;
    }
    Ok(())
}

fn add_firsts(
    alloc: Global,
    shards: u32,
    maps: &mut Vec<Modes>,
    pairs: &[(Bin, Bin)],
) -> Result<(), NoMemory>
    requires some { 0 < shards }
    requires count { length maps.old.items ≡ shards }
    ensures { OnOk result (Gathers shards (in_mode Exclusive (firsts pairs.now)) maps.old.items maps.new.items) }
{
    'pairs: for (key, _) in pairs {
        add_key(alloc, shards, maps, key, Mode::Exclusive)?;
    }
    Ok(())
}

/// Puts a key to its shard.
fn add_key(
    alloc: Global,
    shards: u32,
    maps: &mut Vec<Modes>,
    key: &Bin,
    mode: Mode,
) -> Result<(), NoMemory>
    requires some { 0 < shards }
    requires count { length maps.old.items ≡ shards }
    ensures { OnOk result (Gathers shards ((key.now, mode) ∷ []) maps.old.items maps.new.items) }
{
    let shard = shard_of(key.as_slice(), shards);
    add_to(alloc, &mut maps[shard as usize], key, mode)
}

fn add_to(alloc: Global, modes: &mut Modes, key: &Bin, mode: Mode) -> Result<(), NoMemory>
    ensures { OnOk result (Adds (entries_of modes.old) ((key.now, mode) ∷ []) (entries_of modes.new)) }
{
    match modes {
        Modes::Few(list) => add_to_few(alloc, list, key, mode),
        Modes::Many(tree) => add_to_many(alloc, tree, key, mode),
    }
}

fn add_to_many(
    alloc: Global,
    modes: &mut BTreeMap<Bin, Mode>,
    key: &Bin,
    mode: Mode,
) -> Result<(), NoMemory>
    ensures { OnOk result (Adds modes.old.entries ((key.now, mode) ∷ []) modes.new.entries) }
{
    if !is_covered(modes.get(key).copied(), mode) {
        modes.insert(key.copy(alloc)?, mode)?;
    }
    Ok(())
}
