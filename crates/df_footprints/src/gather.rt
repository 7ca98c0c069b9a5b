//! The keys of a shard that commands name, each once and in its strongest mode, as they are gathered.

ghost use Rattle.std.specs.Prelude.{◌≡◌, ◌<◌, ◌==◌, ◌∷◌, [], OnOk, IfOk};
ghost use Rattle.df_model.specs.Hash as hashes;
ghost use Rattle.df_model.specs.Meaning.{firsts};
ghost use Rattle.df_model.specs.declared.keys.Mode.TheVariants.{Exclusive};
ghost use Rattle.df_footprints.specs.Footprints.{in_mode, on_shard, some_keys};
ghost use Rattle.df_footprints.specs.Naming.{Adds, keys_named};

use crate::mode::is_covered;
use crate::named::Named;
use df_model::{Bin, KeyModes, Keys, Mode, NoMemory};
use df_text::shard_of;
use std::alloc::Global;
use std::collections::BTreeMap;

/// A shard, from 0, and how many there are.
#[derive(Clone, Copy, Debug)]
pub(crate) struct Place {
    pub(crate) shard: u32,
    pub(crate) shards: u32,
}

impl Place {
    /// Whether the key stands here.
    pub(crate) fn has(self, key: &Bin) -> bool
        requires { 0 < self.shards }
        ensures { result ≡ (hashes.shard_of key.now self.shards == self.shard) }
    {
        shard_of(key.as_slice(), self.shards) == self.shard
    }
}

/// Adds those keys that stand at the place. A key is copied when it is first added, and once more if it was read
/// and is now to be written.
pub(crate) fn add_named(
    alloc: Global,
    modes: &mut BTreeMap<Bin, Mode>,
    place: Place,
    named: Named<'_>,
) -> Result<(), NoMemory>
    requires { 0 < place.shards }
    ensures { OnOk result (Adds modes.old.entries (on_shard place.shards place.shard (keys_named named.entry)) modes.new.entries) }
{
    match named {
        Named::Nothing => Ok(()),
        Named::One(key, mode) => add_key(alloc, modes, place, key, mode),
        Named::Read(keys) => add_keys(alloc, modes, place, keys, Mode::Shared),
        Named::Written(keys) => add_keys(alloc, modes, place, keys, Mode::Exclusive),
        Named::WrittenPairs(pairs) => add_firsts(alloc, modes, place, pairs),
        Named::BothWritten(one, other) => {
            add_key(alloc, modes, place, one, Mode::Exclusive)?;
            add_key(alloc, modes, place, other, Mode::Exclusive)
        }
        Named::Stored(keys, key) => {
            add_keys(alloc, modes, place, keys, Mode::Shared)?;
            add_key(alloc, modes, place, key, Mode::Exclusive)
        }
    }
}

fn add_keys(
    alloc: Global,
    modes: &mut BTreeMap<Bin, Mode>,
    place: Place,
    keys: &[Bin],
    mode: Mode,
) -> Result<(), NoMemory>
    requires { 0 < place.shards }
    ensures { OnOk result (Adds modes.old.entries (on_shard place.shards place.shard (in_mode mode keys.now)) modes.new.entries) }
{
    'keys: for key in keys {
        add_key(alloc, modes, place, key, mode)?;
    }
    Ok(())
}

fn add_firsts(
    alloc: Global,
    modes: &mut BTreeMap<Bin, Mode>,
    place: Place,
    pairs: &[(Bin, Bin)],
) -> Result<(), NoMemory>
    requires { 0 < place.shards }
    ensures { OnOk result (Adds modes.old.entries (on_shard place.shards place.shard (in_mode Exclusive (firsts pairs.now))) modes.new.entries) }
{
    'pairs: for (key, _) in pairs {
        add_key(alloc, modes, place, key, Mode::Exclusive)?;
    }
    Ok(())
}

fn add_key(
    alloc: Global,
    modes: &mut BTreeMap<Bin, Mode>,
    place: Place,
    key: &Bin,
    mode: Mode,
) -> Result<(), NoMemory>
    requires { 0 < place.shards }
    ensures { OnOk result (Adds modes.old.entries (on_shard place.shards place.shard ((key.now, mode) ∷ [])) modes.new.entries) }
{
    if !place.has(key) {
        return Ok(());
    }
    if !is_covered(modes.get(key).copied(), mode) {
        modes.insert(key.copy(alloc)?, mode)?;
    }
    Ok(())
}

/// What is asked for with these keys, if there are any.
pub(crate) fn into_keys(alloc: Global, modes: BTreeMap<Bin, Mode>) -> Result<Option<Keys>, NoMemory>
    ensures { IfOk result (λ keys. keys ≡ some_keys modes.entries) }
{
    let count = modes.len();
    if count == 0 {
        return Ok(None);
    }
    let mut keys = KeyModes::new(alloc);
    keys.reserve(count)?;
    'keys: for key in modes {
        keys.push(key);
    }
    keys.seal();
    Ok(Some(Keys::Some(keys)))
}
