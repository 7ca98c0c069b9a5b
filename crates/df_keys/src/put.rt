//! What is asked for on the shards, put into the place of each.

ghost use Rattle.std.specs.Prelude.{◌≡◌, ◌<◌, ◌==◌, ◌∷◌, ℕ, [], cond, length, None, Some, OnOk, IfOk};
ghost use Rattle.std.specs.Option.{option_map};
ghost use Rattle.df_model.specs.Hash as hashes;
ghost use Rattle.df_model.specs.Spared.{all_of};
ghost use Rattle.df_model.specs.declared.keys.Keys.TheVariants as kinds;
ghost use Rattle.df_footprints.specs.Footprints.{footprint_of, some_keys};
ghost use Rattle.df_keys.specs.Asked.{footprint_there};
ghost use Rattle.df_keys.specs.Gathered.{StandAs, entries_at, entries_of};

use crate::gather::Modes;
use df_footprints::footprint;
use df_model::{Bin, Call, KeyModes, Keys, Mode, NoMemory};
use df_text::shard_of;
use std::alloc::Global;
use std::collections::BTreeMap;

/// Nothing on any shard. Takes no memory.
pub(crate) fn put_none(keys: &mut Vec<Option<Box<Keys>>>)
    ensures { StandAs (length keys.old.items) (λ s. None) keys.new.items }
{
    'shards: for shard in 0..keys.len() {
        keys[shard] = None;
    }
}

/// All keys of each shard.
pub(crate) fn put_all(
    alloc: Global,
    mode: Mode,
    keys: &mut Vec<Option<Box<Keys>>>,
) -> Result<(), NoMemory>
    ensures count { length keys.new.items ≡ length keys.old.items }
    ensures put { OnOk result (StandAs (length keys.old.items) (λ s. Some (kinds.All mode)) keys.new.items) }
{
    'shards: for shard in 0..keys.len() {
        keys[shard] = Some(Box::new(alloc, Keys::All(mode))?);
    }
    Ok(())
}

/// What the call asks for, found shard by shard: for one that asks for all keys, of which none is looked at.
pub(crate) fn put_each(
    alloc: Global,
    call: &Call,
    shards: u32,
    keys: &mut Vec<Option<Box<Keys>>>,
) -> Result<(), NoMemory>
    requires some { 0 < shards }
    requires room { length keys.old.items ≡ shards }
    ensures count { length keys.new.items ≡ shards }
    ensures put { OnOk result (StandAs shards (footprint_of shards call.now) keys.new.items) }
{
    'shards: for shard in 0..shards {
        keys[shard as usize] = boxed(alloc, footprint(alloc, call, shard, shards)?)?;
    }
    Ok(())
}

/// One key on its shard, and nothing on the others.
pub(crate) fn put_one(
    alloc: Global,
    key: &Bin,
    mode: Mode,
    shards: u32,
    keys: &mut Vec<Option<Box<Keys>>>,
) -> Result<(), NoMemory>
    requires some { 0 < shards }
    requires room { length keys.old.items ≡ shards }
    ensures count { length keys.new.items ≡ shards }
    ensures put { OnOk result (StandAs shards (λ s. cond (hashes.shard_of key.now shards == s) (Some (kinds.Some (all_of ((key.now, mode) ∷ [])))) None) keys.new.items) }
{
    put_none(keys);
    let shard = shard_of(key.as_slice(), shards);
    keys[shard as usize] = Some(Box::new(alloc, key_alone(alloc, key, mode)?)?);
    Ok(())
}

fn key_alone(alloc: Global, key: &Bin, mode: Mode) -> Result<Keys, NoMemory>
    ensures { IfOk result (λ keys. keys ≡ kinds.Some (all_of ((key.now, mode) ∷ []))) }
{
    let mut keys = KeyModes::new(alloc);
    keys.reserve(1)?;
    keys.push((key.copy(alloc)?, mode));
    keys.seal();
    Ok(Keys::Some(keys))
}

/// The keys that were gathered.
pub(crate) fn put_gathered(
    alloc: Global,
    maps: Vec<Modes>,
    keys: &mut Vec<Option<Box<Keys>>>,
) -> Result<(), NoMemory>
    requires { length keys.old.items ≡ length maps.items }
    ensures count { length keys.new.items ≡ length maps.items }
    ensures put { OnOk result (StandAs (length maps.items) (λ s. some_keys (entries_at s maps.items)) keys.new.items) }
{
    let mut shard = 0;
    'shards: for modes in maps {
        keys[shard] = into_keys(alloc, modes)?;
        shard += 1;
    }
    Ok(())
}

/// What is asked for with these keys, if there are any.
fn into_keys(alloc: Global, modes: Modes) -> Result<Option<Box<Keys>>, NoMemory>
    ensures { IfOk result (λ keys. option_map (λ k. k.value) keys ≡ some_keys (entries_of modes)) }
{
    match modes {
        Modes::Few(list) => of_few(alloc, list),
        Modes::Many(tree) => of_many(alloc, tree),
    }
}

fn of_few(alloc: Global, list: KeyModes) -> Result<Option<Box<Keys>>, NoMemory>
    ensures { IfOk result (λ keys. option_map (λ k. k.value) keys ≡ some_keys list.items) }
{
    if list.len() == 0 {
        return Ok(None);
    }
    let mut keys = list;
    keys.seal();
    Ok(Some(Box::new(alloc, Keys::Some(keys))?))
}

fn of_many(alloc: Global, modes: BTreeMap<Bin, Mode>) -> Result<Option<Box<Keys>>, NoMemory>
    ensures { IfOk result (λ keys. option_map (λ k. k.value) keys ≡ some_keys modes.entries) }
{
    let count = modes.len();
    if count == 0 {
        return Ok(None);
    }
    let mut keys = KeyModes::new(alloc);
    keys.reserve(count)?;
    'keys: for key in modes {
        keys.push(key);
    }
    keys.seal();
    Ok(Some(Box::new(alloc, Keys::Some(keys))?))
}

fn boxed(alloc: Global, keys: Option<Keys>) -> Result<Option<Box<Keys>>, NoMemory>
    ensures { IfOk result (λ boxed. option_map (λ k. k.value) boxed ≡ keys) }
{
    match keys {
        Some(keys) => Ok(Some(Box::new(alloc, keys)?)),
        None => Ok(None),
    }
}
