//! The keys of a command on each shard: what is read there, and what is kept of them until it was.

ghost use Rattle.std.specs.Prelude.{◌≡◌, ◌<◌, ℕ, length, map, IfOk};
ghost use Rattle.std.specs.Option.{option_map};
ghost use Rattle.df_hops.specs.Parts.{act_of};
ghost use Rattle.df_spread.specs.Spread.{modes_at};
ghost use Rattle.df_keys.specs.Asked.{footprint_there};
ghost use Rattle.df_turn.specs.Asked.{IsNaming, keys_named, read_named};
ghost use Rattle.df_turn.specs.Turns.{part_for};

use df_hops::Part;
use df_model::{Bin, Bins, KeyModes, Keys, Mode, NoMemory};
use std::alloc::Global;

/// Of each shard the part that reads the keys that are named there, and copies of these.
pub(crate) fn reads(
    alloc: Global,
    keys: &[Option<Box<Keys>>],
) -> Result<(Vec<Option<Part>>, Vec<KeyModes>), NoMemory>
    requires { (s : ℕ) → s < length keys.now → IsNaming (footprint_there s keys.now) }
    ensures count { IfOk result (λ read. (length read.0.items ≡ length keys.now) × (length read.1.items ≡ length keys.now)) }
    ensures parts { IfOk result (λ read. (s : ℕ) → option_map act_of (part_for s read.0.items) ≡ read_named (footprint_there s keys.now)) }
    ensures keys { IfOk result (λ read. (s : ℕ) → modes_at read.1.items s ≡ keys_named (footprint_there s keys.now)) }
{
    let mut parts = Vec::new(alloc);
    let mut kept = Vec::new(alloc);
    'shards: for asked in keys {
        let (part, modes) = read(alloc, asked)?;
        parts.push(part)?;
        kept.push(modes)?;
    }
    Ok((parts, kept))
}

/// On one shard.
fn read(alloc: Global, asked: &Option<Box<Keys>>) -> Result<(Option<Part>, KeyModes), NoMemory>
    requires { IsNaming (option_map (λ k. k.value) asked.now) }
    ensures part { IfOk result (λ read. option_map act_of read.0 ≡ read_named (option_map (λ k. k.value) asked.now)) }
    ensures keys { IfOk result (λ read. read.1.items ≡ keys_named (option_map (λ k. k.value) asked.now)) }
{
    match asked {
        None => Ok((None, KeyModes::new(alloc))),
        Some(keys) => {
            let keys = named(keys);
            let names = names_of(alloc, keys)?;
            let modes = copies_of(alloc, keys)?;
            Ok((Some(Part::Read(Box::new(alloc, names)?)), modes))
        }
    }
}

/// The keys that are named, lent.
fn named(keys: &Keys) -> &[(Bin, Mode)]
    requires { IsNaming (Some keys.now) }
    ensures { result.now ≡ keys_named (Some keys.now) }
{
    match keys {
        Keys::Some(keys) => keys.as_slice(),
        Keys::All(_) => unreachable!(),
    }
}

/// Copies of the keys alone.
fn names_of(alloc: Global, keys: &[(Bin, Mode)]) -> Result<Bins, NoMemory>
    ensures { IfOk result (λ names. names.items ≡ map (λ k. k.0) keys.now) }
{
    let mut names = Bins::new(alloc);
    names.reserve(keys.len())?;
    'keys: for key in keys {
        names.push(key.0.copy(alloc)?);
    }
    Ok(names)
}

/// Copies of the keys with their modes.
fn copies_of(alloc: Global, keys: &[(Bin, Mode)]) -> Result<KeyModes, NoMemory>
    ensures { IfOk result (λ modes. modes.items ≡ keys.now) }
{
    let mut modes = KeyModes::new(alloc);
    modes.reserve(keys.len())?;
    'keys: for key in keys {
        modes.push((key.0.copy(alloc)?, key.1));
    }
    Ok(modes)
}
