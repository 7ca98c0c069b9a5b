//! What a command changed, of the keys that it may write.
//!
//! Before the run these are copied with what they hold; after it those that hold something else are moved out. Keys
//! that the command only reads are left where they are: no command changes one.

ghost use Rattle.std.specs.Prelude.{◌≡◌, ◌+◌, ◌≤◌, ◌<◌, ◌++◌, ◌∷◌, [], false, map, IfOk, OnOk};
ghost use Rattle.std.specs.Option.{option_map};
ghost use Rattle.df_model.specs.Values.{Bytes};
ghost use Rattle.df_model.specs.Words as words;
ghost use Rattle.df_model.specs.Keyspace.{held};
ghost use Rattle.df_model.specs.Access.{among};
ghost use Rattle.df_values.specs.Seen.{seen};
ghost use Rattle.df_spread.specs.Spread.{changes_seen};
ghost use Rattle.df_spread.specs.Written.{AreApart, IsEachOnce, changed, held_by, keys_of_changes, to_write};

use crate::same::same_held;
use df_hops::Changes;
use df_model::{Bin, KeyModes, Mode, NoMemory};
use df_table::Table;
use df_values::Value;
use std::alloc::Global;

/// Shard by shard the keys that may be written, each with a copy of what it holds.
pub(crate) fn copies_of_written(
    alloc: Global,
    table: &Table,
    keys: Vec<KeyModes>,
) -> Result<Vec<Changes>, NoMemory>
    ensures { IfOk result (λ written. map (λ w. changes_seen w.items) written.items ≡ map (λ modes. held_by table.now.keys (to_write modes.items)) keys.items) }
{
    let mut written = Vec::new(alloc);
    'shards: for modes in keys {
        written.push(copies_on(alloc, table, modes)?)?;
    }
    Ok(written)
}

/// Those of one shard.
fn copies_on(alloc: Global, table: &Table, modes: KeyModes) -> Result<Changes, NoMemory>
    ensures { IfOk result (λ written. changes_seen written.items ≡ held_by table.now.keys (to_write modes.items)) }
{
    let mut written = Changes::new(alloc);
    written.reserve(modes.len())?;
    let modes = modes.into_vec();
    'keys: for (key, mode) in modes {
        add_copy(alloc, table, key, mode, &mut written)?;
    }
    Ok(written)
}

/// Adds the key where it may be written.
fn add_copy(
    alloc: Global,
    table: &Table,
    key: Bin,
    mode: Mode,
    written: &mut Changes,
) -> Result<(), NoMemory>
    requires { 0 < written.old.spare }
    ensures written { OnOk result (changes_seen written.new.items ≡ changes_seen written.old.items ++ held_by table.now.keys (to_write ((key, mode) ∷ []))) }
    ensures spare { OnOk result (written.old.spare ≤ written.new.spare + 1) }
{
    match mode {
        Mode::Shared => Ok(()),
        Mode::Exclusive => {
            let before = table.copy(alloc, &key)?;
            written.push((key, before));
            Ok(())
        }
    }
}

/// Shard by shard those keys that hold something else than before, with what they hold, which moves out of the table.
pub(crate) fn take_changes(
    alloc: Global,
    table: &mut Table,
    written: Vec<Changes>,
) -> Result<Vec<Changes>, NoMemory>
    requires { AreApart (map (λ w. changes_seen w.items) written.items) }
    ensures { IfOk result (λ changes. map (λ c. changes_seen c.items) changes.items ≡ map (changed table.old.keys) (map (λ w. changes_seen w.items) written.items)) }
{
    let mut changes = Vec::new(alloc);
    'shards: for written in written {
        changes.push(take_changes_on(alloc, table, written)?)?;
    }
    Ok(changes)
}

/// Those of one shard. No other key is touched.
fn take_changes_on(alloc: Global, table: &mut Table, written: Changes) -> Result<Changes, NoMemory>
    requires { IsEachOnce (keys_of_changes (changes_seen written.items)) }
    ensures changes { IfOk result (λ changes. changes_seen changes.items ≡ changed table.old.keys (changes_seen written.items)) }
    ensures others { OnOk result ((key : Bytes) → among (keys_of_changes (changes_seen written.items)) key ≡ false → held table.new.keys key ≡ held table.old.keys key) }
{
    let mut changes = Changes::new(alloc);
    changes.reserve(written.len())?;
    let written = written.into_vec();
    'keys: for (key, before) in written {
        take_change(table, key, before, &mut changes);
    }
    Ok(changes)
}

/// Adds the key where it holds something else than before.
fn take_change(table: &mut Table, key: Bin, before: Option<Value>, changes: &mut Changes)
    requires { 0 < changes.old.spare }
    ensures changes { changes_seen changes.new.items ≡ changes_seen changes.old.items ++ changed table.old.keys ((key, option_map seen before) ∷ []) }
    ensures spare { changes.old.spare ≤ changes.new.spare + 1 }
    ensures others { (other : Bytes) → words.same key other ≡ false → held table.new.keys other ≡ held table.old.keys other }
{
    if same_held(before.as_ref(), table.get(&key)) {
        return;
    }
    let now = table.remove(&key);
    changes.push((key, now));
}
