//! A table of its own in which keys hold what shards told of them.
//!
//! The keys are copied, since the changes name them again; the values move. Room for all keys is taken first.

ghost use Rattle.std.specs.Prelude.{◌≡◌, ◌+◌, ◌≤◌, ◌<◌, length, map, IfOk, OnOk};
ghost use Rattle.std.specs.Option.{option_map};
ghost use Rattle.df_model.specs.Keyspace.{no_keys, with_held};
ghost use Rattle.df_values.specs.Seen.{seen};
ghost use Rattle.df_core.specs.Due.{with_values};
ghost use Rattle.df_spread.specs.Spread.{ValuesStand};
ghost use Rattle.df_spread.specs.Gathered.{count_all, gathered, keys_in};

use df_hops::Values;
use df_model::{Bin, KeyModes, Mode, NoMemory};
use df_table::Table;
use df_values::Value;
use std::alloc::Global;

/// The keys of each shard hold there what was told of them.
pub(crate) fn told_table(
    alloc: Global,
    keys: &[KeyModes],
    values: Vec<Values>,
) -> Result<Table, NoMemory>
    requires { ValuesStand keys.now values.items }
    ensures { IfOk result (λ table. table.keys ≡ gathered keys.now values.items no_keys) }
{
    let mut table = Table::new(alloc);
    let count = count_keys(keys)?;
    table.reserve(count)?;
    let mut shard = 0;
    'shards: for told in values {
        put_values(alloc, &mut table, keys[shard].as_slice(), told)?;
        shard += 1;
    }
    Ok(table)
}

/// How many keys there are on all shards together. There is no memory for more than can be counted.
fn count_keys(keys: &[KeyModes]) -> Result<usize, NoMemory>
    ensures { IfOk result (λ count. count ≡ count_all keys.now) }
{
    let mut count: usize = 0;
    'shards: for modes in keys {
        let Some(more) = count.checked_add(modes.len()) else {
            return Err(NoMemory);
        };
        count = more;
    }
    Ok(count)
}

/// Lets the keys of a shard hold what was told of them, the last one first.
fn put_values(
    alloc: Global,
    table: &mut Table,
    keys: &[(Bin, Mode)],
    values: Values,
) -> Result<(), NoMemory>
    requires count { length values.items ≡ length keys.now }
    requires room { length keys.now ≤ table.old.spare }
    ensures keys { OnOk result (table.new.keys ≡ with_values (keys_in keys.now) (map (option_map seen) values.items) table.old.keys) }
    ensures spare { OnOk result (table.old.spare ≤ table.new.spare + length keys.now) }
{
    let mut values = values;
    'keys: while let Some(value) = values.pop() {
        put_value(alloc, table, &keys[values.len()].0, value)?;
    }
    Ok(())
}

fn put_value(
    alloc: Global,
    table: &mut Table,
    key: &Bin,
    value: Option<Value>,
) -> Result<(), NoMemory>
    requires { 0 < table.old.spare }
    ensures keys { OnOk result (table.new.keys ≡ with_held table.old.keys key.now (option_map seen value)) }
    ensures spare { OnOk result (table.old.spare ≤ table.new.spare + 1) }
{
    match value {
        Some(value) => {
            let key = key.copy(alloc)?;
            table.put(key, value);
            Ok(())
        }
        None => {
            table.forget(key);
            Ok(())
        }
    }
}
