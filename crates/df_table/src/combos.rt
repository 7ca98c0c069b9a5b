//! Commands that combine the sets of several keys.
//!
//! A missing key counts as the empty set. Where a key holds another kind, nothing is combined. What if memory
//! runs out? The combination stands in memory of its own, and room for its key and for the reply is taken before
//! the key changes.

ghost use Rattle.std.specs.Prelude.{◌≡◌, Some, is_some, map, OnOk, OnErr, IfOk};
ghost use Rattle.std.specs.Option.{option_copied, option_map};
ghost use Rattle.df_model.specs.Members as members;
ghost use Rattle.df_model.specs.Meaning.Sets as sets;
ghost use Rattle.df_model.specs.Replies.{encoding_of};
ghost use Rattle.df_sets.specs.Combined.{combined, folded};
ghost use Rattle.df_values.specs.Seen.{seen};
ghost use Rattle.df_table.specs.HeldSets.{set_in, set_at};
ghost use Rattle.df_table.specs.Responses.{Gives};

use crate::table::Table;
use df_colls::SetVal;
use df_model::{Bin, ErrorText, NoMemory};
use df_sets::{Combine, first, next, put_members};
use df_values::{Pieces, Value};
use std::alloc::Global;

/// SINTER, SUNION and SDIFF.
pub fn combine_keys(
    alloc: Global,
    table: &Table,
    op: Combine,
    keys: &[Bin],
    reply: &mut Pieces,
) -> Result<(), NoMemory>
    ensures { OnOk result (reply.new ≡ encoding_of (sets.combined (combined op) keys.now table.now.keys)) }
{
    match combined_of(alloc, table, op, keys)? {
        Some(set) => put_members(&set, reply),
        None => reply.put_error(&ErrorText::WrongKind),
    }
}

/// SINTERSTORE, SUNIONSTORE and SDIFFSTORE. The old value of the destination goes, whatever its kind; an empty
/// result removes the key.
pub fn store_combined(
    alloc: Global,
    table: &mut Table,
    op: Combine,
    destination: Bin,
    keys: &[Bin],
    reply: &mut Pieces,
) -> Result<(), NoMemory>
    ensures ok { OnOk result (Gives (sets.store (combined op) destination keys.now table.old.keys) table.new.keys reply.new) }
    ensures keys { OnErr result (table.new.keys ≡ table.old.keys) }
    ensures kept { table.new.kept ≡ table.old.kept }
{
    let made = combined_of(alloc, table, op, keys)?;
    match made {
        Some(set) => keep(table, destination, set, reply),
        None => reply.put_error(&ErrorText::WrongKind),
    }
}

/// Puts the set in place of what the key held, and replies how many members it has.
fn keep(
    table: &mut Table,
    destination: Bin,
    set: SetVal,
    reply: &mut Pieces,
) -> Result<(), NoMemory>
    ensures ok { OnOk result (Gives (sets.kept destination table.old.keys (Some set.members)) table.new.keys reply.new) }
    ensures keys { OnErr result (table.new.keys ≡ table.old.keys) }
    ensures kept { table.new.kept ≡ table.old.kept }
{
    if set.is_empty() {
        reply.put_count(0)?;
        table.forget(&destination);
        return Ok(());
    }
    table.reserve(1)?;
    reply.put_count(set.len())?;
    table.put(destination, Value::Set(set));
    Ok(())
}

/// The sets of the keys combined, in memory of its own; none where a key holds another kind.
fn combined_of(
    alloc: Global,
    table: &Table,
    op: Combine,
    keys: &[Bin],
) -> Result<Option<SetVal>, NoMemory>
    ensures { IfOk result (λ made. option_map (λ set. set.members) made ≡ sets.over (combined op) (sets.sets_of table.now.keys keys.now)) }
{
    if !only_sets(table, keys) {
        return Ok(None);
    }
    let none = SetVal::new(alloc);
    if keys.is_empty() {
        return Ok(Some(none));
    }
    let so_far = first(alloc, set_or(table.get(&keys[0]), &none))?;
    let made = next_each(alloc, table, op, so_far, &keys[1..], &none)?;
    Ok(Some(made))
}

/// Whether no key holds another kind.
fn only_sets(table: &Table, keys: &[Bin]) -> bool
    ensures { result ≡ is_some (sets.sets_of table.now.keys keys.now) }
{
    'keys: for key in keys {
        if !counts_as_set(table.get(key)) {
            return false;
        }
    }
    true
}

fn counts_as_set(value: Option<&Value>) -> bool
    ensures { result ≡ is_some (sets.members_of (option_map seen (option_copied value.entry))) }
{
    match value {
        None | Some(Value::Set(_)) => true,
        Some(_) => false,
    }
}

/// The set that was found, or else the empty one that is lent.
fn set_or<'a>(value: Option<&'a Value>, none: &'a SetVal) -> &'a SetVal
    requires { none.now.members ≡ members.empty }
    ensures { result.now.members ≡ set_in (option_map seen (option_copied value.entry)) }
{
    match value {
        Some(Value::Set(set)) => set,
        _ => none,
    }
}

/// What is combined so far, and the sets of further keys.
fn next_each(
    alloc: Global,
    table: &Table,
    op: Combine,
    so_far: SetVal,
    keys: &[Bin],
    none: &SetVal,
) -> Result<SetVal, NoMemory>
    requires { none.now.members ≡ members.empty }
    ensures { IfOk result (λ made. made.members ≡ folded op so_far.members (map (set_at table.now.keys) keys.now)) }
{
    let mut so_far = so_far;
    'keys: for key in keys {
        so_far = next(alloc, op, so_far, set_or(table.get(key), none))?;
    }
    Ok(so_far)
}
