//! SMOVE: a member that goes from a set to a set.
//!
//! What if memory runs out? As with lists, the sets are taken out of the table, and put back as they were.

ghost use Rattle.std.specs.Prelude.{◌≡◌, ◌+◌, ◌<◌, ◌≤◌, ◌++◌, None, Some, is_some, true, false, IsTrue, OnOk, OnErr};
ghost use Rattle.std.specs.Option.{option_copied, option_map};
ghost use Rattle.df_model.specs.Keyspace.{held, with_held};
ghost use Rattle.df_model.specs.Meaning.Sets as sets;
ghost use Rattle.df_model.specs.Words.{same};
ghost use Rattle.df_values.specs.Seen.{seen};
ghost use Rattle.df_table.specs.Joined.{Has, IsSeen, Joins, put_as};
ghost use Rattle.df_table.specs.Responses.{Gives};

use crate::table::Table;
use df_colls::SetVal;
use df_model::{Bin, ErrorText, NoMemory};
use df_values::{Pieces, Value};
use std::alloc::Global;

/// What SMOVE finds at a key.
#[derive(Clone, Copy, Debug)]
pub enum SetHere {
    Missing,
    /// A set that has the member.
    With,
    /// A set that hasn't.
    Without,
    /// A value of another kind.
    Other,
}

/// SMOVE.
pub fn smove(
    alloc: Global,
    table: &mut Table,
    source: Bin,
    destination: Bin,
    member: Bin,
    reply: &mut Pieces,
) -> Result<(), NoMemory>
    ensures ok { OnOk result (Gives (sets.smove source destination member table.old.keys) table.new.keys reply.new) }
    ensures keys { OnErr result (table.new.keys ≡ table.old.keys) }
    ensures kept { table.new.kept ≡ table.old.kept }
{
    match look(table.get(&source), &member) {
        SetHere::Missing => reply.put_count(0),
        SetHere::Other => reply.put_error(&ErrorText::WrongKind),
        SetHere::Without => answer_without(table, source, destination, member, reply),
        SetHere::With => move_from(alloc, table, source, destination, member, reply),
    }
}

fn look(value: Option<&Value>, member: &Bin) -> SetHere
    ensures { IsSeen result member.now (option_map seen (option_copied value.entry)) }
{
    match value {
        Some(Value::Set(set)) => {
            if set.has(member.as_slice()) {
                SetHere::With
            } else {
                SetHere::Without
            }
        }
        Some(_) => SetHere::Other,
        None => SetHere::Missing,
    }
}

/// Answers where the source hasn't the member.
fn answer_without(
    table: &mut Table,
    source: Bin,
    destination: Bin,
    member: Bin,
    reply: &mut Pieces,
) -> Result<(), NoMemory>
    requires { Has false member (held table.old.keys source) }
    ensures ok { OnOk result (Gives (sets.smove source destination member table.old.keys) table.new.keys reply.new) }
    ensures keys { OnErr result (table.new.keys ≡ table.old.keys) }
    ensures kept { table.new.kept ≡ table.old.kept }
{
    match look(table.get(&destination), &member) {
        SetHere::Other => reply.put_error(&ErrorText::WrongKind),
        _ => reply.put_count(0),
    }
}

/// Moves the member where the source has it.
fn move_from(
    alloc: Global,
    table: &mut Table,
    source: Bin,
    destination: Bin,
    member: Bin,
    reply: &mut Pieces,
) -> Result<(), NoMemory>
    requires { Has true member (held table.old.keys source) }
    ensures ok { OnOk result (Gives (sets.smove source destination member table.old.keys) table.new.keys reply.new) }
    ensures keys { OnErr result (table.new.keys ≡ table.old.keys) }
    ensures kept { table.new.kept ≡ table.old.kept }
{
    if source == destination {
        return reply.put_count(1);
    }
    match look(table.get(&destination), &member) {
        SetHere::Other => reply.put_error(&ErrorText::WrongKind),
        _ => send(alloc, table, source, destination, member, reply),
    }
}

/// Moves the member from one key's set to that of another.
fn send(
    alloc: Global,
    table: &mut Table,
    source: Bin,
    destination: Bin,
    member: Bin,
    reply: &mut Pieces,
) -> Result<(), NoMemory>
    requires has { Has true member (held table.old.keys source) }
    requires set { IsTrue (is_some (sets.members_of (held table.old.keys destination))) }
    requires apart { same source destination ≡ false }
    ensures ok { OnOk result (Gives (sets.smove source destination member table.old.keys) table.new.keys reply.new) }
    ensures keys { OnErr result (table.new.keys ≡ table.old.keys) }
    ensures kept { table.new.kept ≡ table.old.kept }
{
    table.reserve(2)?;
    let there = table.has(&destination);
    let mut left = take_set(alloc, table, &source);
    let mut received = take_set(alloc, table, &destination);
    let result = pass(&mut left, &mut received, member, reply);
    put_set(table, source, left, false);
    put_set(table, destination, received, there);
    result
}

/// Takes the set out of the table. A missing key holds an empty one.
fn take_set(alloc: Global, table: &mut Table, key: &Bin) -> SetVal
    requires { IsTrue (is_some (sets.members_of (held table.old.keys key.now))) }
    ensures keys { table.new.keys ≡ with_held table.old.keys key.now None }
    ensures set { sets.members_of (held table.old.keys key.now) ≡ Some result.members }
    ensures spare { table.old.spare ≤ table.new.spare }
    ensures kept { table.new.kept ≡ table.old.kept }
{
    match table.remove(key) {
        Some(Value::Set(set)) => set,
        Some(_) => unreachable!(),
        None => SetVal::new(alloc),
    }
}

/// Puts a set under a key that holds nothing; an empty one only where it is to be kept. Takes no memory.
fn put_set(table: &mut Table, key: Bin, set: SetVal, keep: bool)
    requires free { held table.old.keys key ≡ None }
    requires room { 0 < table.old.spare }
    ensures keys { table.new.keys ≡ with_held table.old.keys key (put_as keep set.members) }
    ensures spare { table.old.spare ≤ table.new.spare + 1 }
    ensures kept { table.new.kept ≡ table.old.kept }
{
    if !keep && set.is_empty() {
        return;
    }
    table.put(key, Value::Set(set));
}

/// Moves the member from a set to another.
fn pass(
    source: &mut SetVal,
    destination: &mut SetVal,
    member: Bin,
    reply: &mut Pieces,
) -> Result<(), NoMemory>
    ensures ok { OnOk result (Joins member source.old.members source.new.members destination.old.members destination.new.members reply.new) }
    ensures kept { OnErr result ((source.new.members ≡ source.old.members) × (destination.new.members ≡ destination.old.members)) }
{
    destination.reserve(1)?;
    reply.put_count(1)?;
    source.remove(member.as_slice());
    destination.add(member);
    Ok(())
}
