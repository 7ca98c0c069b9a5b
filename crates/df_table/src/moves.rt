//! Commands that move an element from a list to a list.
//!
//! What if memory runs out? The lists are taken out of the table, and put back as they were: room for keys is
//! taken before, and the keys' own room stays. The element itself is moved.

ghost use Rattle.std.specs.Prelude.{◌≡◌, ◌+◌, ◌<◌, ◌≤◌, ◌∷◌, ◌++◌, Some, None, length, is_some, false, IsTrue, OnOk, OnErr, slice_get};
ghost use Rattle.std.specs.Option.{option_copied, option_map};
ghost use Rattle.df_model.specs.Keyspace.{held, with_held};
ghost use Rattle.df_model.specs.Meaning.Lists as lists;
ghost use Rattle.df_model.specs.Outcomes.{bulk_or_null};
ghost use Rattle.df_model.specs.Replies.{encoding_of};
ghost use Rattle.df_model.specs.Words.{same};
ghost use Rattle.df_values.specs.Seen.{seen};
ghost use Rattle.df_table.specs.Moved.{IsFilled, IsSeen, Passes, Turns, put_as};
ghost use Rattle.df_table.specs.Responses.{Gives};

use crate::table::Table;
use df_list::ListVal;
use df_model::{Bin, ErrorText, NoMemory, Side};
use df_values::{Pieces, Value};
use std::alloc::Global;

/// What a command on lists finds at a key.
#[derive(Clone, Copy, Debug)]
pub enum ListHere {
    /// No list, or one without elements.
    Empty,
    Filled,
    /// A value of another kind.
    Other,
}

/// LMOVE. On one key the list is turned.
pub fn lmove(
    alloc: Global,
    table: &mut Table,
    source: Bin,
    destination: Bin,
    from: Side,
    to: Side,
    reply: &mut Pieces,
) -> Result<(), NoMemory>
    ensures ok { OnOk result (Gives (lists.lmove source destination from to table.old.keys) table.new.keys reply.new) }
    ensures keys { OnErr result (table.new.keys ≡ table.old.keys) }
    ensures kept { table.new.kept ≡ table.old.kept }
{
    match look(table.get(&source)) {
        ListHere::Empty => reply.put_null(),
        ListHere::Other => reply.put_error(&ErrorText::WrongKind),
        ListHere::Filled => move_from(alloc, table, source, destination, from, to, reply),
    }
}

/// RPOPLPUSH.
pub fn rpoplpush(
    alloc: Global,
    table: &mut Table,
    source: Bin,
    destination: Bin,
    reply: &mut Pieces,
) -> Result<(), NoMemory>
    ensures ok { OnOk result (Gives (lists.rpoplpush source destination table.old.keys) table.new.keys reply.new) }
    ensures keys { OnErr result (table.new.keys ≡ table.old.keys) }
    ensures kept { table.new.kept ≡ table.old.kept }
{
    lmove(
        alloc,
        table,
        source,
        destination,
        Side::Right,
        Side::Left,
        reply,
    )
}

fn look(value: Option<&Value>) -> ListHere
    ensures { IsSeen result (option_map seen (option_copied value.entry)) }
{
    match value {
        Some(Value::List(list)) => {
            if list.is_empty() {
                ListHere::Empty
            } else {
                ListHere::Filled
            }
        }
        Some(_) => ListHere::Other,
        None => ListHere::Empty,
    }
}

/// Moves an element where the source has one.
fn move_from(
    alloc: Global,
    table: &mut Table,
    source: Bin,
    destination: Bin,
    from: Side,
    to: Side,
    reply: &mut Pieces,
) -> Result<(), NoMemory>
    requires { IsFilled (held table.old.keys source) }
    ensures ok { OnOk result (Gives (lists.lmove source destination from to table.old.keys) table.new.keys reply.new) }
    ensures keys { OnErr result (table.new.keys ≡ table.old.keys) }
    ensures kept { table.new.kept ≡ table.old.kept }
{
    if source == destination {
        return turn_at(alloc, table, source, from, to, reply);
    }
    match look(table.get(&destination)) {
        ListHere::Other => reply.put_error(&ErrorText::WrongKind),
        _ => send(alloc, table, source, destination, from, to, reply),
    }
}

/// Turns the list that the key holds.
fn turn_at(
    alloc: Global,
    table: &mut Table,
    key: Bin,
    from: Side,
    to: Side,
    reply: &mut Pieces,
) -> Result<(), NoMemory>
    requires { IsFilled (held table.old.keys key) }
    ensures ok { OnOk result (Gives (lists.lmove key key from to table.old.keys) table.new.keys reply.new) }
    ensures keys { OnErr result (table.new.keys ≡ table.old.keys) }
    ensures kept { table.new.kept ≡ table.old.kept }
{
    table.reserve(1)?;
    let mut list = take_list(alloc, table, &key);
    let result = turn(&mut list, from, to, reply);
    put_list(table, key, list, true);
    result
}

/// Moves an element from one key's list to that of another.
fn send(
    alloc: Global,
    table: &mut Table,
    source: Bin,
    destination: Bin,
    from: Side,
    to: Side,
    reply: &mut Pieces,
) -> Result<(), NoMemory>
    requires filled { IsFilled (held table.old.keys source) }
    requires list { IsTrue (is_some (lists.elements (held table.old.keys destination))) }
    requires apart { same source destination ≡ false }
    ensures ok { OnOk result (Gives (lists.lmove source destination from to table.old.keys) table.new.keys reply.new) }
    ensures keys { OnErr result (table.new.keys ≡ table.old.keys) }
    ensures kept { table.new.kept ≡ table.old.kept }
{
    table.reserve(2)?;
    let there = table.has(&destination);
    let mut left = take_list(alloc, table, &source);
    let mut received = take_list(alloc, table, &destination);
    let result = pass(&mut left, &mut received, from, to, reply);
    put_list(table, source, left, false);
    put_list(table, destination, received, there);
    result
}

/// Takes the list out of the table. A missing key holds an empty one.
fn take_list(alloc: Global, table: &mut Table, key: &Bin) -> ListVal
    requires { IsTrue (is_some (lists.elements (held table.old.keys key.now))) }
    ensures keys { table.new.keys ≡ with_held table.old.keys key.now None }
    ensures list { lists.elements (held table.old.keys key.now) ≡ Some result.items }
    ensures spare { table.old.spare ≤ table.new.spare }
    ensures kept { table.new.kept ≡ table.old.kept }
{
    match table.remove(key) {
        Some(Value::List(list)) => list,
        Some(_) => unreachable!(),
        None => ListVal::new(alloc),
    }
}

/// Puts a list under a key that holds nothing; an empty one only where it is to be kept. Takes no memory.
fn put_list(table: &mut Table, key: Bin, list: ListVal, keep: bool)
    requires free { held table.old.keys key ≡ None }
    requires room { 0 < table.old.spare }
    ensures keys { table.new.keys ≡ with_held table.old.keys key (put_as keep list.items) }
    ensures spare { table.old.spare ≤ table.new.spare + 1 }
    ensures kept { table.new.kept ≡ table.old.kept }
{
    if !keep && list.is_empty() {
        return;
    }
    table.put(key, Value::List(list));
}

/// Moves an element from an end of a list to an end of another.
fn pass(
    source: &mut ListVal,
    destination: &mut ListVal,
    from: Side,
    to: Side,
    reply: &mut Pieces,
) -> Result<(), NoMemory>
    requires { 0 < length source.old.items }
    ensures ok { OnOk result (Passes from to source.old.items source.new.items destination.old.items destination.new.items reply.new) }
    ensures kept { OnErr result ((source.new.items ≡ source.old.items) × (destination.new.items ≡ destination.old.items)) }
{
    destination.reserve(1)?;
    put_end(source, from, reply)?;
    let element = pop(source, from);
    push(destination, to, element);
    Ok(())
}

/// Moves an element from one end of a list to an end of it.
fn turn(list: &mut ListVal, from: Side, to: Side, reply: &mut Pieces) -> Result<(), NoMemory>
    requires { 0 < length list.old.items }
    ensures ok { OnOk result (Turns from to list.old.items list.new.items reply.new) }
    ensures kept { OnErr result (list.new.items ≡ list.old.items) }
{
    list.reserve(1)?;
    put_end(list, from, reply)?;
    let element = pop(list, from);
    push(list, to, element);
    Ok(())
}

/// The element at this end, as the reply.
fn put_end(list: &ListVal, from: Side, reply: &mut Pieces) -> Result<(), NoMemory>
    requires { 0 < length list.now.items }
    ensures { OnOk result (reply.new ≡ encoding_of (bulk_or_null (slice_get (lists.taken from list.now.items) 0))) }
{
    match end_of(list, from) {
        Some(element) => reply.put_bulk(element.as_slice()),
        None => reply.put_null(),
    }
}

fn end_of(list: &ListVal, from: Side) -> Option<&Bin>
    requires { 0 < length list.now.items }
    ensures { option_copied result ≡ slice_get (lists.taken from list.now.items) 0 }
{
    match from {
        Side::Left => list.get(0),
        Side::Right => list.get(list.len() - 1),
    }
}

fn pop(list: &mut ListVal, from: Side) -> Bin
    requires { 0 < length list.old.items }
    ensures items { lists.taken from list.old.items ≡ result ∷ lists.taken from list.new.items }
    ensures spare { list.old.spare ≤ list.new.spare }
{
    let element = match from {
        Side::Left => list.pop_front(),
        Side::Right => list.pop_back(),
    };
    match element {
        Some(element) => element,
        None => unreachable!(),
    }
}

/// Takes no memory.
fn push(list: &mut ListVal, to: Side, element: Bin)
    requires { 0 < list.old.spare }
    ensures { list.new.items ≡ lists.given to element list.old.items }
{
    match to {
        Side::Left => list.push_front(element),
        Side::Right => list.push_back(element),
    }
}
