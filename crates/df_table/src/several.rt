//! Commands of several keys on keys of any kind, and on strings.
//!
//! Each runs on the one table, where its row on the whole keyspace says the same as its row on the keys that
//! it names. What if memory runs out? All of it is taken before the first key changes: room for new keys
//! and for the reply's bytes.

ghost use Rattle.std.specs.Prelude.{◌≡◌, ◌<◌, ◌≤◌, ◌++◌, length, is_some, IsTrue, OnOk, OnErr};
ghost use Rattle.std.specs.Option.{option_copied, option_map};
ghost use Rattle.df_model.specs.Keyspace.{held};
ghost use Rattle.df_model.specs.Meaning.Any as any;
ghost use Rattle.df_model.specs.Meaning.Strings as strings;
ghost use Rattle.df_model.specs.Replies.{encoding_of};
ghost use Rattle.df_model.specs.declared.reply.Reply.{Reply};
ghost use Rattle.df_values.specs.Seen.{seen};
ghost use Rattle.df_table.specs.Responses.{Gives};

use crate::table::Table;
use df_model::{Bin, ErrorText, NoMemory, Pairs};
use df_values::{Pieces, StrVal, Value};

/// DEL and UNLINK. The count takes no memory, since it is known only once the keys are gone.
pub fn del(table: &mut Table, words: &[Bin], reply: &mut Pieces)
    ensures gives { Gives (any.del words.now table.old.keys) table.new.keys reply.new }
    ensures kept { table.new.kept ≡ table.old.kept }
{
    let before = table.len();
    'words: for word in words {
        let _value = table.remove(word);
    }
    reply.put_count_in_place(before - table.len());
}

/// EXISTS. A repeated key counts again.
pub fn exists(table: &Table, words: &[Bin], reply: &mut Pieces) -> Result<(), NoMemory>
    ensures { OnOk result (reply.new ≡ encoding_of (any.exists words.now table.now.keys)) }
{
    reply.put_count(count_present(table, words))
}

fn count_present(table: &Table, words: &[Bin]) -> usize
    ensures { result ≡ any.present table.now.keys words.now }
{
    let mut count = 0;
    'words: for word in words {
        if table.has(word) {
            count += 1;
        }
    }
    count
}

/// MGET. Another kind of value counts as none.
pub fn mget(table: &Table, words: &[Bin], reply: &mut Pieces) -> Result<(), NoMemory>
    ensures { OnOk result (reply.new ≡ encoding_of (strings.mget words.now table.now.keys)) }
{
    reply.put_array_head(words.len())?;
    'words: for word in words {
        add_string(table.get(word), reply)?;
    }
    Ok(())
}

fn add_string(value: Option<&Value>, reply: &mut Pieces) -> Result<(), NoMemory>
    ensures { OnOk result (reply.new ≡ reply.old ++ encoding_of (strings.string_or_null (option_map seen (option_copied value.entry)))) }
{
    match value {
        Some(Value::Str(text)) => reply.add_bulk(text.as_slice()),
        _ => reply.add_null(),
    }
}

/// MSET.
pub fn mset(table: &mut Table, pairs: Pairs, reply: &mut Pieces) -> Result<(), NoMemory>
    ensures ok { OnOk result (Gives (strings.mset pairs.items table.old.keys) table.new.keys reply.new) }
    ensures keys { OnErr result (table.new.keys ≡ table.old.keys) }
    ensures kept { table.new.kept ≡ table.old.kept }
{
    table.reserve(pairs.len())?;
    reply.put_ok()?;
    put_strings(table, pairs);
    Ok(())
}

/// MSETNX: all or nothing.
pub fn msetnx(table: &mut Table, pairs: Pairs, reply: &mut Pieces) -> Result<(), NoMemory>
    ensures ok { OnOk result (Gives (strings.msetnx pairs.items table.old.keys) table.new.keys reply.new) }
    ensures keys { OnErr result (table.new.keys ≡ table.old.keys) }
    ensures kept { table.new.kept ≡ table.old.kept }
{
    if any_present(table, pairs.as_slice()) {
        return reply.put_count(0);
    }
    table.reserve(pairs.len())?;
    reply.put_count(1)?;
    put_strings(table, pairs);
    Ok(())
}

fn any_present(table: &Table, pairs: &[(Bin, Bin)]) -> bool
    ensures { result ≡ strings.any_held table.now.keys pairs.now }
{
    'pairs: for pair in pairs {
        if table.has(&pair.0) {
            return true;
        }
    }
    false
}

/// Puts the pairs in order. Takes no memory.
fn put_strings(table: &mut Table, pairs: Pairs)
    requires { length pairs.items ≤ table.old.spare }
    ensures keys { table.new.keys ≡ strings.with_strings pairs.items table.old.keys }
    ensures kept { table.new.kept ≡ table.old.kept }
{
    let pairs = pairs.into_vec();
    'pairs: for (key, value) in pairs {
        table.put(key, Value::Str(StrVal::from_bin(value)));
    }
}

/// RENAME. Onto itself a key stays.
pub fn rename(
    table: &mut Table,
    source: Bin,
    destination: Bin,
    reply: &mut Pieces,
) -> Result<(), NoMemory>
    ensures ok { OnOk result (Gives (any.rename source destination table.old.keys) table.new.keys reply.new) }
    ensures keys { OnErr result (table.new.keys ≡ table.old.keys) }
    ensures kept { table.new.kept ≡ table.old.kept }
{
    if !table.has(&source) {
        return reply.put_error(&ErrorText::NoSuchKey);
    }
    // Onto itself a key is moved too, and stays.
    table.reserve(1)?;
    reply.put_ok()?;
    move_value(table, source, destination);
    Ok(())
}

/// RENAMENX.
pub fn renamenx(
    table: &mut Table,
    source: Bin,
    destination: Bin,
    reply: &mut Pieces,
) -> Result<(), NoMemory>
    ensures ok { OnOk result (Gives (any.renamenx source destination table.old.keys) table.new.keys reply.new) }
    ensures keys { OnErr result (table.new.keys ≡ table.old.keys) }
    ensures kept { table.new.kept ≡ table.old.kept }
{
    if !table.has(&source) {
        return reply.put_error(&ErrorText::NoSuchKey);
    }
    if table.has(&destination) {
        return reply.put_count(0);
    }
    table.reserve(1)?;
    reply.put_count(1)?;
    move_value(table, source, destination);
    Ok(())
}

/// Lets the destination hold what the source held. Takes no memory, and moves the value.
fn move_value(table: &mut Table, source: Bin, destination: Bin)
    requires there { IsTrue (is_some (held table.old.keys source)) }
    requires room { 0 < table.old.spare }
    ensures keys { (reply : Reply) → table.new.keys ≡ (any.moved source destination reply (held table.old.keys source) table.old.keys).1 }
    ensures kept { table.new.kept ≡ table.old.kept }
{
    match table.remove(&source) {
        Some(value) => table.put(destination, value),
        None => unreachable!(),
    }
}
