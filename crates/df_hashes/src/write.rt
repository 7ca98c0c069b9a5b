//! Commands that may change a hash.

ghost use Rattle.std.specs.Prelude.{◌≡◌, [], ◌∷◌, IfOk, Some};
ghost use Rattle.std.specs.FinMap as map;
ghost use Rattle.df_model.specs.Numbers.{counter};
ghost use Rattle.df_model.specs.Meaning.Hashes as rows;
ghost use Rattle.df_values.specs.Prepares.{Makes};
ghost use Rattle.df_hashes.specs.Settles.{Settles};
ghost use Rattle.df_hashes.specs.Counts.{Tells, IsDropCount};

use crate::count::{count_drops, count_puts};
use df_colls::HashVal;
use df_model::{Bin, Bins, ErrorText, NoMemory, Pairs};
use df_text::{parse_i64, push_i64};
use df_values::{Change, Edit, Pieces, Value};
use std::alloc::Global;

/// Puts the pairs, and replies how many fields are new.
pub(crate) fn set(
    alloc: Global,
    pairs: Pairs,
    hash: &mut HashVal,
    reply: &mut Pieces,
) -> Result<Change, NoMemory>
    ensures ok { IfOk result (λ change. Makes (rows.hset pairs.items hash.old.fields) (Some (Value.Hash hash.new)) reply.new change) }
    ensures fields { hash.new.fields ≡ hash.old.fields }
{
    let counted = count_puts(alloc, pairs.as_slice(), hash)?;
    reply.put_count(counted.new)?;
    put(pairs, counted.alters, hash)
}

/// Puts the pairs, and replies OK.
pub(crate) fn mset(
    alloc: Global,
    pairs: Pairs,
    hash: &mut HashVal,
    reply: &mut Pieces,
) -> Result<Change, NoMemory>
    ensures ok { IfOk result (λ change. Makes (rows.hmset pairs.items hash.old.fields) (Some (Value.Hash hash.new)) reply.new change) }
    ensures fields { hash.new.fields ≡ hash.old.fields }
{
    let counted = count_puts(alloc, pairs.as_slice(), hash)?;
    reply.put_ok()?;
    put(pairs, counted.alters, hash)
}

/// Puts a field that is missing, and replies whether it was.
pub(crate) fn setnx(
    alloc: Global,
    field: Bin,
    word: Bin,
    hash: &mut HashVal,
    reply: &mut Pieces,
) -> Result<Change, NoMemory>
    ensures ok { IfOk result (λ change. Makes (rows.hsetnx field word hash.old.fields) (Some (Value.Hash hash.new)) reply.new change) }
    ensures fields { hash.new.fields ≡ hash.old.fields }
{
    if hash.get(field.as_slice()).is_some() {
        reply.put_count(0)?;
        return Ok(Change::Keep);
    }
    reply.put_count(1)?;
    put(pair(alloc, field, word)?, true, hash)
}

/// Raises the number in a field, and replies the sum.
pub(crate) fn incrby(
    alloc: Global,
    field: Bin,
    n: i64,
    hash: &mut HashVal,
    reply: &mut Pieces,
) -> Result<Change, NoMemory>
    ensures ok { IfOk result (λ change. Makes (rows.hincrby field n hash.old.fields) (Some (Value.Hash hash.new)) reply.new change) }
    ensures fields { hash.new.fields ≡ hash.old.fields }
{
    let Some(held) = number(&field, hash) else {
        reply.put_error(&ErrorText::HashNotInteger)?;
        return Ok(Change::Keep);
    };
    let Some(sum) = held.checked_add(n) else {
        reply.put_error(&ErrorText::Overflow)?;
        return Ok(Change::Keep);
    };
    reply.put_int(sum)?;
    let mut text = Vec::new(alloc);
    push_i64(&mut text, sum)?;
    put_one(alloc, field, Bin::from_vec(text), hash)
}

/// The number that the field holds, 0 where it is missing, None where it holds no number.
fn number(field: &Bin, hash: &HashVal) -> Option<i64>
    ensures { result ≡ counter (map.get hash.now.fields field.now) }
{
    match hash.get(field.as_slice()) {
        Some(text) => parse_i64(text.as_slice()),
        None => Some(0),
    }
}

fn put_one(alloc: Global, field: Bin, word: Bin, hash: &mut HashVal) -> Result<Change, NoMemory>
    ensures ok { IfOk result (λ change. Settles (rows.stored (map.insert hash.old.fields field word)) (Some (Value.Hash hash.new)) change) }
    ensures fields { hash.new.fields ≡ hash.old.fields }
{
    let pairs = pair(alloc, field, word)?;
    let counted = count_puts(alloc, pairs.as_slice(), hash)?;
    put(pairs, counted.alters, hash)
}

/// One pair alone.
fn pair(alloc: Global, field: Bin, word: Bin) -> Result<Pairs, NoMemory>
    ensures { IfOk result (λ pairs. pairs.items ≡ (field, word) ∷ []) }
{
    let mut pairs = Pairs::new(alloc);
    pairs.reserve(1)?;
    pairs.push((field, word));
    Ok(pairs)
}

/// The change that puts the pairs, and room for them. Whether they alter the hash is known.
fn put(pairs: Pairs, alters: bool, hash: &mut HashVal) -> Result<Change, NoMemory>
    requires { Tells alters hash.old.fields (rows.with_fields pairs.items hash.old.fields) }
    ensures ok { IfOk result (λ change. Settles (rows.stored (rows.with_fields pairs.items hash.old.fields)) (Some (Value.Hash hash.new)) change) }
    ensures fields { hash.new.fields ≡ hash.old.fields }
{
    if alters {
        hash.reserve(pairs.len())?;
        return Ok(Change::Edit(Edit::PutFields(pairs)));
    }
    if hash.is_empty() {
        return Ok(Change::Delete);
    }
    Ok(Change::Keep)
}

/// Removes fields, and replies how many of them were there.
pub(crate) fn del(
    alloc: Global,
    words: Bins,
    hash: &HashVal,
    reply: &mut Pieces,
) -> Result<Change, NoMemory>
    ensures { IfOk result (λ change. Makes (rows.hdel words.items hash.now.fields) (Some (Value.Hash hash.now)) reply.new change) }
{
    let gone = count_drops(alloc, words.as_slice(), hash)?;
    reply.put_count(gone)?;
    Ok(drop_change(words, gone, hash))
}

/// The change that removes the fields, so many of which are there.
fn drop_change(words: Bins, gone: usize, hash: &HashVal) -> Change
    requires { IsDropCount gone words.items hash.now.fields }
    ensures { Settles (rows.stored (rows.without_fields words.items hash.now.fields)) (Some (Value.Hash hash.now)) result }
{
    if gone == hash.len() {
        return Change::Delete;
    }
    if gone == 0 {
        return Change::Keep;
    }
    Change::Edit(Edit::DropFields(words))
}
