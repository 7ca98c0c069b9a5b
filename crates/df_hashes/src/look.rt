//! Commands that only look at a hash.

ghost use Rattle.std.specs.Prelude.{◌≡◌, ◌++◌, Some, OnOk};
ghost use Rattle.std.specs.FinMap as map;
ghost use Rattle.df_model.specs.Meaning.{one};
ghost use Rattle.df_model.specs.Meaning.Hashes as rows;
ghost use Rattle.df_model.specs.Outcomes.{outcome, bulk_or_null};
ghost use Rattle.df_model.specs.Replies.{encoding_of};
ghost use Rattle.df_model.specs.Values as plain;
ghost use Rattle.df_hashes.specs.Looks.{IsLook};

use crate::listing::{Part, list};
use df_colls::HashVal;
use df_model::{Bin, NoMemory, OneOp};
use df_values::Pieces;

/// Writes what a command is to answer that only looks.
pub(crate) fn look(op: &OneOp, hash: &HashVal, reply: &mut Pieces) -> Result<(), NoMemory>
    requires { IsLook op.now }
    ensures { OnOk result (reply.new ≡ encoding_of (outcome (one op.now) (Some (plain.Value.Hash hash.now.fields))).0) }
{
    match op {
        OneOp::Hget(field) => get(field, hash, reply),
        OneOp::Hmget(words) => mget(words.as_slice(), hash, reply),
        OneOp::Hlen => reply.put_count(hash.len()),
        OneOp::Hexists(field) => exists(field, hash, reply),
        OneOp::Hstrlen(field) => strlen(field, hash, reply),
        OneOp::Hkeys => list(Part::Fields, hash, reply),
        OneOp::Hvals => list(Part::Words, hash, reply),
        OneOp::Hgetall => list(Part::Both, hash, reply),
        _ => unreachable!(),
    }
}

fn get(field: &Bin, hash: &HashVal, reply: &mut Pieces) -> Result<(), NoMemory>
    ensures { OnOk result (reply.new ≡ encoding_of (rows.hget field.now hash.now.fields)) }
{
    match hash.get(field.as_slice()) {
        Some(word) => reply.put_bulk(word.as_slice()),
        None => reply.put_null(),
    }
}

fn mget(fields: &[Bin], hash: &HashVal, reply: &mut Pieces) -> Result<(), NoMemory>
    ensures { OnOk result (reply.new ≡ encoding_of (rows.hmget fields.now hash.now.fields)) }
{
    reply.put_array_head(fields.len())?;
    'fields: for field in fields {
        add_held(field, hash, reply)?;
    }
    Ok(())
}

/// Adds what the field holds.
fn add_held(field: &Bin, hash: &HashVal, reply: &mut Pieces) -> Result<(), NoMemory>
    ensures { OnOk result (reply.new ≡ reply.old ++ encoding_of (bulk_or_null (map.get hash.now.fields field.now))) }
{
    match hash.get(field.as_slice()) {
        Some(word) => reply.add_bulk(word.as_slice()),
        None => reply.add_null(),
    }
}

fn exists(field: &Bin, hash: &HashVal, reply: &mut Pieces) -> Result<(), NoMemory>
    ensures { OnOk result (reply.new ≡ encoding_of (rows.hexists field.now hash.now.fields)) }
{
    match hash.get(field.as_slice()) {
        Some(_) => reply.put_count(1),
        None => reply.put_count(0),
    }
}

/// How long what the field holds is.
fn strlen(field: &Bin, hash: &HashVal, reply: &mut Pieces) -> Result<(), NoMemory>
    ensures { OnOk result (reply.new ≡ encoding_of (rows.hstrlen field.now hash.now.fields)) }
{
    match hash.get(field.as_slice()) {
        Some(word) => reply.put_count(word.len()),
        None => reply.put_count(0),
    }
}
