//! Which function does a command, and what a missing key and another kind of value are to it.

ghost use Rattle.std.specs.Prelude.{◌≡◌, Some, None, IfOk};
ghost use Rattle.df_model.specs.Families.{family_of};
ghost use Rattle.df_model.specs.Outcomes.{outcome};
ghost use Rattle.df_model.specs.Meaning.{one};
ghost use Rattle.df_model.specs.Replies.{encoding_of};
ghost use Rattle.df_model.specs.Values as plain;
ghost use Rattle.df_model.specs.declared.reply.Reply.TheVariants.{Error as ErrorReply};
ghost use Rattle.df_values.specs.Edits.{Fits};
ghost use Rattle.df_values.specs.Lent.{lent, left};
ghost use Rattle.df_values.specs.Prepares.{Makes};
ghost use Rattle.df_values.specs.Seen.{seen, seen_held};
ghost use Rattle.df_hashes.specs.Serves.{Serves};
ghost use Rattle.df_hashes.specs.Settles.{IsPutFresh};

use crate::look::look;
use crate::write::{del, incrby, mset, set, setnx};
use df_colls::HashVal;
use df_model::{ErrorText, NoMemory, OneOp};
use df_values::{Change, Pieces, Value};
use std::alloc::Global;

/// Makes a command ready: its reply takes the place of what stood in `reply`, and what becomes of the key is
/// answered, with all memory that it takes. The op may be emptied, since words that are stored are moved out. At
/// want of memory nothing is said of the reply and the op, and of the value only spare room changed.
pub fn prepare_into(
    alloc: Global,
    op: &mut OneOp,
    value: Option<&mut Value>,
    reply: &mut Pieces,
) -> Result<Change, NoMemory>
    requires { Serves (family_of op.old) }
    ensures ok { IfOk result (λ change. Makes (outcome (one op.old) (seen_held (lent value.entry))) (left value.exit) reply.new change) }
    ensures kept { seen_held (left value.exit) ≡ seen_held (lent value.entry) }
{
    match value {
        None => on_missing(alloc, op, reply),
        Some(value) => on_held(alloc, op, value, reply),
    }
}

fn on_held(
    alloc: Global,
    op: &mut OneOp,
    value: &mut Value,
    reply: &mut Pieces,
) -> Result<Change, NoMemory>
    requires { Serves (family_of op.old) }
    ensures ok { IfOk result (λ change. Makes (outcome (one op.old) (Some (seen value.old))) (Some value.new) reply.new change) }
    ensures kept { seen value.new ≡ seen value.old }
{
    match value {
        Value::Hash(hash) => on_hash(alloc, op, hash, reply),
        _ => on_other(reply),
    }
}

/// A missing key is an empty hash.
fn on_missing(alloc: Global, op: &mut OneOp, reply: &mut Pieces) -> Result<Change, NoMemory>
    requires { Serves (family_of op.old) }
    ensures { IfOk result (λ change. Makes (outcome (one op.old) None) None reply.new change) }
{
    let mut hash = HashVal::new(alloc);
    let change = on_hash(alloc, op, &mut hash, reply)?;
    Ok(put_fresh(change, hash))
}

fn on_hash(
    alloc: Global,
    op: &mut OneOp,
    hash: &mut HashVal,
    reply: &mut Pieces,
) -> Result<Change, NoMemory>
    requires { Serves (family_of op.old) }
    ensures ok { IfOk result (λ change. Makes (outcome (one op.old) (Some (plain.Value.Hash hash.old.fields))) (Some (Value.Hash hash.new)) reply.new change) }
    ensures kept { hash.new.fields ≡ hash.old.fields }
{
    match op {
        OneOp::Hset(pairs) => set(alloc, pairs.take(), hash, reply),
        OneOp::Hmset(pairs) => mset(alloc, pairs.take(), hash, reply),
        OneOp::Hsetnx(field, word) => setnx(alloc, field.take(), word.take(), hash, reply),
        OneOp::Hdel(words) => del(alloc, words.take(), hash, reply),
        // The number first, since no pattern lends the field and copies what stands behind it.
        &mut OneOp::Hincrby(_, n) => match op {
            OneOp::Hincrby(field, _) => incrby(alloc, field.take(), n, hash, reply),
            _ => unreachable!(),
        },
        _ => {
            look(op, hash, reply)?;
            Ok(Change::Keep)
        }
    }
}

/// Another kind of value is refused, whatever the command.
fn on_other(reply: &mut Pieces) -> Result<Change, NoMemory>
    ensures { IfOk result (λ change. (reply.new ≡ encoding_of (ErrorReply ErrorText.WrongKind)) × (change ≡ Change.Keep)) }
{
    reply.put_error(&ErrorText::WrongKind)?;
    Ok(Change::Keep)
}

/// What a change of this hash is, where the key holds nothing yet.
fn put_fresh(change: Change, hash: HashVal) -> Change
    requires { Fits change (Some (Value.Hash hash)) }
    ensures { IsPutFresh change (Value.Hash hash) result }
{
    match change {
        Change::Edit(edit) => {
            let mut value = Value::Hash(hash);
            edit.apply(&mut value);
            Change::Put(value)
        }
        Change::Put(value) => Change::Put(value),
        _ => Change::Keep,
    }
}
