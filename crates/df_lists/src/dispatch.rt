//! What is held is told apart, then the command.

ghost use Rattle.std.specs.Prelude.{◌≡◌, [], IfOk, OnOk, Some, None};
ghost use Rattle.df_model.specs.Values as plain;
ghost use Rattle.df_model.specs.Families.{family_of};
ghost use Rattle.df_model.specs.Meaning.{one};
ghost use Rattle.df_model.specs.Outcomes.{outcome, bulks};
ghost use Rattle.df_model.specs.Replies.{encoding_of};
ghost use Rattle.df_values.specs.Lent.{lent, left};
ghost use Rattle.df_values.specs.Prepares.{Makes};
ghost use Rattle.df_values.specs.Seen.{seen, seen_held};
ghost use Rattle.df_lists.specs.Serves.{Serves, MakesOn};

use crate::look::{lindex, llen, lrange};
use crate::place_in::{linsert, lset};
use crate::pop::pop;
use crate::push::{push, push_to_nothing, pushx};
use crate::removal::{lrem, ltrim};
use df_list::ListVal;
use df_model::{ErrorText, NoMemory, OneOp, Side};
use df_values::{Change, Pieces, Value};
use std::alloc::Global;

/// Makes a command ready on what its key holds. The reply takes the place of the bytes that stood in `reply`.
/// The op may be emptied, since its words are moved out. At want of memory nothing is said of the reply and the
/// op, and of the value only spare room changed.
pub fn prepare_into(
    alloc: Global,
    op: &mut OneOp,
    value: Option<&mut Value>,
    reply: &mut Pieces,
) -> Result<Change, NoMemory>
    requires { Serves (family_of op.old) }
    ensures ok { IfOk result (λ change. Makes (outcome (one op.old) (seen_held (lent value.entry))) (left value.exit) reply.new change) }
    ensures kept { seen_held (left value.exit) ≡ seen_held (lent value.entry) }
{
    match value {
        None => on_missing(alloc, op, reply),
        Some(value) => on_held(op, value, reply),
    }
}

fn on_held(op: &mut OneOp, value: &mut Value, reply: &mut Pieces) -> Result<Change, NoMemory>
    requires { Serves (family_of op.old) }
    ensures ok { IfOk result (λ change. Makes (outcome (one op.old) (Some (seen value.old))) (Some value.new) reply.new change) }
    ensures kept { seen value.new ≡ seen value.old }
{
    match value {
        Value::List(list) => on_list(op, list, reply),
        _ => {
            reply.put_error(&ErrorText::WrongKind)?;
            Ok(Change::Keep)
        }
    }
}

fn on_missing(alloc: Global, op: &mut OneOp, reply: &mut Pieces) -> Result<Change, NoMemory>
    requires { Serves (family_of op.old) }
    ensures { IfOk result (λ change. Makes (outcome (one op.old) None) None reply.new change) }
{
    match op {
        OneOp::Lpush(words) => return push_to_nothing(alloc, Side::Left, words.take(), reply),
        OneOp::Rpush(words) => return push_to_nothing(alloc, Side::Right, words.take(), reply),
        OneOp::Lpop(None) | OneOp::Rpop(None) | OneOp::Lindex(_) => reply.put_null()?,
        OneOp::Lpop(Some(_)) | OneOp::Rpop(Some(_)) => reply.put_null_array()?,
        OneOp::Lpushx(_)
        | OneOp::Rpushx(_)
        | OneOp::Llen
        | OneOp::Linsert(_, _, _)
        | OneOp::Lrem(_, _) => reply.put_count(0)?,
        OneOp::Lrange(_, _) => no_elements(reply)?,
        OneOp::Lset(_, _) => reply.put_error(&ErrorText::NoSuchKey)?,
        OneOp::Ltrim(_, _) => reply.put_ok()?,
        _ => unreachable!(),
    }
    Ok(Change::Keep)
}

fn on_list(op: &mut OneOp, list: &mut ListVal, reply: &mut Pieces) -> Result<Change, NoMemory>
    requires { Serves (family_of op.old) }
    ensures ok { IfOk result (λ change. MakesOn (outcome (one op.old) (Some (plain.Value.Elements list.old.items))) list.new reply.new change) }
    ensures kept { list.new.items ≡ list.old.items }
{
    match op {
        OneOp::Lpush(words) => return push(Side::Left, words.take(), list, reply),
        OneOp::Rpush(words) => return push(Side::Right, words.take(), list, reply),
        OneOp::Lpushx(words) => return pushx(Side::Left, words.take(), list, reply),
        OneOp::Rpushx(words) => return pushx(Side::Right, words.take(), list, reply),
        OneOp::Lpop(count) => return pop(Side::Left, *count, list, reply),
        OneOp::Rpop(count) => return pop(Side::Right, *count, list, reply),
        OneOp::Llen => llen(list, reply)?,
        &mut OneOp::Lrange(from, to) => lrange(from, to, list, reply)?,
        OneOp::Lindex(at) => lindex(*at, list, reply)?,
        &mut OneOp::Lset(at, ref mut element) => return lset(at, element.take(), list, reply),
        OneOp::Linsert(beside, pivot, element) => {
            return linsert(*beside, pivot.as_slice(), element.take(), list, reply);
        }
        &mut OneOp::Lrem(count, ref mut element) => {
            return lrem(count, element.take(), list, reply);
        }
        &mut OneOp::Ltrim(from, to) => return ltrim(from, to, list, reply),
        _ => unreachable!(),
    }
    Ok(Change::Keep)
}

/// An array of nothing.
fn no_elements(reply: &mut Pieces) -> Result<(), NoMemory>
    ensures { OnOk result (reply.new ≡ encoding_of (bulks [])) }
{
    reply.put_array_head(0)?;
    Ok(())
}
