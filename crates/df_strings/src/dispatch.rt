//! Which function does a command, by what the key holds.

ghost use Rattle.std.specs.Prelude.{◌≡◌, IfOk, OnOk, Some, None};
ghost use Rattle.df_model.specs.Outcomes.{outcome};
ghost use Rattle.df_model.specs.Meaning.{one};
ghost use Rattle.df_model.specs.Meaning.Any as any;
ghost use Rattle.df_model.specs.Replies.{encoding_of};
ghost use Rattle.df_values.specs.Seen.{seen, seen_held};
ghost use Rattle.df_values.specs.Lent.{lent, left};
ghost use Rattle.df_values.specs.Prepares.{Makes};
ghost use Rattle.df_strings.specs.Strings.{Serves, IsOther};
ghost use Rattle.df_model.specs.Families.{family_of};

use crate::counter::{decrby, incrby};
use crate::part::{append, append_missing, getrange, setrange, setrange_missing};
use crate::set::{get, getdel, getset, put, set, set_missing, setnx};
use df_model::{ErrorText, NoMemory, OneOp};
use df_text::parse_i64;
use df_values::{Change, Pieces, StrVal, Value};
use std::alloc::Global;

/// Makes a command ready on what its key holds. The reply takes the place of the bytes that stood in `reply`.
/// The op may be emptied, since its words are moved out. At want of memory nothing is said of the reply and the
/// op, and of the value only spare room changed.
pub fn prepare_into(
    alloc: Global,
    op: &mut OneOp,
    value: Option<&mut Value>,
    reply: &mut Pieces,
) -> Result<Change, NoMemory>
    requires { Serves (family_of op.old) }
    ensures ok { IfOk result (λ change. Makes (outcome (one op.old) (seen_held (lent value.entry))) (left value.exit) reply.new change) }
    ensures kept { seen_held (left value.exit) ≡ seen_held (lent value.entry) }
{
    match value {
        None => on_missing(alloc, op, reply),
        Some(value) => on_held(alloc, op, value, reply),
    }
}

fn on_held(
    alloc: Global,
    op: &mut OneOp,
    value: &mut Value,
    reply: &mut Pieces,
) -> Result<Change, NoMemory>
    requires { Serves (family_of op.old) }
    ensures ok { IfOk result (λ change. Makes (outcome (one op.old) (Some (seen value.old))) (Some value.new) reply.new change) }
    ensures kept { seen value.new ≡ seen value.old }
{
    match value {
        Value::Str(text) => on_text(alloc, op, text, reply),
        _ => on_other(op, value, reply),
    }
}

fn on_missing(alloc: Global, op: &mut OneOp, reply: &mut Pieces) -> Result<Change, NoMemory>
    requires { Serves (family_of op.old) }
    ensures { IfOk result (λ change. Makes (outcome (one op.old) None) None reply.new change) }
{
    match op {
        OneOp::KindOf => reply.put_simple(b"none")?,
        OneOp::Get | OneOp::Getdel => reply.put_null()?,
        OneOp::Set(bytes, guard) => return set_missing(bytes.take(), *guard, reply),
        OneOp::Setnx(bytes) => {
            reply.put_count(1)?;
            return Ok(put(bytes.take()));
        }
        OneOp::Getset(bytes) => {
            reply.put_null()?;
            return Ok(put(bytes.take()));
        }
        OneOp::Append(more) => return append_missing(more.take(), reply),
        OneOp::Strlen => reply.put_count(0)?,
        OneOp::Getrange(_, _) => reply.put_bulk(b"")?,
        &mut OneOp::Setrange(at, ref mut bytes) => {
            return setrange_missing(alloc, at, bytes.take(), reply);
        }
        OneOp::Incr => return incrby(alloc, 1, Some(0), reply),
        OneOp::Decr => return incrby(alloc, -1, Some(0), reply),
        OneOp::Incrby(n) => return incrby(alloc, *n, Some(0), reply),
        OneOp::Decrby(n) => return decrby(alloc, *n, Some(0), reply),
        _ => unreachable!(),
    }
    Ok(Change::Keep)
}

fn on_text(
    alloc: Global,
    op: &mut OneOp,
    text: &mut StrVal,
    reply: &mut Pieces,
) -> Result<Change, NoMemory>
    requires { Serves (family_of op.old) }
    ensures ok { IfOk result (λ change. Makes (outcome (one op.old) (Some (seen (Value.Str text.old)))) (Some (Value.Str text.new)) reply.new change) }
    ensures kept { text.new.items ≡ text.old.items }
{
    match op {
        OneOp::KindOf => reply.put_simple(b"string")?,
        OneOp::Get => get(text, reply)?,
        OneOp::Set(bytes, guard) => return set(bytes.take(), *guard, reply),
        OneOp::Setnx(_) => return setnx(reply),
        OneOp::Getset(bytes) => return getset(bytes.take(), text, reply),
        OneOp::Getdel => return getdel(text, reply),
        OneOp::Append(more) => return append(alloc, more.take(), text, reply),
        OneOp::Strlen => reply.put_count(text.len())?,
        &mut OneOp::Getrange(from, to) => getrange(from, to, text, reply)?,
        &mut OneOp::Setrange(at, ref mut bytes) => {
            return setrange(alloc, at, bytes.take(), text, reply);
        }
        OneOp::Incr => return incrby(alloc, 1, parse_i64(text.as_slice()), reply),
        OneOp::Decr => return incrby(alloc, -1, parse_i64(text.as_slice()), reply),
        OneOp::Incrby(n) => return incrby(alloc, *n, parse_i64(text.as_slice()), reply),
        OneOp::Decrby(n) => return decrby(alloc, *n, parse_i64(text.as_slice()), reply),
        _ => unreachable!(),
    }
    Ok(Change::Keep)
}

#[tactic(auto, using(crate::proofs::OtherLaws::looks_other, crate::proofs::OtherLaws::changes_other))]
fn on_other(op: &mut OneOp, value: &Value, reply: &mut Pieces) -> Result<Change, NoMemory>
    requires op { Serves (family_of op.old) }
    requires other { IsOther (seen value.now) }
    ensures { IfOk result (λ change. Makes (outcome (one op.old) (Some (seen value.now))) (Some value.now) reply.new change) }
{
    match op {
        OneOp::KindOf => {
            kind_of(value, reply)?;
            Ok(Change::Keep)
        }
        OneOp::Set(bytes, guard) => set(bytes.take(), *guard, reply),
        OneOp::Setnx(_) => setnx(reply),
        OneOp::Get
        | OneOp::Getset(_)
        | OneOp::Getdel
        | OneOp::Append(_)
        | OneOp::Strlen
        | OneOp::Getrange(_, _)
        | OneOp::Setrange(_, _)
        | OneOp::Incr
        | OneOp::Decr
        | OneOp::Incrby(_)
        | OneOp::Decrby(_) => {
            reply.put_error(&ErrorText::WrongKind)?;
            Ok(Change::Keep)
        }
        _ => unreachable!(),
    }
}

/// The reply of TYPE.
fn kind_of(value: &Value, reply: &mut Pieces) -> Result<(), NoMemory>
    ensures { OnOk result (reply.new ≡ encoding_of (any.kind_of (Some (seen value.now)))) }
{
    match value {
        Value::Str(_) => reply.put_simple(b"string"),
        Value::List(_) => reply.put_simple(b"list"),
        Value::Hash(_) => reply.put_simple(b"hash"),
        Value::Set(_) => reply.put_simple(b"set"),
    }
}
