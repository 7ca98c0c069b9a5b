//! Which function does a command, and what a missing key and another kind of value are to it.

ghost use Rattle.std.specs.Prelude.{◌≡◌, Some, None, IfOk};
ghost use Rattle.df_model.specs.Families.{family_of};
ghost use Rattle.df_model.specs.Outcomes.{outcome};
ghost use Rattle.df_model.specs.Meaning.{one};
ghost use Rattle.df_model.specs.Replies.{encoding_of};
ghost use Rattle.df_model.specs.Values as plain;
ghost use Rattle.df_model.specs.declared.reply.Reply.TheVariants.{Error as ErrorReply};
ghost use Rattle.df_values.specs.Lent.{lent, left};
ghost use Rattle.df_values.specs.Prepares.{Makes};
ghost use Rattle.df_values.specs.Seen.{seen, seen_held};
ghost use Rattle.df_sets.specs.Serves.{Serves};

use crate::add::{add, add_to_none};
use crate::look::look;
use crate::remove::{remove, remove_from_none};
use df_colls::SetVal;
use df_model::{ErrorText, NoMemory, OneOp};
use df_values::{Change, Pieces, Value};
use std::alloc::Global;

/// Makes a command ready: its reply takes the place of what stood in `reply`, and what becomes of the key is
/// answered, with all memory that it takes. The op may be emptied, since words that are stored are moved out. At
/// want of memory nothing is said of the reply and the op, and of the value only spare room changed.
pub fn prepare_into(
    alloc: Global,
    op: &mut OneOp,
    value: Option<&mut Value>,
    reply: &mut Pieces,
) -> Result<Change, NoMemory>
    requires { Serves (family_of op.old) }
    ensures ok { IfOk result (λ change. Makes (outcome (one op.old) (seen_held (lent value.entry))) (left value.exit) reply.new change) }
    ensures kept { seen_held (left value.exit) ≡ seen_held (lent value.entry) }
{
    match value {
        None => on_missing(alloc, op, reply),
        Some(value) => on_held(alloc, op, value, reply),
    }
}

fn on_held(
    alloc: Global,
    op: &mut OneOp,
    value: &mut Value,
    reply: &mut Pieces,
) -> Result<Change, NoMemory>
    requires { Serves (family_of op.old) }
    ensures ok { IfOk result (λ change. Makes (outcome (one op.old) (Some (seen value.old))) (Some value.new) reply.new change) }
    ensures kept { seen value.new ≡ seen value.old }
{
    match value {
        Value::Set(set) => on_set(alloc, op, set, reply),
        _ => on_other(reply),
    }
}

/// A missing key is an empty set.
fn on_missing(alloc: Global, op: &mut OneOp, reply: &mut Pieces) -> Result<Change, NoMemory>
    requires { Serves (family_of op.old) }
    ensures { IfOk result (λ change. Makes (outcome (one op.old) None) None reply.new change) }
{
    match op {
        OneOp::Sadd(words) => add_to_none(alloc, words.take(), reply),
        OneOp::Srem(words) => remove_from_none(words, reply),
        _ => {
            look(op, &SetVal::new(alloc), reply)?;
            Ok(Change::Keep)
        }
    }
}

fn on_set(
    alloc: Global,
    op: &mut OneOp,
    set: &mut SetVal,
    reply: &mut Pieces,
) -> Result<Change, NoMemory>
    requires { Serves (family_of op.old) }
    ensures ok { IfOk result (λ change. Makes (outcome (one op.old) (Some (plain.Value.Set set.old.members))) (Some (Value.Set set.new)) reply.new change) }
    ensures kept { set.new.members ≡ set.old.members }
{
    match op {
        OneOp::Sadd(words) => add(alloc, words.take(), set, reply),
        OneOp::Srem(words) => remove(alloc, words.take(), set, reply),
        _ => {
            look(op, set, reply)?;
            Ok(Change::Keep)
        }
    }
}

/// Another kind of value is refused, whatever the command.
fn on_other(reply: &mut Pieces) -> Result<Change, NoMemory>
    ensures { IfOk result (λ change. (reply.new ≡ encoding_of (ErrorReply ErrorText.WrongKind)) × (change ≡ Change.Keep)) }
{
    reply.put_error(&ErrorText::WrongKind)?;
    Ok(Change::Keep)
}
