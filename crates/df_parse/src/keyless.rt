//! Shapes of commands that name no key.

ghost use Rattle.std.specs.Prelude.{List, ℕ};
ghost use Rattle.df_model.specs.Reads.Shapes as shape;
ghost use Rattle.df_parse.specs.Ops as op_of;
ghost use Rattle.df_parse.specs.Reading.{RowRead};

use crate::Refusal;
use crate::fields::{bin, number};
use crate::ops::{Alone, Flush};
use crate::refusal::arity;
use bytes::Bytes;
use df_model::{Command, ErrorText, PlainOp, WholeOp};
use df_text::is_name;
use std::alloc::Global;

/// The words of a command that takes none.
pub fn alone(
    alloc: Global,
    name: &str,
    op: &Alone,
    words: &[Bytes],
    command: &mut Command,
) -> Result<(), Refusal>
    ensures { RowRead name.now (shape.alone (Command.Whole (op_of.alone op.now)) words.now) result command.new }
{
    match words {
        [] => {
            *command = Command::Whole(op.op());
            Ok(())
        }
        _ => Err(arity(alloc, name)),
    }
}

/// The words behind the name: `[message]`.
pub fn ping(
    alloc: Global,
    name: &str,
    words: &[Bytes],
    command: &mut Command,
) -> Result<(), Refusal>
    ensures { RowRead name.now (shape.ping words.now) result command.new }
{
    match words {
        [] => {
            *command = Command::Plain(PlainOp::Ping(None));
            Ok(())
        }
        [message] => {
            let message = bin(alloc, message)?;
            *command = Command::Plain(PlainOp::Ping(Some(message)));
            Ok(())
        }
        _ => Err(arity(alloc, name)),
    }
}

/// The words behind the name: `message`.
pub fn echo(
    alloc: Global,
    name: &str,
    words: &[Bytes],
    command: &mut Command,
) -> Result<(), Refusal>
    ensures { RowRead name.now (shape.one_word (λ message. Command.Plain (PlainOp.Echo message)) words.now) result command.new }
{
    match words {
        [message] => {
            let message = bin(alloc, message)?;
            *command = Command::Plain(PlainOp::Echo(message));
            Ok(())
        }
        _ => Err(arity(alloc, name)),
    }
}

/// The number of a database: 0 alone.
pub fn select(
    alloc: Global,
    name: &str,
    words: &[Bytes],
    command: &mut Command,
) -> Result<(), Refusal>
    ensures { RowRead name.now (shape.one_word shape.select words.now) result command.new }
{
    match words {
        [word] => {
            let Some(number) = number(word) else {
                *command = Command::Wrong(ErrorText::NotInteger);
                return Ok(());
            };
            if number == 0 {
                *command = Command::Plain(PlainOp::Select(number));
                Ok(())
            } else {
                *command = Command::Wrong(ErrorText::DbIndex);
                Ok(())
            }
        }
        _ => Err(arity(alloc, name)),
    }
}

/// The words behind the name: `pattern`.
pub fn keys_like(
    alloc: Global,
    name: &str,
    words: &[Bytes],
    command: &mut Command,
) -> Result<(), Refusal>
    ensures { RowRead name.now (shape.one_word (λ pattern. Command.Whole (WholeOp.Keys pattern)) words.now) result command.new }
{
    match words {
        [pattern] => {
            let pattern = bin(alloc, pattern)?;
            *command = Command::Whole(WholeOp::Keys(pattern));
            Ok(())
        }
        _ => Err(arity(alloc, name)),
    }
}

/// FLUSHALL and FLUSHDB. No count of words is refused, so one answer serves for any name.
pub fn flush(op: &Flush, words: &[Bytes], command: &mut Command) -> Result<(), Refusal>
    ensures { (name : List ℕ) → RowRead name (shape.flush (op_of.flush op.now) words.now) result command.new }
{
    match words {
        [] => {
            *command = Command::Whole(op.op());
            Ok(())
        }
        [word] if is_name(word.as_slice(), "async") => {
            *command = Command::Whole(op.op());
            Ok(())
        }
        [word] if is_name(word.as_slice(), "sync") => {
            *command = Command::Whole(op.op());
            Ok(())
        }
        _ => {
            *command = Command::Wrong(ErrorText::Syntax);
            Ok(())
        }
    }
}
