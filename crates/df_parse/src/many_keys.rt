//! Shapes of commands of several keys.

ghost use Rattle.df_model.specs.Reads.Shapes as shape;
ghost use Rattle.df_parse.specs.Ops as op_of;
ghost use Rattle.df_parse.specs.Reading.{RowRead};

use crate::Refusal;
use crate::fields::{bin, bins, pairs_of};
use crate::ops::{KeyKeys, ManyKeys, ManyPairs, TwoKeys};
use crate::options::side_of;
use crate::refusal::{arity, unpaired};
use bytes::Bytes;
use df_model::{Command, ErrorText, ManyOp};
use std::alloc::Global;

/// key ..
pub fn keys(
    alloc: Global,
    name: &str,
    op: &ManyKeys,
    words: &[Bytes],
    command: &mut Command,
) -> Result<(), Refusal>
    ensures { RowRead name.now (shape.keys (op_of.keys op.now) words.now) result command.new }
{
    match words {
        [_, ..] => {
            let keys = bins(alloc, words)?;
            *command = Command::Many(op.op(keys));
            Ok(())
        }
        _ => Err(arity(alloc, name)),
    }
}

/// key key ..
pub fn key_keys(
    alloc: Global,
    name: &str,
    op: &KeyKeys,
    words: &[Bytes],
    command: &mut Command,
) -> Result<(), Refusal>
    ensures { RowRead name.now (shape.key_keys (op_of.key_keys op.now) words.now) result command.new }
{
    match words {
        [target, keys @ ..] if !keys.is_empty() => {
            let target = bin(alloc, target)?;
            let keys = bins(alloc, keys)?;
            *command = Command::Many(op.op(target, keys));
            Ok(())
        }
        _ => Err(arity(alloc, name)),
    }
}

/// The words behind the name: `key key`.
pub fn two_keys(
    alloc: Global,
    name: &str,
    op: &TwoKeys,
    words: &[Bytes],
    command: &mut Command,
) -> Result<(), Refusal>
    ensures { RowRead name.now (shape.two_keys (op_of.two_keys op.now) words.now) result command.new }
{
    match words {
        [source, target] => {
            let source = bin(alloc, source)?;
            let target = bin(alloc, target)?;
            *command = Command::Many(op.op(source, target));
            Ok(())
        }
        _ => Err(arity(alloc, name)),
    }
}

/// The words behind the name: `key key member`.
pub fn smove(
    alloc: Global,
    name: &str,
    words: &[Bytes],
    command: &mut Command,
) -> Result<(), Refusal>
    ensures { RowRead name.now (shape.two_keys_word ManyOp.Smove words.now) result command.new }
{
    match words {
        [source, target, member] => {
            let source = bin(alloc, source)?;
            let target = bin(alloc, target)?;
            let member = bin(alloc, member)?;
            *command = Command::Many(ManyOp::Smove(source, target, member));
            Ok(())
        }
        _ => Err(arity(alloc, name)),
    }
}

/// The words behind the name: `key key LEFT or RIGHT LEFT or RIGHT`.
pub fn lmove(
    alloc: Global,
    name: &str,
    words: &[Bytes],
    command: &mut Command,
) -> Result<(), Refusal>
    ensures { RowRead name.now (shape.lmove words.now) result command.new }
{
    match words {
        [source, target, from, to] => {
            let Some(from) = side_of(from) else {
                *command = Command::Wrong(ErrorText::Syntax);
                return Ok(());
            };
            let Some(to) = side_of(to) else {
                *command = Command::Wrong(ErrorText::Syntax);
                return Ok(());
            };
            let source = bin(alloc, source)?;
            let target = bin(alloc, target)?;
            *command = Command::Many(ManyOp::Lmove(source, target, from, to));
            Ok(())
        }
        _ => Err(arity(alloc, name)),
    }
}

/// MSET and MSETNX.
pub fn pairs(
    alloc: Global,
    name: &str,
    op: &ManyPairs,
    words: &[Bytes],
    command: &mut Command,
) -> Result<(), Refusal>
    ensures { RowRead name.now (shape.pairs name.now (op_of.pairs op.now) words.now) result command.new }
{
    match words {
        [_, _, ..] => {
            let Some(pairs) = pairs_of(alloc, words)? else {
                return unpaired(alloc, name, command);
            };
            *command = Command::Many(op.op(pairs));
            Ok(())
        }
        _ => Err(arity(alloc, name)),
    }
}
