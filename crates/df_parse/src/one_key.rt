//! Shapes of commands of one key.

ghost use Rattle.df_model.specs.Reads.Shapes as shape;
ghost use Rattle.df_parse.specs.Ops as op_of;
ghost use Rattle.df_parse.specs.Reading.{CommandRead, RowRead};

use crate::Refusal;
use crate::fields::{bin, bins, number, pairs_of};
use crate::ops::{Key, KeyMany, KeyNumber, KeyNumberWord, KeyNumbers, KeyPairs, KeyWord, Pop};
use crate::options::{beside_of, guards};
use crate::refusal::{arity, unpaired};
use bytes::Bytes;
use df_model::{Command, ErrorText, OneOp};
use std::alloc::Global;

/// The words behind the name: `key`.
pub fn key(
    alloc: Global,
    name: &str,
    op: &Key,
    words: &[Bytes],
    command: &mut Command,
) -> Result<(), Refusal>
    ensures { RowRead name.now (shape.key (op_of.key op.now) words.now) result command.new }
{
    match words {
        [key] => {
            let key = bin(alloc, key)?;
            *command = Command::One(key, op.op());
            Ok(())
        }
        _ => Err(arity(alloc, name)),
    }
}

/// The words behind the name: `key word`.
pub fn key_word(
    alloc: Global,
    name: &str,
    op: &KeyWord,
    words: &[Bytes],
    command: &mut Command,
) -> Result<(), Refusal>
    ensures { RowRead name.now (shape.key_word (op_of.key_word op.now) words.now) result command.new }
{
    match words {
        [key, word] => {
            let key = bin(alloc, key)?;
            let word = bin(alloc, word)?;
            *command = Command::One(key, op.op(word));
            Ok(())
        }
        _ => Err(arity(alloc, name)),
    }
}

/// The words behind the name: `key field value`.
pub fn hsetnx(
    alloc: Global,
    name: &str,
    words: &[Bytes],
    command: &mut Command,
) -> Result<(), Refusal>
    ensures { RowRead name.now (shape.key_words OneOp.Hsetnx words.now) result command.new }
{
    match words {
        [key, field, value] => {
            let key = bin(alloc, key)?;
            let field = bin(alloc, field)?;
            let value = bin(alloc, value)?;
            *command = Command::One(key, OneOp::Hsetnx(field, value));
            Ok(())
        }
        _ => Err(arity(alloc, name)),
    }
}

/// The words behind the name: `key number`.
pub fn key_number(
    alloc: Global,
    name: &str,
    op: &KeyNumber,
    words: &[Bytes],
    command: &mut Command,
) -> Result<(), Refusal>
    ensures { RowRead name.now (shape.key_number (op_of.key_number op.now) words.now) result command.new }
{
    match words {
        [key, word] => {
            let Some(number) = number(word) else {
                *command = Command::Wrong(ErrorText::NotInteger);
                return Ok(());
            };
            let key = bin(alloc, key)?;
            *command = Command::One(key, op.op(number));
            Ok(())
        }
        _ => Err(arity(alloc, name)),
    }
}

/// The words behind the name: `key number number`.
pub fn key_numbers(
    alloc: Global,
    name: &str,
    op: &KeyNumbers,
    words: &[Bytes],
    command: &mut Command,
) -> Result<(), Refusal>
    ensures { RowRead name.now (shape.key_numbers (op_of.key_numbers op.now) words.now) result command.new }
{
    match words {
        [key, from, to] => by_numbers(alloc, op, key, from, to, command),
        _ => Err(arity(alloc, name)),
    }
}

fn by_numbers(
    alloc: Global,
    op: &KeyNumbers,
    key: &Bytes,
    from: &Bytes,
    to: &Bytes,
    command: &mut Command,
) -> Result<(), Refusal>
    ensures { CommandRead (shape.by_numbers (op_of.key_numbers op.now) key.now from.now to.now) result command.new }
{
    let Some(from) = number(from) else {
        *command = Command::Wrong(ErrorText::NotInteger);
        return Ok(());
    };
    let Some(to) = number(to) else {
        *command = Command::Wrong(ErrorText::NotInteger);
        return Ok(());
    };
    let key = bin(alloc, key)?;
    *command = Command::One(key, op.op(from, to));
    Ok(())
}

/// The words behind the name: `key number word`.
pub fn key_number_word(
    alloc: Global,
    name: &str,
    op: &KeyNumberWord,
    words: &[Bytes],
    command: &mut Command,
) -> Result<(), Refusal>
    ensures { RowRead name.now (shape.key_number_word (op_of.key_number_word op.now) words.now) result command.new }
{
    match words {
        [key, number, word] => by_number_word(alloc, op, key, number, word, command),
        _ => Err(arity(alloc, name)),
    }
}

fn by_number_word(
    alloc: Global,
    op: &KeyNumberWord,
    key: &Bytes,
    digits: &Bytes,
    word: &Bytes,
    command: &mut Command,
) -> Result<(), Refusal>
    ensures { CommandRead (shape.by_number_word (op_of.key_number_word op.now) key.now digits.now word.now) result command.new }
{
    let Some(number) = number(digits) else {
        *command = Command::Wrong(ErrorText::NotInteger);
        return Ok(());
    };
    let key = bin(alloc, key)?;
    let word = bin(alloc, word)?;
    *command = Command::One(key, op.op(number, word));
    Ok(())
}

/// The words behind the name: `key field number`.
pub fn hincrby(
    alloc: Global,
    name: &str,
    words: &[Bytes],
    command: &mut Command,
) -> Result<(), Refusal>
    ensures { RowRead name.now (shape.key_word_number OneOp.Hincrby words.now) result command.new }
{
    match words {
        [key, field, number] => hincrby_by(alloc, key, field, number, command),
        _ => Err(arity(alloc, name)),
    }
}

fn hincrby_by(
    alloc: Global,
    key: &Bytes,
    field: &Bytes,
    digits: &Bytes,
    command: &mut Command,
) -> Result<(), Refusal>
    ensures { CommandRead (shape.by_word_number OneOp.Hincrby key.now field.now digits.now) result command.new }
{
    let Some(number) = number(digits) else {
        *command = Command::Wrong(ErrorText::NotInteger);
        return Ok(());
    };
    let key = bin(alloc, key)?;
    let field = bin(alloc, field)?;
    *command = Command::One(key, OneOp::Hincrby(field, number));
    Ok(())
}

/// key word ..
pub fn key_many(
    alloc: Global,
    name: &str,
    op: &KeyMany,
    words: &[Bytes],
    command: &mut Command,
) -> Result<(), Refusal>
    ensures { RowRead name.now (shape.key_many (op_of.key_many op.now) words.now) result command.new }
{
    match words {
        [key, words @ ..] if !words.is_empty() => {
            let key = bin(alloc, key)?;
            let words = bins(alloc, words)?;
            *command = Command::One(key, op.op(words));
            Ok(())
        }
        _ => Err(arity(alloc, name)),
    }
}

/// The words behind the name: `key at bytes`.
pub fn setrange(
    alloc: Global,
    name: &str,
    words: &[Bytes],
    command: &mut Command,
) -> Result<(), Refusal>
    ensures { RowRead name.now (shape.setrange words.now) result command.new }
{
    match words {
        [key, at, bytes] => {
            let Some(at) = number(at) else {
                *command = Command::Wrong(ErrorText::NotInteger);
                return Ok(());
            };
            if at < 0 {
                *command = Command::Wrong(ErrorText::OffsetRange);
                return Ok(());
            }
            let key = bin(alloc, key)?;
            let bytes = bin(alloc, bytes)?;
            *command = Command::One(key, OneOp::Setrange(at, bytes));
            Ok(())
        }
        _ => Err(arity(alloc, name)),
    }
}

/// LPOP and RPOP.
pub fn pop(
    alloc: Global,
    name: &str,
    op: &Pop,
    words: &[Bytes],
    command: &mut Command,
) -> Result<(), Refusal>
    ensures { RowRead name.now (shape.pop (op_of.pop op.now) words.now) result command.new }
{
    match words {
        [key] => {
            let key = bin(alloc, key)?;
            *command = Command::One(key, op.op(None));
            Ok(())
        }
        [key, count] => {
            let Some(count) = number(count) else {
                *command = Command::Wrong(ErrorText::NotInteger);
                return Ok(());
            };
            if count < 0 {
                *command = Command::Wrong(ErrorText::NotInteger);
                return Ok(());
            }
            let key = bin(alloc, key)?;
            *command = Command::One(key, op.op(Some(count)));
            Ok(())
        }
        _ => Err(arity(alloc, name)),
    }
}

/// The words behind the name: `key value [NX] [XX]`.
pub fn set(alloc: Global, name: &str, words: &[Bytes], command: &mut Command) -> Result<(), Refusal>
    ensures { RowRead name.now (shape.set words.now) result command.new }
{
    match words {
        [key, bytes, options @ ..] => {
            let Some(guard) = guards(options) else {
                *command = Command::Wrong(ErrorText::Syntax);
                return Ok(());
            };
            let key = bin(alloc, key)?;
            let bytes = bin(alloc, bytes)?;
            *command = Command::One(key, OneOp::Set(bytes, guard));
            Ok(())
        }
        _ => Err(arity(alloc, name)),
    }
}

/// The words behind the name: `key BEFORE or AFTER pivot value`.
pub fn linsert(
    alloc: Global,
    name: &str,
    words: &[Bytes],
    command: &mut Command,
) -> Result<(), Refusal>
    ensures { RowRead name.now (shape.linsert words.now) result command.new }
{
    match words {
        [key, place, pivot, bytes] => {
            let Some(beside) = beside_of(place) else {
                *command = Command::Wrong(ErrorText::Syntax);
                return Ok(());
            };
            let key = bin(alloc, key)?;
            let pivot = bin(alloc, pivot)?;
            let bytes = bin(alloc, bytes)?;
            *command = Command::One(key, OneOp::Linsert(beside, pivot, bytes));
            Ok(())
        }
        _ => Err(arity(alloc, name)),
    }
}

/// HSET and HMSET.
pub fn key_pairs(
    alloc: Global,
    name: &str,
    op: &KeyPairs,
    words: &[Bytes],
    command: &mut Command,
) -> Result<(), Refusal>
    ensures { RowRead name.now (shape.key_pairs name.now (op_of.key_pairs op.now) words.now) result command.new }
{
    match words {
        [key, words @ ..] if words.len() > 1 => by_pairs(alloc, name, op, key, words, command),
        _ => Err(arity(alloc, name)),
    }
}

fn by_pairs(
    alloc: Global,
    name: &str,
    op: &KeyPairs,
    key: &Bytes,
    words: &[Bytes],
    command: &mut Command,
) -> Result<(), Refusal>
    ensures { CommandRead (shape.by_pairs name.now (op_of.key_pairs op.now) key.now words.now) result command.new }
{
    let Some(pairs) = pairs_of(alloc, words)? else {
        return unpaired(alloc, name, command);
    };
    let key = bin(alloc, key)?;
    *command = Command::One(key, op.op(pairs));
    Ok(())
}
