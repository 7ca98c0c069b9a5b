//! Parts of a string.

ghost use Rattle.std.specs.Prelude.{◌≡◌, ◌+◌, ◌≤◌, ◌^◌, ◌<◌, ◌↔◌, length, take, drop, nat_lt, IsTrue, IfOk, OnOk, Some, None};
ghost use Rattle.df_model.specs.Replies.{encoding_of};
ghost use Rattle.df_model.specs.Meaning.Strings as strings;
ghost use Rattle.df_model.specs.Meaning.Strings.{overwritten};
ghost use Rattle.df_values.specs.Prepares.{Makes};
ghost use Rattle.df_strings.specs.Strings.{written};

use crate::set::put;
use df_model::{Bin, ErrorText, NoMemory};
use df_text::ends;
use df_values::{Change, Edit, Pieces, StrVal, Value};
use std::alloc::Global;

/// The most bytes that a string grows to: 512 MiB.
const MAX_STRING: usize = 536870912;

/// APPEND where the key is missing: the bytes are moved.
pub fn append_missing(more: Bin, reply: &mut Pieces) -> Result<Change, NoMemory>
    ensures { IfOk result (λ change. Makes (strings.append more None) None reply.new change) }
{
    if more.len() > MAX_STRING {
        reply.put_error(&ErrorText::TooLong)?;
        return Ok(Change::Keep);
    }
    reply.put_count(more.len())?;
    Ok(put(more))
}

/// APPEND.
pub fn append(
    alloc: Global,
    more: Bin,
    text: &mut StrVal,
    reply: &mut Pieces,
) -> Result<Change, NoMemory>
    ensures ok { IfOk result (λ change. Makes (strings.append more (Some text.old.items)) (Some (Value.Str text.new)) reply.new change) }
    ensures kept { text.new.items ≡ text.old.items }
{
    if is_too_long(text.len(), more.len()) {
        reply.put_error(&ErrorText::TooLong)?;
        return Ok(Change::Keep);
    }
    reply.put_count(text.len() + more.len())?;
    if more.is_empty() {
        return Ok(Change::Keep);
    }
    text.reserve(alloc, more.len())?;
    Ok(Change::Edit(Edit::Append(more)))
}

/// Whether both lengths together pass `MAX_STRING`.
fn is_too_long(a: usize, b: usize) -> bool
    ensures { result ≡ nat_lt strings.MAX_STRING (a + b) }
{
    a > MAX_STRING || b > MAX_STRING - a
}

/// GETRANGE: the bytes of the range alone are copied.
pub fn getrange(from: i64, to: i64, text: &StrVal, reply: &mut Pieces) -> Result<(), NoMemory>
    ensures { OnOk result (reply.new ≡ encoding_of (strings.getrange from to (Some text.now.items))) }
{
    let (start, stop) = ends(from, to, text.len());
    reply.put_bulk(between(text.as_slice(), start, stop))
}

/// What stands from `start` up to `stop`, nothing where these are turned round.
fn between(bytes: &[u8], start: usize, stop: usize) -> &[u8]
    requires { stop ≤ length bytes.now }
    ensures { result.now ≡ drop start (take stop bytes.now) }
{
    if start < stop {
        &bytes[start..stop]
    } else {
        &[]
    }
}

/// SETRANGE where the key is missing.
pub fn setrange_missing(
    alloc: Global,
    at: i64,
    bytes: Bin,
    reply: &mut Pieces,
) -> Result<Change, NoMemory>
    ensures { IfOk result (λ change. Makes (strings.setrange at bytes None) None reply.new change) }
{
    if bytes.is_empty() {
        reply.put_count(0)?;
        return Ok(Change::Keep);
    }
    let at = at.unsigned_abs() as usize;
    if is_too_long(at, bytes.len()) {
        reply.put_error(&ErrorText::TooLong)?;
        return Ok(Change::Keep);
    }
    let mut text = StrVal::new();
    text.reserve(alloc, at + bytes.len())?;
    text.write_at(at, bytes.as_slice());
    reply.put_count(text.len())?;
    Ok(Change::Put(Value::Str(text)))
}

/// SETRANGE.
pub fn setrange(
    alloc: Global,
    at: i64,
    bytes: Bin,
    text: &mut StrVal,
    reply: &mut Pieces,
) -> Result<Change, NoMemory>
    ensures ok { IfOk result (λ change. Makes (strings.setrange at bytes (Some text.old.items)) (Some (Value.Str text.new)) reply.new change) }
    ensures kept { text.new.items ≡ text.old.items }
{
    if bytes.is_empty() {
        reply.put_count(text.len())?;
        return Ok(Change::Keep);
    }
    let at = at.unsigned_abs() as usize;
    if is_too_long(at, bytes.len()) {
        reply.put_error(&ErrorText::TooLong)?;
        return Ok(Change::Keep);
    }
    write(alloc, at, bytes, text, reply)
}

/// SETRANGE of bytes that are some and not too far.
fn write(
    alloc: Global,
    at: usize,
    bytes: Bin,
    text: &mut StrVal,
    reply: &mut Pieces,
) -> Result<Change, NoMemory>
    requires some { 0 < length bytes }
    requires near { at + length bytes ≤ strings.MAX_STRING }
    ensures ok { IfOk result (λ change. Makes (written at bytes text.old.items) (Some (Value.Str text.new)) reply.new change) }
    ensures kept { text.new.items ≡ text.old.items }
{
    reply.put_count(text.len().max(at + bytes.len()))?;
    if stands_at(text.as_slice(), at, bytes.as_slice()) {
        return Ok(Change::Keep);
    }
    text.reserve(alloc, (at + bytes.len()).saturating_sub(text.len()))?;
    Ok(Change::Edit(Edit::WriteAt(at as u64, bytes)))
}

/// Whether these bytes stand at this place already.
fn stands_at(bytes: &[u8], at: usize, new: &[u8]) -> bool
    requires { 0 < length new.now }
    ensures { IsTrue result ↔ (overwritten at new.now bytes.now ≡ bytes.now) }
{
    let len = bytes.len();
    if at > len || new.len() > len - at {
        return false;
    }
    let end = at + new.len();
    &bytes[at..end] == new
}
