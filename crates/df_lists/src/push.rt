//! LPUSH, RPUSH, LPUSHX and RPUSHX.

ghost use Rattle.std.specs.Prelude.{◌≡◌, [], IfOk, None};
ghost use Rattle.df_values.specs.Prepares.{Makes};
ghost use Rattle.df_lists.specs.Ends as ends;
ghost use Rattle.df_lists.specs.Serves.{MakesOn};

use crate::resize::{resized, sum};
use df_list::ListVal;
use df_model::{Bins, NoMemory, Side};
use df_values::{Change, Edit, Pieces, Value};
use std::alloc::Global;

/// Each word in turn goes to this end.
pub fn push(
    side: Side,
    words: Bins,
    list: &mut ListVal,
    reply: &mut Pieces,
) -> Result<Change, NoMemory>
    ensures ok { IfOk result (λ change. MakesOn (ends.push side words.items list.old.items) list.new reply.new change) }
    ensures kept { list.new.items ≡ list.old.items }
{
    let before = list.len();
    let after = sum(before, words.len())?;
    list.reserve(words.len())?;
    reply.put_count(after)?;
    Ok(resized(edit_of(side, words), before, after))
}

/// The same, but an empty list stays as it is.
pub fn pushx(
    side: Side,
    words: Bins,
    list: &mut ListVal,
    reply: &mut Pieces,
) -> Result<Change, NoMemory>
    ensures ok { IfOk result (λ change. MakesOn (ends.pushx side words.items list.old.items) list.new reply.new change) }
    ensures kept { list.new.items ≡ list.old.items }
{
    if list.is_empty() {
        reply.put_count(0)?;
        return Ok(Change::Keep);
    }
    push(side, words, list, reply)
}

/// The words become a list of their own.
pub fn push_to_nothing(
    alloc: Global,
    side: Side,
    words: Bins,
    reply: &mut Pieces,
) -> Result<Change, NoMemory>
    ensures { IfOk result (λ change. Makes (ends.push side words.items []) None reply.new change) }
{
    reply.put_count(words.len())?;
    if words.len() == 0 {
        return Ok(Change::Keep);
    }
    let mut list = ListVal::new(alloc);
    list.reserve(words.len())?;
    let mut value = Value::List(list);
    edit_of(side, words).apply(&mut value);
    Ok(Change::Put(value))
}

fn edit_of(side: Side, words: Bins) -> Edit
    ensures { result ≡ ends.push_edit side words }
{
    match side {
        Side::Left => Edit::PushFront(words),
        Side::Right => Edit::PushBack(words),
    }
}
