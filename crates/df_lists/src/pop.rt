//! LPOP and RPOP, with a count and without one.

ghost use Rattle.std.specs.Prelude.{◌≡◌, ℤ, pos, IfOk, Some, None};
ghost use Rattle.df_lists.specs.Ends as ends;
ghost use Rattle.df_lists.specs.Serves.{MakesOn};

use crate::look::{element_from, elements};
use crate::resize::resized;
use df_list::ListVal;
use df_model::{NoMemory, Side};
use df_values::{Change, Edit, Pieces};

/// An element leaves at this end, or as many as the count says, the outermost first.
pub fn pop(
    side: Side,
    count: Option<i64>,
    list: &ListVal,
    reply: &mut Pieces,
) -> Result<Change, NoMemory>
    ensures { IfOk result (λ change. MakesOn (ends.pop side count list.now.items) list.now reply.new change) }
{
    match count {
        None => pop_one(side, list, reply),
        Some(count) => pop_many(side, count.unsigned_abs() as usize, list, reply),
    }
}

fn pop_one(side: Side, list: &ListVal, reply: &mut Pieces) -> Result<Change, NoMemory>
    ensures { IfOk result (λ change. MakesOn (ends.pop side None list.now.items) list.now reply.new change) }
{
    let Some(element) = element_from(list, side, 0) else {
        reply.put_null()?;
        return Ok(Change::Keep);
    };
    reply.put_bulk(element.as_slice())?;
    let before = list.len();
    Ok(resized(edit_of(side, 1), before, before.saturating_sub(1)))
}

fn pop_many(
    side: Side,
    count: usize,
    list: &ListVal,
    reply: &mut Pieces,
) -> Result<Change, NoMemory>
    ensures { IfOk result (λ change. MakesOn (ends.pop side (Some (pos count)) list.now.items) list.now reply.new change) }
{
    if list.is_empty() {
        reply.put_null_array()?;
        return Ok(Change::Keep);
    }
    let before = list.len();
    let popped = count.min(before);
    elements(side, 0, popped, list, reply)?;
    Ok(resized(edit_of(side, popped), before, before - popped))
}

fn edit_of(side: Side, count: usize) -> Edit
    ensures { result ≡ ends.pop_edit side count }
{
    match side {
        Side::Left => Edit::PopFront(count as u64),
        Side::Right => Edit::PopBack(count as u64),
    }
}
