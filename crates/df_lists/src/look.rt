//! LLEN, LRANGE and LINDEX, and the elements of a reply.

ghost use Rattle.std.specs.Prelude.{◌≡◌, ◌≤◌, length, take, drop, slice_get, OnOk};
ghost use Rattle.std.specs.Option.{option_copied};
ghost use Rattle.df_model.specs.Meaning.Lists as rows;
ghost use Rattle.df_model.specs.Outcomes as outcomes;
ghost use Rattle.df_model.specs.Replies.{encoding_of};
ghost use Rattle.df_lists.specs.Ends.{from_end};

use df_list::ListVal;
use df_model::{Bin, NoMemory, Side};
use df_text::{ends, place};
use df_values::Pieces;

/// How many elements there are.
pub fn llen(list: &ListVal, reply: &mut Pieces) -> Result<(), NoMemory>
    ensures { OnOk result (reply.new ≡ encoding_of (rows.llen list.now.items)) }
{
    reply.put_count(list.len())
}

/// The elements of a range.
pub fn lrange(from: i64, to: i64, list: &ListVal, reply: &mut Pieces) -> Result<(), NoMemory>
    ensures { OnOk result (reply.new ≡ encoding_of (rows.lrange from to list.now.items)) }
{
    let (start, stop) = ends(from, to, list.len());
    elements(Side::Left, start, stop, list, reply)
}

/// The element at a place.
pub fn lindex(at: i64, list: &ListVal, reply: &mut Pieces) -> Result<(), NoMemory>
    ensures { OnOk result (reply.new ≡ encoding_of (rows.lindex at list.now.items)) }
{
    let Some(at) = place(at, list.len()) else {
        return reply.put_null();
    };
    let Some(element) = list.get(at) else {
        return reply.put_null();
    };
    reply.put_bulk(element.as_slice())
}

/// An array of the elements from `start` up to `stop`, as they are met from this end.
pub fn elements(
    side: Side,
    start: usize,
    stop: usize,
    list: &ListVal,
    reply: &mut Pieces,
) -> Result<(), NoMemory>
    requires { stop ≤ length list.now.items }
    ensures { OnOk result (reply.new ≡ encoding_of (outcomes.bulks (drop start (take stop (from_end side list.now.items))))) }
{
    reply.put_array_head(stop.saturating_sub(start))?;
    'elements: for at in start..stop {
        let Some(element) = element_from(list, side, at) else {
            unreachable!()
        };
        reply.add_bulk(element.as_slice())?;
    }
    Ok(())
}

/// The element at this place from 0, counted from this end.
pub fn element_from(list: &ListVal, side: Side, at: usize) -> Option<&Bin>
    ensures { option_copied result ≡ slice_get (from_end side list.now.items) at }
{
    let len = list.len();
    if at >= len {
        return None;
    }
    match side {
        Side::Left => list.get(at),
        Side::Right => list.get(len - 1 - at),
    }
}
