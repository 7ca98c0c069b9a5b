//! LREM and LTRIM.

ghost use Rattle.std.specs.Prelude.{◌≡◌, ◌+◌, length, IfOk};
ghost use Rattle.df_model.specs.Meaning.Lists as rows;
ghost use Rattle.df_lists.specs.Ends.{from_end};
ghost use Rattle.df_lists.specs.Serves.{MakesOn};

use crate::look::element_from;
use crate::resize::resized;
use df_list::ListVal;
use df_model::{Bin, NoMemory, Side};
use df_text::ends;
use df_values::{Change, Edit, Pieces};

/// The first elements that equal this one leave, the last ones where the count is negative, all where it
/// is 0.
pub fn lrem(
    count: i64,
    element: Bin,
    list: &ListVal,
    reply: &mut Pieces,
) -> Result<Change, NoMemory>
    ensures { IfOk result (λ change. MakesOn (rows.lrem count element list.now.items) list.now reply.new change) }
{
    let before = list.len();
    let removed = removed_by(list, element.as_slice(), count);
    reply.put_count(removed)?;
    Ok(resized(Edit::RemoveEqual(element, count), before, before - removed))
}

/// How many elements would leave.
fn removed_by(list: &ListVal, element: &[u8], count: i64) -> usize
    ensures { result + length (rows.without count element.now list.now.items) ≡ length list.now.items }
{
    if count == 0 {
        return equal_from(list, Side::Left, element, list.len());
    }
    let most = count.unsigned_abs() as usize;
    if count < 0 {
        return equal_from(list, Side::Right, element, most);
    }
    equal_from(list, Side::Left, element, most)
}

/// How many elements equal this one, `most` at most: from this end on, no further than so many are met.
fn equal_from(list: &ListVal, side: Side, element: &[u8], most: usize) -> usize
    ensures { result + length (rows.without_first most element.now (from_end side list.now.items)) ≡ length list.now.items }
{
    let mut met = 0;
    'elements: for at in 0..list.len() {
        if met == most {
            return met;
        }
        let Some(other) = element_from(list, side, at) else {
            unreachable!()
        };
        if other.as_slice() == element {
            met += 1;
        }
    }
    met
}

/// A range is kept.
pub fn ltrim(from: i64, to: i64, list: &ListVal, reply: &mut Pieces) -> Result<Change, NoMemory>
    ensures { IfOk result (λ change. MakesOn (rows.ltrim from to list.now.items) list.now reply.new change) }
{
    reply.put_ok()?;
    let before = list.len();
    let (start, stop) = ends(from, to, before);
    let after = stop.saturating_sub(start);
    Ok(resized(Edit::Trim(from, to), before, after))
}
