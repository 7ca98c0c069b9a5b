//! LSET and LINSERT.

ghost use Rattle.std.specs.Prelude.{◌≡◌, ◌+◌, ◌^◌, ◌<◌, length, slice_get, slice_set, IfOk, IfSome, IsTrue, ◌↔◌, Some};
ghost use Rattle.df_model.specs.Meaning.Lists as rows;
ghost use Rattle.df_model.specs.Outcomes as outcomes;
ghost use Rattle.df_lists.specs.Places.{place_of, beside_place};
ghost use Rattle.df_lists.specs.Serves.{MakesOn};

use crate::resize::sum;
use df_list::ListVal;
use df_model::{Beside, Bin, ErrorText, NoMemory};
use df_text::place;
use df_values::{Change, Edit, Pieces};

/// An element takes the place of another.
pub fn lset(at: i64, element: Bin, list: &ListVal, reply: &mut Pieces) -> Result<Change, NoMemory>
    ensures { IfOk result (λ change. MakesOn (rows.lset at element list.now.items) list.now reply.new change) }
{
    if list.is_empty() {
        reply.put_error(&ErrorText::NoSuchKey)?;
        return Ok(Change::Keep);
    }
    let Some(at) = place(at, list.len()) else {
        reply.put_error(&ErrorText::IndexRange)?;
        return Ok(Change::Keep);
    };
    set_at(at, element, list, reply)
}

fn set_at(at: usize, element: Bin, list: &ListVal, reply: &mut Pieces) -> Result<Change, NoMemory>
    requires { at < length list.now.items }
    ensures { IfOk result (λ change. MakesOn (outcomes.ok, rows.stored (slice_set list.now.items at element)) list.now reply.new change) }
{
    reply.put_ok()?;
    if is_at(list, at, element.as_slice()) {
        return Ok(Change::Keep);
    }
    Ok(Change::Edit(Edit::SetAt(at as u64, element)))
}

/// Whether the element at this place equals these bytes.
fn is_at(list: &ListVal, at: usize, bytes: &[u8]) -> bool
    ensures { IsTrue result ↔ (slice_get list.now.items at ≡ Some bytes.now) }
{
    match list.get(at) {
        Some(element) => element.as_slice() == bytes,
        None => false,
    }
}

/// An element comes beside the first that equals the pivot.
pub fn linsert(
    beside: Beside,
    pivot: &[u8],
    element: Bin,
    list: &mut ListVal,
    reply: &mut Pieces,
) -> Result<Change, NoMemory>
    ensures ok { IfOk result (λ change. MakesOn (rows.linsert beside pivot.now element list.old.items) list.new reply.new change) }
    ensures kept { list.new.items ≡ list.old.items }
{
    if list.is_empty() {
        reply.put_count(0)?;
        return Ok(Change::Keep);
    }
    let Some(at) = position(list, pivot) else {
        reply.put_int(-1)?;
        return Ok(Change::Keep);
    };
    let after = sum(list.len(), 1)?;
    list.reserve(1)?;
    reply.put_count(after)?;
    Ok(Change::Edit(Edit::InsertAt(place_beside(beside, at) as u64, element)))
}

fn place_beside(beside: Beside, at: usize) -> usize
    requires { at + 1 < 2 ^ 64 }
    ensures { result ≡ beside_place beside at }
{
    match beside {
        Beside::Before => at,
        Beside::After => at + 1,
    }
}

/// The place of the first element that equals these bytes.
fn position(list: &ListVal, bytes: &[u8]) -> Option<usize>
    ensures place { result ≡ place_of bytes.now list.now.items }
    ensures within { IfSome result (λ at. at < length list.now.items) }
{
    'elements: for at in 0..list.len() {
        let Some(element) = list.get(at) else {
            unreachable!()
        };
        if element.as_slice() == bytes {
            return Some(at);
        }
    }
    None
}
