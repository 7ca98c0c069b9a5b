//! Strings that are counted on.

ghost use Rattle.std.specs.Prelude.{◌≡◌, IfOk, MatchResult};
ghost use Rattle.std.specs.Fmt.{signed_decimal};
ghost use Rattle.df_model.specs.Outcomes.{refused};
ghost use Rattle.df_model.specs.Meaning.Strings as strings;
ghost use Rattle.df_strings.specs.Strings.{MakesText};

use crate::set::put;
use df_model::{Bin, ErrorText, NoMemory};
use df_values::{Change, Pieces};
use itoa::Buffer;
use std::alloc::Global;

/// INCRBY, on the number that stands there.
pub fn incrby(
    alloc: Global,
    by: i64,
    number: Option<i64>,
    reply: &mut Pieces,
) -> Result<Change, NoMemory>
    ensures { IfOk result (λ change. MakesText (strings.raised by number) reply.new change) }
{
    let Some(number) = number else {
        reply.put_error(&ErrorText::NotInteger)?;
        return Ok(Change::Keep);
    };
    let Some(sum) = number.checked_add(by) else {
        reply.put_error(&ErrorText::Overflow)?;
        return Ok(Change::Keep);
    };
    count(alloc, sum, reply)
}

/// DECRBY, on the number that stands there. The least number has no opposite, so it can't be taken off.
pub fn decrby(
    alloc: Global,
    by: i64,
    number: Option<i64>,
    reply: &mut Pieces,
) -> Result<Change, NoMemory>
    ensures { IfOk result (λ change. MakesText (strings.lowered by number) reply.new change) }
{
    let Some(number) = number else {
        reply.put_error(&ErrorText::NotInteger)?;
        return Ok(Change::Keep);
    };
    let Some(opposite) = by.checked_neg() else {
        reply.put_error(&ErrorText::Overflow)?;
        return Ok(Change::Keep);
    };
    incrby(alloc, opposite, Some(number), reply)
}

/// Puts the decimal of a number, and answers the number. The decimal takes no memory, since it stands in place.
fn count(alloc: Global, n: i64, reply: &mut Pieces) -> Result<Change, NoMemory>
    ensures { IfOk result (λ change. MakesText (strings.summed n) reply.new change) }
{
    reply.put_int(n)?;
    let mut buffer = Buffer::new();
    let digits = Bin::from_slice(alloc, buffer.format(n).as_bytes())?;
    Ok(put(digits))
}
