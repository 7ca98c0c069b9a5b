//! SREM.

ghost use Rattle.std.specs.Prelude.{Some, None, IfOk};
ghost use Rattle.df_model.specs.Meaning.Sets as sets;
ghost use Rattle.df_values.specs.Prepares.{Makes};

use crate::count::{count_words, unchanged};
use df_colls::SetVal;
use df_model::{Bins, NoMemory};
use df_values::{Change, Edit, Pieces, Value};
use std::alloc::Global;

/// Removes members of a missing key: there are none.
pub(crate) fn remove_from_none(_words: &Bins, reply: &mut Pieces) -> Result<Change, NoMemory>
    ensures { IfOk result (λ change. Makes (sets.changes (sets.srem _words.now.items) None) None reply.new change) }
{
    reply.put_count(0)?;
    Ok(Change::Keep)
}

/// Removes members, and replies how many of them were there.
pub(crate) fn remove(
    alloc: Global,
    words: Bins,
    set: &SetVal,
    reply: &mut Pieces,
) -> Result<Change, NoMemory>
    ensures { IfOk result (λ change. Makes (sets.srem words.items set.now.members) (Some (Value.Set set.now)) reply.new change) }
{
    let gone = count_words(alloc, words.as_slice(), set, true)?;
    if gone == 0 {
        return unchanged(set, reply);
    }
    reply.put_count(gone)?;
    if gone == set.len() {
        return Ok(Change::Delete);
    }
    Ok(Change::Edit(Edit::DropMembers(words)))
}
