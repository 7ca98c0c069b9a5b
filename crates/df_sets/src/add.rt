//! SADD.

ghost use Rattle.std.specs.Prelude.{◌≡◌, ◌≤◌, Some, None, length, IfOk};
ghost use Rattle.df_model.specs.Meaning.Sets as sets;
ghost use Rattle.df_values.specs.Prepares.{Makes};

use crate::count::{count_words, unchanged};
use df_colls::SetVal;
use df_model::{Bins, NoMemory};
use df_values::{Change, Edit, Pieces, Value};
use std::alloc::Global;

/// Adds members to a missing key: they are a set of their own.
pub(crate) fn add_to_none(
    alloc: Global,
    words: Bins,
    reply: &mut Pieces,
) -> Result<Change, NoMemory>
    ensures { IfOk result (λ change. Makes (sets.changes (sets.sadd words.items) None) None reply.new change) }
{
    let mut set = SetVal::new(alloc);
    set.reserve(words.len())?;
    add_each(words, &mut set);
    reply.put_count(set.len())?;
    if set.is_empty() {
        return Ok(Change::Keep);
    }
    Ok(Change::Put(Value::Set(set)))
}

fn add_each(words: Bins, set: &mut SetVal)
    requires { length words.items ≤ set.old.spare }
    ensures { set.new.members ≡ sets.with_members words.items set.old.members }
{
    let words = words.into_vec();
    'words: for word in words {
        let _new = set.add(word);
    }
}

/// Adds members, and replies how many of them are new.
pub(crate) fn add(
    alloc: Global,
    words: Bins,
    set: &mut SetVal,
    reply: &mut Pieces,
) -> Result<Change, NoMemory>
    ensures ok { IfOk result (λ change. Makes (sets.sadd words.items set.old.members) (Some (Value.Set set.new)) reply.new change) }
    ensures kept { set.new.members ≡ set.old.members }
{
    let new = count_words(alloc, words.as_slice(), set, false)?;
    if new == 0 {
        return unchanged(set, reply);
    }
    set.reserve(words.len())?;
    reply.put_count(new)?;
    Ok(Change::Edit(Edit::AddMembers(words)))
}
