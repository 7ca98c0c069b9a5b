//! How many words of a command change the set.

ghost use Rattle.std.specs.Prelude.{Some, IfOk};
ghost use Rattle.df_model.specs.Meaning.Sets.{stored};
ghost use Rattle.df_model.specs.Outcomes.{count};
ghost use Rattle.df_values.specs.Prepares.{Makes};
ghost use Rattle.df_sets.specs.Counted.{Counted};

use df_colls::SetVal;
use df_model::{Bin, NoMemory};
use df_values::{Change, Pieces, Value};
use std::alloc::Global;

/// How many of the words are members, or how many aren't; a word that comes again is not counted again.
pub(crate) fn count_words(
    alloc: Global,
    words: &[Bin],
    set: &SetVal,
    inside: bool,
) -> Result<usize, NoMemory>
    ensures { IfOk result (λ n. Counted inside words.now set.now.members n) }
{
    if words.len() == 1 {
        let counts = set.has(words[0].as_slice()) == inside;
        return Ok(usize::from(counts));
    }
    let mut met = SetVal::new(alloc);
    met.reserve(words.len())?;
    let mut n = 0;
    'words: for word in words {
        if set.has(word.as_slice()) != inside {
            continue;
        }
        n += usize::from(met.add(word.copy(alloc)?));
    }
    Ok(n)
}

/// A command that changes nothing: none of its words counts. A set that is held has a member, so its key keeps it.
pub(crate) fn unchanged(set: &SetVal, reply: &mut Pieces) -> Result<Change, NoMemory>
    ensures { IfOk result (λ change. Makes (count 0, stored set.now.members) (Some (Value.Set set.now)) reply.new change) }
{
    reply.put_count(0)?;
    if set.is_empty() {
        return Ok(Change::Delete);
    }
    Ok(Change::Keep)
}
