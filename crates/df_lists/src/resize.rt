//! What becomes of a key by the length of its list.

ghost use Rattle.std.specs.Prelude.{◌≡◌, ◌+◌, IfOk};
ghost use Rattle.df_lists.specs.Resized as becomes;

use df_model::NoMemory;
use df_values::{Change, Edit};

/// The change that an edit makes where it takes a list from one length to another.
pub fn resized(edit: Edit, before: usize, after: usize) -> Change
    ensures { result ≡ becomes.resized edit before after }
{
    if after == 0 {
        return Change::Delete;
    }
    if after == before {
        return Change::Keep;
    }
    Change::Edit(edit)
}

/// Two lengths together. More than there are addresses for would be want of memory.
pub fn sum(a: usize, b: usize) -> Result<usize, NoMemory>
    ensures { IfOk result (λ n. n ≡ a + b) }
{
    match a.checked_add(b) {
        Some(n) => Ok(n),
        None => Err(NoMemory),
    }
}
