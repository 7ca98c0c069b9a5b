//! How many fields are new or go, before anything is put or removed.
//!
//! Words are gone through from the last to the first, since the last put of a field is the one that stays. So a
//! word counts only where it isn't among those behind it. Few words are compared with one another, and many go
//! into a set.

ghost use Rattle.std.specs.Prelude.{◌≡◌, ◌∷◌, [], cond, ◌&&◌, not, ◌+◌, IfOk};
ghost use Rattle.std.specs.FinMap as map;
ghost use Rattle.df_model.specs.Meaning.{firsts};
ghost use Rattle.df_hashes.specs.Counts.{has, Knows, IsPutCount, IsDropCount, IsCounted};

use df_colls::{HashVal, SetVal};
use df_model::{Bin, NoMemory};
use std::alloc::Global;

/// Up to this many words are compared with one another.
const FEW: usize = 8;

/// What puts come to: how many fields are new, and whether anything is altered.
#[derive(Clone, Copy, Debug, Drop)]
pub(crate) struct Counted {
    pub(crate) new: usize,
    pub(crate) alters: bool,
}

/// What putting these pairs comes to.
pub(crate) fn count_puts(
    alloc: Global,
    pairs: &[(Bin, Bin)],
    hash: &HashVal,
) -> Result<Counted, NoMemory>
    ensures { IfOk result (λ counted. IsPutCount counted.new counted.alters pairs.now hash.now.fields) }
{
    let mut met = met_words(alloc, pairs.len());
    let mut counted = Counted {
        new: 0,
        alters: false,
    };
    let mut i = pairs.len();
    'pairs: while i > 0 {
        let pair = &pairs[i - 1];
        let again = is_put_again(alloc, &mut met, &pair.0, pairs.split_at(i).1)?;
        counted = count_put(counted, again, pair, hash)?;
        i -= 1;
    }
    Ok(counted)
}

/// How many of the fields are there, each counted once.
pub(crate) fn count_drops(alloc: Global, words: &[Bin], hash: &HashVal) -> Result<usize, NoMemory>
    ensures { IfOk result (λ gone. IsDropCount gone words.now hash.now.fields) }
{
    let mut met = met_words(alloc, words.len());
    let mut gone = 0;
    let mut i = words.len();
    'words: while i > 0 {
        let word = &words[i - 1];
        let again = is_dropped_again(alloc, &mut met, word, words.split_at(i).1)?;
        gone = count_drop(gone, again, word, hash)?;
        i -= 1;
    }
    Ok(gone)
}

/// The count with one more pair, which stands before those that were counted.
fn count_put(
    counted: Counted,
    again: bool,
    pair: &(Bin, Bin),
    hash: &HashVal,
) -> Result<Counted, NoMemory>
    ensures { IfOk result (λ next. IsCounted again pair.now.1 (map.get hash.now.fields pair.now.0) counted.new counted.alters next.new next.alters) }
{
    if again {
        return Ok(counted);
    }
    match hash.get(pair.0.as_slice()) {
        Some(held) => Ok(Counted {
            new: counted.new,
            alters: counted.alters || *held != pair.1,
        }),
        None => Ok(Counted {
            new: counted.new.checked_add(1).ok_or(NoMemory)?,
            alters: true,
        }),
    }
}

/// The count with one more word, which stands before those that were counted.
fn count_drop(gone: usize, again: bool, word: &Bin, hash: &HashVal) -> Result<usize, NoMemory>
    ensures { IfOk result (λ next. next ≡ cond (not again && map.contains_key hash.now.fields word.now) (gone + 1) gone) }
{
    if !again && hash.get(word.as_slice()).is_some() {
        return gone.checked_add(1).ok_or(NoMemory);
    }
    Ok(gone)
}

/// A set for the words met so far, where there are many.
fn met_words(alloc: Global, count: usize) -> Option<SetVal>
    ensures { Knows result [] }
{
    if count <= FEW {
        return None;
    }
    Some(SetVal::new(alloc))
}

/// Whether a pair behind this field has it too. The field is met then.
fn is_put_again(
    alloc: Global,
    met: &mut Option<SetVal>,
    field: &Bin,
    behind: &[(Bin, Bin)],
) -> Result<bool, NoMemory>
    requires { Knows met.old (firsts behind.now) }
    ensures { IfOk result (λ again. (again ≡ has (firsts behind.now) field.now) × Knows met.new (field.now ∷ firsts behind.now)) }
{
    match met {
        Some(set) => meet(alloc, set, field),
        None => Ok(is_field(field, behind)),
    }
}

/// Whether the word stands behind itself too. The word is met then.
fn is_dropped_again(
    alloc: Global,
    met: &mut Option<SetVal>,
    word: &Bin,
    behind: &[Bin],
) -> Result<bool, NoMemory>
    requires { Knows met.old behind.now }
    ensures { IfOk result (λ again. (again ≡ has behind.now word.now) × Knows met.new (word.now ∷ behind.now)) }
{
    match met {
        Some(set) => meet(alloc, set, word),
        None => Ok(is_word(word, behind)),
    }
}

/// Adds the word, and answers whether it was met before.
fn meet(alloc: Global, met: &mut SetVal, word: &Bin) -> Result<bool, NoMemory>
    ensures { IfOk result (λ again. (again ≡ map.contains_key met.old.members word.now) × (met.new.members ≡ map.insert met.old.members word.now tt)) }
{
    met.reserve(1)?;
    let word = word.copy(alloc)?;
    Ok(!met.add(word))
}

fn is_field(field: &Bin, pairs: &[(Bin, Bin)]) -> bool
    ensures { result ≡ has (firsts pairs.now) field.now }
{
    'pairs: for pair in pairs {
        if *field == pair.0 {
            return true;
        }
    }
    false
}

fn is_word(word: &Bin, words: &[Bin]) -> bool
    ensures { result ≡ has words.now word.now }
{
    'words: for other in words {
        if word == other {
            return true;
        }
    }
    false
}
