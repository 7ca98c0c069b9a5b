//! Words as the fields of a command: byte strings, numbers, lists and pairs.

ghost use Rattle.std.specs.Prelude.{◌≡◌, IfOk};
ghost use Rattle.df_model.specs.Numbers as numbers;
ghost use Rattle.df_model.specs.Reads.Shapes as shape;
ghost use Rattle.df_model.specs.Spared.{all_of};
ghost use Rattle.df_parse.specs.Reading.{PairsRead};

use bytes::Bytes;
use df_model::{Bin, Bins, NoMemory, Pairs};
use df_text::parse_i64;
use std::alloc::Global;

/// A copy of the word.
pub fn bin(alloc: Global, word: &Bytes) -> Result<Bin, NoMemory>
    ensures { IfOk result (λ bytes. bytes ≡ word.now) }
{
    Bin::from_slice(alloc, word.as_slice())
}

/// A copy of each word.
pub fn bins(alloc: Global, words: &[Bytes]) -> Result<Bins, NoMemory>
    ensures { IfOk result (λ list. list ≡ all_of words.now) }
{
    let mut list = Bins::new(alloc);
    list.reserve(words.len())?;
    'words: for word in words {
        list.push(bin(alloc, word)?);
    }
    Ok(list)
}

/// A copy of each word, in twos; None where one is left over.
pub fn pairs_of(alloc: Global, words: &[Bytes]) -> Result<Option<Pairs>, NoMemory>
    ensures { IfOk result (λ pairs. PairsRead (shape.pairs_of words.now) pairs) }
{
    let mut list = Pairs::new(alloc);
    list.reserve(words.len() / 2)?;
    let mut rest = words;
    'pairs: while let [first, second, more @ ..] = rest {
        let first = bin(alloc, first)?;
        let second = bin(alloc, second)?;
        list.push((first, second));
        rest = more;
    }
    if rest.is_empty() {
        Ok(Some(list))
    } else {
        Ok(None)
    }
}

/// The number that the word spells. Takes no memory.
pub fn number(word: &Bytes) -> Option<i64>
    ensures { result ≡ numbers.signed word.now }
{
    parse_i64(word.as_slice())
}
