//! Whether a text matches a pattern, as KEYS does it.
//!
//! How far must a failed try go back? To the last star alone. What stands before a star is matched
//! where it first fits: any later place leaves the star fewer suffixes of the same text, so it can't
//! match more. A try thus takes no memory, and no stack beyond its own calls; each stretch of
//! the pattern between two stars is tried at most once at each place of the text.
//!
//! The pattern is read as it is tried, so nothing is made of it beforehand.

ghost use Rattle.std.specs.Prelude.{◌≡◌, ◌≢◌, ◌∷◌};
ghost use Rattle.df_model.specs.Patterns.{parts, matches, some_suffix, is_match};
ghost use Rattle.df_text.specs.Runs.{ran};
ghost use Rattle.df_text.specs.Calls.Part.{IsPast, IsNoLonger, IsEscaped};
ghost use Rattle.df_text.specs.Calls.Run.{IsRun, IsShorterRun};

use crate::class::{past_class, split_first};

/// How far a text goes along a pattern before its next star.
enum Run<'a> {
    /// Both came to their end.
    Matched,
    Failed,
    /// What of the pattern stands behind the star, and what is left of the text there.
    AtStar(&'a [u8], &'a [u8]),
}

/// Whether the text matches the pattern. Takes no memory, and time at most in proportion to the
/// pattern's length times the text's.
pub fn glob(pattern: &[u8], text: &[u8]) -> bool
    ensures { result ≡ is_match pattern.now text.now }
{
    match run_to_star(pattern, text) {
        Run::Matched => true,
        Run::Failed => false,
        Run::AtStar(after, left) => suffix_matches(after, left),
    }
}

/// Goes along both up to the pattern's next star.
fn run_to_star<'a>(pattern: &'a [u8], text: &'a [u8]) -> Run<'a>
    ensures run { IsRun (ran (parts pattern.now) text.now) result }
    ensures shorter { IsShorterRun pattern.now text.now result }
{
    let mut pattern = pattern;
    let mut text = text;
    'parts: while let Some((first, after)) = split_first(pattern) {
        if first == b'*' {
            return Run::AtStar(after, text);
        }
        let Some((byte, later)) = split_first(text) else {
            return Run::Failed;
        };
        match past_part(first, after, byte) {
            Some(rest) => {
                pattern = rest;
                text = later;
            }
            None => return Run::Failed,
        }
    }
    if text.is_empty() {
        Run::Matched
    } else {
        Run::Failed
    }
}

/// What follows the part that begins with this byte, no star, where the part takes the byte of the
/// text.
fn past_part(first: u8, rest: &[u8], byte: u8) -> Option<&[u8]>
    requires { first ≢ 42 }
    ensures past { IsPast (parts (first ∷ rest.now)) byte result }
    ensures shorter { IsNoLonger rest.now result }
{
    if first == b'?' {
        return Some(rest);
    }
    if first == b'[' {
        return past_class(rest, byte);
    }
    match escaped(first, rest) {
        Some((one, after)) => if one == byte { Some(after) } else { None },
        None => if first == byte { Some(rest) } else { None },
    }
}

/// The byte that a `\` takes from its meaning, and what follows. At the pattern's end `\` stands for
/// itself.
fn escaped(first: u8, rest: &[u8]) -> Option<(u8, &[u8])>
    ensures { IsEscaped first rest.now result }
{
    if first == b'\\' {
        split_first(rest)
    } else {
        None
    }
}

/// Whether some suffix of the text matches the pattern.
fn suffix_matches(pattern: &[u8], text: &[u8]) -> bool
    ensures { result ≡ some_suffix (matches (parts pattern.now)) text.now }
{
    let mut pattern = pattern;
    let mut text = text;
    'suffixes: loop {
        match run_to_star(pattern, text) {
            Run::Matched => return true,
            Run::AtStar(after, left) => {
                pattern = after;
                text = left;
            }
            Run::Failed => match split_first(text) {
                None => return false,
                Some((_first, later)) => text = later,
            },
        }
    }
}
