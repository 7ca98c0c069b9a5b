//! Classes of a pattern, as `[ae]`, `[^e]` and `[a-b]`, read byte by byte as they are tried.
//!
//! A class goes on to the next `]`, or to the pattern's end where there is none. Its items are `\` and
//! a byte, two bytes joined by `-`, in either order, of which the second isn't `]`, or one byte.

ghost use Rattle.std.specs.Prelude.{◌≡◌, ℕ, List, Bool, [], ◌∷◌};
ghost use Rattle.df_model.specs.Patterns.{Range, Place, parts, parts_from, range, in_range};
ghost use Rattle.df_text.specs.Calls.Class.{IsSplit, IsRangeEnd, IsPastCaret, IsItem, IsShorterItem};
ghost use Rattle.df_text.specs.Calls.Part.{IsPast, IsNoLonger};

/// What stands at a place in a class, and what follows it.
enum Item<'a> {
    End(&'a [u8]),
    /// Both ends, as they stand. One byte is a range too.
    Range(u8, u8, &'a [u8]),
}

/// What follows a class that begins past this `[`, where the class takes the byte.
pub fn past_class(bytes: &[u8], byte: u8) -> Option<&[u8]>
    ensures past { IsPast (parts (91 ∷ bytes.now)) byte result }
    ensures shorter { IsNoLonger bytes.now result }
{
    match past_caret(bytes) {
        Some(items) => past_items(true, items, byte),
        None => past_items(false, bytes, byte),
    }
}

/// What follows the `^` of a negated class.
fn past_caret(bytes: &[u8]) -> Option<&[u8]>
    ensures { IsPastCaret bytes.now result }
{
    let (first, rest) = split_first(bytes)?;
    if first == b'^' { Some(rest) } else { None }
}

/// The first byte and the others.
pub fn split_first(bytes: &[u8]) -> Option<(u8, &[u8])>
    ensures { IsSplit bytes.now result }
{
    match bytes {
        [] => None,
        [first, rest @ ..] => Some((*first, rest)),
    }
}

/// What follows a class with these items, where it takes the byte.
fn past_items(negated: bool, bytes: &[u8], byte: u8) -> Option<&[u8]>
    ensures past { IsPast (parts_from (Place.Inside negated []) bytes.now) byte result }
    ensures shorter { IsNoLonger bytes.now result }
{
    let mut found = false;
    let mut left = bytes;
    'items: loop {
        match read_item(left) {
            Item::End(rest) => {
                return if found != negated { Some(rest) } else { None };
            }
            Item::Range(from, to, rest) => {
                found = found || is_between(byte, from, to);
                left = rest;
            }
        }
    }
}

/// The item at the front.
fn read_item(bytes: &[u8]) -> Item<'_>
    ensures item { (negated : Bool) (ranges : List Range) → IsItem negated ranges bytes.now result }
    ensures shorter { IsShorterItem bytes.now result }
{
    let Some((first, rest)) = split_first(bytes) else {
        return Item::End(bytes);
    };
    if first == b']' {
        return Item::End(rest);
    }
    if first == b'\\' {
        return match split_first(rest) {
            Some((byte, rest)) => Item::Range(byte, byte, rest),
            None => Item::Range(first, first, rest),
        };
    }
    match range_end(rest) {
        Some((to, rest)) => Item::Range(first, to, rest),
        None => Item::Range(first, first, rest),
    }
}

/// The byte behind a `-` that makes a range of the byte before it, and what follows.
fn range_end(bytes: &[u8]) -> Option<(u8, &[u8])>
    ensures { IsRangeEnd bytes.now result }
{
    let (dash, rest) = split_first(bytes)?;
    let (to, rest) = split_first(rest)?;
    if dash == b'-' && to != b']' {
        Some((to, rest))
    } else {
        None
    }
}

/// Whether the byte stands between these, both in, whichever is the lesser.
fn is_between(byte: u8, from: u8, to: u8) -> bool
    ensures { result ≡ in_range (range from to) byte }
{
    from.min(to) <= byte && byte <= from.max(to)
}
