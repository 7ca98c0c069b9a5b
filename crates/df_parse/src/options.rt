//! Option words, in any case.

ghost use Rattle.std.specs.Prelude.{◌≡◌, Some};
ghost use Rattle.df_model.specs.Reads.Shapes as shape;

use bytes::Bytes;
use df_model::{Beside, Guard, Side};
use df_text::is_name;

/// When SET puts its value; None where a word is no option or two of them exclude each other.
pub fn guards(options: &[Bytes]) -> Option<Guard>
    ensures { result ≡ shape.guards (Some Guard.Always) options.now }
{
    let mut guard = Guard::Always;
    'options: for option in options {
        guard = both(guard, guard_of(option)?)?;
    }
    Some(guard)
}

fn guard_of(word: &Bytes) -> Option<Guard>
    ensures { result ≡ shape.guard_of word.now }
{
    let word = word.as_slice();
    if is_name(word, "nx") {
        Some(Guard::Nx)
    } else if is_name(word, "xx") {
        Some(Guard::Xx)
    } else {
        None
    }
}

fn both(guard: Guard, other: Guard) -> Option<Guard>
    ensures { result ≡ shape.both guard (Some other) }
{
    match (guard, other) {
        (Guard::Nx, Guard::Xx) | (Guard::Xx, Guard::Nx) => None,
        (Guard::Nx, _) => Some(Guard::Nx),
        (Guard::Xx, _) => Some(Guard::Xx),
        (Guard::Always, other) => Some(other),
    }
}

/// BEFORE or AFTER.
pub fn beside_of(word: &Bytes) -> Option<Beside>
    ensures { result ≡ shape.beside_of word.now }
{
    let word = word.as_slice();
    if is_name(word, "before") {
        Some(Beside::Before)
    } else if is_name(word, "after") {
        Some(Beside::After)
    } else {
        None
    }
}

/// LEFT or RIGHT.
pub fn side_of(word: &Bytes) -> Option<Side>
    ensures { result ≡ shape.side_of word.now }
{
    let word = word.as_slice();
    if is_name(word, "left") {
        Some(Side::Left)
    } else if is_name(word, "right") {
        Some(Side::Right)
    } else {
        None
    }
}
