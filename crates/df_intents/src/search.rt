//! The search for a holder that conflicts, where the counts can't tell.

ghost use Rattle.std.specs.Prelude.{◌≡◌, Some, is_some, List};
ghost use Rattle.df_footprints.specs.Asks.{asks, asks_for, clashes_with};
ghost use Rattle.df_intents.specs.Holders.{Holder};
ghost use Rattle.df_intents.specs.Counting.{for_key, held, opposes};
ghost use Rattle.df_intents.specs.Kept.{Once, Tells};

use df_model::{Bin, Keys, Mode};
use std::collections::HashMap;

/// The number of a holder whose asks clash with an ask for this key. The hinted number is looked at
/// first, then all holders.
pub(crate) fn find_holder(
    holders: &HashMap<u64, Keys>,
    key: &Bin,
    mode: Mode,
    hint: u64,
) -> Option<u64>
    ensures { (hs : List Holder) → Once hs → Tells holders.now.entries hs → is_some result ≡ clashes_with (for_key key.now mode) (held hs) }
{
    if let Some(keys) = holders.get(&hint)
        && clashes(key, mode, keys)
    {
        return Some(hint);
    }
    'holders: for (number, keys) in holders.iter() {
        if clashes(key, mode, keys) {
            return Some(*number);
        }
    }
    None
}

/// Whether an ask for this key clashes with what is asked for here.
fn clashes(key: &Bin, mode: Mode, keys: &Keys) -> bool
    ensures { result ≡ clashes_with (for_key key.now mode) (asks keys.now) }
{
    match keys {
        Keys::All(other) => is_opposed(mode, *other),
        Keys::Some(modes) => clashes_with_some(key, mode, modes.as_slice()),
    }
}

fn clashes_with_some(key: &Bin, mode: Mode, modes: &[(Bin, Mode)]) -> bool
    ensures { result ≡ clashes_with (for_key key.now mode) (asks_for modes.now) }
{
    'asks: for (other, other_mode) in modes {
        if is_opposed(mode, *other_mode) && *key == *other {
            return true;
        }
    }
    false
}

/// Whether asks in these modes for one key don't go together.
fn is_opposed(mode: Mode, other: Mode) -> bool
    ensures { result ≡ opposes mode other }
{
    match (mode, other) {
        (Mode::Shared, Mode::Shared) => false,
        _ => true,
    }
}
