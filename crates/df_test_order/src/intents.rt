//! The grants of a worked scenario, and that room is found where there is memory.

ghost use Rattle.std.specs.Prelude.{◌≡◌, IfOk};

use df_intents::{Grant, Intents, room_of};
use df_model::{Bin, KeyModes, Keys, Mode, NoMemory};
use std::alloc::Global;

const NO_KEY: (&str, Mode) = ("", Mode::Shared);

/// The keys that have a name, or all of them.
fn keys_of(alloc: Global, all: Option<Mode>, named: [(&str, Mode); 2]) -> Result<Keys, NoMemory> {
    if let Some(mode) = all {
        return Ok(Keys::All(mode));
    }
    let mut modes = KeyModes::new(alloc);
    'names: for (name, mode) in named {
        if name.len() > 0 {
            modes.reserve(1)?;
            modes.push((Bin::from_slice(alloc, name.as_bytes())?, mode));
        }
    }
    Ok(Keys::Some(modes))
}

/// What the call is granted, if it holds nothing yet.
fn take(intents: &mut Intents, number: u64, keys: Keys) -> Result<Option<Grant>, NoMemory> {
    intents.reserve(room_of(&keys))?;
    if intents.holds(number) {
        return Ok(None);
    }
    Ok(Some(intents.take(number, keys)))
}

#[test]
fn grants_as_the_worked_scenario(rt: HostRuntime) -> Result<(), NoMemory> {
    let mut intents = Intents::new(rt.alloc());
    let (shared, exclusive) = (Mode::Shared, Mode::Exclusive);
    let table = [
        // the calls that are over, the call that takes, in which mode it takes all keys, or which it takes, its grant
        ([0, 0], 4, None, [("a", exclusive), NO_KEY], Grant::Free),
        ([0, 0], 5, None, [("a", exclusive), NO_KEY], Grant::Waits),
        ([0, 0], 6, None, [("b", exclusive), NO_KEY], Grant::Free),
        ([4, 6], 2, None, [("a", shared), NO_KEY], Grant::Waits),
        ([5, 2], 5, None, [("a", exclusive), NO_KEY], Grant::Free),
        (
            [0, 0],
            3,
            None,
            [("a", shared), ("b", exclusive)],
            Grant::Waits,
        ),
        ([0, 0], 7, None, [("c", exclusive), NO_KEY], Grant::Free),
        ([5, 0], 9, Some(shared), [NO_KEY, NO_KEY], Grant::Waits),
        ([3, 7], 11, None, [("b", shared), NO_KEY], Grant::Free),
        ([0, 0], 12, Some(exclusive), [NO_KEY, NO_KEY], Grant::Waits),
    ];
    'rows: for (over, number, all, named, grant) in table {
        'over: for over in over {
            if intents.holds(over) {
                let _keys = intents.release(over);
            }
        }
        let keys = keys_of(rt.alloc(), all, named)?;
        assert_eq!(rt;
            take(&mut intents, number, keys)?,
            Some(grant),
            "of {number}"
        );
    }
    assert_eq!(rt; intents.len(), 3);
    Ok(())
}
