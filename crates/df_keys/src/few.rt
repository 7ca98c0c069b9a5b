//! Keys of a shard in a list, for a call that names few.
//!
//! A key is put in its place in byte order, and those behind it move up. For few keys that costs less than a tree; for many
//! it would cost much more.

ghost use Rattle.std.specs.Prelude.{◌≡◌, ◌≤◌, ◌<◌, ◌∷◌, [], length, OnOk};
ghost use Rattle.std.specs.List.{insert};
ghost use Rattle.df_footprints.specs.Naming.{Adds};
ghost use Rattle.df_keys.specs.Places.{IsPlace};

use crate::mode::is_covered;
use df_model::{Bin, KeyModes, Mode, NoMemory};
use std::alloc::Global;
use std::cmp::Ordering;

/// Where a key stands in a list in byte order.
#[derive(Clone, Copy, Debug)]
pub(crate) enum Place {
    /// Here, in this mode.
    Held(usize, Mode),
    /// It isn't there, and would stand here.
    Free(usize),
}

/// Adds a key, which is copied unless it is there in a mode as strong.
pub(crate) fn add_to_few(
    alloc: Global,
    list: &mut KeyModes,
    key: &Bin,
    mode: Mode,
) -> Result<(), NoMemory>
    ensures { OnOk result (Adds list.old.items ((key.now, mode) ∷ []) list.new.items) }
{
    match place_of(list.as_slice(), key) {
        Place::Held(at, held) => {
            if is_covered(Some(held), mode) {
                return Ok(());
            }
            let key = key.copy(alloc)?;
            let _read = list.replace(at, (key, mode));
            Ok(())
        }
        Place::Free(at) => {
            let key = key.copy(alloc)?;
            list.reserve(1)?;
            insert_at(list, at, (key, mode));
            Ok(())
        }
    }
}

fn place_of(list: &[(Bin, Mode)], key: &Bin) -> Place
    ensures { IsPlace key.now list.now result }
{
    'places: for at in 0..list.len() {
        match key.cmp(&list[at].0) {
            Ordering::Less => return Place::Free(at),
            Ordering::Equal => return Place::Held(at, list[at].1),
            Ordering::Greater => {}
        }
    }
    Place::Free(list.len())
}

/// Puts an element at this place, and moves those behind it up. Takes no memory.
fn insert_at(list: &mut KeyModes, at: usize, item: (Bin, Mode))
    requires within { at ≤ length list.old.items }
    requires room { 0 < list.old.spare }
    ensures { list.new.items ≡ insert list.old.items at item }
{
    let mut item = item;
    'places: for place in at..list.len() {
        item = list.replace(place, item);
    }
    list.push(item);
}
