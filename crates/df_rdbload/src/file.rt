//! A whole file: its head, its parts and its end.

ghost use Rattle.std.specs.Prelude.{◌≡◌};
ghost use Rattle.df_outside.specs.Disks.{Told};
ghost use Rattle.df_rdbload.specs.Sources.{StillCounts};
ghost use Rattle.df_rdbload.specs.Entries.{ReadsFile};
ghost use Rattle.df_rdbload.specs.Loads.{HasLoaded};

use crate::end::end;
use crate::head::head;
use crate::parts::parts;
use crate::source::Source;
use df_model::Bin;
use df_outside::Disk;
use df_rdbcore::LoadFault;
use df_values::Value;
use std::alloc::Global;
use std::collections::HashMap;

/// What was loaded.
#[derive(Drop)]
pub enum Loaded {
    /// The disk has no file.
    NoFile,
    /// The keys of the file, each with what it holds.
    Keys(HashMap<Bin, Value>),
}

/// Reads the disk's file, and answers its keys, or its first fault in reading order.
pub fn load<K: Disk>(alloc: Global, disk: &mut K) -> Result<Loaded, LoadFault>
    ensures disk { Told (K.stored disk.old) (K.stored disk.new) (λ a b. b ≡ a) }
    ensures faults { StillCounts (K.faults disk.old) (K.faults disk.new) }
    ensures loaded { HasLoaded result (K.stored disk.new) (K.faults disk.old) (K.faults disk.new) }
{
    let Ok(mut source) = Source::new(alloc) else {
        return Err(LoadFault::NoMemory);
    };
    let _some = source.more(disk)?;
    if source.is_missing() {
        return Ok(Loaded::NoFile);
    }
    let read = read_file(alloc, disk, &mut source);
    if source.is_missing() {
        return Ok(Loaded::NoFile);
    }
    let keys = read?;
    Ok(Loaded::Keys(keys))
}

/// Reads a file from its begin to its end.
fn read_file<K: Disk>(
    alloc: Global,
    disk: &mut K,
    source: &mut Source,
) -> Result<HashMap<Bin, Value>, LoadFault>
    ensures { ReadsFile result (K.stored disk.old) (K.stored disk.new) (K.faults disk.old) (K.faults disk.new) source.old source.new }
{
    head(disk, source)?;
    let keys = parts(alloc, disk, source)?;
    end(disk, source)?;
    Ok(keys)
}
