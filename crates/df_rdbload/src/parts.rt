//! The parts of a file between its head and its end.

ghost use Rattle.std.specs.Prelude.{◌≡◌, ◌≢◌, ◌<◌, List, OnOk};
ghost use Rattle.std.specs.Bool.{OnTrue, OnFalse};
ghost use Rattle.df_rdbcore.specs.Parts.{Entry, firsts};
ghost use Rattle.df_rdbcore.specs.Files.{keyspace_of};
ghost use Rattle.df_rdbload.specs.FileStops.{HoldsKey, DatabaseStops, PassedStops, EntryStops, PartStops};
ghost use Rattle.df_rdbload.specs.Sources.{room, Reads};
ghost use Rattle.df_rdbload.specs.Entries.{keyspace_in, PartRead, EntryRead, PassedRead, IsZero, Refuses, BodyRead, BodyStops};

use crate::source::Source;
use crate::values::value;
use df_model::Bin;
use df_outside::Disk;
use df_rdbcore::{LoadFault, Twice};
use df_values::Value;
use std::alloc::Global;
use std::collections::HashMap;

/// The first bytes of parts that the format knows and that aren't read.
const UNREAD: [u8; 29] = [
    3, 5, 6, 7, 9, 10, 11, 12, 13, 14, 15, 16, 17, 18, 19, 20, 21, 22, 23, 24, 25, 244, 245, 246,
    247, 248, 249, 252, 253,
];

/// Takes all parts, and the byte FF behind them.
pub fn parts<K: Disk>(
    alloc: Global,
    disk: &mut K,
    source: &mut Source,
) -> Result<HashMap<Bin, Value>, LoadFault>
    ensures { Reads BodyRead BodyStops result (K.stored disk.old) (K.stored disk.new) (K.faults disk.old) (K.faults disk.new) source.old source.new }
{
    let mut keys = HashMap::new(alloc);
    'parts: loop {
        let goes_on = part(alloc, disk, source, &mut keys)?;
        if !goes_on {
            return Ok(keys);
        }
    }
}

/// Takes a part; false at the byte FF, behind which none stands.
fn part<K: Disk>(
    alloc: Global,
    disk: &mut K,
    source: &mut Source,
    keys: &mut HashMap<Bin, Value>,
) -> Result<bool, LoadFault>
    ensures reads { (read : List Entry) → keyspace_of read ≡ keyspace_in keys.old.entries → Reads (PartRead read keys.new.entries) (PartStops (firsts read)) result (K.stored disk.old) (K.stored disk.new) (K.faults disk.old) (K.faults disk.new) source.old source.new }
    ensures takes { OnOk result (room source.new < room source.old) }
{
    let begin = source.place();
    let first = source.byte(disk)?;
    if first == 0xff {
        return Ok(false);
    }
    if holds_key(first) {
        entry(alloc, disk, source, first, begin, keys)?;
        return Ok(true);
    }
    passed_over(alloc, disk, source, first, begin)?;
    Ok(true)
}

/// Whether a part with this first byte is a key and what it holds.
fn holds_key(first: u8) -> bool
    ensures yes { OnTrue result (HoldsKey first) }
    ensures no { OnFalse result (HoldsKey first → ⊥) }
{
    if first == 4 {
        return true;
    }
    first < 3
}

/// Takes a key and what it holds, behind the part's first byte.
fn entry<K: Disk>(
    alloc: Global,
    disk: &mut K,
    source: &mut Source,
    kind: u8,
    begin: u64,
    keys: &mut HashMap<Bin, Value>,
) -> Result<(), LoadFault>
    requires { HoldsKey kind }
    ensures { (read : List Entry) → keyspace_of read ≡ keyspace_in keys.old.entries → Reads (EntryRead kind read keys.new.entries) (EntryStops (firsts read) kind begin) result (K.stored disk.old) (K.stored disk.new) (K.faults disk.old) (K.faults disk.new) source.old source.new }
{
    let at = source.place();
    let key = source.string(alloc, disk)?;
    if keys.contains_key(&key) {
        return Err(LoadFault::Duplicate {
            kind: Twice::Key,
            at,
        });
    }
    let held = value(alloc, disk, source, kind, begin)?;
    match keys.insert(key, held) {
        Ok(_) => Ok(()),
        Err(_) => Err(LoadFault::NoMemory),
    }
}

/// Takes a part that adds no key, behind its first byte, or says why it isn't read.
fn passed_over<K: Disk>(
    alloc: Global,
    disk: &mut K,
    source: &mut Source,
    first: u8,
    begin: u64,
) -> Result<(), LoadFault>
    requires no_key { HoldsKey first → ⊥ }
    requires no_end { first ≢ 255 }
    ensures { Reads (PassedRead first) (PassedStops first begin) result (K.stored disk.old) (K.stored disk.new) (K.faults disk.old) (K.faults disk.new) source.old source.new }
{
    if first == 0xfa {
        let _name = source.string(alloc, disk)?;
        let _said = source.string(alloc, disk)?;
        return Ok(());
    }
    if first == 0xfb {
        let _keys = source.len(disk)?;
        let _expiring = source.len(disk)?;
        return Ok(());
    }
    if first == 0xfe {
        database(disk, source, begin)?;
        return Ok(());
    }
    Err(refused(first, begin))
}

/// Takes the number of a database, which is 0.
fn database<K: Disk>(disk: &mut K, source: &mut Source, begin: u64) -> Result<(), LoadFault>
    ensures { Reads IsZero (DatabaseStops begin) result (K.stored disk.old) (K.stored disk.new) (K.faults disk.old) (K.faults disk.new) source.old source.new }
{
    let number = source.len(disk)?;
    if number != 0 {
        return Err(LoadFault::Unsupported {
            code: 0xfe,
            at: begin,
        });
    }
    Ok(())
}

/// Why a part with this first byte isn't read.
fn refused(first: u8, begin: u64) -> LoadFault
    ensures { Refuses first begin result }
{
    if UNREAD.contains(&first) {
        return LoadFault::Unsupported {
            code: first,
            at: begin,
        };
    }
    LoadFault::UnknownType {
        code: first,
        at: begin,
    }
}
