//! What stands behind a key.
//!
//! A collection grows with the elements that were read, whatever count the file announces.

ghost use Rattle.std.specs.Prelude.{◌≡◌, is_some};
ghost use Rattle.std.specs.FinMap as fin;
ghost use Rattle.df_rdbcore.specs.Texts.{IsText};
ghost use Rattle.df_rdbcore.specs.Parts.{Both, NoneTwice, firsts};
ghost use Rattle.df_rdbload.specs.Stops.{Any, CountStops, ElementStops, MemberStops, PairStops, Midway, ValueStops};
ghost use Rattle.df_rdbload.specs.FileStops.{HoldsKey};
ghost use Rattle.df_rdbload.specs.Sources.{Reads};
ghost use Rattle.df_rdbload.specs.Entries.{IsCount, AreElements, AreMembers, AreFields, IsHeld};

use crate::source::Source;
use df_colls::{HashVal, SetVal};
use df_list::ListVal;
use df_model::Bin;
use df_outside::Disk;
use df_rdbcore::{LoadFault, PartFault, Twice};
use df_values::{StrVal, Value};
use std::alloc::Global;

/// Takes a value of a part with this first byte; `begin` is the place of the part.
pub fn value<K: Disk>(
    alloc: Global,
    disk: &mut K,
    source: &mut Source,
    kind: u8,
    begin: u64,
) -> Result<Value, LoadFault>
    requires { HoldsKey kind }
    ensures { Reads (IsHeld kind) (ValueStops kind begin) result (K.stored disk.old) (K.stored disk.new) (K.faults disk.old) (K.faults disk.new) source.old source.new }
{
    if kind == 0 {
        let text = source.string(alloc, disk)?;
        return Ok(Value::Str(StrVal::from_bin(text)));
    }
    let many = count(disk, source, begin)?;
    if kind == 1 {
        let list = elements(alloc, disk, source, many)?;
        return Ok(Value::List(list));
    }
    if kind == 2 {
        let set = members(alloc, disk, source, many, begin)?;
        return Ok(Value::Set(set));
    }
    let hash = fields(alloc, disk, source, many, begin)?;
    Ok(Value::Hash(hash))
}

/// Takes the count of a collection, which isn't empty.
fn count<K: Disk>(disk: &mut K, source: &mut Source, begin: u64) -> Result<u64, LoadFault>
    ensures { Reads IsCount (CountStops begin) result (K.stored disk.old) (K.stored disk.new) (K.faults disk.old) (K.faults disk.new) source.old source.new }
{
    let count = source.len(disk)?;
    if count == 0 {
        return Err(LoadFault::BadPart {
            kind: PartFault::Empty,
            at: begin,
        });
    }
    Ok(count)
}

/// Takes so many elements of a list.
fn elements<K: Disk>(
    alloc: Global,
    disk: &mut K,
    source: &mut Source,
    count: u64,
) -> Result<ListVal, LoadFault>
    ensures { Reads (AreElements count) (Midway IsText Any ElementStops count) result (K.stored disk.old) (K.stored disk.new) (K.faults disk.old) (K.faults disk.new) source.old source.new }
{
    let mut list = ListVal::new(alloc);
    'elements: for _at in 0..count {
        let element = source.string(alloc, disk)?;
        if list.reserve(1).is_err() {
            return Err(LoadFault::NoMemory);
        }
        list.push_back(element);
    }
    Ok(list)
}

/// Takes so many members of a set.
fn members<K: Disk>(
    alloc: Global,
    disk: &mut K,
    source: &mut Source,
    count: u64,
    begin: u64,
) -> Result<SetVal, LoadFault>
    ensures { Reads (AreMembers count) (Midway IsText NoneTwice (MemberStops begin) count) result (K.stored disk.old) (K.stored disk.new) (K.faults disk.old) (K.faults disk.new) source.old source.new }
{
    let mut set = SetVal::new(alloc);
    'members: for _at in 0..count {
        let member = source.string(alloc, disk)?;
        if set.reserve(1).is_err() {
            return Err(LoadFault::NoMemory);
        }
        if !set.add(member) {
            return Err(LoadFault::Duplicate {
                kind: Twice::Member,
                at: begin,
            });
        }
    }
    Ok(set)
}

/// Takes so many fields of a hash, each with what it holds.
fn fields<K: Disk>(
    alloc: Global,
    disk: &mut K,
    source: &mut Source,
    count: u64,
    begin: u64,
) -> Result<HashVal, LoadFault>
    ensures { Reads (AreFields count) (Midway (Both IsText IsText) (λ read. NoneTwice (firsts read)) (PairStops begin) count) result (K.stored disk.old) (K.stored disk.new) (K.faults disk.old) (K.faults disk.new) source.old source.new }
{
    let mut hash = HashVal::new(alloc);
    'fields: for _at in 0..count {
        let field = source.string(alloc, disk)?;
        if has_field(&hash, &field) {
            return Err(LoadFault::Duplicate {
                kind: Twice::Field,
                at: begin,
            });
        }
        let held = source.string(alloc, disk)?;
        if hash.reserve(1).is_err() {
            return Err(LoadFault::NoMemory);
        }
        let _old = hash.put(field, held);
    }
    Ok(hash)
}

fn has_field(hash: &HashVal, field: &Bin) -> bool
    ensures { result ≡ is_some (fin.get hash.now.fields field.now) }
{
    hash.get(field.as_slice()).is_some()
}
