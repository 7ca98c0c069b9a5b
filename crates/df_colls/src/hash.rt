//! The value of a hash: fields, and what each holds.

ghost use Rattle.std.specs.Prelude.{◌≡◌, ◌+◌, ◌<◌, ◌≤◌, ◌==◌, IfOk, OnOk, length, drop, slice_get};
ghost use Rattle.std.specs.Option.{option_copied};
ghost use Rattle.std.specs.FinMap as map;
ghost use Rattle.df_colls.specs.Runs.{IsFront, pair_copied};

use crate::entries::Entries;
use df_model::{Bin, NoMemory};
use std::alloc::Global;
use std::marker::Model;
use std::mem;

/// A finite map from fields to what they hold, and room for `spare` puts.
#[derive(Debug, Drop)]
pub struct HashVal {
    entries: Entries<Bin>,
}

/// No wider than a vector and a word, so that a small hash costs what its fields do.
const _: () = prove!(mem::size_of::<HashVal>() <= 32);

impl Model for HashVal {
    ghost use Rattle.df_colls.specs.Roomy.{RoomyFields, roomy_fields_code};

    ghost Value = { RoomyFields };

    ghost coded = { roomy_fields_code };

    ghost view = { λ h. record { fields = h.entries.contents; spare = h.entries.spare } };
}

impl HashVal {
    /// The empty map. Takes no memory.
    pub fn new(alloc: Global) -> HashVal
        ensures { result.fields ≡ map.empty }
    {
        HashVal {
            entries: Entries::new(alloc),
        }
    }

    /// How many fields there are.
    pub fn len(&self) -> usize
        ensures { result ≡ map.len self.now.fields }
    {
        self.entries.len()
    }

    /// Whether there are none.
    pub fn is_empty(&self) -> bool
        ensures { result ≡ (map.len self.now.fields == 0) }
    {
        self.entries.len() == 0
    }

    /// Makes room for `count` puts, those that there is room for among them.
    pub fn reserve(&mut self, count: usize) -> Result<(), NoMemory>
        ensures fields { self.new.fields ≡ self.old.fields }
        ensures spare { self.old.spare ≤ self.new.spare }
        ensures ok { OnOk result (count ≤ self.new.spare) }
    {
        self.entries.reserve(count)
    }

    /// What the field holds.
    pub fn get(&self, field: &[u8]) -> Option<&Bin>
        ensures { option_copied result ≡ map.get self.now.fields field.now }
    {
        self.entries.get(field)
    }

    /// Lets the field hold the value, and answers what it held. Takes no memory.
    pub fn put(&mut self, field: Bin, value: Bin) -> Option<Bin>
        requires { 0 < self.old.spare }
        ensures fields { self.new.fields ≡ map.insert self.old.fields field value }
        ensures old { result ≡ map.get self.old.fields field }
        ensures room { self.old.spare ≤ self.new.spare + 1 }
    {
        self.entries.put(field, value)
    }

    /// Removes the field, and answers what it held. Takes no memory.
    pub fn remove(&mut self, field: &[u8]) -> Option<Bin>
        ensures fields { self.new.fields ≡ map.remove self.old.fields field.now }
        ensures old { result ≡ map.get self.old.fields field.now }
        ensures spare { self.old.spare ≤ self.new.spare }
    {
        self.entries.remove(field)
    }

    /// The field at this place in byte order, from 0, and what it holds.
    pub fn at(&self, i: usize) -> Option<(&Bin, &Bin)>
        ensures { pair_copied result ≡ slice_get (map.entries self.now.fields) i }
    {
        match self.entries.at(i) {
            Some((field, value)) => Some((field, value)),
            None => None,
        }
    }

    /// Fields from this place on in byte order, each with what it holds: at least one, where there is one. A loop
    /// over all of them goes from run to run.
    pub fn run(&self, from: usize) -> &[(Bin, Bin)]
        ensures front { IsFront (drop from (map.entries self.now.fields)) result.now }
        ensures goes_on { from < map.len self.now.fields → 0 < length result.now }
    {
        self.entries.run(from)
    }

    /// The same fields in memory of their own.
    pub fn copy(&self, alloc: Global) -> Result<HashVal, NoMemory>
        ensures { IfOk result (λ copy. copy.fields ≡ self.now.fields) }
    {
        let entries = self.entries.copy(alloc)?;
        Ok(HashVal { entries })
    }
}
