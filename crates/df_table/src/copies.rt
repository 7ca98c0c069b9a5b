//! Copies of what keys hold, and of the keys themselves.

ghost use Rattle.std.specs.Prelude.{◌≡◌, IfOk, map};
ghost use Rattle.std.specs.Option.{option_map};
ghost use Rattle.std.specs.FinMap as fin;
ghost use Rattle.df_model.specs.Keyspace.{held};
ghost use Rattle.df_values.specs.Seen.{seen};

use crate::table::Table;
use df_model::{Bin, Bins, NoMemory, Reserved};
use df_values::Value;
use std::alloc::Global;

impl Table {
    /// A copy of what the key holds.
    pub fn copy(&self, alloc: Global, key: &Bin) -> Result<Option<Value>, NoMemory>
        ensures { IfOk result (λ copied. option_map seen copied ≡ held self.now.keys key.now) }
    {
        match self.get(key) {
            Some(value) => Ok(Some(value.copy(alloc)?)),
            None => Ok(None),
        }
    }

    /// Copies of what these keys hold, in their order.
    pub fn copies(&self, alloc: Global, keys: &Bins) -> Result<Reserved<Option<Value>>, NoMemory>
        ensures { IfOk result (λ copied. map (option_map seen) copied.items ≡ map (held self.now.keys) keys.now.items) }
    {
        let mut copied = Reserved::new(alloc);
        copied.reserve(keys.len())?;
        'keys: for key in keys.as_slice() {
            copied.push(self.copy(alloc, key)?);
        }
        Ok(copied)
    }

    /// All keys, in byte order.
    pub fn all_names(&self, alloc: Global) -> Result<Bins, NoMemory>
        ensures { IfOk result (λ names. names.items ≡ fin.keys self.now.keys) }
    {
        let lent = self.lent_names(alloc)?;
        let mut names = Bins::new(alloc);
        names.reserve(lent.len())?;
        'names: for name in lent.as_slice() {
            names.push(name.copy(alloc)?);
        }
        Ok(names)
    }
}
