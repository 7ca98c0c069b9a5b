//! Copies of entries.

ghost use Rattle.std.specs.Prelude.{◌≡◌, ◌++◌, IfOk, OnOk};

use df_model::{Bin, NoMemory};
use std::alloc::Global;

/// What an entry may hold: it can be copied.
pub(crate) trait CopyIn: Drop {
    /// The same value in memory of its own.
    fn copy_in(&self, alloc: Global) -> Result<Self, NoMemory>
        ensures { IfOk result (λ copy. copy ≡ self.now) };
}

impl CopyIn for Bin {
    fn copy_in(&self, alloc: Global) -> Result<Bin, NoMemory> {
        self.copy(alloc)
    }
}

impl CopyIn for () {
    fn copy_in(&self, _alloc: Global) -> Result<(), NoMemory> {
        Ok(())
    }
}

/// Adds copies of the entries at the end. Where memory runs out, some of them may be there.
pub(crate) fn append<X: CopyIn>(
    alloc: Global,
    to: &mut Vec<(Bin, X)>,
    items: &[(Bin, X)],
) -> Result<(), NoMemory>
    ensures { OnOk result (to.new.items ≡ to.old.items ++ items.now) }
{
    'items: for item in items {
        let key = item.0.copy(alloc)?;
        let value = item.1.copy_in(alloc)?;
        to.push((key, value))?;
    }
    Ok(())
}
