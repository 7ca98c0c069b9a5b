//! A file's end: the sum of what stands before it, and nothing behind.

ghost use Rattle.std.specs.Prelude.{◌≡◌, ◌⊎◌, length, take};
ghost use Rattle.std.specs.Int.{w64, to_le_bytes};
ghost use Rattle.std.specs.Bool.{OnTrue, OnFalse};
ghost use Rattle.df_rdbload.specs.Sources.{Reads};
ghost use Rattle.df_rdbload.specs.Entries.{AreEight, EightStop, Ended};

use crate::source::Source;
use df_outside::Disk;
use df_rdbcore::{LoadFault, PartFault};

/// Takes the sum, behind FF, and sees that nothing follows. A sum of 0 says that none was made.
pub fn end<K: Disk>(disk: &mut K, source: &mut Source) -> Result<(), LoadFault>
    ensures { Ended result (K.stored disk.old) (K.stored disk.new) (K.faults disk.old) (K.faults disk.new) source.old source.new }
{
    let computed = source.sum();
    let at = source.place();
    let bytes = sum_bytes(disk, source)?;
    let stored = number(&bytes);
    if !is_good(stored, computed) {
        return Err(LoadFault::BadChecksum {
            stored,
            computed,
            at,
        });
    }
    let after = source.place();
    let is_end = source.is_at_end(disk)?;
    if !is_end {
        return Err(LoadFault::BadPart {
            kind: PartFault::After,
            at: after,
        });
    }
    Ok(())
}

/// Whether the sum is that of the file, or says that none was made.
fn is_good(stored: u64, computed: u64) -> bool
    ensures yes { OnTrue result ((stored ≡ 0) ⊎ (stored ≡ computed)) }
    ensures no { OnFalse result ((stored ≡ 0) ⊎ (stored ≡ computed) → ⊥) }
{
    if stored == 0 {
        return true;
    }
    stored == computed
}

/// The number of these bytes, low byte first.
fn number(bytes: &[u8]) -> u64
    requires { length bytes.now ≡ 8 }
    ensures { to_le_bytes w64 result ≡ take 8 bytes.now }
{
    u64::from_le_bytes([
        bytes[0], bytes[1], bytes[2], bytes[3], bytes[4], bytes[5], bytes[6], bytes[7],
    ])
}

/// Takes eight bytes.
fn sum_bytes<K: Disk>(disk: &mut K, source: &mut Source) -> Result<[u8; 8], LoadFault>
    ensures { Reads AreEight EightStop result (K.stored disk.old) (K.stored disk.new) (K.faults disk.old) (K.faults disk.new) source.old source.new }
{
    let mut bytes = [0; 8];
    'bytes: for at in 0..8 {
        let byte = source.byte(disk)?;
        bytes[at] = byte;
    }
    Ok(bytes)
}
