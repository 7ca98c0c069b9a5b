//! A file's first nine bytes: the magic, and the version as four digits.

ghost use Rattle.std.specs.Prelude.{◌≡◌, ◌⊎◌};
ghost use Rattle.std.specs.Bool.{OnTrue, OnFalse};
ghost use Rattle.df_rdbload.specs.FileStops.{HeadStops};
ghost use Rattle.df_rdbload.specs.Sources.{Reads};
ghost use Rattle.df_rdbload.specs.Entries.{HeadRead, IsLiteral, LiteralStops, VersionRead, VersionStops, IsLast};

use crate::source::Source;
use df_outside::Disk;
use df_rdbcore::LoadFault;

/// Takes the head. A byte that is there and wrong is told before the file's end is.
pub fn head<K: Disk>(disk: &mut K, source: &mut Source) -> Result<(), LoadFault>
    ensures { Reads HeadRead HeadStops result (K.stored disk.old) (K.stored disk.new) (K.faults disk.old) (K.faults disk.new) source.old source.new }
{
    let is_magic = literal(disk, source, b"REDIS")?;
    if !is_magic {
        return Err(LoadFault::BadMagic);
    }
    let is_version = version(disk, source)?;
    if !is_version {
        return Err(LoadFault::BadVersion);
    }
    Ok(())
}

/// Takes these bytes; false at the first that is another.
fn literal<K: Disk>(disk: &mut K, source: &mut Source, text: &[u8]) -> Result<bool, LoadFault>
    ensures { Reads (IsLiteral text.now) (LiteralStops text.now) result (K.stored disk.old) (K.stored disk.new) (K.faults disk.old) (K.faults disk.new) source.old source.new }
{
    'bytes: for byte in text {
        let there = source.byte(disk)?;
        if there != *byte {
            return Ok(false);
        }
    }
    Ok(true)
}

/// Takes a version that is read, 0005 to 0012; false at the first byte that belongs to none.
fn version<K: Disk>(disk: &mut K, source: &mut Source) -> Result<bool, LoadFault>
    ensures { Reads VersionRead VersionStops result (K.stored disk.old) (K.stored disk.new) (K.faults disk.old) (K.faults disk.new) source.old source.new }
{
    let is_zeros = literal(disk, source, b"00")?;
    if !is_zeros {
        return Ok(false);
    }
    let tens = source.byte(disk)?;
    if !is_tens(tens) {
        return Ok(false);
    }
    let ones = source.byte(disk)?;
    Ok(is_read(tens, ones))
}

/// Whether the version with this third digit may be read.
fn is_tens(tens: u8) -> bool
    ensures yes { OnTrue result ((tens ≡ 48) ⊎ (tens ≡ 49)) }
    ensures no { OnFalse result ((tens ≡ 48) ⊎ (tens ≡ 49) → ⊥) }
{
    if tens == b'0' {
        return true;
    }
    tens == b'1'
}

/// Whether the version with these last digits is read.
fn is_read(tens: u8, ones: u8) -> bool
    requires { (tens ≡ 48) ⊎ (tens ≡ 49) }
    ensures { IsLast tens ones result }
{
    if tens == b'0' {
        if ones < b'5' {
            return false;
        }
        return ones <= b'9';
    }
    if ones < b'0' {
        return false;
    }
    ones <= b'2'
}
