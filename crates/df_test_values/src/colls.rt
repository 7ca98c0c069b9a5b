//! That calls which may find no memory answer something else where there is enough.

use df_colls::{HashVal, SetVal};
use df_model::{Bin, NoMemory};

#[test]
fn fields_are_put_and_copied(rt: HostRuntime) -> Result<(), NoMemory> {
    let mut hash = HashVal::new(rt.alloc());
    hash.reserve(2)?;
    let _none = hash.put(
        Bin::from_slice(rt.alloc(), b"b")?,
        Bin::from_slice(rt.alloc(), b"1")?,
    );
    let copy = hash.copy(rt.alloc())?;
    assert_eq!(rt; copy.len(), 1);
    let held = copy.get(b"b");
    assert!(rt; held.is_some(), "the copy has the field");
    Ok(())
}

#[test]
fn sets_are_combined(rt: HostRuntime) -> Result<(), NoMemory> {
    let mut ours = SetVal::new(rt.alloc());
    ours.reserve(2)?;
    let _new = ours.add(Bin::from_slice(rt.alloc(), b"c")?);
    let mut theirs = ours.copy(rt.alloc())?;
    theirs.reserve(1)?;
    let _new = theirs.add(Bin::from_slice(rt.alloc(), b"a")?);
    assert_eq!(rt; ours.inter(rt.alloc(), &theirs)?.len(), 1);
    assert_eq!(rt; ours.union(rt.alloc(), &theirs)?.len(), 2);
    assert_eq!(rt; theirs.diff(rt.alloc(), &ours)?.len(), 1);
    Ok(())
}

#[test]
fn many_members_are_kept_and_combined(rt: HostRuntime) -> Result<(), NoMemory> {
    let mut set = SetVal::new(rt.alloc());
    for i in 0..1000u32 {
        set.reserve(1)?;
        let name = (i * 777 % 1000).to_be_bytes();
        let _new = set.add(Bin::from_slice(rt.alloc(), name.as_slice())?);
    }
    assert_eq!(rt; set.len(), 1000);
    let copy = set.copy(rt.alloc())?;
    assert_eq!(rt; copy.union(rt.alloc(), &set)?.len(), 1000);
    assert_eq!(rt; copy.diff(rt.alloc(), &set)?.len(), 0);
    Ok(())
}
