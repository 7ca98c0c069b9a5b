//! That calls which may find no memory answer something else where there is enough.

use df_model::{Bin, Bins, NoMemory, Reserved};

#[test]
fn byte_strings_copy_and_compare(rt: HostRuntime) -> Result<(), NoMemory> {
    let short = Bin::from_slice(rt.alloc(), b"a")?;
    let long = Bin::from_slice(rt.alloc(), b"ab")?;
    let again = long.copy(rt.alloc())?;
    assert!(rt; again == long, "a copy equals");
    assert!(rt; short < long, "a front comes first");
    assert_eq!(rt; again.as_slice().len(), 2);
    Ok(())
}

#[test]
fn lists_have_the_room_that_was_asked_for(rt: HostRuntime) -> Result<(), NoMemory> {
    let mut words: Bins = Reserved::new(rt.alloc());
    words.reserve(2)?;
    words.push(Bin::from_slice(rt.alloc(), b"GET")?);
    assert_eq!(rt; words.len(), 1);
    assert_eq!(rt; words.spare(), 1);
    words.push(Bin::from_slice(rt.alloc(), b"k")?);
    assert_eq!(rt; words.spare(), 0);
    let last = words.pop();
    assert!(rt; last.is_some(), "the last one comes out");
    assert_eq!(rt; words.room(), 2);
    Ok(())
}
