//! That calls which may find no memory do their work where there is enough, and the lists of Redis's
//! pages on LREM and LTRIM. A list is written as a text, each byte an element.

use df_list::ListVal;
use df_model::{Bin, NoMemory};
use std::alloc::Global;

fn list_of(alloc: Global, text: &[u8]) -> Result<ListVal, NoMemory> {
    let mut list = ListVal::new(alloc);
    'bytes: for byte in text {
        list.reserve(1)?;
        list.push_back(Bin::from_slice(alloc, &[*byte])?);
    }
    Ok(list)
}

fn text_of(alloc: Global, list: &ListVal) -> Result<Bin, NoMemory> {
    let mut text = Vec::new(alloc);
    'elements: for at in 0..list.len() {
        if let Some(element) = list.get(at) {
            text.extend_from_slice(element.as_slice())?;
        }
    }
    Ok(Bin::from_vec(text))
}

#[test]
fn lists_are_filled_and_copied(rt: HostRuntime) -> Result<(), NoMemory> {
    let mut list = ListVal::new(rt.alloc());
    list.reserve(2)?;
    list.push_back(Bin::from_slice(rt.alloc(), b"b")?);
    list.reserve(1)?;
    list.push_front(Bin::from_slice(rt.alloc(), b"a")?);
    let copy = list.copy(rt.alloc())?;
    assert_eq!(rt; text_of(rt.alloc(), &copy)?.as_slice(), b"ab".as_slice());
    Ok(())
}

#[test]
fn equal_elements_go_from_either_end(rt: HostRuntime) -> Result<(), NoMemory> {
    let table = [
        // h stands for hello and f for foo
        ("hhfh", -2, 2, "hf"),
        ("hhfh", 2, 2, "fh"),
        ("hhfh", 0, 3, "f"),
        ("hhfh", 9, 3, "f"),
        ("hhfh", i64::MIN, 3, "f"),
        ("fff", 1, 0, "fff"),
    ];
    for (text, count, removed, left) in table {
        let mut list = list_of(rt.alloc(), text.as_bytes())?;
        assert_eq!(rt; list.remove_equal(b"h", count), removed, "of {text}");
        assert_eq!(rt;
            text_of(rt.alloc(), &list)?.as_slice(),
            left.as_bytes(),
            "of {text}"
        );
    }
    Ok(())
}

#[test]
fn ranges_are_kept(rt: HostRuntime) -> Result<(), NoMemory> {
    let table = [
        ("123", 1, -1, "23"),
        ("123", 0, 0, "1"),
        ("123", -9, 9, "123"),
        ("123", 2, 1, ""),
        // ends in time, though the range begins far behind the end
        ("123", i64::MAX, -1, ""),
    ];
    for (text, from, to, left) in table {
        let mut list = list_of(rt.alloc(), text.as_bytes())?;
        list.trim(from, to);
        assert_eq!(rt;
            text_of(rt.alloc(), &list)?.as_slice(),
            left.as_bytes(),
            "of {text}"
        );
    }
    Ok(())
}
