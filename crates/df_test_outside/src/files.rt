//! A file on the disk, which is replaced as a whole.

use df_outside::{Disk, Done, Had};
use df_real::FileDisk;
use std::test::Fail;
use std::{fs, process};

fn is_send<T: Send>(_object: &T) {}

/// A read of four bytes at the most.
fn read_four<K: Disk>(disk: &mut K, at: u64) -> (Had, [u8; 4]) {
    let mut buf = *b"----";
    let had = disk.read(at, &mut buf);
    (had, buf)
}

/// Puts a new content beside the file, and says whether it lies there.
fn put_beside<K: Disk>(disk: &mut K, pieces: &[&[u8]]) -> bool {
    let mut is_done = disk.begin() == Done::Ok;
    'pieces: for piece in pieces {
        is_done = is_done && disk.append(piece) == Done::Ok;
    }
    is_done && disk.sync() == Done::Ok
}

#[test]
fn a_file_is_replaced_as_a_whole(rt: HostRuntime) -> Result<(), Fail> {
    let name = format!(in rt.alloc(); "file_disk_test.{}", process::id(rt.process()))?;
    let mut disk = FileDisk::new(rt, rt.alloc());
    is_send(&disk);
    assert_eq!(rt; disk.choose(name.as_str()), Done::Ok);
    assert_eq!(rt; read_four(&mut disk, 0), (Had::Missing, *b"----"));
    assert!(rt; put_beside(&mut disk, &[b"ab".as_slice(), b"cde".as_slice()]));
    assert_eq!(rt; read_four(&mut disk, 0), (Had::Missing, *b"----"));
    assert_eq!(rt; disk.replace(), Done::Ok);
    assert_eq!(rt; read_four(&mut disk, 1), (Had::Took(4), *b"bcde"));
    assert_eq!(rt; read_four(&mut disk, 5), (Had::End, *b"----"));
    // A piece that is longer than what is gathered to one write.
    let long = vec![in rt.alloc(); b'x'; 70_000]?;
    assert!(rt;
        put_beside(
            &mut disk,
            &[b"<".as_slice(), long.as_slice(), b">".as_slice()]
        )
    );
    assert_eq!(rt; read_four(&mut disk, 1), (Had::Took(4), *b"bcde"));
    assert_eq!(rt; disk.replace(), Done::Ok);
    assert_eq!(rt; read_four(&mut disk, 69_998), (Had::Took(4), *b"xxx>"));
    fs::remove_file(&rt, name.as_str())?;
    Ok(())
}
