//! The objects in memory, called one by one.

ghost use Rattle.std.specs.Prelude.{◌<◌, length};

use df_model::{Bin, Bins, NoMemory};
use df_outside::{Disk, Done, Got, Had, MemDisk, MemSink, MemSource, Put, Sink, Source};
use std::alloc::Global;
use std::test::Fail;

fn source_of(alloc: Global, texts: &[&[u8]], fails: &[u64]) -> Result<MemSource, NoMemory> {
    let mut pieces = Bins::new(alloc);
    'texts: for text in texts {
        let piece = Bin::from_slice(alloc, text)?;
        pieces.reserve(1)?;
        pieces.push(piece);
    }
    Ok(MemSource::new(pieces, Vec::from_slice(alloc, fails)?))
}

fn is_send<T: Send>(_object: &T) {}

/// A read into a buffer of two bytes.
fn read_two<S: Source>(source: &mut S) -> (Got, [u8; 2]) {
    let mut buf = *b"--";
    let got = source.read(&mut buf);
    (got, buf)
}

#[test]
fn a_source_passes_over_empty_pieces(rt: HostRuntime) -> Result<(), Fail> {
    let mut source = source_of(rt.alloc(), &[b"", b"abc", b"", b"", b"de", b""], &[])?;
    is_send(&source);
    for want in [
        (Got::Took(2), *b"ab"),
        (Got::Took(1), *b"c-"),
        (Got::Took(2), *b"de"),
        (Got::End, *b"--"),
        (Got::End, *b"--"),
    ] {
        assert_eq!(rt; read_two(&mut source), want);
    }
    Ok(())
}

#[test]
fn a_source_goes_on_after_a_fault(rt: HostRuntime) -> Result<(), Fail> {
    // The list is in no order, and names a read after the end, which says End all the same.
    let mut source = source_of(rt.alloc(), &[b"ab", b"c"], &[5, 1, 2])?;
    for want in [
        (Got::Took(2), *b"ab"),
        (Got::Failed, *b"--"),
        (Got::Failed, *b"--"),
        (Got::Took(1), *b"c-"),
        (Got::End, *b"--"),
        (Got::End, *b"--"),
    ] {
        assert_eq!(rt; read_two(&mut source), want);
    }
    Ok(())
}

fn write_to<O: Sink>(sink: &mut O, piece: &[u8]) -> Put
    requires { 0 < length piece.now }
{
    sink.write(piece)
}

#[test]
fn a_sink_drops_only_what_failed(rt: HostRuntime) -> Result<(), Fail> {
    let mut sink = MemSink::new(rt.alloc(), Vec::from_slice(rt.alloc(), &[1])?);
    is_send(&sink);
    assert_eq!(rt; write_to(&mut sink, b"ab"), Put::Took(2));
    assert_eq!(rt; write_to(&mut sink, b"xyz"), Put::Failed);
    assert_eq!(rt; write_to(&mut sink, b"c"), Put::Took(1));
    assert_eq!(rt; sink.written(), b"abc".as_slice());
    Ok(())
}

/// Puts this content in place of the file, by five calls.
fn save<D: Disk>(disk: &mut D, content: &[u8]) -> bool {
    disk.choose("dump.rdb") == Done::Ok
        && disk.begin() == Done::Ok
        && disk.append(content) == Done::Ok
        && disk.sync() == Done::Ok
        && disk.replace() == Done::Ok
}

#[test]
fn a_call_that_fails_leaves_the_file(rt: HostRuntime) -> Result<(), Fail> {
    for fault in 0..6 {
        let old = Bin::from_slice(rt.alloc(), b"old")?;
        let mut disk = MemDisk::new(
            rt.alloc(),
            Some(old),
            Vec::from_slice(rt.alloc(), &[fault])?,
        );
        assert_eq!(rt;
            save(&mut disk, b"new"),
            fault == 5,
            "with a fault at {fault}"
        );
        let want = if fault == 5 { b"new" } else { b"old" };
        assert!(rt;
            disk.file()
                .is_some_and(|file| file.as_slice() == want.as_slice()),
            "with a fault at {fault}"
        );
    }
    Ok(())
}

fn read_at<D: Disk>(disk: &mut D, at: u64) -> (Had, [u8; 2]) {
    let mut buf = *b"--";
    let had = disk.read(at, &mut buf);
    (had, buf)
}

#[test]
fn a_disk_reads_up_to_the_end(rt: HostRuntime) -> Result<(), Fail> {
    let mut disk = MemDisk::new(rt.alloc(), None, Vec::from_slice(rt.alloc(), &[6])?);
    is_send(&disk);
    assert_eq!(rt; read_at(&mut disk, 0), (Had::Missing, *b"--"));
    assert!(rt; save(&mut disk, b"abc"));
    for (at, want) in [
        (0, (Had::Failed, *b"--")),
        (0, (Had::Took(2), *b"ab")),
        (2, (Had::Took(1), *b"c-")),
        (3, (Had::End, *b"--")),
        (u64::MAX, (Had::End, *b"--")),
    ] {
        assert_eq!(rt; read_at(&mut disk, at), want, "at {at}");
    }
    Ok(())
}
