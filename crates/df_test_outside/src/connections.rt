//! Links and doors in memory, called one by one.

ghost use Rattle.std.specs.Prelude.{◌<◌, All, IfOk, OnOk, length};
ghost use Rattle.df_outside.specs.Doors.{ComesFresh, IsFresh};
ghost use Rattle.df_outside.specs.MemLinks.{flow_of};

use df_model::{Bin, Bins, NoMemory};
use df_outside::{
    Arrival, Came, Done, Door, Got, Link, MemDoor, MemLink, MemSink, MemSource, PairLink, Poller,
    Put,
};
use std::alloc::Global;
use std::test::Fail;

fn is_send<T: Send>(_object: &T) {}

/// A read into a buffer of two bytes.
fn read_two<L: Link>(link: &mut L) -> (Got, [u8; 2]) {
    let mut buf = *b"--";
    let got = link.read(&mut buf);
    (got, buf)
}

fn write_to<L: Link>(link: &mut L, piece: &[u8]) -> Put
    requires { 0 < length piece.now }
{
    link.write(piece)
}

/// A link at which `abc` arrives, and `de` after a read that has to wait.
fn link_of(alloc: Global, reads: &[u64], writes: &[u64]) -> Result<MemLink, NoMemory>
    ensures { IfOk result (λ link. IsFresh (flow_of link)) }
{
    let mut arrivals = Vec::new(alloc);
    arrivals.push(Arrival::Bytes(Bin::from_slice(alloc, b"abc")?))?;
    arrivals.push(Arrival::NotYet)?;
    arrivals.push(Arrival::Bytes(Bin::from_slice(alloc, b"")?))?;
    arrivals.push(Arrival::Bytes(Bin::from_slice(alloc, b"de")?))?;
    let reads = Vec::from_slice(alloc, reads)?;
    let writes = Vec::from_slice(alloc, writes)?;
    Ok(MemLink::new(alloc, arrivals, reads, writes))
}

#[test]
fn a_link_reads_and_writes_apart(rt: HostRuntime) -> Result<(), Fail> {
    // Reads 1 and 7 are named; the latter is after the end, and says End all the same.
    let mut link = link_of(rt.alloc(), &[1, 7], &[1])?;
    is_send(&link);
    assert_eq!(rt; write_to(&mut link, b"ab"), Put::Took(2));
    for want in [
        (Got::Took(2), *b"ab"),
        (Got::Failed, *b"--"),
        (Got::Took(1), *b"c-"),
        (Got::NotYet, *b"--"),
        (Got::Took(2), *b"de"),
        (Got::End, *b"--"),
        (Got::End, *b"--"),
        (Got::End, *b"--"),
    ] {
        assert_eq!(rt; read_two(&mut link), want);
    }
    assert_eq!(rt; write_to(&mut link, b"xyz"), Put::Failed);
    assert_eq!(rt; write_to(&mut link, b"c"), Put::Took(1));
    link.close();
    assert_eq!(rt; link.written(), b"abc".as_slice());
    Ok(())
}

/// Names what an accept came to; of a link the first byte that it gives.
fn accepted<D: Door>(door: &mut D) -> &'static str {
    match door.accept() {
        Came::Link(mut link) => match read_two(&mut link) {
            (Got::Took(_), [b'a', _]) => "link a",
            _ => "link without a byte",
        },
        Came::NotYet => "not yet",
        Came::Closed => "closed",
        Came::Failed => "failed",
        Came::NoMemory => "no memory",
    }
}

/// Puts a place of a door behind the others.
fn push_place(places: &mut Vec<Option<MemLink>>, place: Option<MemLink>) -> Result<(), NoMemory>
    requires all { All (ComesFresh flow_of) places.old.items }
    requires fresh { ComesFresh flow_of place }
    ensures { OnOk result (All (ComesFresh flow_of) places.new.items) }
{
    places.push(place)?;
    Ok(())
}

/// A door with one link, then a wait, then another link.
fn door_of(alloc: Global, fails: &[u64]) -> Result<MemDoor<MemLink>, NoMemory> {
    let first = link_of(alloc, &[], &[])?;
    let second = MemLink::new(alloc, Vec::new(alloc), Vec::new(alloc), Vec::new(alloc));
    let mut links = Vec::new(alloc);
    push_place(&mut links, Some(first))?;
    push_place(&mut links, None)?;
    push_place(&mut links, Some(second))?;
    Ok(MemDoor::new(links, Vec::from_slice(alloc, fails)?))
}

#[test]
fn a_door_hands_each_link_out_once(rt: HostRuntime) -> Result<(), Fail> {
    // Calls 0, the bind, and 2 are named; so is one after Closed.
    let mut door = door_of(rt.alloc(), &[0, 2, 7])?;
    is_send(&door);
    assert_eq!(rt; door.bind(7000), Done::Failed);
    for want in [
        "link a",
        "failed",
        "not yet",
        "link without a byte",
        "closed",
        "closed",
        "closed",
    ] {
        door.rest(1);
        assert_eq!(rt; accepted(&mut door), want);
    }
    Ok(())
}

/// Two pieces as the input of a link that reads at most so many bytes.
fn pair_of(alloc: Global, limit: u64) -> Result<PairLink<MemSource, MemSink>, NoMemory>
    requires { 0 < limit }
{
    let mut pieces = Bins::new(alloc);
    for text in [b"abc".as_slice(), b"de".as_slice()] {
        let piece = Bin::from_slice(alloc, text)?;
        pieces.reserve(1)?;
        pieces.push(piece);
    }
    let source = MemSource::new(pieces, Vec::new(alloc));
    Ok(PairLink::new(source, MemSink::new(alloc, Vec::new(alloc)), limit))
}

#[test]
fn a_pair_reads_no_more_than_its_limit(rt: HostRuntime) -> Result<(), Fail> {
    let mut link = pair_of(rt.alloc(), 4)?;
    is_send(&link);
    for want in [(Got::Took(2), *b"ab"), (Got::Took(1), *b"c-")] {
        assert_eq!(rt; read_two(&mut link), want);
    }
    assert!(rt; !link.is_spent());
    assert_eq!(rt; read_two(&mut link), (Got::Took(1), *b"d-"));
    assert!(rt; link.is_spent());
    assert_eq!(rt; read_two(&mut link), (Got::Failed, *b"--"));
    assert_eq!(rt; write_to(&mut link, b"xy"), Put::Took(2));
    let (_, sink) = link.into_parts();
    assert_eq!(rt; sink.written(), b"xy".as_slice());
    Ok(())
}

#[test]
fn a_pair_ends_where_its_source_does(rt: HostRuntime) -> Result<(), Fail> {
    let mut link = pair_of(rt.alloc(), 6)?;
    for want in [
        (Got::Took(2), *b"ab"),
        (Got::Took(1), *b"c-"),
        (Got::Took(2), *b"de"),
        (Got::End, *b"--"),
        (Got::End, *b"--"),
    ] {
        assert_eq!(rt; read_two(&mut link), want);
    }
    assert!(rt; !link.is_spent());
    Ok(())
}
