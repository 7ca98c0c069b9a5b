use df_outside::{Came, Done, Door, Got, Link, Poller, Put};
use df_real::MioDoor;
use std::io::{Read, Write};
use std::net::{IpAddr, Ipv4Addr, SocketAddr, TcpStream};
use std::test::Fail;

/// A port that no other test listens on.
const PORT: u16 = 46_379;

/// The next link, which has to come within some rests.
fn accepted<D: Door>(door: &mut D) -> Option<D::Link> {
    for _ in 0..100 {
        match door.accept() {
            Came::Link(link) => return Some(link),
            Came::NotYet => door.rest(100),
            _ => break,
        }
    }
    None
}

/// What the next read that finds something gives.
fn got<D: Door, L: Link>(door: &mut D, link: &mut L, buf: &mut [u8; 4]) -> Got {
    for _ in 0..100 {
        match link.read(buf) {
            Got::NotYet => door.rest(100),
            answer => return answer,
        }
    }
    Got::NotYet
}

#[test]
fn takes_and_writes_bytes_and_sees_the_end(rt: HostRuntime) -> Result<(), Fail> {
    let mut door = MioDoor::new(rt, rt.alloc(), IpAddr::V4(Ipv4Addr::LOCALHOST))?;
    assert_eq!(rt; door.bind(PORT), Done::Ok);
    let mut client = TcpStream::connect(&rt, SocketAddr::from((Ipv4Addr::LOCALHOST, PORT)))?;
    let mut link = accepted(&mut door).expect(&rt, "nobody came");
    let mut buf = [0; 4];
    assert_eq!(rt; link.read(&mut buf), Got::NotYet);
    client.write_all(b"hello")?;
    assert_eq!(rt; got(&mut door, &mut link, &mut buf), Got::Took(4));
    assert_eq!(rt; &buf, b"hell");
    assert_eq!(rt; link.read(&mut buf), Got::Took(1));
    assert_eq!(rt; link.write(b"world"), Put::Took(5));
    let mut reply = [0; 5];
    client.read_exact(&mut reply)?;
    assert_eq!(rt; &reply, b"world");
    client.write_all(b"bye")?;
    drop(client);
    assert_eq!(rt; got(&mut door, &mut link, &mut buf), Got::Took(3));
    assert_eq!(rt; got(&mut door, &mut link, &mut buf), Got::End);
    assert_eq!(rt; link.read(&mut buf), Got::End);
    link.close();
    assert_eq!(rt; link.write(b"x"), Put::Failed);
    Ok(())
}
