//! The carrier, a line with its opener, and the clock, on the loopback address.

use lat_base::Addr;
use lat_outside::{
    Clock, Failed, Got, LineEnd, LineGot, Opener, PortFault, PortOpener, Rx, Strays, Tx,
};
use lat_udp::{NetOpener, NetPorts, RealClock};
use std::io::{Read, Write};
use std::net::{Ipv4Addr, TcpStream, UdpSocket};
use std::test::Fail;
use std::time::Duration;
use std::{io, thread};

const SERVER: Addr = Addr([0xaa, 0x00, 0x04, 0x00, 0x01, 0x04]);

const NODE: Addr = Addr([0xaa, 0x00, 0x04, 0x00, 0x02, 0x04]);

#[test]
fn carries_a_datagram(rt: HostRuntime) -> Result<(), Fail> {
    let mut opener = NetOpener::new(rt);
    assert!(rt; opener.open_carrier(SERVER, 47101, &[1; 9]).is_err());
    let (mut tx, _rx) = opener
        .open_carrier(SERVER, 47101, &[47102])
        .ok()
        .ok_or("a carrier")?;
    let plain = UdpSocket::bind(&rt, (Ipv4Addr::LOCALHOST, 47102))?;
    let payload = [2, 1, 2, 0, 1, 0, 1, 0, 1, 1, 1, 0, 0x41, 0];
    assert!(rt; tx.send(NODE, payload.as_slice()).is_ok());
    let mut buf = [0; 1515];
    let (count, _) = plain.recv_from(&mut buf)?;
    let text = hex::encode(rt.alloc(), &buf[..count])?;
    assert_eq!(rt;
        text.as_str(),
        "aa0004000204aa000400010460040201020001000100010101004100"
    );
    Ok(())
}

#[test]
fn hears_what_is_for_it(rt: HostRuntime) -> Result<(), Fail> {
    let mut opener = NetOpener::new(rt);
    let (mut tx, mut other) = opener
        .open_carrier(SERVER, 47103, &[47104])
        .ok()
        .ok_or("a carrier")?;
    let (mut back, mut rx) = opener
        .open_carrier(NODE, 47104, &[47103])
        .ok()
        .ok_or("a carrier")?;
    let mut buf = [0; 1500];
    assert!(rt; rx.recv(&mut buf) == Ok(Got::Quiet));
    assert!(rt; tx.send(SERVER, b"no").is_ok());
    assert!(rt; rx.recv(&mut buf) == Ok(Got::Quiet));
    assert!(rt; tx.send(NODE, b"yes").is_ok());
    let frame = Got::Frame {
        from: SERVER,
        len: 3,
    };
    assert!(rt; rx.recv(&mut buf) == Ok(frame));
    let (yes, _) = buf.as_slice().split_at(3);
    assert!(rt; yes == b"yes".as_slice());
    let frame = Got::Frame {
        from: NODE,
        len: 1500,
    };
    assert!(rt; back.send(SERVER, &[7; 1500]).is_ok());
    assert!(rt; other.recv(&mut buf) == Ok(frame));
    assert!(rt; back.send(SERVER, &[7; 1501]) == Err(Failed));
    Ok(())
}

#[test]
fn hears_its_peers_alone(rt: HostRuntime) -> Result<(), Fail> {
    let mut opener = NetPorts::new(rt);
    assert_eq!(rt;
        opener.open_carrier(NODE, 47106, &[1; 9]).err(),
        Some(PortFault::Peers)
    );
    let (_tx, mut rx) = opener
        .open_carrier(NODE, 47106, &[47107, 47108])
        .map_err(|_| "a carrier")?;
    assert_eq!(rt;
        opener.open_carrier(NODE, 47106, &[47107]).err(),
        Some(PortFault::InUse)
    );
    // to the node, from the server
    let datagram = [
        0xaa, 0x00, 0x04, 0x00, 0x02, 0x04, 0xaa, 0x00, 0x04, 0x00, 0x01, 0x04, 0x60, 0x04, b'x',
    ];
    let mut buf = [0; 1500];
    let to = (Ipv4Addr::LOCALHOST, 47106);
    // a port that is no peer's, and a peer's port at another address
    let stranger = UdpSocket::bind(&rt, (Ipv4Addr::LOCALHOST, 47109))?;
    let elsewhere = UdpSocket::bind(&rt, (Ipv4Addr::new(127, 0, 0, 2), 47108))?;
    assert_eq!(rt; stranger.send_to(&datagram, to)?, 15);
    assert_eq!(rt; elsewhere.send_to(&datagram, to)?, 15);
    for strays in [1, 2].iter() {
        assert!(rt; rx.recv(&mut buf) == Ok(Got::Quiet));
        assert_eq!(rt; rx.strays(), *strays);
    }
    let peer = UdpSocket::bind(&rt, (Ipv4Addr::LOCALHOST, 47108))?;
    assert_eq!(rt; peer.send_to(&datagram, to)?, 15);
    let frame = Got::Frame {
        from: SERVER,
        len: 1,
    };
    assert!(rt; rx.recv(&mut buf) == Ok(frame));
    assert_eq!(rt; buf[0], b'x');
    // what a peer sends to others is quiet, and no stray
    assert_eq!(rt; peer.send_to(&datagram[6..], to)?, 9);
    assert!(rt; rx.recv(&mut buf) == Ok(Got::Quiet));
    assert_eq!(rt; rx.strays(), 2);
    Ok(())
}

fn connected(rt: &HostRuntime, port: u16) -> io::Result<TcpStream> {
    for _ in 0..200 {
        if let Ok(stream) = TcpStream::connect(rt, (Ipv4Addr::LOCALHOST, port)) {
            return Ok(stream);
        }
        thread::sleep(rt, Duration::from_millis(10));
    }
    TcpStream::connect(rt, (Ipv4Addr::LOCALHOST, port))
}

#[test]
fn accepts_a_line(rt: HostRuntime) -> Result<(), Fail> {
    let (line, peer) = thread::join(
        &rt,
        move || NetOpener::new(rt).open_line(47105),
        move || connected(&rt, 47105),
    );
    let mut line = line.ok().ok_or("a line")?;
    let mut peer = peer?;
    let mut buf = [0; 8];
    assert!(rt; line.read(&mut buf) == Ok(LineGot::Quiet));
    peer.write_all(b"hi")?;
    assert!(rt; line.read(&mut buf) == Ok(LineGot::Bytes(2)));
    assert!(rt; &buf[..2] == b"hi".as_slice());
    assert!(rt; line.write(b"ok") == Ok(2));
    let mut back = [0; 2];
    peer.read_exact(&mut back)?;
    assert!(rt; &back == b"ok");
    drop(peer);
    assert!(rt; line.read(&mut buf) == Ok(LineGot::End));
    line.pause();
    Ok(())
}

#[test]
fn tells_the_time(rt: HostRuntime) -> Result<(), Fail> {
    let mut clock = RealClock::new(rt);
    let before = clock.now();
    clock.pause(20);
    let after = clock.now();
    assert!(rt; before.saturating_add(20) <= after, "{before} {after}");
    Ok(())
}
