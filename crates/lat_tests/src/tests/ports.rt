//! Callers over TCP, on the loopback address.

use lat_outside::{
    CALLER_BYTES, CallerGot, Callers, Failed, Knock, PortFault, PortOpener, Presence,
};
use lat_udp::{NetPorts, TcpCallers};
use std::io::{self, Read, Write};
use std::net::{Ipv4Addr, TcpListener, TcpStream};
use std::os::fd::AsRawFd;
use std::test::Fail;
use std::thread;
use std::time::{Duration, Instant};

fn connect(rt: &HostRuntime, port: u16) -> io::Result<TcpStream> {
    let stream = TcpStream::connect(rt, (Ipv4Addr::LOCALHOST, port))?;
    stream.set_read_timeout(Some(Duration::from_millis(2000)))?;
    Ok(stream)
}

fn line(rt: HostRuntime, port: u16) -> Result<TcpCallers<HostRuntime>, Fail> {
    Ok(NetPorts::new(rt).open_port(port).map_err(|_| "a line")?)
}

// Until somebody came, two seconds at most.
fn accepts(rt: &HostRuntime, line: &mut TcpCallers<HostRuntime>) -> bool {
    for _ in 0..400 {
        if line.accept() == Ok(Knock::Came) {
            return true;
        }
        thread::sleep(rt, Duration::from_millis(5));
    }
    false
}

// The first read that isn't quiet.
fn reads(
    rt: &HostRuntime,
    line: &mut TcpCallers<HostRuntime>,
    buf: &mut [u8; CALLER_BYTES],
) -> Result<CallerGot, Failed> {
    for _ in 0..400 {
        let got = line.read(buf);
        if got != Ok(CallerGot::Quiet) {
            return got;
        }
        thread::sleep(rt, Duration::from_millis(5));
    }
    Ok(CallerGot::Quiet)
}

fn leaves(rt: &HostRuntime, line: &mut TcpCallers<HostRuntime>) -> bool {
    for _ in 0..400 {
        if line.watch() == Ok(Presence::Leaves) {
            return true;
        }
        thread::sleep(rt, Duration::from_millis(5));
    }
    false
}

#[test]
fn serves_one_after_another(rt: HostRuntime) -> Result<(), Fail> {
    let mut line = line(rt, 47110)?;
    let mut buf = [0; CALLER_BYTES];
    assert_eq!(rt; line.accept(), Ok(Knock::Quiet));
    let mut first = connect(&rt, 47110)?;
    assert!(rt; accepts(&rt, &mut line));
    assert_eq!(rt; line.read(&mut buf), Ok(CallerGot::Quiet));
    let mut second = connect(&rt, 47110)?;
    assert_eq!(rt; line.accept(), Ok(Knock::Quiet));
    first.write_all(b"hi")?;
    assert_eq!(rt; reads(&rt, &mut line, &mut buf), Ok(CallerGot::Bytes(2)));
    assert_eq!(rt; &buf[..2], &b"hi"[..]);
    assert_eq!(rt; line.write(b"you"), Ok(3));
    let mut back = [0; 3];
    first.read_exact(&mut back)?;
    assert_eq!(rt; &back, b"you");
    line.hang_up();
    assert_eq!(rt; first.read(&mut back)?, 0);
    assert!(rt; accepts(&rt, &mut line));
    second.write_all(b"2")?;
    assert_eq!(rt; reads(&rt, &mut line, &mut buf), Ok(CallerGot::Bytes(1)));
    drop(second);
    assert_eq!(rt; reads(&rt, &mut line, &mut buf), Ok(CallerGot::Ended));
    Ok(())
}

#[test]
fn turns_a_second_away(rt: HostRuntime) -> Result<(), Fail> {
    let mut line = line(rt, 47111)?;
    let _first = connect(&rt, 47111)?;
    assert!(rt; accepts(&rt, &mut line));
    let mut second = connect(&rt, 47111)?;
    let mut closed = 0usize;
    for _ in 0..400 {
        closed = closed.saturating_add(line.turn_away());
        if closed > 0 {
            break;
        }
        thread::sleep(&rt, Duration::from_millis(5));
    }
    assert_eq!(rt; closed, 1);
    assert_eq!(rt; second.read(&mut [0])?, 0);
    assert_eq!(rt; line.watch(), Ok(Presence::Stays));
    Ok(())
}

// The byte at this place of what is written to a caller that doesn't read.
fn byte_at(place: usize) -> u8 {
    (place % 251) as u8
}

#[test]
fn never_waits_for_one_that_never_reads(rt: HostRuntime) -> Result<(), Fail> {
    let mut line = line(rt, 47112)?;
    let mut far = connect(&rt, 47112)?;
    assert!(rt; accepts(&rt, &mut line));
    let mut written = 0usize;
    let mut stuck = 0usize;
    for _ in 0..4000 {
        let mut piece = [0; 8192];
        for (at, byte) in piece.iter_mut().enumerate() {
            *byte = byte_at(written % 251 + at);
        }
        let start = Instant::now(&rt)?;
        let took = line.write(piece.as_slice())?;
        assert!(rt; start.elapsed(&rt)? < Duration::from_millis(2000));
        written = written.saturating_add(took);
        stuck = if took == 0 {
            stuck.saturating_add(1)
        } else {
            0
        };
        if stuck == 3 {
            break;
        }
    }
    assert_eq!(rt; stuck, 3);
    line.hang_up();
    let mut place = 0usize;
    let mut buf = [0; 8192];
    for _ in 0..written.saturating_add(1) {
        let count = far.read(&mut buf)?;
        if count == 0 {
            break;
        }
        for byte in buf[..count].iter() {
            assert_eq!(rt; *byte, byte_at(place));
            place = place.saturating_add(1);
        }
    }
    assert_eq!(rt; place, written);
    Ok(())
}

#[test]
fn dials(rt: HostRuntime) -> Result<(), Fail> {
    let mut line = NetPorts::new(rt).open_dialling();
    let mut buf = [0; CALLER_BYTES];
    assert_eq!(rt; line.accept(), Ok(Knock::Quiet));
    assert_eq!(rt; line.turn_away(), 0);
    assert_eq!(rt; line.dial(47113), Err(Failed));
    assert_eq!(rt; line.read(&mut buf), Err(Failed));
    let device = TcpListener::bind(&rt, (Ipv4Addr::LOCALHOST, 47113))?;
    assert_eq!(rt; line.dial(47113), Ok(()));
    let (mut stream, _) = device.accept()?;
    stream.write_all(b"ready")?;
    assert_eq!(rt; reads(&rt, &mut line, &mut buf), Ok(CallerGot::Bytes(5)));
    line.hang_up();
    assert_eq!(rt; stream.read(&mut [0])?, 0);
    Ok(())
}

#[test]
fn sees_one_leave_behind_bytes(rt: HostRuntime) -> Result<(), Fail> {
    let mut line = line(rt, 47114)?;
    let mut buf = [0; CALLER_BYTES];
    let mut far = connect(&rt, 47114)?;
    assert!(rt; accepts(&rt, &mut line));
    assert_eq!(rt; line.watch(), Ok(Presence::Stays));
    far.write_all(b"typed ")?;
    thread::sleep(&rt, Duration::from_millis(50));
    assert_eq!(rt; line.watch(), Ok(Presence::Stays));
    far.write_all(b"ahead")?;
    drop(far);
    assert!(rt; leaves(&rt, &mut line));
    assert_eq!(rt; line.read(&mut buf), Ok(CallerGot::Bytes(11)));
    assert_eq!(rt; &buf[..11], &b"typed ahead"[..]);
    assert_eq!(rt; line.read(&mut buf), Ok(CallerGot::Ended));
    Ok(())
}

#[test]
fn a_hang_up_loses_nothing_written(rt: HostRuntime) -> Result<(), Fail> {
    let mut line = line(rt, 47115)?;
    let mut far = connect(&rt, 47115)?;
    assert!(rt; accepts(&rt, &mut line));
    far.write_all(&[b'x'; 3000])?;
    assert_eq!(rt; line.write(&[b'y'; 3000]), Ok(3000));
    line.hang_up();
    let mut back = [0; 3000];
    far.read_exact(&mut back)?;
    assert_eq!(rt; back[2999], b'y');
    assert_eq!(rt; far.read(&mut [0])?, 0);
    Ok(())
}

#[test]
fn frees_descriptors(rt: HostRuntime) -> Result<(), Fail> {
    let mut line = line(rt, 47116)?;
    let first = connect(&rt, 47116)?.as_raw_fd();
    assert!(rt; accepts(&rt, &mut line));
    line.hang_up();
    let mut last = first;
    for _ in 0..2000 {
        let far = connect(&rt, 47116)?;
        last = far.as_raw_fd();
        assert!(rt; accepts(&rt, &mut line));
        line.hang_up();
    }
    assert!(rt; last.saturating_sub(first) < 100, "{first} {last}");
    Ok(())
}

#[test]
fn says_what_it_cant_open(rt: HostRuntime) -> Result<(), Fail> {
    let mut opener = NetPorts::new(rt);
    let held = opener.open_port(47117).map_err(|_| "a line")?;
    assert_eq!(rt; opener.open_port(47117).err(), Some(PortFault::InUse));
    drop(held);
    assert!(rt; opener.open_port(47117).is_ok());
    Ok(())
}
