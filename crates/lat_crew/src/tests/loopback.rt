//! A server and a node at once, over the loopback address, with two callers one after the other on each line; and a node whose
//! services have devices, with a server one of whose lines offers one, and with one that ends once its line has served a caller.

ghost use Rattle.std.specs.Prelude.{◌≡◌};
ghost use Rattle.lat_history.specs.Ledgers.{AreBlanks};

use super::daemon::{Came, daemon};
use super::ends::End;
use lat_base::Memory;
use lat_cell::Blanks;
use std::alloc::Global;
use std::io::{self, Read};
use std::marker::Brand;
use std::net::{Ipv4Addr, Net, TcpListener, TcpStream};
use std::sync::Wait;
use std::sync::ledger::Ledger;
use std::test::Fail;
use std::thread::{self, Threads};
use std::time::Clock;

/// What a server and a node are told, the port of the first of their four lines, and that of the device of the node's service, if it
/// has one.
#[derive(Clone, Copy, Drop)]
struct Case {
    server: &'static str,
    node: &'static str,
    first: u16,
    device: Option<u16>,
}

const CASES: [Case; 5] = [
    Case {
        server: "latd --role server --name TS1 --address aa0004000104 --port 47201 --lines 2 --line-port 47203 --service VAX --sessions 4 47202",
        node: "latd --role node --name VAX1 --address aa0004000204 --port 47202 --lines 2 --line-port 47205 --service VAX --sessions 4 47201",
        first: 47_203,
        device: None,
    },
    Case {
        server: "latd --role server --name TS1 --address aa0004000104 --port 47211 --lines 2 --line-port 47213 --service PRINT --sessions 4 47212",
        node: "latd --role tariff --name VAX1 --address aa0004000204 --port 47212 --lines 2 --line-port 47215 --service VAX --sessions 4 47211",
        first: 47_213,
        device: None,
    },
    Case {
        server: "latd --role switch --name TS1 --address aa0004000104 --port 47221 --lines 2 --line-port 47223 --service VAX --sessions 4 47222",
        node: "latd --role node --name VAX1 --address aa0004000204 --port 47222 --lines 2 --line-port 47225 --service VAX --sessions 4 47221",
        first: 47_223,
        device: None,
    },
    Case {
        server: "latd --role server --name TS1 --address aa0004000104 --port 47241 --lines 2 --line-port 47243 --service BETA --offer 2=PRINT=47249 --sessions 1 47242",
        node: "latd --role node --name VAX1 --address aa0004000204 --port 47242 --lines 2 --line-port 47245 --service ALPHA=47247 --service BETA=47248 --service GAMMA --sessions 1 47241",
        first: 47_243,
        device: Some(47_248),
    },
    Case {
        server: "latd --role server --name TS1 --address aa0004000104 --port 47251 --lines 1 --line-port 47253 --service BETA --once 47252",
        node: "latd --role node --name VAX1 --address aa0004000204 --port 47252 --lines 2 --service BETA=47258 --sessions 1 47251",
        first: 47_253,
        device: Some(47_258),
    },
];

// Whether the first byte that comes out at one of two hosts, within some ten seconds, is the one that this caller says.
fn passes<R: Net<Listener = TcpListener, Stream = TcpStream> + Clock>(
    rt: &R,
    caller: &mut End,
    one: &mut End,
    two: &mut End,
    byte: u8,
) -> io::Result<bool> {
    caller.say(byte);
    for _ in 0..500 {
        if caller.hear(rt)?.1 {
            caller.say(byte);
        }
        let (first, _) = one.hear(rt)?;
        let (second, _) = two.hear(rt)?;
        if let Some(came) = first.or(second) {
            return Ok(came == byte);
        }
    }
    Ok(false)
}

// Callers say these bytes on both lines of the server: on its line 1 only once that of line 2 has come out at the node. Lines that
// are worked one after another pass nothing on. Then all hang up.
fn round<R: Net<Listener = TcpListener, Stream = TcpStream> + Clock>(
    rt: &R,
    line: u16,
    bytes: (u8, u8),
) -> io::Result<bool> {
    let mut one = End::at(rt, line.saturating_add(2))?;
    let mut two = End::at(rt, line.saturating_add(3))?;
    let mut first = End::at(rt, line)?;
    let mut second = End::at(rt, line.saturating_add(1))?;
    let is_passed = passes(rt, &mut second, &mut one, &mut two, bytes.1)?;
    Ok(is_passed && passes(rt, &mut first, &mut one, &mut two, bytes.0)?)
}

// Whether the node dials the device, to which a caller's byte goes.
fn dialled<R: Net<Listener = TcpListener, Stream = TcpStream> + Clock>(
    rt: &R,
    line: u16,
    device: u16,
) -> io::Result<bool> {
    let device = TcpListener::bind(rt, (Ipv4Addr::LOCALHOST, device))?;
    let mut caller = End::at(rt, line)?;
    caller.say(b'e');
    let (mut host, _) = device.accept()?;
    let mut bytes = [0; 1];
    Ok(host.read(&mut bytes)? == 1 && bytes == *b"e")
}

// Two callers one after the other on each line, or one whose session goes to a device.
fn passed<R: Net<Listener = TcpListener, Stream = TcpStream> + Clock>(
    rt: &R,
    case: Case,
) -> io::Result<bool> {
    if let Some(device) = case.device {
        return dialled(rt, case.first, device);
    }
    Ok(round(rt, case.first, (b'a', b'b'))? && round(rt, case.first, (b'c', b'd'))?)
}

/// What came of both, and whether both lines of the server passed their bytes on.
#[derive(Drop)]
struct Ended {
    server: Result<Came, Memory>,
    node: Result<Came, Memory>,
    is_passed: io::Result<bool>,
}

// The node, and what the lines pass on meanwhile.
fn node_and_lines<
    E: Ledger + Sync,
    B: Ledger + Sync,
    R: Threads
        + Wait
        + Net<Listener = TcpListener, Stream = TcpStream>
        + Clock
        + Copy
        + Send
        + Sync,
>(rt: &R, alloc: Global, case: Case, blanks: Blanks) -> (Result<Came, Memory>, io::Result<bool>)
    requires { AreBlanks blanks E.name E.parts B.name B.parts }
{
    thread::join(
        rt,
        move ||
            requires { AreBlanks blanks E.name E.parts B.name B.parts }
        { daemon::<E, B, R>(rt, alloc, case.node, blanks, &[]) },
        move || passed(rt, case),
    )
}

fn session<
    E: Ledger + Sync,
    B: Ledger + Sync,
    P: Ledger + Sync,
    Q: Ledger + Sync,
    R: Threads
        + Wait
        + Net<Listener = TcpListener, Stream = TcpStream>
        + Clock
        + Copy
        + Send
        + Sync,
>(rt: &R, alloc: Global, case: Case, blanks: Blanks, others: Blanks) -> Ended
    requires blanks { AreBlanks blanks E.name E.parts B.name B.parts }
    requires others { AreBlanks others P.name P.parts Q.name Q.parts }
{
    let (server, (node, is_passed)) = thread::join(
        rt,
        move ||
            requires { AreBlanks blanks E.name E.parts B.name B.parts }
        { daemon::<E, B, R>(rt, alloc, case.server, blanks, &[]) },
        move ||
            requires { AreBlanks others P.name P.parts Q.name Q.parts }
        { node_and_lines::<P, Q, R>(rt, alloc, case, others) },
    );
    Ended {
        server,
        node,
        is_passed,
    }
}

#[test]
fn lines_serve_caller_after_caller(rt: HostRuntime) -> Result<(), Fail> {
    for case in CASES.iter() {
        let ended = session::<Brand, Brand, Brand, Brand, HostRuntime>(
            &rt,
            rt.alloc(),
            *case,
            Blanks::new(),
            Blanks::new(),
        );
        assert!(rt; ended.is_passed?);
        assert_eq!(rt; ended.server?.status, 0);
        assert_eq!(rt; ended.node?.status, 0);
    }
    Ok(())
}
