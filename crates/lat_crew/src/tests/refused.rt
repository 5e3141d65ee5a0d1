//! Daemons that don't come to run: a port of theirs is in use, or their words aren't right.

ghost use Rattle.lat_history.specs.Ledgers.{AreBlanks};

use super::daemon::{Came, daemon};
use lat_base::Memory;
use lat_cell::Blanks;
use lat_live::{PortOf, Refused, refused_text};
use lat_outside::PortFault;
use lat_words::fault_text;
use std::alloc::Global;
use std::marker::Brand;
use std::net::{Ipv4Addr, Net, TcpListener, TcpStream};
use std::sync::Wait;
use std::sync::ledger::Ledger;
use std::test::Fail;
use std::thread::Threads;
use std::time::Clock;

/// The words of a daemon, and those of its writes that fail.
#[derive(Clone, Copy, Drop)]
struct Case {
    words: &'static str,
    failing: &'static [u64],
}

/// Right words, of a server with two lines.
const RIGHT: Case = Case {
    words: "latd --role server --name TS1 --address aa0004000104 --port 47231 --lines 2 --line-port 47232 --service VAX --sessions 1 47234",
    failing: &[],
};

/// No line is stated.
const NO_LINE: &str =
    "latd --role server --name TS1 --address aa0004000104 --port 47231 --lines 0 --line-port 47232 --service VAX --sessions 1 47234";

const WRONG: Case = Case {
    words: NO_LINE,
    failing: &[],
};

/// The same, and what is said of it can't be written.
const UNWRITTEN: Case = Case {
    words: NO_LINE,
    failing: &[1],
};

// What comes of a daemon.
fn told<
    E: Ledger + Sync,
    B: Ledger + Sync,
    R: Threads
        + Wait
        + Net<Listener = TcpListener, Stream = TcpStream>
        + Clock
        + Copy
        + Send
        + Sync,
>(rt: &R, alloc: Global, case: &Case, blanks: Blanks) -> Result<Came, Memory>
    requires { AreBlanks blanks E.name E.parts B.name B.parts }
{
    daemon::<E, B, R>(rt, alloc, case.words, blanks, case.failing)
}

#[test]
fn a_port_in_use_is_told(rt: HostRuntime) -> Result<(), Fail> {
    let _other = TcpListener::bind(&rt, (Ipv4Addr::LOCALHOST, 47_233))?;
    let came = told::<Brand, Brand, HostRuntime>(&rt, rt.alloc(), &RIGHT, Blanks::new())?;
    assert_eq!(rt; came.status, 4);
    assert!(rt; came.text.as_slice().is_empty());
    let refused = Refused {
        of: PortOf::Line(2),
        port: 47_233,
        fault: PortFault::InUse,
    };
    assert!(rt; came.refused == Some(refused));
    let text = refused_text(rt.alloc(), refused)?;
    assert_eq!(rt;
        text.as_str(),
        "latd: line 2: 127.0.0.1:47233: address in use\n"
    );
    Ok(())
}

#[test]
fn wrong_words_are_refused(rt: HostRuntime) -> Result<(), Fail> {
    let came = told::<Brand, Brand, HostRuntime>(&rt, rt.alloc(), &WRONG, Blanks::new())?;
    assert_eq!(rt; came.status, 1);
    assert!(rt; came.text.as_slice() == b"words\n".as_slice());
    assert!(rt; came.wrong.is_some());
    if let Some(fault) = &came.wrong {
        let text = fault_text(rt.alloc(), fault)?;
        assert_eq!(rt; text.as_str(), "latd: --lines: 1 to 32, not \"0\"\n");
    }
    Ok(())
}

#[test]
fn a_refusal_that_is_not_written_is_told(rt: HostRuntime) -> Result<(), Fail> {
    let came = told::<Brand, Brand, HostRuntime>(&rt, rt.alloc(), &UNWRITTEN, Blanks::new())?;
    assert_eq!(rt; came.status, 5);
    assert!(rt; came.text.as_slice().is_empty());
    Ok(())
}
