//! What people at the lines of daemons see, scene by scene, over the loopback address.

ghost use Rattle.std.specs.Prelude.{◌≡◌};
ghost use Rattle.lat_history.specs.Ledgers.{AreBlanks};

use super::daemon::daemon;
use super::stage::{Deed, Stage, Step};
use lat_base::Memory;
use lat_cell::Blanks;
use std::alloc::Global;
use std::io;
use std::marker::Brand;
use std::net::{Net, TcpListener, TcpStream};
use std::process::Abort;
use std::sync::Wait;
use std::sync::ledger::Ledger;
use std::test::Fail;
use std::thread::{self, Threads};
use std::time::Clock;

/// What a server, a node, and another one, if there is one, are told, and what happens at their lines. All end by themselves
/// behind it.
#[derive(Clone, Copy, Drop)]
struct Scene {
    server: &'static str,
    node: &'static str,
    other: Option<&'static str>,
    steps: &'static [Step],
}

/// A line without a byte of a caller is hung up within two timers and a tenth of a second.
const SOON_MS: u32 = 260;

/// What a line may take to call a node and to be answered.
const LONG_MS: u32 = 5_000;

/// Each host hangs up the caller whose line it is, and each caller his host, while the other line goes on.
const HANG_UPS: Scene = Scene {
    server: "latd --role server --name TS1 --address aa0004000104 --port 48241 --lines 2 --line-port 48243 --service VAX --sessions 3 48242",
    node: "latd --role node --name VAX1 --address aa0004000204 --port 48242 --lines 2 --service VAX=48245 --sessions 3 48241",
    other: None,
    steps: &[
        Step::Listens(0, 48_245),
        Step::Comes(0, 48_243),
        Step::IsDialled(0, 1),
        Step::Does(0, Deed::Says(b"one")),
        Step::Does(1, Deed::Hears(b"one")),
        Step::Comes(2, 48_244),
        Step::IsDialled(0, 3),
        Step::Does(2, Deed::Says(b"two")),
        Step::Does(3, Deed::Hears(b"two")),
        Step::Does(1, Deed::Says(b"bye")),
        Step::Leaves(1),
        Step::Does(0, Deed::Hears(b"bye")),
        Step::Does(0, Deed::IsHungUp(SOON_MS)),
        Step::Does(3, Deed::Says(b"still")),
        Step::Does(2, Deed::Hears(b"still")),
        Step::Comes(0, 48_243),
        Step::IsDialled(0, 1),
        Step::Does(0, Deed::Says(b"again")),
        Step::Does(1, Deed::Hears(b"again")),
        Step::Leaves(0),
        Step::Does(1, Deed::IsHungUp(SOON_MS)),
        Step::Does(2, Deed::Says(b"here")),
        Step::Does(3, Deed::Hears(b"here")),
        Step::Leaves(2),
        Step::Does(3, Deed::IsHungUp(SOON_MS)),
    ],
};

/// Line 5 of 8 alone has a caller; who comes to it beside him is turned away.
const ONE_OF_EIGHT: Scene = Scene {
    server: "latd --role server --name TS1 --address aa0004000104 --port 48251 --lines 8 --line-port 48260 --service VAX --sessions 1 48252",
    node: "latd --role node --name VAX1 --address aa0004000204 --port 48252 --lines 8 --service VAX=48253 --sessions 1 48251",
    other: None,
    steps: &[
        Step::Listens(0, 48_253),
        Step::Comes(0, 48_264),
        Step::IsDialled(0, 1),
        Step::Does(0, Deed::Says(b"five")),
        Step::Does(1, Deed::Hears(b"five")),
        Step::IsTurnedAway(48_264),
        Step::Does(1, Deed::Says(b"yes")),
        Step::Does(0, Deed::Hears(b"yes")),
        Step::Leaves(0),
        Step::Does(1, Deed::IsHungUp(SOON_MS)),
    ],
};

/// Where nobody listens at the service's port the caller is hung up; once somebody does, the next one is connected. At the node the
/// session without a caller counts for nothing.
const NO_HOST: Scene = Scene {
    server: "latd --role server --name TS1 --address aa0004000104 --port 48271 --lines 1 --line-port 48273 --service VAX --sessions 2 48272",
    node: "latd --role node --name VAX1 --address aa0004000204 --port 48272 --lines 1 --service VAX=48274 --sessions 1 48271",
    other: None,
    steps: &[
        Step::Comes(0, 48_273),
        Step::Does(0, Deed::IsHungUp(LONG_MS)),
        Step::Listens(0, 48_274),
        Step::Comes(1, 48_273),
        Step::IsDialled(0, 2),
        Step::Does(1, Deed::Says(b"now")),
        Step::Does(2, Deed::Hears(b"now")),
        Step::Leaves(2),
        Step::Does(1, Deed::IsHungUp(SOON_MS)),
    ],
};

/// The first caller leaves behind bytes that his host hasn't read; the second one has his own alone, both ways.
const UNREAD: Scene = Scene {
    server: "latd --role server --name TS1 --address aa0004000104 --port 48281 --lines 1 --line-port 48283 --service VAX --sessions 2 48282",
    node: "latd --role node --name VAX1 --address aa0004000204 --port 48282 --lines 1 --service VAX=48284 --sessions 2 48281",
    other: None,
    steps: &[
        Step::Listens(0, 48_284),
        Step::Comes(0, 48_283),
        Step::IsDialled(0, 1),
        Step::Does(0, Deed::Says(b"mine")),
        Step::Does(1, Deed::Hears(b"m")),
        Step::Does(
            1,
            Deed::Pours(
                b"0123456789abcdef0123456789abcdef0123456789abcdef0123456789abcdef",
                100,
            ),
        ),
        Step::Leaves(0),
        Step::Does(1, Deed::Hears(b"ine")),
        Step::Does(1, Deed::IsHungUp(LONG_MS)),
        Step::Comes(2, 48_283),
        Step::IsDialled(0, 3),
        Step::Does(2, Deed::Says(b"yours")),
        Step::Does(3, Deed::Hears(b"yours")),
        Step::Does(3, Deed::Says(b"thanks")),
        Step::Does(2, Deed::Hears(b"thanks")),
        Step::Leaves(2),
        Step::Does(3, Deed::IsHungUp(SOON_MS)),
    ],
};

/// A caller who never reads, while his host pours, and the daemons end all the same.
const NEVER_READS: Scene = Scene {
    server: "latd --role server --name TS1 --address aa0004000104 --port 48291 --lines 2 --line-port 48293 --service VAX --sessions 1 --linger 1 48292",
    node: "latd --role node --name VAX1 --address aa0004000204 --port 48292 --lines 2 --service VAX=48295 --sessions 1 --linger 1 48291",
    other: None,
    steps: &[
        Step::Listens(0, 48_295),
        Step::Comes(0, 48_293),
        Step::IsDialled(0, 1),
        Step::Does(0, Deed::Says(b"go")),
        Step::Does(1, Deed::Hears(b"go")),
        Step::Does(
            1,
            Deed::Pours(
                b"0123456789abcdef0123456789abcdef0123456789abcdef0123456789abcdef",
                10_000,
            ),
        ),
        Step::Comes(2, 48_294),
        Step::IsDialled(0, 3),
        Step::Does(2, Deed::Says(b"short")),
        Step::Does(3, Deed::Hears(b"short")),
        Step::Leaves(2),
        Step::Does(3, Deed::IsHungUp(LONG_MS)),
    ],
};

/// Two nodes of one line each offer the same service: the second caller comes to the one that is free. The third finds none, and
/// has it once the first one is gone.
const FULL_AND_FREE: Scene = Scene {
    server: "latd --role server --name TS1 --address aa0004000104 --port 48301 --lines 3 --line-port 48304 --service VAX --sessions 3 48302 48303",
    node: "latd --role node --name VAX1 --address aa0004000204 --port 48302 --lines 1 --service VAX=48307 --sessions 2 48301",
    other: Some(
        "latd --role node --name VAX2 --address aa0004000304 --port 48303 --lines 1 --service VAX=48308 --sessions 1 48301",
    ),
    steps: &[
        Step::Listens(0, 48_307),
        Step::Listens(1, 48_308),
        Step::Comes(0, 48_304),
        Step::IsDialled(0, 1),
        Step::Does(0, Deed::Says(b"one")),
        Step::Does(1, Deed::Hears(b"one")),
        Step::Comes(2, 48_305),
        Step::IsDialled(1, 3),
        Step::Does(2, Deed::Says(b"two")),
        Step::Does(3, Deed::Hears(b"two")),
        Step::Comes(4, 48_306),
        Step::Leaves(0),
        Step::Does(1, Deed::IsHungUp(LONG_MS)),
        Step::IsDialled(0, 5),
        Step::Does(4, Deed::Says(b"three")),
        Step::Does(5, Deed::Hears(b"three")),
        Step::Leaves(2),
        Step::Leaves(4),
        Step::Does(3, Deed::IsHungUp(SOON_MS)),
        Step::Does(5, Deed::IsHungUp(SOON_MS)),
    ],
};

// How far a scene is played.
fn played<R: Net<Listener = TcpListener, Stream = TcpStream> + Clock>(
    rt: &R,
    alloc: Global,
    scene: Scene,
) -> io::Result<usize> {
    Stage::new(alloc)?.plays(rt, scene.steps)
}

/// The words of a daemon, if there is one.
#[derive(Clone, Copy, Drop)]
struct Told {
    words: Option<&'static str>,
}

/// How far a scene was played, and the status of each daemon that there was.
#[derive(Drop)]
struct Ended {
    steps: io::Result<usize>,
    server: Result<u8, Memory>,
    node: Result<u8, Memory>,
    other: Result<u8, Memory>,
}

// The status of a daemon of these words; 0 of none.
fn status<
    E: Ledger + Sync,
    B: Ledger + Sync,
    R: Threads
        + Wait
        + Net<Listener = TcpListener, Stream = TcpStream>
        + Clock
        + Copy
        + Send
        + Sync,
>(rt: &R, alloc: Global, told: Told, blanks: Blanks) -> Result<u8, Memory>
    requires { AreBlanks blanks E.name E.parts B.name B.parts }
{
    match told.words {
        Some(words) => Ok(daemon::<E, B, R>(rt, alloc, words, blanks, &[])?.status),
        None => Ok(0),
    }
}

// Two daemons at once.
fn both<
    E: Ledger + Sync,
    B: Ledger + Sync,
    P: Ledger + Sync,
    Q: Ledger + Sync,
    R: Threads
        + Wait
        + Net<Listener = TcpListener, Stream = TcpStream>
        + Clock
        + Copy
        + Send
        + Sync,
>(
    rt: &R,
    alloc: Global,
    one: Told,
    blanks: Blanks,
    two: Told,
    others: Blanks,
) -> (Result<u8, Memory>, Result<u8, Memory>)
    requires blanks { AreBlanks blanks E.name E.parts B.name B.parts }
    requires others { AreBlanks others P.name P.parts Q.name Q.parts }
{
    thread::join(
        rt,
        move ||
            requires { AreBlanks blanks E.name E.parts B.name B.parts }
        { status::<E, B, R>(rt, alloc, one, blanks) },
        move ||
            requires { AreBlanks others P.name P.parts Q.name Q.parts }
        { status::<P, Q, R>(rt, alloc, two, others) },
    )
}

// The server, and what happens at the lines meanwhile.
fn server_and_steps<
    E: Ledger + Sync,
    B: Ledger + Sync,
    R: Threads
        + Wait
        + Net<Listener = TcpListener, Stream = TcpStream>
        + Clock
        + Copy
        + Send
        + Sync,
>(rt: &R, alloc: Global, scene: Scene, blanks: Blanks) -> (Result<u8, Memory>, io::Result<usize>)
    requires { AreBlanks blanks E.name E.parts B.name B.parts }
{
    let server = Told {
        words: Some(scene.server),
    };
    thread::join(
        rt,
        move ||
            requires { AreBlanks blanks E.name E.parts B.name B.parts }
        { status::<E, B, R>(rt, alloc, server, blanks) },
        move || played(rt, alloc, scene),
    )
}

fn shown<
    E: Ledger + Sync,
    B: Ledger + Sync,
    P: Ledger + Sync,
    Q: Ledger + Sync,
    V: Ledger + Sync,
    W: Ledger + Sync,
    R: Threads
        + Wait
        + Net<Listener = TcpListener, Stream = TcpStream>
        + Clock
        + Copy
        + Send
        + Sync,
>(rt: &R, alloc: Global, scene: Scene, blanks: Blanks, seconds: Blanks, thirds: Blanks) -> Ended
    requires blanks { AreBlanks blanks E.name E.parts B.name B.parts }
    requires seconds { AreBlanks seconds P.name P.parts Q.name Q.parts }
    requires thirds { AreBlanks thirds V.name V.parts W.name W.parts }
{
    let node = Told {
        words: Some(scene.node),
    };
    let other = Told { words: scene.other };
    let ((server, steps), (node, other)) = thread::join(
        rt,
        move ||
            requires { AreBlanks blanks E.name E.parts B.name B.parts }
        { server_and_steps::<E, B, R>(rt, alloc, scene, blanks) },
        move ||
            requires seconds { AreBlanks seconds P.name P.parts Q.name Q.parts }
            requires thirds { AreBlanks thirds V.name V.parts W.name W.parts }
        { both::<P, Q, V, W, R>(rt, alloc, node, seconds, other, thirds) },
    );
    Ended {
        steps,
        server,
        node,
        other,
    }
}

// What came of a scene: all of it is to happen, and each daemon to end with status 0.
fn is_whole<R: Abort>(rt: &R, scene: &Scene, ended: Ended) -> Result<(), Fail> {
    assert_eq!(rt; ended.steps?, scene.steps.len());
    assert_eq!(rt; ended.server?, 0);
    assert_eq!(rt; ended.node?, 0);
    assert_eq!(rt; ended.other?, 0);
    Ok(())
}

// A scene with daemons of their own.
fn happens<
    R: Threads
        + Wait
        + Net<Listener = TcpListener, Stream = TcpStream>
        + Clock
        + Abort
        + Copy
        + Send
        + Sync,
>(rt: &R, alloc: Global, scene: &Scene) -> Result<(), Fail> {
    let ended = shown::<Brand, Brand, Brand, Brand, Brand, Brand, R>(
        rt,
        alloc,
        *scene,
        Blanks::new(),
        Blanks::new(),
        Blanks::new(),
    );
    is_whole(rt, scene, ended)
}

#[test]
fn hang_ups_are_seen_while_another_line_works(rt: HostRuntime) -> Result<(), Fail> {
    happens(&rt, rt.alloc(), &HANG_UPS)
}

#[test]
fn one_line_works_alone(rt: HostRuntime) -> Result<(), Fail> {
    happens(&rt, rt.alloc(), &ONE_OF_EIGHT)
}

#[test]
fn a_dial_that_fails_hangs_the_caller_up(rt: HostRuntime) -> Result<(), Fail> {
    happens(&rt, rt.alloc(), &NO_HOST)
}

#[test]
fn what_was_not_read_is_nobody_elses(rt: HostRuntime) -> Result<(), Fail> {
    happens(&rt, rt.alloc(), &UNREAD)
}

#[test]
fn who_never_reads_holds_up_no_end(rt: HostRuntime) -> Result<(), Fail> {
    happens(&rt, rt.alloc(), &NEVER_READS)
}

#[test]
fn a_full_node_is_passed_over(rt: HostRuntime) -> Result<(), Fail> {
    happens(&rt, rt.alloc(), &FULL_AND_FREE)
}
