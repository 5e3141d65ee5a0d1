//! What a caller in local mode types and is told, by "Local mode" in docs/PROTOCOL.md and docs/FORMATS.md.

use crate::command::{Command, CommandFault};
use crate::event::Event;
use crate::meaning::Meaning;
use crate::mind::LocalMind;
use crate::reading::read_command;
use crate::reply::{Act, Reply};
use crate::saying::reply_onto;
use crate::tables::{ServiceRow, SessionRow};
use lat_base::{Name, SessionEnd, SessionState};
use std::alloc::Global;
use std::process::Abort;

fn name(rt: &impl Abort, text: &str) -> Name {
    match Name::read(text.as_bytes()) {
        Ok(name) => name,
        Err(_) => panic!(rt; "no name"),
    }
}

// What a line is read as, in a word.
fn read(rt: &impl Abort, line: &str) -> &'static str {
    let services = [
        name(rt, "VAX"),
        name(rt, "VAXB"),
        name(rt, "Unix"),
        name(rt, "vaxb"),
    ];
    let read = read_command(line.as_bytes(), &services);
    match &read {
        Ok(Command::Blank) => "blank",
        Ok(Command::Connect(service)) => match service.bytes() {
            b"VAX" => "to VAX",
            b"VAXB" => "to VAXB",
            b"Unix" => "to Unix",
            _ => "to another",
        },
        Ok(Command::Resume) => "resume",
        Ok(Command::Disconnect) => "disconnect",
        Ok(Command::ShowServices) => "services",
        Ok(Command::ShowSessions) => "sessions",
        Ok(Command::Help) => "help",
        Ok(Command::Logout) => "logout",
        Err(CommandFault::UnknownCommand) => "unknown command",
        Err(CommandFault::MissingShown) => "missing shown",
        Err(CommandFault::UnknownShown) => "unknown shown",
        Err(CommandFault::AmbiguousShown) => "ambiguous shown",
        Err(CommandFault::MissingService) => "missing service",
        Err(CommandFault::UnknownService) => "unknown service",
        Err(CommandFault::AmbiguousService) => "ambiguous service",
        Err(CommandFault::Extra) => "extra",
    }
}

#[test]
fn lines_are_read(rt: HostRuntime) {
    let rows = [
        ("", "blank"),
        ("   ", "blank"),
        ("connect VAX", "to VAX"),
        ("  C  vax ", "to VAX"),
        ("con u", "to Unix"),
        ("c vaxb", "to VAXB"),
        ("c va", "ambiguous service"),
        ("c unixes", "unknown service"),
        ("c 12345678901234567", "unknown service"),
        ("c", "missing service"),
        ("c vax now", "extra"),
        ("R", "resume"),
        ("r 1", "extra"),
        ("disc", "disconnect"),
        ("h", "help"),
        ("?", "unknown command"),
        ("helps", "unknown command"),
        ("l", "logout"),
        ("sh ser", "services"),
        ("s sessions", "sessions"),
        ("s se", "ambiguous shown"),
        ("s", "missing shown"),
        ("s lines", "unknown shown"),
        ("show services x", "extra"),
    ];
    for (line, due) in rows {
        assert!(&rt; read(&rt, line) == due, "{line}");
    }
}

// Adds what is shown of a reply, with one service that is known, and one session of the line.
fn show(rt: &impl Abort, alloc: Global, text: &mut String, reply: &Reply) {
    let services = [ServiceRow {
        service: name(rt, "VAX_CLUSTER"),
        rating: 20,
        node: name(rt, "VAX1"),
    }];
    let sessions = [SessionRow {
        number: 1,
        service: name(rt, "VAX"),
        node: name(rt, "VAX2"),
        state: SessionState::Live,
    }];
    reply_onto(text, alloc, reply, &services, &sessions).expect(rt, "memory");
}

fn is_connect(act: Act) -> bool {
    matches!(act, Act::Connect(_))
}

#[test]
fn a_caller_is_told(rt: HostRuntime) {
    let alloc = rt.alloc();
    let (vax1, vax2) = (name(&rt, "VAX1"), name(&rt, "VAX2"));
    let mut text = String::new(alloc);
    let (mut mind, first) = LocalMind::make(name(&rt, "TS1"), 3);
    show(&rt, alloc, &mut text, &first);
    assert!(&rt; mind.meaning(b"c vax\r") == Meaning::Typed);
    let asked = mind.hear(Event::Typed(Ok(Command::Connect(name(&rt, "VAX")))));
    assert!(&rt; is_connect(asked.act));
    show(&rt, alloc, &mut text, &asked);
    assert!(&rt; mind.meaning(b"early") == Meaning::Early);
    let next = mind.hear(Event::Unmet(vax1, SessionEnd::Rejected(7)));
    assert!(&rt; matches!(next.act, Act::Next(_)));
    show(&rt, alloc, &mut text, &next);
    show(&rt, alloc, &mut text, &mind.hear(Event::Met(vax2)));
    assert!(&rt; mind.meaning(b"ls\x1dx") == Meaning::Data(2));
    assert!(&rt; mind.meaning(b"\x1dx") == Meaning::Escape);
    show(&rt, alloc, &mut text, &mind.hear(Event::Escape));
    show(
        &rt,
        alloc,
        &mut text,
        &mind.hear(Event::Typed(Ok(Command::ShowSessions))),
    );
    show(
        &rt,
        alloc,
        &mut text,
        &mind.hear(Event::Typed(Ok(Command::ShowServices))),
    );
    show(
        &rt,
        alloc,
        &mut text,
        &mind.hear(Event::Typed(Ok(Command::Connect(vax1)))),
    );
    show(
        &rt,
        alloc,
        &mut text,
        &mind.hear(Event::Typed(Ok(Command::Resume))),
    );
    show(
        &rt,
        alloc,
        &mut text,
        &mind.hear(Event::Over(SessionEnd::Closed)),
    );
    show(
        &rt,
        alloc,
        &mut text,
        &mind.hear(Event::Over(SessionEnd::Closed)),
    );
    show(
        &rt,
        alloc,
        &mut text,
        &mind.hear(Event::Typed(Err(CommandFault::Extra))),
    );
    show(
        &rt,
        alloc,
        &mut text,
        &mind.hear(Event::Typed(Ok(Command::Logout))),
    );
    show(&rt, alloc, &mut text, &mind.hear(Event::Gone));
    assert!(&rt; mind.meaning(b"late") == Meaning::Late);
    let due = "TS1 line 3\r\nLocal> connecting\r\n\
               VAX1 has no room, trying the next\r\n\
               connected to VAX at VAX2\r\n\
               \r\nLocal> session  service  node  state\r\n\
               1        VAX      VAX2  live\r\n\
               Local> service      rating  node\r\n\
               VAX_CLUSTER  20      VAX1\r\n\
               Local> ? disconnect first: VAX at VAX2 stays\r\n\
               Local> resuming VAX at VAX2\r\n\
               \r\nsession ended: by the host\r\n\
               Local> ? too many words\r\n\
               Local> logged out\r\n";
    assert!(&rt; text.as_str() == due, "{text}");
}
