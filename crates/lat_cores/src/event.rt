//! The events that a line tells a core.

use lat_base::{Addr, Bytes, Event};
use lat_script::{
    ScriptFault, address, byte, byte_within, bytes, filling, name, no_command, number, setting,
    short, word,
};
use std::alloc::Global;

/// The event that the words behind the core's letter say. Requests go to this server, where the line names no other.
pub fn event_of(alloc: Global, line: &str, server: Addr) -> Result<Event, ScriptFault> {
    match word(line, 1) {
        "time" => Ok(Event::Time {
            now: number(line, 2)?,
        }),
        "put" | "fill" => put_of(alloc, line),
        "connect" | "set" | "take" | "attend" | "close" => call_of(line),
        "avoid" | "ready" | "halt" => told_of(line),
        _ => asked_of(line, server),
    }
}

// The bytes that a line puts: those that it says, or so many of the same.
fn put_bytes(alloc: Global, line: &str) -> Result<Vec<u8>, ScriptFault> {
    if word(line, 1) == "put" {
        bytes(alloc, line, 3)
    } else {
        filling(alloc, line, 3)
    }
}

// The events that put bytes.
fn put_of(alloc: Global, line: &str) -> Result<Event, ScriptFault> {
    let place = byte(line, 2)?;
    Ok(Event::Put {
        line: place,
        bytes: Bytes::copy(alloc, &put_bytes(alloc, line)?)?,
    })
}

// The other calls of a line.
fn call_of(line: &str) -> Result<Event, ScriptFault> {
    let place = byte(line, 2)?;
    Ok(match word(line, 1) {
        "connect" => Event::Connect {
            line: place,
            service: name(line, 3)?,
        },
        "set" => Event::Set {
            line: place,
            setting: setting(line, 3)?,
        },
        "take" => Event::Take {
            line: place,
            n: short(line, 3)?,
        },
        "attend" => Event::Attend {
            line: place,
            flag: byte(line, 3)?,
        },
        "close" => Event::Close { line: place },
        _ => return Err(no_command(1)),
    })
}

// What a core is told of the nodes that it knows, of a line, and of its own end.
fn told_of(line: &str) -> Result<Event, ScriptFault> {
    match word(line, 1) {
        "avoid" => Ok(Event::Avoid {
            line: byte(line, 2)?,
        }),
        "ready" => Ok(Event::Ready {
            line: byte(line, 2)?,
            ready: byte_within(0, 1, line, 3)? == 1,
        }),
        "halt" => Ok(Event::Halt),
        _ => Err(no_command(1)),
    }
}

// The events that are for no line.
fn asked_of(line: &str, server: Addr) -> Result<Event, ScriptFault> {
    match word(line, 1) {
        "request" => Ok(Event::Request {
            id: short(line, 2)?,
            service: name(line, 3)?,
            to: server_at(line, server)?,
        }),
        "cancel" => Ok(Event::Cancel {
            id: short(line, 2)?,
        }),
        "announce" => Ok(Event::Announce),
        _ => Err(no_command(1)),
    }
}

// The server at the address of a request, or this one where there is none.
fn server_at(line: &str, server: Addr) -> Result<Addr, ScriptFault> {
    if word(line, 4) == "" {
        return Ok(server);
    }
    address(line, 4)
}
