//! The events.

ghost use Rattle.std.specs.Prelude.{◌≡◌, true, is_ok};
ghost use Rattle.lat_base.specs.Names.{name_read};

use crate::names::NODE;
use lat_base::{Bytes, Event, Memory};
use lat_script::known_name;
use std::alloc::Global;

/// Node VAX1 offers VAX, rated 200.
const ANNOUNCEMENT: [u8; 19] = *b"\x28\x1e\x05\x01\x00\x00\x04VAX1\x00\x01\xc8\x03VAX\x00";

fn connect(line: u8, service: &[u8]) -> Event
    requires { is_ok (name_read service.now) ≡ true }
{
    Event::Connect {
        line,
        service: known_name(service),
    }
}

fn put(alloc: Global, line: u8, bytes: &[u8]) -> Result<Event, Memory> {
    Ok(Event::Put {
        line,
        bytes: Bytes::copy(alloc, bytes)?,
    })
}

/// The event of this number. They are the same ten again and again; the moment is 80 ms later each time.
pub fn event_of(alloc: Global, number: u64) -> Result<Event, Memory> {
    let now = (number / 10).saturating_mul(80);
    match number % 10 {
        0 => Ok(Event::Heard {
            from: NODE,
            payload: Bytes::copy(alloc, &ANNOUNCEMENT)?,
            now,
        }),
        1 => Ok(connect(1, b"VAX")),
        2 => put(alloc, 1, b"hello"),
        3 => Ok(Event::Set {
            line: 1,
            setting: [1, 2, 3, 4, 5],
        }),
        4 => Ok(Event::Attend { line: 1, flag: 1 }),
        5 => Ok(Event::Time { now }),
        6 => Ok(Event::Take { line: 1, n: 16 }),
        7 => Ok(connect(2, b"NONE")),
        8 => put(alloc, 2, b"x"),
        _ => Ok(Event::Announce),
    }
}
