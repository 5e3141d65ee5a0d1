//! What the words of the daemon set.

ghost use Rattle.std.specs.Prelude.{◌≡◌, codes};

use crate::config::{Role, Station};
use arrayvec::ArrayVec;
use lat_base::Name;

/// How many services a node offers at most.
pub const SERVICES: usize = 32;

/// How many lines of a server offer a service at most.
pub const OFFERS: usize = 32;

/// How a node rates a service.
#[derive(Clone, Copy, Debug, Default, PartialEq, Eq)]
pub enum Rate {
    /// By the lines that are free, 255 at most.
    #[default]
    Free,
    /// So much for each line that is free, 255 at most in all.
    Each(u8),
    /// So much while a line is free, else 0.
    WhileFree(u8),
}

/// A service: what a node offers, or what the lines of a server or a switch are connected to.
#[derive(Clone, Copy)]
pub struct Service {
    pub name: Name,
    /// The port that is dialled for it. Without one the next connection to the line's port is taken.
    pub port: Option<u16>,
}

// The name of what isn't a service yet.
fn blank() -> Name
    ensures { result ≡ codes "-" }
{
    match Name::read(b"-") {
        Ok(name) => name,
        Err(_) => unreachable!(),
    }
}

impl Default for Service {
    fn default() -> Service {
        Service {
            name: blank(),
            port: None,
        }
    }
}

/// How the service at a place is rated.
#[derive(Clone, Copy, Default)]
pub struct Rated {
    /// The place of the service, counted from 0.
    pub place: usize,
    pub rate: Rate,
}

/// A line of a server that offers a service, whose device is dialled.
#[derive(Clone, Copy)]
pub struct Offer {
    /// From 1 on.
    pub line: u8,
    pub name: Name,
    /// The port of the device.
    pub port: u16,
}

impl Default for Offer {
    fn default() -> Offer {
        Offer {
            line: 0,
            name: blank(),
            port: 0,
        }
    }
}

/// The timing of circuits, and of announcements.
#[derive(Clone, Copy)]
pub struct Pace {
    /// In 10 ms, 1 to 100.
    pub timer: u8,
    /// In seconds, 10 to 255.
    pub keep_alive: u8,
    /// 1 to 15.
    pub credits: u8,
    /// In seconds, 10 to 180.
    pub announce: u8,
}

/// When the daemon ends by itself.
#[derive(Clone, Copy)]
pub struct Stay {
    /// After so many sessions that were live, 1 to 1,000,000.
    pub sessions: Option<u32>,
    /// Of a server or a switch: when each line has had one caller.
    pub once: bool,
    /// After so many seconds circuits that aren't drained are ended, 0 to 60.
    pub linger: u8,
}

/// How much the log tells.
#[derive(Clone, Copy, Debug, PartialEq, Eq)]
pub enum Level {
    Off,
    Error,
    Info,
    Debug,
}

/// The lines, and what they are for.
#[derive(Drop)]
pub struct Seats {
    /// A server has 1 to 32, a switch 1 to 8, a node or a tariff node 1 to 64.
    pub lines: u8,
    /// The port that line 1 listens on, each further line on the next one. It is there where a line listens.
    pub line_port: Option<u16>,
    /// Of a server or a switch at most one, to which its lines are connected, and one where a line calls; of a node 1 to 32; of
    /// a tariff node `LOGIN` and `PRINT`. No two have the same name.
    pub services: ArrayVec<Service, SERVICES>,
    /// The rates that aren't the usual one, of no service two. A tariff node has both, said or not: `LOGIN` 20 for each line that
    /// is free, `PRINT` 9 while one is free.
    pub rates: ArrayVec<Rated, SERVICES>,
    /// Which lines of a server offer a service, no line two.
    pub offers: ArrayVec<Offer, OFFERS>,
    /// The mask of the groups that are listened to or announced: bit g mod 8 of byte g / 8 is that of group g. Where there is
    /// none, a server listens to all, and a node's services are for every server.
    pub groups: Option<[u8; 32]>,
}

/// All that the words set.
#[derive(Drop)]
pub struct Settings {
    pub role: Role,
    pub station: Station,
    pub seats: Seats,
    pub pace: Pace,
    pub stay: Stay,
    pub log: Level,
    /// How many entries of the history are kept, 0 to 1,000,000.
    pub history: u32,
}

/// What the words ask for.
#[derive(Drop)]
pub enum Words {
    /// That it says how it is called.
    Help,
    /// That it says which version it is.
    Version,
    /// That it runs.
    Run(Settings),
}
