//! What a daemon is to do.

use lat_base::{Addr, Name};
use lat_cell::Course;
use lat_turns::{Device, Stay};
use lat_words::{Level, Role};

/// How a line comes to callers and to sessions.
#[derive(Clone, Copy)]
pub enum Post {
    /// Each caller is connected to this service.
    Calling(Name),
    /// The same, and a caller may switch between several sessions.
    Switching(Name),
    /// Sessions come by themselves. One for a service with a device is the device's, which is dialled; each other one is for the
    /// caller who waits, or who comes next.
    Answering,
    /// Sessions are granted for the device's service, and the device is dialled.
    Offering(Device),
}

/// A line.
#[derive(Clone, Copy)]
pub struct LinePlan {
    pub post: Post,
    /// The port that it listens at; without one its callers are dialled.
    pub port: Option<u16>,
}

/// What a daemon is to do.
#[derive(Drop)]
pub struct Plan<'a> {
    pub role: Role,
    /// Its name.
    pub name: Name,
    /// Its address.
    pub own: Addr,
    /// The port that frames come to.
    pub port: u16,
    /// The ports that frames go to.
    pub peers: &'a [u16],
    /// Its lines by rising number, 1 to 64.
    pub lines: &'a [LinePlan],
    /// The devices that its answering lines dial, with their services.
    pub devices: &'a [Device],
    /// How long its lines take callers.
    pub stay: Stay,
    /// When announcements go out, and when it ends.
    pub course: Course,
    /// How many entries of its history the cell keeps, 1,000,000 at most.
    pub kept: usize,
    /// How much its log tells.
    pub level: Level,
    /// The id of its first circuit, 1 to 65,535, and a node's incarnation.
    pub first: u16,
}
