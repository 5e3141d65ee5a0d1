//! Notices.

ghost use Rattle.std.specs.Prelude.{◌≡◌};
ghost use Rattle.lat_notices.specs.Outcomes.{action_number, action_of, outcome_number, outcome_of, outcome_place};

use crate::services::Services;
use lat_base::{Bytes, Kept, Name};

/// A node tells everyone its services.
pub struct Announcement {
    /// After how many seconds the next one is due, 1 to 255.
    pub timer: u8,
    /// Which run of the node it is.
    pub incarnation: u16,
    /// The mask of the groups that may use the services: at most 32 bytes, bit g of which is bit g mod 8 of byte
    /// g / 8. An empty mask is for every server.
    pub groups: Bytes,
    pub node: Name,
    pub description: Bytes,
    pub services: Services,
}

impl Drop for Announcement {
    fn drop(self) {
        let Self {
            timer,
            incarnation,
            groups,
            node,
            description,
            services,
        } = self;
    }
}

/// What a node wants of its request.
#[derive(Clone, Copy)]
pub enum Action {
    /// For a session.
    Ask,
    /// Nothing any more: the request is withdrawn.
    Cancel,
}

impl Action {
    /// The action that a number stands for, if it stands for one.
    pub fn from_number(number: u8) -> Option<Action>
        ensures { result ≡ action_of number }
    {
        match number {
            1 => Some(Action::Ask),
            2 => Some(Action::Cancel),
            _ => None,
        }
    }

    /// The number that it is written as and printed by: 1 asks, 2 cancels.
    pub fn number(self) -> u8
        ensures { result ≡ action_number self }
    {
        match self {
            Action::Ask => 1,
            Action::Cancel => 2,
        }
    }
}

/// A node asks a server for a session with a service of the server's, or withdraws the request.
#[derive(Clone, Copy)]
pub struct Command {
    /// Which run of the node it is.
    pub incarnation: u16,
    /// The node's number for the request.
    pub request: u16,
    pub action: Action,
    pub node: Name,
    pub service: Name,
}

/// What a server answers to a command.
#[derive(Clone, Copy)]
pub enum Outcome {
    /// What it keeps of the request.
    Kept(Kept),
    /// It has no record of it.
    Unknown,
}

impl Outcome {
    /// The outcome that a number stands for, if it stands for one. A request that waits has the place 0 in it until its
    /// place is read.
    pub(crate) fn from_number(number: u8) -> Option<Outcome>
        ensures { result ≡ outcome_of number }
    {
        match number {
            1 => Some(Outcome::Kept(Kept::Waiting(0))),
            2 => Some(Outcome::Kept(Kept::Granted)),
            3 => Some(Outcome::Kept(Kept::Cancelled)),
            4 => Some(Outcome::Kept(Kept::QueueFull)),
            5 => Some(Outcome::Kept(Kept::NoService)),
            6 => Some(Outcome::Kept(Kept::RecordsFull)),
            7 => Some(Outcome::Kept(Kept::Done)),
            8 => Some(Outcome::Unknown),
            _ => None,
        }
    }

    /// The number that it is written as and printed by, 1 to 8.
    pub fn number(self) -> u8
        ensures { result ≡ outcome_number self }
    {
        match self {
            Outcome::Kept(Kept::Waiting(_)) => 1,
            Outcome::Kept(Kept::Granted) => 2,
            Outcome::Kept(Kept::Cancelled) => 3,
            Outcome::Kept(Kept::QueueFull) => 4,
            Outcome::Kept(Kept::NoService) => 5,
            Outcome::Kept(Kept::RecordsFull) => 6,
            Outcome::Kept(Kept::Done) => 7,
            Outcome::Unknown => 8,
        }
    }

    /// The place in the queue that is written with it: 0 unless the request waits.
    pub fn place(self) -> u16
        ensures { result ≡ outcome_place self }
    {
        match self {
            Outcome::Kept(Kept::Waiting(place)) => place,
            _ => 0,
        }
    }
}

/// A server tells a node what became of its request.
#[derive(Clone, Copy)]
pub struct Status {
    /// Which run of the node it was.
    pub incarnation: u16,
    /// The node's number for the request.
    pub request: u16,
    pub outcome: Outcome,
    pub node: Name,
}

/// A server asks who offers a service.
#[derive(Clone, Copy)]
pub struct Solicit {
    /// The server's number for the question.
    pub id: u16,
    pub asker: Name,
    pub service: Name,
}

/// A node answers who asked for a service.
#[derive(Clone, Copy)]
pub struct Response {
    /// The number of the question.
    pub id: u16,
    pub node: Name,
    pub service: Name,
    /// How well the node can take a session, 0 for not at all.
    pub rating: u8,
    /// For how many seconds it stands, 1 to 255.
    pub timer: u8,
}

/// A notice.
#[derive(Drop)]
pub enum Notice {
    Announcement(Announcement),
    Command(Command),
    Status(Status),
    Solicit(Solicit),
    Response(Response),
}
