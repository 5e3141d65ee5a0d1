//! What a daemon's log says, as values. They have names, addresses, numbers and reasons alone: what is typed at a line, and
//! what a host writes, has no place in any of them.

use lat_base::{Addr, Bad, Name};

/// What a daemon is.
#[derive(Clone, Copy)]
pub enum Role {
    Server,
    Switch,
    Node,
    Tariff,
}

/// A service that a node announced.
#[derive(Clone, Copy)]
pub struct Offered {
    pub service: Name,
    pub node: Name,
    pub address: Addr,
    /// How well the node can take a session, 0 where it can't.
    pub rating: u8,
}

/// What is new of a service.
#[derive(Clone, Copy)]
pub enum OfferedNews {
    Appeared,
    /// It has another rating or another address.
    Changed,
    Lost,
}

/// A circuit, by its id at this end, and the station at the other end.
#[derive(Clone, Copy)]
pub struct Circuit {
    pub id: u16,
    pub name: Name,
    pub address: Addr,
}

/// Why a circuit went down.
#[derive(Clone, Copy)]
pub enum Cause {
    /// The peer ended it, and gave this reason.
    Stopped(u8),
    /// The peer broke its rules, and this end ended it for this reason.
    Broken(u8),
    /// It had no session for too long.
    NoUse,
    /// The peer didn't answer for too long.
    NoAnswer,
    /// This end was halted.
    Halted,
    /// The peer began another one in its place.
    Outlived,
}

/// What is new of a circuit.
#[derive(Clone, Copy)]
pub enum CircuitNews {
    Up,
    Down(Cause),
}

/// What is new of the caller of a line.
#[derive(Clone, Copy)]
pub enum CallerNews {
    Came,
    Left,
}

/// A session of a line, by its number among all line sessions, and whom it is with.
#[derive(Clone, Copy)]
pub struct Session {
    pub number: u64,
    pub service: Name,
    pub peer: Addr,
}

/// How a session ended that wasn't rejected.
#[derive(Clone, Copy)]
pub enum Over {
    /// After both ends had closed it.
    Closed,
    /// With its circuit, which ended for this reason.
    Circuit(u8),
    /// Another one had its place before it was seen how.
    Unseen,
}

/// How much a session carried: bytes that were put into it, and items that were taken from it.
#[derive(Clone, Copy)]
pub struct Flow {
    pub put: u64,
    pub took: u64,
}

/// What is new of a session.
#[derive(Clone, Copy)]
pub enum SessionNews {
    Live,
    /// The peer rejected it, for this reason.
    Rejected(u8),
    Ended { over: Over, flow: Flow },
    /// Its line, one of a switch, shows another one.
    Hidden,
}

/// A request for a service, by its number at the station that asks.
#[derive(Clone, Copy)]
pub struct Request {
    pub id: u16,
    pub service: Name,
    pub address: Addr,
}

/// What is new of a request.
#[derive(Clone, Copy)]
pub enum RequestNews {
    /// It waits, at this place of its service's queue, counted from 1.
    Waits(u16),
    /// This line has a session for it.
    Granted(u8),
    /// The session that this line had for it is over.
    Done(u8),
    /// It waits no more, and was never granted.
    Cancelled,
}

/// One line of a daemon's log.
#[derive(Clone, Copy)]
pub enum Entry {
    /// The daemon starts; frames come to this port.
    Started {
        role: Role,
        address: Addr,
        port: u16,
    },
    /// It listens at this port for the callers of a line.
    LineListens {
        line: u8,
        port: u16,
    },
    /// It listens at this port for jobs, which are for a service that the server at this address offers.
    QueueListens {
        service: Name,
        server: Addr,
        port: u16,
    },
    /// The daemon stops: how many events its core was told, how many sessions that were live have ended, and how many frames
    /// were handed to its carrier.
    Stopped {
        events: u64,
        sessions: u64,
        frames: u64,
    },
    Service {
        offered: Offered,
        news: OfferedNews,
    },
    Circuit {
        circuit: Circuit,
        news: CircuitNews,
    },
    Caller {
        line: u8,
        news: CallerNews,
    },
    Session {
        line: u8,
        session: Session,
        news: SessionNews,
    },
    Request {
        request: Request,
        news: RequestNews,
    },
    /// A payload from this station has no layout.
    Bad {
        bad: Bad,
        from: Addr,
    },
    /// So many more bad payloads came, which have no line of their own.
    MoreBad(u64),
    /// So many ids of circuits are left.
    IdsLeft(u16),
    /// So many requests can be recorded yet.
    RecordsLeft(u32),
    /// So many entries found no memory or no room.
    Missed(u64),
}
