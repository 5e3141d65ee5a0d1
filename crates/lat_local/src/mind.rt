//! The mind of local mode: what each thing that comes does.

ghost use Rattle.std.specs.Prelude.{◌≡◌};
ghost use Rattle.lat_local.specs.Minds.{asks, at_connecting, at_prompt, fresh_phase, greeting, in_session, is_avoidable, met_by, obeyed, silent, still, tells, turn_of, unmet_at, with_peer, without_peer};
ghost use Rattle.lat_local.specs.Meanings.{meaning_of};

use crate::command::Command;
use crate::event::Event;
use crate::meaning::Meaning;
use crate::phase::{Peer, Phase};
use crate::reply::{Act, Reply, Saying};
use lat_base::{Name, SessionEnd};

/// A reject with this reason says that the service isn't offered any more.
const NOT_OFFERED: u8 = 4;

/// A reject with this reason says that there is no room.
const NO_ROOM: u8 = 7;

/// What is known of a caller in local mode.
#[derive(Clone, Copy)]
pub struct LocalMind {
    phase: Phase,
}

// Nothing comes of it.
fn still(phase: Phase) -> (Phase, Reply)
    ensures { result ≡ still phase }
{
    (
        phase,
        Reply {
            act: Act::Nothing,
            saying: None,
            prompts: false,
        },
    )
}

// The caller is told something, and isn't at the prompt.
fn tells(phase: Phase, act: Act, saying: Saying) -> (Phase, Reply)
    ensures { result ≡ tells phase act saying }
{
    (
        phase,
        Reply {
            act,
            saying: Some(saying),
            prompts: false,
        },
    )
}

// The caller is told something, and is at the prompt.
fn asks(held: Option<Peer>, act: Act, saying: Option<Saying>) -> (Phase, Reply)
    ensures { result ≡ asks held act saying }
{
    (
        Phase::Prompt(held),
        Reply {
            act,
            saying,
            prompts: true,
        },
    )
}

// A command about sessions, where none stays.
fn without_peer(command: Command) -> (Phase, Reply)
    ensures { result ≡ without_peer command }
{
    match command {
        Command::Connect(service) => tells(
            Phase::Connecting(service),
            Act::Connect(service),
            Saying::Connecting,
        ),
        _ => asks(None, Act::Nothing, Some(Saying::NoSession)),
    }
}

// A command about sessions, where this one stays.
fn with_peer(peer: &Peer, command: Command) -> (Phase, Reply)
    ensures { result ≡ with_peer peer.now command }
{
    match command {
        Command::Resume => tells(Phase::Session(*peer), Act::Nothing, Saying::Resumed(*peer)),
        Command::Disconnect => asks(None, Act::Close, Some(Saying::Disconnected)),
        _ => asks(Some(*peer), Act::Nothing, Some(Saying::Busy(*peer))),
    }
}

fn obeyed(held: Option<Peer>, command: Command) -> (Phase, Reply)
    ensures { result ≡ obeyed held command }
{
    match command {
        Command::Blank => asks(held, Act::Nothing, None),
        Command::ShowServices => asks(held, Act::Nothing, Some(Saying::Services)),
        Command::ShowSessions => asks(held, Act::Nothing, Some(Saying::Sessions)),
        Command::Help => asks(held, Act::Nothing, Some(Saying::Help)),
        Command::Logout => tells(Phase::Out, Act::HangUp, Saying::LoggedOut),
        Command::Connect(_) | Command::Resume | Command::Disconnect => match held {
            None => without_peer(command),
            Some(peer) => with_peer(&peer, command),
        },
    }
}

fn at_prompt(held: Option<Peer>, event: Event) -> (Phase, Reply)
    ensures { result ≡ at_prompt held event }
{
    match event {
        Event::Typed(Ok(command)) => obeyed(held, command),
        Event::Typed(Err(fault)) => asks(held, Act::Nothing, Some(Saying::Wrong(fault))),
        Event::Over(end) => match held {
            None => still(Phase::Prompt(None)),
            Some(_) => asks(None, Act::Nothing, Some(Saying::Ended(end))),
        },
        Event::Gone => silent(),
        _ => still(Phase::Prompt(held)),
    }
}

// The caller is hung up without a word.
fn silent() -> (Phase, Reply)
    ensures { result ≡ silent }
{
    (
        Phase::Out,
        Reply {
            act: Act::HangUp,
            saying: None,
            prompts: false,
        },
    )
}

// Whether another node may give what this one didn't.
fn is_avoidable(end: SessionEnd) -> bool
    ensures { result ≡ is_avoidable end }
{
    match end {
        SessionEnd::Closed => false,
        SessionEnd::Rejected(reason) => reason == NO_ROOM || reason == NOT_OFFERED,
        SessionEnd::Circuit(_) => true,
    }
}

fn peer_of(service: &Name, node: &Name) -> Peer
    ensures { result ≡ record { service = service.now; node = node.now } }
{
    Peer {
        service: *service,
        node: *node,
    }
}

// The session is live.
fn met_by(peer: &Peer) -> (Phase, Reply)
    ensures { result ≡ met_by peer.now }
{
    tells(
        Phase::Session(*peer),
        Act::Nothing,
        Saying::Connected(*peer),
    )
}

// The session that was asked for came to nothing at this node.
fn unmet_at(service: &Name, node: &Name, end: SessionEnd) -> (Phase, Reply)
    ensures { result ≡ unmet_at service.now node.now end }
{
    if is_avoidable(end) {
        tells(
            Phase::Connecting(*service),
            Act::Next(*service),
            Saying::Next(*node, end),
        )
    } else {
        asks(None, Act::Nothing, Some(Saying::Unmet(*node, end)))
    }
}

fn at_connecting(service: &Name, event: &Event) -> (Phase, Reply)
    ensures { result ≡ at_connecting service.now event.now }
{
    match event {
        Event::Unoffered => asks(None, Act::Nothing, Some(Saying::Unoffered(*service))),
        Event::Unmet(node, end) => unmet_at(service, node, *end),
        Event::Met(node) => met_by(&peer_of(service, node)),
        Event::Gone => silent(),
        _ => still(Phase::Connecting(*service)),
    }
}

fn in_session(peer: Peer, event: Event) -> (Phase, Reply)
    ensures { result ≡ in_session peer event }
{
    match event {
        Event::Escape => asks(Some(peer), Act::Nothing, Some(Saying::Left)),
        Event::Over(end) => asks(None, Act::Nothing, Some(Saying::Ended(end))),
        Event::Gone => silent(),
        _ => still(Phase::Session(peer)),
    }
}

fn turn_of(phase: &Phase, event: &Event) -> (Phase, Reply)
    ensures { result ≡ turn_of phase.now event.now }
{
    match phase {
        Phase::Prompt(held) => at_prompt(*held, *event),
        Phase::Connecting(service) => at_connecting(service, event),
        Phase::Session(peer) => in_session(*peer, *event),
        Phase::Out => still(Phase::Out),
    }
}

impl LocalMind {
    /// The mind of a caller who has just come to this line of the server of this name, and what it is told.
    pub fn make(server: Name, line: u8) -> (LocalMind, Reply)
        ensures phase { result.0.phase ≡ fresh_phase }
        ensures reply { result.1 ≡ greeting server line }
    {
        let (phase, reply) = asks(None, Act::Nothing, Some(Saying::Greeting(server, line)));
        (LocalMind { phase }, reply)
    }

    /// Where the caller is.
    pub fn phase(&self) -> Phase
        ensures { result ≡ self.now.phase }
    {
        self.phase
    }

    /// What the first bytes of a piece mean that the caller typed.
    pub fn meaning(&self, bytes: &[u8]) -> Meaning
        ensures { result ≡ meaning_of self.now.phase bytes.now }
    {
        Meaning::of(self.phase, bytes)
    }

    /// What comes of an event.
    pub fn hear(&mut self, event: Event) -> Reply
        ensures phase { self.new.phase ≡ (turn_of self.old.phase event).0 }
        ensures reply { result ≡ (turn_of self.old.phase event).1 }
    {
        let (phase, reply) = turn_of(&self.phase, &event);
        self.phase = phase;
        reply
    }
}
