//! One line of a switch, and which of its inner lines it shows.

ghost use Rattle.std.specs.Prelude.{◌≡◌, ◌≤◌, ◌+◌, find, unwrap_or, IfSome};
ghost use Rattle.lat_server.specs.Kept.{AtRest};
ghost use Rattle.lat_server.specs.Stands.{Machine, IsMachine};
ghost use Rattle.lat_switch.specs.Kept.{IsInner};
ghost use Rattle.lat_switch.specs.Lines.{is_session, has_session, first_free, turned, round, shows, shows_next, gives_way, opened_line};

use lat_base::{Core, Name, SessionState};
use lat_server::ServerCore;
use std::marker::Model;

/// How many inner lines a line has.
pub(crate) const INNER: u8 = 4;

/// A line of a switch.
pub(crate) struct Line {
    /// The least of its four inner lines.
    first: u8,
    /// The inner line that it shows.
    shown: u8,
    /// The service that it was connected to last.
    service: Option<Name>,
}

impl Drop for Line {
    fn drop(self) {
        let Self {
            first,
            shown,
            service,
        } = self;
    }
}

impl Model for Line {
    ghost use Rattle.lat_switch.specs.Kept.{IsLine};
    ghost use Rattle.lat_switch.specs.Lines as lines;

    ghost Value = { lines.Line };

    ghost view = { λ a. record { first = a.first; shown = a.shown; service = a.service } };

    ghost invariant = { λ a. IsLine (record {
      first = a.first;
      shown = a.shown;
      service = a.service;
    }) };
}

fn is_session(state: SessionState) -> bool
    ensures { result ≡ is_session state }
{
    match state {
        SessionState::Free => false,
        SessionState::Calling
        | SessionState::Asked
        | SessionState::Live
        | SessionState::Closing
        | SessionState::Left => true,
    }
}

/// Whether an inner line has a session.
pub(crate) fn has_session(inner: &ServerCore, line: u8) -> bool
    requires { AtRest inner.now }
    ensures { (m : Machine) → IsMachine inner.now m → result ≡ has_session m line }
{
    is_session(inner.look(line).state)
}

impl Line {
    /// Line `number` as it is opened, from 1 to 8.
    pub(crate) fn open(number: u8) -> Line
        requires { (1 ≤ number) × (number ≤ 8) }
        ensures { result ≡ opened_line number }
    {
        let first = INNER * number - 3;
        Line {
            first,
            shown: first,
            service: None,
        }
    }

    /// The least of its inner lines.
    pub(crate) fn first(&self) -> u8
        ensures value { result ≡ self.now.first }
        ensures most { result ≤ 29 }
    {
        self.first
    }

    /// The inner line that it shows.
    pub(crate) fn shown(&self) -> u8
        ensures { result ≡ self.now.shown }
    {
        self.shown
    }

    /// The service that it was connected to last.
    pub(crate) fn service(&self) -> Option<Name>
        ensures { result ≡ self.now.service }
    {
        self.service
    }

    // Its inner line behind so many others of its own.
    fn inner_line(&self, place: u8) -> u8
        requires { place ≤ 3 }
        ensures value { result ≡ self.now.first + place }
        ensures inner { IsInner self.now result }
    {
        self.first + place
    }

    // The inner line so many places behind the shown one, once round.
    fn turned(&self, by: u8) -> u8
        requires { by ≤ 4 }
        ensures value { result ≡ turned self.now by }
        ensures inner { IsInner self.now result }
    {
        self.first + (self.shown - self.first + by) % INNER
    }

    /// The least inner line without a session.
    pub(crate) fn first_free(&self, inner: &ServerCore) -> Option<u8>
        requires { AtRest inner.now }
        ensures value { (m : Machine) → IsMachine inner.now m → result ≡ first_free m self.now }
        ensures inner { IfSome result (IsInner self.now) }
    {
        for place in 0..INNER {
            let line = self.inner_line(place);
            if !has_session(inner, line) {
                return Some(line);
            }
        }
        None
    }

    // The next inner line that has a session, or the one that is shown where there is none.
    fn next_session(&self, inner: &ServerCore) -> u8
        requires { AtRest inner.now }
        ensures value { (m : Machine) → IsMachine inner.now m →
            result ≡ unwrap_or (find (has_session m) (round self.now)) self.now.shown }
        ensures inner { IsInner self.now result }
    {
        for by in 1..INNER + 1 {
            let line = self.turned(by);
            if has_session(inner, line) {
                return line;
            }
        }
        self.shown
    }

    /// Shows the next inner line that has a session, where there is one.
    pub(crate) fn show_next(&mut self, inner: &ServerCore)
        requires { AtRest inner.now }
        ensures { (m : Machine) → IsMachine inner.now m → self.new ≡ shows_next m self.old }
    {
        self.shown = self.next_session(inner);
    }

    /// Shows the next inner line that has a session, where the shown one has none.
    pub(crate) fn give_way(&mut self, inner: &ServerCore)
        requires { AtRest inner.now }
        ensures { (m : Machine) → IsMachine inner.now m → self.new ≡ gives_way m self.old }
    {
        if !has_session(inner, self.shown) {
            self.show_next(inner);
        }
    }

    /// Shows this inner line of its own, which was connected to the service.
    pub(crate) fn show(&mut self, line: u8, service: Name)
        requires { IsInner self.old line }
        ensures { self.new ≡ shows line service self.old }
    {
        self.shown = line;
        self.service = Some(service);
    }
}
