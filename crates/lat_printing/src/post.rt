//! What the jobs of a port are for, and how one of them looks.

ghost use Rattle.std.specs.Prelude.{◌≡◌};
ghost use Rattle.lat_history.specs.History.{state_of};
ghost use Rattle.lat_printing.specs.Posts.{blank_line, is_of, job_look, line_in, line_of, shown_line};

use lat_base::{Addr, Core, Correspondent, LineLook, Name, SessionState};
use lat_history::Cell;
use lat_jobs::{Look, StatusLook};
use lat_outside::Tx;
use std::sync::ledger::Ledger;

/// What the jobs of a port are for.
#[derive(Clone, Copy)]
pub struct JobPost {
    /// The server whose service they are for.
    pub server: Addr,
    /// The service.
    pub service: Name,
    /// How many lines the node has, numbered from 1.
    pub lines: u8,
}

/// What is known of a job's request beside what the core tells.
#[derive(Clone, Copy)]
pub struct News {
    /// The last status that was heard under its number.
    pub status: Option<StatusLook>,
    /// Whether an attention with the flag 01 was heard in its session.
    pub broken: bool,
}

// How a line looks that never had a session.
fn blank_line() -> LineLook
    ensures { result ≡ blank_line }
{
    LineLook {
        newest: 0,
        state: SessionState::Free,
        waiting: 0,
        room: 0,
        end: None,
    }
}

impl JobPost {
    // Whether such a session came from the server under this number.
    fn is_of(&self, number: u16, who: Option<Correspondent>) -> bool
        ensures { result ≡ is_of self.now number who }
    {
        match who {
            Some(who) => who.peer == self.server && who.request == Some(number),
            None => false,
        }
    }

    /// The first line whose newest session came from the server under this number.
    pub fn line<C: Core, T: Tx, E: Ledger, B: Ledger>(
        &self,
        cell: &Cell<C, T, E, B>,
        number: u16,
    ) -> Option<u8>
        ensures { result ≡ line_of (C.correspondent_of (state_of C.opening C.next cell.now)) self.now number }
    {
        for before in 0..self.lines {
            let line = before + 1;
            if self.is_of(number, cell.correspondent(line)) {
                return Some(line);
            }
        }
        None
    }

    /// How a job with this number looks whose session has this line.
    pub fn look<C: Core, T: Tx, E: Ledger, B: Ledger>(
        &self,
        cell: &Cell<C, T, E, B>,
        number: u16,
        line: Option<u8>,
        news: News,
    ) -> Look
        ensures { let s = state_of C.opening C.next cell.now in
            result ≡ job_look (C.look_of s) line number news cell.now.stopping (C.moment_of s) }
    {
        Look {
            request: match line {
                Some(_) => Some(number),
                None => None,
            },
            line: match line {
                Some(line) => cell.line_look(line),
                None => blank_line(),
            },
            broken: news.broken,
            status: news.status,
            stopping: cell.stopping(),
            moment: cell.moment(),
        }
    }
}
