//! Connecting a line to a service.

ghost use Rattle.std.specs.Prelude.{◌≡◌, ◌≤◌, ◌+◌, false, cond, length};
ghost use Rattle.lat_machines.specs.cores.Lines.{has_session};
ghost use Rattle.lat_machines.specs.server.Server.{Server, tells, connect_event, connects_to, solicits_for};
ghost use Rattle.lat_machines.specs.values.Answers.{Halted};
ghost use Rattle.lat_dir.specs.Words.{best_shown};
ghost use Rattle.lat_lines.specs.Kept.{IsLine};
ghost use Rattle.lat_lines.specs.Answers.{IsPlain};
ghost use Rattle.lat_server.specs.Events.{HasDone, Simulates};
ghost use Rattle.lat_server.specs.Kept.{config_of, AtRest, SameConfig, HasSpare, Spends};
ghost use Rattle.lat_server.specs.Opened.{opened_answer};
ghost use Rattle.lat_server.specs.Stands.{Stands};

use crate::server::ServerCore;
use lat_base::{Answer, Name, OutBox};
use lat_dir::Best;
use lat_lines::OpenFault;
use lat_payload::solicit_frame;

// What a connect is answered where a session was to be had.
fn answer_opened(opened: Result<(u16, u8), OpenFault>) -> Answer
    ensures { result ≡ opened_answer opened }
{
    match opened {
        Ok((circuit, session)) => Answer::Connected { circuit, session },
        Err(OpenFault::SessionsFull) => Answer::SessionsFull,
        Err(OpenFault::CircuitsFull) => Answer::CircuitsFull,
        Err(OpenFault::IdsOut) => Answer::IdsOut,
    }
}

impl ServerCore {
    /// Connects a line to the best node for a service, unless the server is halted. See "Connect" in docs/PROTOCOL.md.
    pub(crate) fn connect(&mut self, line: u8, service: &Name, out: &mut OutBox) -> Answer
        requires rest { AtRest self.old }
        requires memory { HasSpare 1 self.old }
        requires room { length out.old + 16 ≤ 256 }
        ensures does { Simulates (λ config s.
            cond s.halted (tells s Halted) (connect_event config s line service.now))
            self.old self.new result out.old out.new }
        ensures same { SameConfig self.old self.new }
        ensures spare { Spends 1 self.old self.new }
        ensures plain { IsPlain result }
        ensures most { length out.new ≤ length out.old + 1 }
    {
        if self.gate.halted {
            Answer::Halted
        } else {
            self.connect_line(line, service, out)
        }
    }

    fn connect_line(&mut self, line: u8, service: &Name, out: &mut OutBox) -> Answer
        requires rest { AtRest self.old }
        requires memory { HasSpare 1 self.old }
        requires room { length out.old + 16 ≤ 256 }
        ensures does { Simulates (λ config s.
            connect_event config s line service.now) self.old self.new result out.old out.new }
        ensures same { SameConfig self.old self.new }
        ensures spare { Spends 1 self.old self.new }
        ensures plain { IsPlain result }
        ensures most { length out.new ≤ length out.old + 1 }
    {
        if !self.lines.exists(line) {
            return Answer::NoLine;
        }
        if self.lines.has_session(line) {
            return Answer::Busy;
        }
        match self.directory.best(service, self.lines.moment()) {
            Some(best) => self.connect_to(line, service, &best, out),
            None => self.solicit(service, out),
        }
    }

    // A session on the circuit to the chosen node, which is called where none lives.
    fn connect_to(&mut self, line: u8, service: &Name, best: &Best, out: &mut OutBox) -> Answer
        requires rest { AtRest self.old }
        requires line { IsLine self.old.lines.lines line }
        requires memory { HasSpare 1 self.old }
        requires room { length out.old + 16 ≤ 256 }
        ensures does { (s : Server) →
            Stands self.old s →
            has_session s.core line ≡ false →
            HasDone s (connects_to (config_of self.old) s line service.now (best_shown best.now)) self.new result out.old out.new }
        ensures same { SameConfig self.old self.new }
        ensures spare { Spends 1 self.old self.new }
        ensures plain { IsPlain result }
        ensures most { length out.new ≤ length out.old + 1 }
    {
        let opened = self
            .lines
            .open(line, best.from, &best.node, service, None, out);
        answer_opened(opened)
    }

    // Asks everyone for the service, under the next id.
    fn solicit(&mut self, service: &Name, out: &mut OutBox) -> Answer
        requires rest { AtRest self.old }
        requires room { length out.old + 16 ≤ 256 }
        ensures does { Simulates (λ config s.
            solicits_for config s service.now) self.old self.new result out.old out.new }
        ensures same { SameConfig self.old self.new }
        ensures spare { Spends 0 self.old self.new }
        ensures plain { IsPlain result }
        ensures most { length out.new ≤ length out.old + 1 }
    {
        self.solicits = self.solicits.wrapping_add(1);
        out.push(solicit_frame(self.solicits, &self.lines.name(), service));
        Answer::NoService
    }
}
