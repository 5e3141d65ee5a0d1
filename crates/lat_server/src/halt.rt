//! What a server does when it is told to halt, that a line is ready, or to avoid a node.

ghost use Rattle.std.specs.Prelude.{◌≡◌, ◌≤◌, ◌+◌, List, length};
ghost use Rattle.lat_base.specs.declared.outbox.OutFrame.{OutFrame};
ghost use Rattle.lat_machines.specs.server.Server.{avoids_on, readies_on, halts};
ghost use Rattle.lat_lines.specs.Answers.{IsPlain};
ghost use Rattle.lat_server.specs.Events.{Simulates};
ghost use Rattle.lat_server.specs.Kept.{AtRest, SameConfig, Spends};

use crate::server::ServerCore;
use lat_base::{Answer, OutBox};
use lat_frames::CircuitEnd;

impl ServerCore {
    /// Ends each living circuit by rising id, and from now on calls nobody and grants nothing. At most eight frames go out. See
    /// "Halting" in docs/PROTOCOL.md.
    pub(crate) fn halt(&mut self, out: &mut OutBox) -> Answer
        requires rest { AtRest self.old }
        requires room { length out.old + 8 ≤ 256 }
        ensures does { Simulates halts self.old self.new result out.old out.new }
        ensures same { SameConfig self.old self.new }
        ensures spare { Spends 0 self.old self.new }
        ensures most { length out.new ≤ length out.old + 8 }
        ensures answer { result ≡ Answer.Done }
    {
        self.lines.end_all(CircuitEnd::Halted, out);
        self.gate.halted = true;
        Answer::Done
    }

    /// Forgets what is known of the node that the line's newest session is or was with, until it is heard again. `NoLine` where
    /// there is no such line, `Closed` where it never had a session. See "Avoid" in docs/PROTOCOL.md.
    pub(crate) fn avoid(&mut self, line: u8) -> Answer
        requires rest { AtRest self.old }
        ensures does { (frames : List OutFrame) → Simulates (λ config s.
            avoids_on config s line) self.old self.new result frames frames }
        ensures same { SameConfig self.old self.new }
        ensures spare { Spends 0 self.old self.new }
        ensures plain { IsPlain result }
    {
        if !self.lines.exists(line) {
            return Answer::NoLine;
        }
        match self.lines.newest_peer(line) {
            Some(peer) => {
                self.directory.avoid(peer);
                Answer::Done
            }
            None => Answer::Closed,
        }
    }

    /// From now on a line may grant, or may not. `NoLine` where there is no such line. See "Lines that are ready" in
    /// docs/PROTOCOL.md.
    pub(crate) fn set_ready(&mut self, line: u8, ready: bool) -> Answer
        requires rest { AtRest self.old }
        ensures does { (frames : List OutFrame) → Simulates (λ config s.
            readies_on config s line ready) self.old self.new result frames frames }
        ensures same { SameConfig self.old self.new }
        ensures spare { Spends 0 self.old self.new }
        ensures plain { IsPlain result }
    {
        if !self.lines.exists(line) {
            return Answer::NoLine;
        }
        self.gate.set(line, ready);
        Answer::Done
    }
}
