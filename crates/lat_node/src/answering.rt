//! How a node answers the sessions that are asked for.

ghost use Rattle.std.specs.Prelude.{◌≡◌, true, false, IfOk};
ghost use Rattle.lat_model.specs.ends.End.{lives};
ghost use Rattle.lat_model.specs.Lists.{upwards};
ghost use Rattle.lat_machines.specs.cores.Lines.{has_session};
ghost use Rattle.lat_machines.specs.node.Node as machine;
ghost use Rattle.lat_lines.specs.circuits.Kept.{has_id};
ghost use Rattle.lat_lines.specs.Kept.{IsLine};
ghost use Rattle.lat_node.specs.Answering.{verdict_shown, judged_by, Asks, IsOfRequest};
ghost use Rattle.lat_node.specs.Kept.{config_of, SameConfig};
ghost use Rattle.lat_node.specs.Stands.{Stands};

use crate::hook::RatingRule;
use crate::node::NodeCore;
use lat_lines::Asked;
use lat_slots::RejectReason;

/// How many sessions a circuit has at most.
const SESSIONS: u8 = 64;

impl<H: RatingRule> NodeCore<H> {
    /// Answers the asked sessions of a held circuit, by rising id; where the frame has ended it, they are turned away. See "How
    /// a node answers" in docs/PROTOCOL.md.
    pub(crate) fn answer_asked(&mut self, circuit: u16)
        ensures state { (s : machine.Node) →
            Stands self.old s →
            has_id circuit self.old.lines.circuits ≡ true →
            Stands self.new (machine.answers_asked (config_of self.old) circuit s) }
        ensures same { SameConfig self.old self.new }
    {
        let asked = self.lines.asked_count(circuit);
        if asked == 0 {
            return;
        }
        if self.lines.lives(circuit) {
            self.answer_all(circuit);
        } else {
            self.turned_away = self.turned_away.saturating_add(asked as u32);
        }
    }

    fn answer_all(&mut self, circuit: u16)
        ensures state { (s : machine.Node) →
            Stands self.old s →
            lives (s.core.circuits.circuit_at circuit).end ≡ true →
            Stands self.new (machine.answers_in (config_of self.old) circuit (upwards 0 64) s) }
        ensures same { SameConfig self.old self.new }
    {
        for id in 1..SESSIONS + 1 {
            self.answer_at(circuit, id);
        }
    }

    // Answers the session of an id, where it asks.
    fn answer_at(&mut self, circuit: u16, id: u8)
        ensures state { (s : machine.Node) →
            Stands self.old s →
            lives (s.core.circuits.circuit_at circuit).end ≡ true →
            Stands self.new (machine.answers_one (config_of self.old) circuit s id) }
        ensures same { SameConfig self.old self.new }
    {
        if let Some(asked) = self.lines.asked_at(circuit, id) {
            self.answer_one(circuit, &asked);
        }
    }

    fn answer_one(&mut self, circuit: u16, asked: &Asked)
        ensures state { (s : machine.Node) →
            Stands self.old s →
            Asks s circuit asked.now →
            Stands self.new (judged_by (config_of self.old) s circuit asked.now) }
        ensures same { SameConfig self.old self.new }
    {
        match self.verdict(asked) {
            Ok(line) => self.accept(line, circuit, asked),
            Err(reason) => {
                self.lines.reject(circuit, asked.id, reason.bits());
                self.turned_away = self.turned_away.saturating_add(1);
            }
        }
    }

    fn accept(&mut self, line: u8, circuit: u16, asked: &Asked)
        requires line { IsLine self.old.lines.lines line }
        ensures state { (s : machine.Node) →
            Stands self.old s →
            Asks s circuit asked.now →
            has_session s.core line ≡ false →
            IsOfRequest s asked.now.request →
            Stands self.new (machine.judged (config_of self.old) s circuit asked.now.id asked.now.request (machine.Accepts line)) }
        ensures same { SameConfig self.old self.new }
    {
        self.lines.accept(line, circuit, asked.id);
        if let Some(request) = asked.request {
            self.note_accepted(request);
        }
    }

    // The line that the session is accepted for, or the reason why it is rejected.
    fn verdict(&self, asked: &Asked) -> Result<u8, RejectReason>
        ensures verdict { (s : machine.Node) →
            Stands self.now s →
            verdict_shown result
            ≡ machine.verdict (config_of self.now) s asked.now.service asked.now.request }
        ensures line { IfOk result (IsLine self.now.lines.lines) }
    {
        match asked.request {
            Some(id) if !self.is_requested(id, &asked.service) => Err(RejectReason::NotRequested),
            None if self.services.place_of(&asked.service).is_none() => Err(
                RejectReason::NotOffered,
            ),
            _ => self.lines.free_line().ok_or(RejectReason::NoRoom),
        }
    }
}
