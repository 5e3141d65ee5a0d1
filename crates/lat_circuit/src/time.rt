//! What a circuit does at a time event.

ghost use Rattle.std.specs.Prelude.{◌≡◌, ◌+◌, ◌<◌, ◌≤◌, true, false, length, nat_lt, None};
ghost use Rattle.lat_model.specs.ends.End.{End, send_again, send_start};
ghost use Rattle.lat_model.specs.ends.Timers.{note_empty, time_step, a_round, rounds_step, alive_step, due_step, living};
ghost use Rattle.lat_session.specs.Table.{SameEnd};
ghost use Rattle.lat_circuit.specs.Stands.{Stands, Simulates};
ghost use Rattle.lat_circuit.specs.Steps.{Keeps};
ghost use Rattle.lat_circuit.specs.Times.{act_step, form_due, due_sent, due_of};

use crate::circuit::Circuit;
use lat_base::OutBox;
use lat_frames::CircuitEnd;

/// How many rounds of repeats there are without progress. In place of one more the circuit ends.
const ROUNDS: u8 = 8;

/// What a circuit did at a time event.
#[derive(Clone, Copy)]
pub enum Due {
    /// It made no frame, and lives.
    Quiet,
    /// It made so many frames, and lives.
    Sent(u8),
    /// It ended, for this reason.
    Ended(u8),
}

impl Circuit {
    /// Gives it a moment, in milliseconds and not before the last one, and does what is due: see "What a time event does" in
    /// docs/PROTOCOL.md. The circuit must live, and there must be room for 16 frames.
    pub fn time(&mut self, now: u64, out: &mut OutBox) -> Due
        requires lives { self.old.ended ≡ None }
        requires room { length out.old + 16 ≤ 256 }
        requires moment { self.old.moments.now ≤ now }
        ensures did { Simulates (λ e.
            note_empty e (time_step now e)) self.old self.new out.old out.new }
        ensures answer { (e : End) → Stands self.old e →
            result ≡ due_of (note_empty e (time_step now e)) }
        ensures facts { self.new.facts ≡ self.old.facts }
        ensures moment { self.new.moments.now ≡ now }
        ensures sessions { SameEnd self.old.sessions self.new.sessions }
        ensures most { length out.new ≤ length out.old + 16 }
    {
        let before = out.len();
        let was_held = self.is_held();
        self.pass(now);
        self.act(out);
        self.note_empty(was_held);
        let frames = out.len().saturating_sub(before) as u8;
        self.due_sent(frames)
    }

    // What it tells, where it has made so many frames.
    fn due_sent(&self, frames: u8) -> Due
        ensures { result ≡ due_sent self.now.ended frames }
    {
        match self.ended {
            Some(reason) => Due::Ended(reason),
            None => sent(frames),
        }
    }

    /// Gives it a moment.
    pub(crate) fn pass(&mut self, now: u64)
        requires { self.old.moments.now ≤ now }
        ensures state { (e : End) → Stands self.old e →
            Stands self.new (record e { moment = now }) }
        ensures value { self.new ≡ record self.old { moments = record (self.old.moments) { now = now } } }
    {
        self.moments.now = now;
    }

    // What is due at the moment.
    fn act(&mut self, out: &mut OutBox)
        requires room { length out.old + 16 ≤ 256 }
        ensures did { Simulates act_step self.old self.new out.old out.new }
        ensures keeps { Keeps self.old self.new }
        ensures most { length out.new ≤ length out.old + 16 }
    {
        if self.is_silent() {
            return self.finish(CircuitEnd::NoAnswer, out);
        }
        if self.is_unused() {
            return self.finish(CircuitEnd::NoUse, out);
        }
        self.rounds_step(out);
        self.living_due(out);
    }

    // The repeats of messages, or of START where no reply was heard.
    fn rounds_step(&mut self, out: &mut OutBox)
        requires { length out.old + 8 ≤ 256 }
        ensures did { Simulates rounds_step self.old self.new out.old out.new }
        ensures keeps { Keeps self.old self.new }
        ensures most { length out.new ≤ length out.old + 8 }
    {
        if self.running {
            if self.repeats_are_due() {
                self.round_again(out);
            }
        } else if self.start_is_due() {
            self.round_start(out);
        }
    }

    // Whether one more round may go out.
    fn has_rounds(&self) -> bool
        ensures { result ≡ nat_lt self.now.rounds 8 }
    {
        self.rounds < ROUNDS
    }

    fn round_again(&mut self, out: &mut OutBox)
        requires room { length out.old + 8 ≤ 256 }
        requires running { self.old.running ≡ true }
        ensures did { Simulates (a_round send_again) self.old self.new out.old out.new }
        ensures keeps { Keeps self.old self.new }
        ensures most { length out.new ≤ length out.old + 8 }
    {
        if self.has_rounds() {
            self.send_again(out);
        } else {
            self.finish(CircuitEnd::NoAnswer, out);
        }
    }

    fn round_start(&mut self, out: &mut OutBox)
        requires room { length out.old < 256 }
        requires calling { self.old.running ≡ false }
        ensures did { Simulates (a_round send_start) self.old self.new out.old out.new }
        ensures keeps { Keeps self.old self.new }
        ensures most { length out.new ≤ length out.old + 1 }
    {
        if self.has_rounds() {
            self.send_start(out);
        } else {
            self.finish(CircuitEnd::NoAnswer, out);
        }
    }

    // What the timer brings, where the circuit still lives.
    fn living_due(&mut self, out: &mut OutBox)
        requires { length out.old + 2 ≤ 256 }
        ensures did { Simulates (living due_step) self.old self.new out.old out.new }
        ensures keeps { Keeps self.old self.new }
        ensures most { length out.new ≤ length out.old + 2 }
    {
        if self.lives() {
            self.due_step(out);
        }
    }

    fn due_step(&mut self, out: &mut OutBox)
        requires { length out.old + 2 ≤ 256 }
        ensures did { Simulates due_step self.old self.new out.old out.new }
        ensures keeps { Keeps self.old self.new }
        ensures most { length out.new ≤ length out.old + 2 }
    {
        if self.timer_is_due() {
            self.form_due(out);
            self.alive_step(out);
        }
    }

    fn form_due(&mut self, out: &mut OutBox)
        requires { length out.old < 256 }
        ensures did { Simulates form_due self.old self.new out.old out.new }
        ensures keeps { Keeps self.old self.new }
        ensures most { length out.new ≤ length out.old + 1 }
    {
        self.note_due();
        if self.may_form() {
            self.occasion(out);
        }
    }

    fn note_due(&mut self)
        ensures state { (e : End) → Stands self.old e →
            Stands self.new (record e { due_at = e.moment }) }
        ensures keeps { Keeps self.old self.new }
    {
        self.moments.due_at = self.moments.now;
    }

    // Where it has sent nothing for long, it asks for an answer.
    fn alive_step(&mut self, out: &mut OutBox)
        requires { length out.old < 256 }
        ensures did { Simulates alive_step self.old self.new out.old out.new }
        ensures keeps { Keeps self.old self.new }
        ensures most { length out.new ≤ length out.old + 1 }
    {
        if self.answer_is_due() {
            self.send_bare(true, out);
        }
    }
}

fn sent(frames: u8) -> Due
    ensures { result ≡ due_sent None frames }
{
    if frames == 0 {
        Due::Quiet
    } else {
        Due::Sent(frames)
    }
}
