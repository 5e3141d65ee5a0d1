//! Connecting and closing on a line.

ghost use Rattle.std.specs.Prelude.{◌≡◌, [], List, length, Some};
ghost use Rattle.lat_base.specs.declared.outbox.OutFrame.{OutFrame};
ghost use Rattle.lat_lines.specs.Kept.{IsLine};
ghost use Rattle.lat_lines.specs.Answers.{IsPlain};
ghost use Rattle.lat_server.specs.Kept.{HasSpare};
ghost use Rattle.lat_switch.specs.Calls.{connects, connects_at, closes, closes_one, either_done, is_connected};
ghost use Rattle.lat_switch.specs.Kept.{IsValid, IsSame, IsInner};
ghost use Rattle.lat_switch.specs.Lines.{shows};
ghost use Rattle.lat_switch.specs.Stands.{HasDone, GoesAlong, Simulates};
ghost use Rattle.lat_switch.specs.Switch.{Step, line_in, changes};

use crate::line::{INNER, has_session};
use crate::switch::SwitchCore;
use lat_base::{Answer, Event, Name, OutBox};

fn is_connected(answer: &Answer) -> bool
    ensures { result ≡ is_connected answer.now }
{
    matches!(answer, Answer::Connected { .. })
}

// `Done` once an inner line answers it.
fn either_done(before: Answer, answer: Answer) -> Answer
    ensures value { result ≡ either_done before answer }
    ensures plain { IsPlain before → IsPlain result }
{
    match answer {
        Answer::Done => Answer::Done,
        _ => before,
    }
}

impl SwitchCore {
    /// Connects the least inner line without a session, which is then shown. There must be memory for a circuit more.
    pub(crate) fn connect(&mut self, line: u8, service: &Name, out: &mut OutBox) -> Answer
        requires valid { IsValid self.old }
        requires line { IsLine (length self.old.lines) line }
        requires memory { HasSpare 1 self.old.inner }
        requires empty { out.old ≡ [] }
        ensures valid { IsValid self.new }
        ensures same { IsSame self.old self.new }
        ensures does { Simulates (connects line service.now) self.old self.new result out.old out.new }
        ensures plain { IsPlain result }
    {
        match self.line_at(line).first_free(&self.inner) {
            Some(inner_line) => self.connect_at(line, inner_line, service, out),
            None => Answer::Busy,
        }
    }

    fn connect_at(&mut self, line: u8, inner_line: u8, service: &Name, out: &mut OutBox) -> Answer
        requires valid { IsValid self.old }
        requires line { IsLine (length self.old.lines) line }
        requires inner { IsInner (line_in line self.old.lines) inner_line }
        requires memory { HasSpare 1 self.old.inner }
        requires empty { out.old ≡ [] }
        ensures valid { IsValid self.new }
        ensures same { IsSame self.old self.new }
        ensures does { Simulates (λ c.
            connects_at line service.now c (Some inner_line)) self.old self.new result out.old out.new }
        ensures plain { IsPlain result }
    {
        let event = Event::Connect {
            line: inner_line,
            service: *service,
        };
        let answer = self.tell(&event, out);
        if !is_connected(&answer) {
            return answer;
        }
        self.show(line, inner_line, *service);
        answer
    }

    // A line shows an inner line of its own, which was connected to the service.
    fn show(&mut self, line: u8, inner_line: u8, service: Name)
        requires valid { IsValid self.old }
        requires line { IsLine (length self.old.lines) line }
        requires inner { IsInner (line_in line self.old.lines) inner_line }
        ensures valid { IsValid self.new }
        ensures same { IsSame self.old self.new }
        ensures does { (frames : List OutFrame) →
            GoesAlong (changes line (shows inner_line service)) self.old self.new frames frames }
    {
        let shown = &mut self.lines[line as usize - 1];
        shown.show(inner_line, service);
    }

    /// Closes all sessions of a line, by rising inner lines: `Closed` where none of them answers `Done`.
    pub(crate) fn close(&mut self, line: u8, out: &mut OutBox) -> Answer
        requires valid { IsValid self.old }
        requires line { IsLine (length self.old.lines) line }
        requires empty { out.old ≡ [] }
        ensures valid { IsValid self.new }
        ensures same { IsSame self.old self.new }
        ensures does { Simulates (closes line) self.old self.new result out.old out.new }
        ensures plain { IsPlain result }
    {
        let first = self.line_at(line).first();
        let mut answer = Answer::Closed;
        for place in 0..INNER {
            answer = self.close_one(first + place, answer, out);
        }
        answer
    }

    // Closes an inner line where it has a session. The answer is that of those before.
    fn close_one(&mut self, inner_line: u8, before: Answer, out: &mut OutBox) -> Answer
        requires valid { IsValid self.old }
        requires empty { out.old ≡ [] }
        ensures valid { IsValid self.new }
        ensures same { IsSame self.old self.new }
        ensures does { (t : Step) → HasDone t self.old before out.old →
            HasDone (closes_one t inner_line) self.new result out.new }
        ensures plain { IsPlain before → IsPlain result }
        ensures quiet { out.new ≡ [] }
    {
        if !has_session(&self.inner, inner_line) {
            return before;
        }
        let event = Event::Close { line: inner_line };
        let answer = self.tell(&event, out);
        either_done(before, answer)
    }
}
