//! What the server does at a frame that it hears.

ghost use Rattle.std.specs.Prelude.{◌≡◌, ◌≢◌, ◌≤◌, ◌<◌, ◌+◌, ◌++◌, List, length, Err, IfOk, OnErr, None};
ghost use Rattle.lat_frames.specs.Written.{IsWritable};
ghost use Rattle.lat_machines.specs.values.Addresses.{address};
ghost use Rattle.lat_machines.specs.server.Server.{tells, hears_message, hears_announcement, hears_notice, hears};
ghost use Rattle.lat_base.specs.declared.outbox.OutFrame.{OutFrame};
ghost use Rattle.lat_lines.specs.Strangers.{frame_in};
ghost use Rattle.lat_lines.specs.Answers.{IsPlain};
ghost use Rattle.lat_lines.specs.AnswerValues.{answer_shown};
ghost use Rattle.lat_machines.specs.values.Frames.{Whole};
ghost use Rattle.lat_dir.specs.declared.directory.DirFault.TheVariants as faults;
ghost use Rattle.lat_dir.specs.Stands.{UnlessMemory};
ghost use Rattle.lat_dir.specs.Announcements.{announcement_shown};
ghost use Rattle.lat_value.specs.Texts as payload;
ghost use Rattle.lat_payload.specs.Reads.{reading_of, value_shown};
ghost use Rattle.lat_circuit.specs.Messages.{message_shown};
ghost use Rattle.lat_payload.specs.Notices.{notice_shown};
ghost use Rattle.lat_server.specs.Commands.{announced_answer};
ghost use Rattle.lat_server.specs.Events.{SimulatesAt};
ghost use Rattle.lat_server.specs.Kept.{AtRest, SameConfig, HasSpare};

use crate::server::ServerCore;
use lat_base::{Addr, Answer, Memory, OutBox, OutFrame};
use lat_dir::DirFault;
use lat_fields::LayoutFault;
use lat_frames::Message;
use lat_lines::hearing_answer;
use lat_notices::{Announcement, Notice};
use lat_value::{Value, read_value};
use std::alloc::Global;

// What an announcement is answered.
fn answer_announced(heard: Result<bool, DirFault>) -> Result<Answer, Memory>
    ensures shown { UnlessMemory heard (IfOk result (λ a.
        answer_shown a ≡ announced_answer heard)) }
    ensures plain { IfOk result IsPlain }
    ensures ok { IfOk result (λ a. heard ≢ Err faults.Memory) }
    ensures err { OnErr result (heard ≡ Err faults.Memory) }
{
    match heard {
        Ok(true) => Ok(Answer::Announced),
        Ok(false) => Ok(Answer::Apart),
        Err(DirFault::Full) => Ok(Answer::DirectoryFull),
        Err(DirFault::Memory) => Err(Memory),
    }
}

// Puts the frame behind the others, where there is one.
fn push_if_any(frame: Option<OutFrame>, out: &mut OutBox)
    requires { length out.old < 256 }
    ensures { out.new ≡ out.old ++ frame_in frame }
{
    if let Some(frame) = frame {
        out.push(frame);
    }
}

impl ServerCore {
    /// Hears a payload from a station. Takes its memory first: after `Memory` nothing has changed.
    pub(crate) fn hear(
        &mut self,
        alloc: Global,
        from: Addr,
        payload: &[u8],
        now: u64,
        out: &mut OutBox,
    ) -> Result<Answer, Memory>
        requires rest { AtRest self.old }
        requires room { length out.old + 16 ≤ 256 }
        ensures does { IfOk result (λ a.
            SimulatesAt now (λ config s. hears config s (address from.0) (reading_of payload.now) None)
            self.old self.new a out.old out.new) }
        ensures same { SameConfig self.old self.new }
        ensures spare { HasSpare 0 self.new }
        ensures plain { IfOk result IsPlain }
        ensures most { length out.new ≤ length out.old + 2 }
        ensures err { OnErr result ((self.new ≡ self.old) × (out.new ≡ out.old)) }
    {
        match read_value(alloc, payload) {
            Ok(value) => self.hear_value(alloc, from, &value, now, out),
            Err(LayoutFault::Bad(bad)) => Ok(self.pass_over(Answer::Bad(bad), now)),
            Err(LayoutFault::Memory) => Err(Memory),
        }
    }

    // Nothing but the moment moves on.
    fn pass_over(&mut self, answer: Answer, now: u64) -> Answer
        requires rest { AtRest self.old }
        ensures does { (frames : List OutFrame) →
            SimulatesAt now (λ config s.
            tells s (answer_shown answer)) self.old self.new result frames frames }
        ensures same { SameConfig self.old self.new }
        ensures spare { HasSpare 0 self.new }
        ensures answer { result ≡ answer }
    {
        self.lines.pass(now);
        answer
    }

    fn hear_value(
        &mut self,
        alloc: Global,
        from: Addr,
        value: &Value,
        now: u64,
        out: &mut OutBox,
    ) -> Result<Answer, Memory>
        requires rest { AtRest self.old }
        requires ok { payload.IsWritable value.now }
        requires room { length out.old + 16 ≤ 256 }
        ensures does { IfOk result (λ a.
            SimulatesAt now (λ config s.
            hears config s (address from.0) (Whole (value_shown value.now)) None)
            self.old self.new a out.old out.new) }
        ensures same { SameConfig self.old self.new }
        ensures spare { HasSpare 0 self.new }
        ensures plain { IfOk result IsPlain }
        ensures most { length out.new ≤ length out.old + 2 }
        ensures err { OnErr result ((self.new ≡ self.old) × (out.new ≡ out.old)) }
    {
        if from.is_everyone() {
            return Ok(self.pass_over(Answer::Ignored, now));
        }
        match value {
            Value::Circuit(message) => Ok(self.hear_message(from, message, now, out)),
            Value::Notice(notice) => self.hear_notice(alloc, from, notice, now, out),
        }
    }

    fn hear_message(&mut self, from: Addr, message: &Message, now: u64, out: &mut OutBox) -> Answer
        requires rest { AtRest self.old }
        requires ok { IsWritable message.now }
        requires room { length out.old + 16 ≤ 256 }
        ensures does { SimulatesAt now (λ config s.
            hears_message config s (address from.0) (message_shown message.now) None)
            self.old self.new result out.old out.new }
        ensures same { SameConfig self.old self.new }
        ensures spare { HasSpare 0 self.new }
        ensures plain { IsPlain result }
        ensures most { length out.new ≤ length out.old + 2 }
    {
        self.lines.pass(now);
        let stop = self.lines.stranger_stop(self.prompt, from, message);
        let hearing = self.lines.heard(from, message, out);
        push_if_any(stop, out);
        hearing_answer(hearing)
    }

    fn hear_notice(
        &mut self,
        alloc: Global,
        from: Addr,
        notice: &Notice,
        now: u64,
        out: &mut OutBox,
    ) -> Result<Answer, Memory>
        requires rest { AtRest self.old }
        requires room { length out.old + 16 ≤ 256 }
        ensures does { IfOk result (λ a.
            SimulatesAt now (λ config s.
            hears_notice config s (address from.0) (notice_shown notice.now))
            self.old self.new a out.old out.new) }
        ensures same { SameConfig self.old self.new }
        ensures spare { HasSpare 0 self.new }
        ensures plain { IfOk result IsPlain }
        ensures most { length out.new ≤ length out.old + 1 }
        ensures err { OnErr result ((self.new ≡ self.old) × (out.new ≡ out.old)) }
    {
        match notice {
            Notice::Announcement(a) => self.hear_announcement(alloc, from, a, now),
            Notice::Command(c) => self.hear_command(alloc, from, c, now, out),
            Notice::Response(_) => Ok(self.pass_over(Answer::Noted, now)),
            Notice::Status(_) => Ok(self.pass_over(Answer::Ignored, now)),
            Notice::Solicit(_) => Ok(self.pass_over(Answer::Ignored, now)),
        }
    }

    fn hear_announcement(
        &mut self,
        alloc: Global,
        from: Addr,
        announcement: &Announcement,
        now: u64,
    ) -> Result<Answer, Memory>
        requires rest { AtRest self.old }
        ensures does { (frames : List OutFrame) → IfOk result (λ a.
            SimulatesAt now (λ config s.
            hears_announcement config s (address from.0) (announcement_shown announcement.now))
            self.old self.new a frames frames) }
        ensures same { SameConfig self.old self.new }
        ensures spare { HasSpare 0 self.new }
        ensures plain { IfOk result IsPlain }
        ensures err { OnErr result (self.new ≡ self.old) }
    {
        let moment = self.lines.moment().max(now);
        let heard = self.directory.hear(alloc, from, announcement, moment);
        let answer = answer_announced(heard)?;
        self.lines.pass(now);
        Ok(answer)
    }
}
