//! What each event of a line does.

ghost use Rattle.std.specs.Prelude.{◌≡◌, [], IfOk, OnErr};
ghost use Rattle.lat_base.specs.Answers.{PutFits, TookFits};
ghost use Rattle.lat_base.specs.declared.event.Event.TheVariants as events;
ghost use Rattle.lat_switch.specs.Core.{ready};
ghost use Rattle.lat_switch.specs.Kept.{IsValid, IsSame};
ghost use Rattle.lat_switch.specs.Stands.{Simulates};
ghost use Rattle.lat_switch.specs.Steps.{does};

use crate::switch::SwitchCore;
use lat_base::{Answer, Event, Memory, Name, OutBox};
use std::alloc::Global;

impl SwitchCore {
    /// Does what an event says. Takes memory first; after `Memory` nothing has changed.
    pub(crate) fn apply(
        &mut self,
        alloc: Global,
        event: &Event,
        out: &mut OutBox,
    ) -> Result<Answer, Memory>
        requires valid { IsValid self.old }
        requires empty { out.old ≡ [] }
        ensures valid { IsValid self.new }
        ensures same { IsSame self.old self.new }
        ensures does { IfOk result (λ a.
            Simulates (does event.now) self.old self.new a out.old out.new) }
        ensures put { IfOk result (λ a. PutFits a event.now) }
        ensures took { IfOk result (λ a. TookFits (ready self.old) a event.now) }
        ensures unchanged { OnErr result (self.new ≡ self.old) }
        ensures silent { OnErr result (out.new ≡ []) }
    {
        match event {
            Event::Heard { .. } | Event::Time { .. } => self.pass(alloc, event, out),
            Event::Request { .. } | Event::Cancel { .. } | Event::Announce => Ok(Answer::NotHere),
            Event::Connect { line, service } => self.connect_event(alloc, *line, *service, out),
            Event::Put { line, bytes } => self.put_event(alloc, *line, bytes.as_slice(), out),
            Event::Set { line, setting } => Ok(self.set(*line, *setting, out)),
            Event::Take { line, n } => self.take(alloc, *line, *n, out),
            Event::Attend { line, flag } => Ok(self.attend(*line, *flag, out)),
            Event::Close { line } => Ok(self.close_event(*line, out)),
            Event::Avoid { line } => Ok(self.avoid(*line, out)),
            Event::Ready { line, ready } => Ok(self.set_ready(*line, *ready, out)),
            Event::Halt => Ok(self.halt(out)),
        }
    }

    // `Connect`: one more session on the line. Takes memory first; after `Memory` nothing has changed.
    fn connect_event(
        &mut self,
        alloc: Global,
        line: u8,
        service: Name,
        out: &mut OutBox,
    ) -> Result<Answer, Memory>
        requires valid { IsValid self.old }
        requires empty { out.old ≡ [] }
        ensures valid { IsValid self.new }
        ensures same { IsSame self.old self.new }
        ensures does { IfOk result (λ a.
            Simulates (does (events.Connect line service)) self.old self.new a out.old out.new) }
        ensures put { IfOk result (λ a. PutFits a (events.Connect line service)) }
        ensures took { IfOk result (λ a.
            TookFits (ready self.old) a (events.Connect line service)) }
        ensures unchanged { OnErr result (self.new ≡ self.old) }
        ensures silent { OnErr result (out.new ≡ []) }
    {
        if !self.exists(line) {
            return Ok(Answer::NoLine);
        }
        self.reserve(alloc)?;
        Ok(self.connect(line, &service, out))
    }

    // `Put`: bytes with keys among them.
    fn put_event(
        &mut self,
        alloc: Global,
        line: u8,
        bytes: &[u8],
        out: &mut OutBox,
    ) -> Result<Answer, Memory>
        requires valid { IsValid self.old }
        requires empty { out.old ≡ [] }
        ensures valid { IsValid self.new }
        ensures same { IsSame self.old self.new }
        ensures does { IfOk result (λ a.
            Simulates (does (events.Put line bytes.now)) self.old self.new a out.old out.new) }
        ensures put { IfOk result (λ a. PutFits a (events.Put line bytes.now)) }
        ensures took { IfOk result (λ a. TookFits (ready self.old) a (events.Put line bytes.now)) }
        ensures unchanged { OnErr result (self.new ≡ self.old) }
        ensures silent { OnErr result (out.new ≡ []) }
    {
        if !self.exists(line) {
            return Ok(Answer::NoLine);
        }
        self.put(alloc, line, bytes, out)
    }

    // `Set`: on the shown inner line.
    fn set(&mut self, line: u8, setting: [u8; 5], out: &mut OutBox) -> Answer
        requires valid { IsValid self.old }
        requires empty { out.old ≡ [] }
        ensures valid { IsValid self.new }
        ensures same { IsSame self.old self.new }
        ensures does { Simulates (does (events.Set line setting)) self.old self.new result out.old out.new }
        ensures put { PutFits result (events.Set line setting) }
        ensures took { TookFits (ready self.old) result (events.Set line setting) }
    {
        if !self.exists(line) {
            return Answer::NoLine;
        }
        let event = Event::Set {
            line: self.line_at(line).shown(),
            setting,
        };
        self.tell(&event, out)
    }

    // `Take`: from the shown inner line. Takes memory first; after `Memory` nothing has changed.
    fn take(&mut self, alloc: Global, line: u8, n: u16, out: &mut OutBox) -> Result<Answer, Memory>
        requires valid { IsValid self.old }
        requires empty { out.old ≡ [] }
        ensures valid { IsValid self.new }
        ensures same { IsSame self.old self.new }
        ensures does { IfOk result (λ a.
            Simulates (does (events.Take line n)) self.old self.new a out.old out.new) }
        ensures put { IfOk result (λ a. PutFits a (events.Take line n)) }
        ensures took { IfOk result (λ a. TookFits (ready self.old) a (events.Take line n)) }
        ensures unchanged { OnErr result (self.new ≡ self.old) }
        ensures silent { OnErr result (out.new ≡ []) }
    {
        if !self.exists(line) {
            return Ok(Answer::NoLine);
        }
        let event = Event::Take {
            line: self.line_at(line).shown(),
            n,
        };
        self.pass(alloc, &event, out)
    }

    // `Attend`: on the shown inner line.
    fn attend(&mut self, line: u8, flag: u8, out: &mut OutBox) -> Answer
        requires valid { IsValid self.old }
        requires empty { out.old ≡ [] }
        ensures valid { IsValid self.new }
        ensures same { IsSame self.old self.new }
        ensures does { Simulates (does (events.Attend line flag)) self.old self.new result out.old out.new }
        ensures put { PutFits result (events.Attend line flag) }
        ensures took { TookFits (ready self.old) result (events.Attend line flag) }
    {
        if !self.exists(line) {
            return Answer::NoLine;
        }
        let event = Event::Attend {
            line: self.line_at(line).shown(),
            flag,
        };
        self.tell(&event, out)
    }

    // `Close`: all sessions of the line.
    fn close_event(&mut self, line: u8, out: &mut OutBox) -> Answer
        requires valid { IsValid self.old }
        requires empty { out.old ≡ [] }
        ensures valid { IsValid self.new }
        ensures same { IsSame self.old self.new }
        ensures does { Simulates (does (events.Close line)) self.old self.new result out.old out.new }
        ensures put { PutFits result (events.Close line) }
        ensures took { TookFits (ready self.old) result (events.Close line) }
    {
        if !self.exists(line) {
            return Answer::NoLine;
        }
        self.close(line, out)
    }

    // `Avoid`: of the shown inner line.
    fn avoid(&mut self, line: u8, out: &mut OutBox) -> Answer
        requires valid { IsValid self.old }
        requires empty { out.old ≡ [] }
        ensures valid { IsValid self.new }
        ensures same { IsSame self.old self.new }
        ensures does { Simulates (does (events.Avoid line)) self.old self.new result out.old out.new }
        ensures put { PutFits result (events.Avoid line) }
        ensures took { TookFits (ready self.old) result (events.Avoid line) }
    {
        if !self.exists(line) {
            return Answer::NoLine;
        }
        let event = Event::Avoid {
            line: self.line_at(line).shown(),
        };
        self.tell(&event, out)
    }

    // `Ready`: of the shown inner line, though none of them offers a service.
    fn set_ready(&mut self, line: u8, is_ready: bool, out: &mut OutBox) -> Answer
        requires valid { IsValid self.old }
        requires empty { out.old ≡ [] }
        ensures valid { IsValid self.new }
        ensures same { IsSame self.old self.new }
        ensures does { Simulates (does (events.Ready line is_ready)) self.old self.new result out.old out.new }
        ensures put { PutFits result (events.Ready line is_ready) }
        ensures took { TookFits (ready self.old) result (events.Ready line is_ready) }
    {
        if !self.exists(line) {
            return Answer::NoLine;
        }
        let event = Event::Ready {
            line: self.line_at(line).shown(),
            ready: is_ready,
        };
        self.tell(&event, out)
    }

    // `Halt`: of the server.
    fn halt(&mut self, out: &mut OutBox) -> Answer
        requires valid { IsValid self.old }
        requires empty { out.old ≡ [] }
        ensures valid { IsValid self.new }
        ensures same { IsSame self.old self.new }
        ensures does { Simulates (does events.Halt) self.old self.new result out.old out.new }
        ensures put { PutFits result events.Halt }
        ensures took { TookFits (ready self.old) result events.Halt }
    {
        self.tell(&Event::Halt, out)
    }
}
