//! Inner events, and what is shown after each.

ghost use Rattle.std.specs.Prelude.{◌≡◌, ℕ, [], List, map, length, OnOk, OnErr, IfOk};
ghost use Rattle.lat_base.specs.Answers.{PutFits, TookFits};
ghost use Rattle.lat_base.specs.declared.outbox.OutFrame.{OutFrame};
ghost use Rattle.lat_lines.specs.Answers as lines;
ghost use Rattle.lat_lines.specs.Kept.{IsLine};
ghost use Rattle.lat_server.specs.Events.{IsLocal, cost};
ghost use Rattle.lat_server.specs.Kept.{AtRest, HasSpare, Spends};
ghost use Rattle.lat_switch.specs.Core.{ready};
ghost use Rattle.lat_server.specs.Stands.{Machine, IsMachine};
ghost use Rattle.lat_switch.specs.Kept.{IsValid, IsSame, IsQuiet};
ghost use Rattle.lat_switch.specs.Lines.{gives_way, shows_next};
ghost use Rattle.lat_switch.specs.Stands.{GoesAlong, Simulates};
ghost use Rattle.lat_switch.specs.Switch.{line_in, relays, changes};

use crate::line::Line;
use crate::switch::SwitchCore;
use lat_base::{Answer, Core, Event, Memory, OutBox};
use lat_server::ServerCore;
use std::alloc::Global;

// Each line whose shown inner line has no session shows the next one that has one.
fn give_way_each(inner: &ServerCore, lines: &mut [Line])
    requires { AtRest inner.now }
    ensures { (m : Machine) → IsMachine inner.now m → lines.new ≡ map (gives_way m) lines.old }
{
    for line in lines {
        line.give_way(inner);
    }
}

impl SwitchCore {
    fn give_way(&mut self)
        requires { AtRest self.old.inner }
        ensures inner { self.new.inner ≡ self.old.inner }
        ensures lines { (m : Machine) → IsMachine self.old.inner m →
            self.new.lines ≡ map (gives_way m) self.old.lines }
    {
        let Self { inner, lines } = self;
        give_way_each(inner, lines.as_mut_slice());
    }

    /// Takes the inner server's memory for a circuit more. Nothing else changes, and after `Memory` nothing at all.
    pub(crate) fn reserve(&mut self, alloc: Global) -> Result<(), Memory>
        requires valid { IsValid self.old }
        ensures valid { IsValid self.new }
        ensures same { IsSame self.old self.new }
        ensures does { (frames : List OutFrame) →
            GoesAlong (λ c. c) self.old self.new frames frames }
        ensures ready { (line : ℕ) → ready self.new line ≡ ready self.old line }
        ensures memory { OnOk result (HasSpare 1 self.new.inner) }
        ensures err { OnErr result (self.new ≡ self.old) }
    {
        self.inner.reserve(alloc, 1)
    }

    /// Tells the inner server an event that takes no memory. At a connect there must be memory for a circuit more.
    pub(crate) fn tell(&mut self, event: &Event, out: &mut OutBox) -> Answer
        requires valid { IsValid self.old }
        requires local { IsLocal event.now }
        requires memory { HasSpare (cost event.now) self.old.inner }
        requires empty { out.old ≡ [] }
        ensures valid { IsValid self.new }
        ensures same { IsSame self.old self.new }
        ensures does { Simulates (relays event.now) self.old self.new result out.old out.new }
        ensures put { PutFits result event.now }
        ensures took { TookFits (lines.ready self.old.inner.lines) result event.now }
        ensures spare { Spends (cost event.now) self.old.inner self.new.inner }
        ensures quiet { IsQuiet event.now → out.new ≡ [] }
    {
        let answer = self.inner.local(event, out);
        self.give_way();
        answer
    }

    /// Tells the inner server any event. After `Memory` nothing has changed.
    pub(crate) fn pass(
        &mut self,
        alloc: Global,
        event: &Event,
        out: &mut OutBox,
    ) -> Result<Answer, Memory>
        requires valid { IsValid self.old }
        requires empty { out.old ≡ [] }
        ensures valid { IsValid self.new }
        ensures same { IsSame self.old self.new }
        ensures does { IfOk result (λ a.
            Simulates (relays event.now) self.old self.new a out.old out.new) }
        ensures put { IfOk result (λ a. PutFits a event.now) }
        ensures took { IfOk result (λ a. TookFits (lines.ready self.old.inner.lines) a event.now) }
        ensures unchanged { OnErr result (self.new ≡ self.old) }
        ensures silent { OnErr result (out.new ≡ []) }
    {
        let answer = self.inner.step(alloc, event, out)?;
        self.give_way();
        Ok(answer)
    }

    /// The line of this number, which must exist.
    pub(crate) fn line_at(&self, line: u8) -> &Line
        requires { IsLine (length self.now.lines) line }
        ensures { result.now ≡ line_in line self.now.lines }
    {
        &self.lines[line as usize - 1]
    }

    /// A line shows its next inner line that has a session, where there is one.
    pub(crate) fn show_next(&mut self, line: u8)
        requires valid { IsValid self.old }
        requires line { IsLine (length self.old.lines) line }
        ensures valid { IsValid self.new }
        ensures same { IsSame self.old self.new }
        ensures does { (frames : List OutFrame) →
            GoesAlong (λ c. changes line (shows_next c.state.inner) c) self.old self.new frames frames }
        ensures inner { self.new.inner ≡ self.old.inner }
    {
        let Self { inner, lines } = self;
        let shown = &mut lines[line as usize - 1];
        shown.show_next(inner);
    }
}
