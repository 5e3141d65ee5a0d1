//! The event of a turn.

ghost use Rattle.std.specs.Prelude.{◌≡◌, ◌+◌, ◌<◌, ◌≤◌, ◌^◌, IfOk, true, false};
ghost use Rattle.lat_base.specs.Names.{IsName};
ghost use Rattle.lat_base.specs.declared.addr.Addr.{Addr};
ghost use Rattle.lat_schedule.specs.Events.{IsEvent};
ghost use Rattle.lat_cmd.specs.generate.Turns.{connect, put, take, close, time, recent, seldom_close, turn};

use crate::generate::generator::Generator;
use lat_base::{Event, Memory, Name};
use lat_schedule::WorldEvent;
use std::alloc::Global;

/// How many milliseconds lie between a time event and the one before it.
const PACE: u64 = 80;
/// How many items a line takes at most.
const TAKEN: u16 = 1024;
/// A delivered frame is one of this many that were sent last.
const RECENT: u64 = 8;

impl Generator {
    #[tactic(auto, unfolding(crate::specs::generate::Turns::connect))]
    fn connect(&mut self, service: &Name) -> WorldEvent
        requires { IsName service.now }
        ensures value { (result, self.new) ≡ connect service.now self.old }
        ensures is { (to : Addr) → IsEvent to result }
        ensures moment { self.new.moment ≡ self.old.moment }
    {
        WorldEvent::Local {
            server: true,
            event: Event::Connect {
                line: self.line(),
                service: *service,
            },
        }
    }

    #[tactic(auto, unfolding(crate::specs::generate::Turns::put))]
    fn put(&mut self, alloc: Global, server: bool, most: u64) -> Result<WorldEvent, Memory>
        requires { (0 < most) × (most ≤ 4096) }
        ensures value { IfOk result (λ event. (event, self.new) ≡ put server most self.old) }
        ensures is { IfOk result (λ event. (to : Addr) → IsEvent to event) }
        ensures moment { self.new.moment ≡ self.old.moment }
    {
        let line = self.line();
        let bytes = self.bytes(alloc, most)?;
        Ok(WorldEvent::Local {
            server,
            event: Event::Put { line, bytes },
        })
    }

    #[tactic(auto, unfolding(crate::specs::generate::Turns::take))]
    fn take(&mut self, server: bool) -> WorldEvent
        ensures value { (result, self.new) ≡ take server self.old }
        ensures is { (to : Addr) → IsEvent to result }
        ensures moment { self.new.moment ≡ self.old.moment }
    {
        WorldEvent::Local {
            server,
            event: Event::Take {
                line: self.line(),
                n: TAKEN,
            },
        }
    }

    #[tactic(auto, unfolding(crate::specs::generate::Turns::close))]
    fn close(&mut self, server: bool) -> WorldEvent
        ensures value { (result, self.new) ≡ close server self.old }
        ensures is { (to : Addr) → IsEvent to result }
        ensures moment { self.new.moment ≡ self.old.moment }
    {
        WorldEvent::Local {
            server,
            event: Event::Close { line: self.line() },
        }
    }

    #[tactic(auto, unfolding(crate::specs::generate::Turns::time))]
    fn time(&mut self, server: bool) -> WorldEvent
        requires { self.old.moment < 10 ^ 14 }
        ensures value { (result, self.new) ≡ time server self.old }
        ensures is { (to : Addr) → IsEvent to result }
        ensures moment { self.new.moment ≡ self.old.moment + 80 }
    {
        self.moment += PACE;
        WorldEvent::Local {
            server,
            event: Event::Time { now: self.moment },
        }
    }

    // One of the frames that were sent last.
    #[tactic(auto, unfolding(crate::specs::generate::Turns::recent))]
    fn recent(&mut self, frames: u64) -> WorldEvent
        ensures value { (result, self.new) ≡ recent frames self.old }
        ensures is { frames ≤ 10 ^ 9 → (to : Addr) → IsEvent to result }
        ensures moment { self.new.moment ≡ self.old.moment }
    {
        let back = self.below(frames.clamp(1, RECENT));
        WorldEvent::Deliver {
            index: frames.saturating_sub(1).saturating_sub(back),
        }
    }

    // Seldom a line is closed; else a frame is delivered.
    #[tactic(auto, unfolding(crate::specs::generate::Turns::seldom_close))]
    fn seldom_close(&mut self, server: bool, frames: u64) -> WorldEvent
        ensures value { (result, self.new) ≡ seldom_close server frames self.old }
        ensures is { frames ≤ 10 ^ 9 → (to : Addr) → IsEvent to result }
        ensures moment { self.new.moment ≡ self.old.moment }
    {
        if self.below(8) == 0 {
            self.close(server)
        } else {
            self.recent(frames)
        }
    }

    /// The event of a turn, where the world has sent so many frames. `Memory` where none is found for it.
    #[tactic(auto, unfolding(crate::specs::generate::Turns::turn))]
    pub fn turn(&mut self, alloc: Global, service: &Name, frames: u64) -> Result<WorldEvent, Memory>
        requires service { IsName service.now }
        requires early { self.old.moment < 10 ^ 14 }
        ensures value { IfOk result (λ event.
            (event, self.new) ≡ turn service.now frames self.old) }
        ensures is { IfOk result (λ event. frames ≤ 10 ^ 9 → (to : Addr) → IsEvent to event) }
        ensures moment { self.new.moment ≤ self.old.moment + 80 }
    {
        match self.below(12) {
            0 => Ok(self.connect(service)),
            1 => self.put(alloc, true, 64),
            2 => self.put(alloc, false, 512),
            3 => Ok(self.take(true)),
            4 => Ok(self.take(false)),
            5 => Ok(self.time(true)),
            6 => Ok(self.time(false)),
            10 => Ok(self.seldom_close(true, frames)),
            11 => Ok(self.seldom_close(false, frames)),
            _ => Ok(self.recent(frames)),
        }
    }
}
