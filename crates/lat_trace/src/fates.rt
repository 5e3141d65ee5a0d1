//! What becomes of the frames of a schedule.

ghost use Rattle.std.specs.Prelude.{
  ◌≡◌,
  ◌<◌,
  ◌≤◌,
  [],
  ◌∷◌,
  ◌++◌,
  ℕ,
  List,
  OnOk,
  IfOk,
  length,
  get_or,
  string_bytes,
};
ghost use Rattle.lat_schedule.specs.declared.event.WorldEvent.{WorldEvent};
ghost use Rattle.lat_trace.specs.Fates.{deliveries, fate_text, AreCounts};

use lat_base::Memory;
use lat_schedule::WorldEvent;
use std::alloc::{AllocError, Global};
use std::marker::Model;

/// How often each frame is delivered by the events of a schedule, whether they are played or not. Contracts see these
/// numbers.
pub struct Fates {
    counts: Vec<u32>,
}

impl Drop for Fates {
    fn drop(self) {
        let Self { counts } = self;
    }
}

impl Model for Fates {
    ghost use Rattle.std.specs.Prelude.{ℕ, List};

    ghost Value = { List ℕ };

    ghost view = { λ a. a.counts.items };
}

// One delivery more of a frame.
fn count(counts: &mut [u32], event: &WorldEvent)
    requires { (frame : ℕ) → get_or counts.old frame 0 < 4294967295 }
    ensures length { length counts.new ≡ length counts.old }
    ensures counts { (events : List WorldEvent) → AreCounts counts.old events →
        AreCounts counts.new (events ++ event.now ∷ []) }
{
    if let WorldEvent::Deliver { index } = event {
        if *index < counts.len() as u64 {
            counts[*index as usize] += 1;
        }
    }
}

impl Fates {
    /// The fates of the first frames, so many, by all events of a schedule: at most 100,000. `Memory` where none is found.
    pub fn of(alloc: Global, frames: u64, events: &[WorldEvent]) -> Result<Fates, Memory>
        requires few { length events.now ≤ 100000 }
        ensures counts { IfOk result (λ fates. AreCounts fates events.now) }
        ensures frames { IfOk result (λ fates. length fates ≡ frames) }
    {
        let mut counts = vec![in alloc; 0; frames as usize]?;
        for event in events {
            count(&mut counts, event);
        }
        Ok(Fates { counts })
    }

    /// How often the frame of this number is delivered. There must be one.
    pub fn at(&self, frame: u64) -> u32
        requires { frame < length self.now }
        ensures { (events : List WorldEvent) → AreCounts self.now events → result ≡ deliveries frame events }
    {
        self.counts[frame as usize]
    }
}

/// Adds the word of a frame's fate: `lost`, `once` or `N times`.
pub(crate) fn fate_onto(text: &mut String, deliveries: u32) -> Result<(), AllocError>
    ensures { OnOk result (string_bytes text.new ≡ string_bytes text.old ++ fate_text deliveries) }
{
    match deliveries {
        0 => text.push_str("lost"),
        1 => text.push_str("once"),
        _ => write!(text, "{deliveries} times"),
    }
}
