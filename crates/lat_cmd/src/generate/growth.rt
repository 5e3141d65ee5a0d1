//! A schedule that grows turn by turn, beside the world that its events are told.

ghost use Rattle.std.specs.Prelude.{◌≡◌, ◌+◌, ◌<◌, ◌≤◌, ◌^◌, ◌++◌, IfOk, OnOk, string_bytes};
ghost use Rattle.lat_wire.specs.Rates.{RatesWhatIsLeft};
ghost use Rattle.lat_schedule.specs.EventText.{event_text};
ghost use Rattle.lat_replay.specs.Moves.{IsPlayable};
ghost use Rattle.lat_cmd.specs.generate.Front.{setup, vax, front_text};
ghost use Rattle.lat_cmd.specs.generate.Grown.{Grown, told, turned, opened};
ghost use Rattle.lat_cmd.specs.generate.Growths.{StandsFor, written};

use crate::generate::front::{FRONT, setup};
use crate::generate::generator::Generator;
use lat_base::{Memory, Name};
use lat_node::RatingRule;
use lat_replay::{EventFault, World};
use lat_schedule::{Setup, WorldEvent, event_onto};
use std::alloc::{AllocError, Global};

/// The world of a schedule that grows, with the generator of its events.
#[derive(Drop)]
pub(crate) struct Growth<H: RatingRule> {
    pub(crate) world: World<H>,
    /// The service that the server's lines ask for.
    pub(crate) service: Name,
    pub(crate) generator: Generator,
    /// How many events the world was told and didn't refuse.
    pub(crate) events: u64,
    /// Whether the text is written; else it stays empty.
    pub(crate) writes: bool,
    /// The lines so far, those in front of the events too.
    pub(crate) text: String,
}

// The service that the node offers.
fn service_of(made: &Setup) -> Name
    requires { made.now ≡ setup }
    ensures { result ≡ vax }
{
    made.node.services.as_slice()[0]
}

// The lines in front of the events, where they are written.
fn front(alloc: Global, writes: bool) -> Result<String, AllocError>
    ensures { IfOk result (λ text. string_bytes text ≡ written writes front_text) }
{
    if writes {
        String::from_str(alloc, FRONT)
    } else {
        Ok(String::new(alloc))
    }
}

// Appends the line of an event, where lines are written.
fn line_onto(
    alloc: Global,
    text: &mut String,
    writes: bool,
    event: &WorldEvent,
) -> Result<(), AllocError>
    ensures { OnOk result (string_bytes text.new
        ≡ string_bytes text.old ++ written writes (event_text event.now)) }
{
    if writes {
        event_onto(alloc, text, event)
    } else {
        Ok(())
    }
}

impl<H: RatingRule> Growth<H> {
    /// A world of the two cores of generated schedules, without an event.
    pub(crate) fn make(alloc: Global, seed: u64, rule: H, writes: bool) -> Result<Growth<H>, Memory>
        requires fact { H.fact rule }
        requires rates { RatesWhatIsLeft (H.may rule) }
        ensures shows { IfOk result (λ growth. StandsFor growth (opened seed)) }
        ensures start { IfOk result (λ growth.
            (growth.events ≡ 0) × (growth.generator.moment ≡ 0) × (growth.writes ≡ writes)) }
    {
        let made = setup(alloc)?;
        let text = front(alloc, writes)?;
        let world = World::make(alloc, &made, rule)?;
        Ok(Growth {
            world,
            service: service_of(&made),
            generator: Generator::new(seed),
            events: 0,
            writes,
            text,
        })
    }

    /// Tells the world an event, and counts and writes it where the world doesn't refuse it.
    pub(crate) fn told(&mut self, alloc: Global, event: &WorldEvent) -> Result<(), Memory>
        requires playable { IsPlayable event.now }
        requires few { self.old.events < 2 ^ 63 }
        ensures shows { OnOk result ((g : Grown) → StandsFor self.old g →
            StandsFor self.new (told event.now g)) }
        ensures events { OnOk result (self.new.events ≤ self.old.events + 1) }
        ensures moment { OnOk result (self.new.generator.moment ≡ self.old.generator.moment) }
        ensures writes { self.new.writes ≡ self.old.writes }
    {
        match self.world.step(alloc, event) {
            Ok(()) => {
                line_onto(alloc, &mut self.text, self.writes, event)?;
                self.events += 1;
                Ok(())
            }
            Err(fault) => match fault {
                EventFault::Memory => Err(Memory),
                _ => Ok(()),
            },
        }
    }

    /// Makes a turn.
    pub(crate) fn turn(&mut self, alloc: Global) -> Result<(), Memory>
        requires early { self.old.generator.moment < 10 ^ 14 }
        requires few { self.old.events < 2 ^ 63 }
        requires service { self.old.service ≡ vax }
        ensures shows { OnOk result ((g : Grown) → StandsFor self.old g → StandsFor self.new (turned g)) }
        ensures events { OnOk result (self.new.events ≤ self.old.events + 1) }
        ensures moment { OnOk result (self.new.generator.moment ≤ self.old.generator.moment + 80) }
        ensures writes { self.new.writes ≡ self.old.writes }
    {
        let frames = self.world.frames();
        let event = self.generator.turn(alloc, &self.service, frames)?;
        self.told(alloc, &event)
    }
}
