//! Where a schedule leads.

ghost use Rattle.std.specs.Prelude.{◌≡◌, ◌≢◌, ◌≤◌, None, IfOk, length};
ghost use Rattle.lat_model.specs.Lists.{Each};
ghost use Rattle.lat_wire.specs.report.RefusedText.{refused_text, status};
ghost use Rattle.lat_schedule.specs.Events.{IsEvent};
ghost use Rattle.lat_schedule.specs.Setups.{IsSetup};
ghost use Rattle.lat_schedule.specs.declared.schedule.ScheduleFault.TheVariants as reading;
ghost use Rattle.lat_wire.specs.Rates.{RatesWhatIsLeft};
ghost use Rattle.lat_cmd.specs.Answers.{plain, misread, answered_of, answered_behind};
ghost use Rattle.lat_cmd.specs.Outcomes.{IsOutcome};
ghost use Rattle.lat_cmd.specs.Befores.{KeepsBefore, schedule_before, text_before};
ghost use Rattle.lat_cmd.specs.Courses.{Runs};
ghost use Rattle.lat_cmd.specs.Laws.{SaysCalm};
ghost use Rattle.lat_settle.specs.Laws.{IsCalm};

use crate::before::{Before, before_why};
use crate::outcome::Outcome;
use lat_base::Memory;
use lat_node::RatingRule;
use lat_replay::{Schedule, ScheduleFault, World, read_schedule, refused_of};
use lat_text::wrong_line;
use lat_wire::{Refused, refused_onto};
use std::alloc::Global;

/// The course of a schedule: the world behind its last event; or what is answered where it has none, whatever the command.
pub(crate) enum Course<H: RatingRule> {
    Through(World<H>),
    Stopped(Outcome<H>),
}

// The line that says why the event of a line is refused.
fn refused<H: RatingRule>(
    alloc: Global,
    line: u64,
    refused: Refused,
    before: Option<Before>,
) -> Result<Outcome<H>, Memory>
    ensures outcome { IfOk result (λ o.
        IsOutcome (plain (status refused, refused_text line refused)) o) }
    ensures before { IfOk result (λ o. o.before ≡ before) }
{
    let mut text = String::new(alloc);
    refused_onto(&mut text, line, refused)?;
    Ok(Outcome::stopped(refused.status(), text, before))
}

// No schedule.
fn misread<H: RatingRule>(alloc: Global, fault: ScheduleFault) -> Result<Outcome<H>, Memory>
    ensures value { IfOk result (λ o. IsOutcome (misread fault) o) }
    ensures kept { IfOk result (λ o. fault ≢ reading.Memory) }
    ensures before { IfOk result (λ o. o.before ≡ None) }
{
    match fault {
        ScheduleFault::Form { line } => Ok(Outcome::plain(2, wrong_line(alloc, line as usize)?)),
        ScheduleFault::Events { line } => refused(
            alloc,
            u64::from(line),
            Refused::EventsLimit,
            None,
        ),
        ScheduleFault::Memory => Err(Memory),
    }
}

// Plays a schedule.
fn played<H: RatingRule>(alloc: Global, rule: H, schedule: &Schedule) -> Result<Course<H>, Memory>
    requires fact { H.fact rule }
    requires rates { RatesWhatIsLeft (H.may rule) }
    requires setup { IsSetup schedule.now.setup }
    requires events { Each (IsEvent schedule.now.setup.server.own) schedule.now.events }
    requires few { length schedule.now.events ≤ 100000 }
    ensures runs { IfOk result (λ course.
        Runs (IsCalm schedule.now.setup schedule.now.events) (λ tale. answered_of tale schedule.now) course) }
    ensures before { IfOk result (λ course. KeepsBefore (schedule_before schedule.now) course) }
{
    let mut world = World::make(alloc, &schedule.setup, rule)?;
    match world.play(alloc, schedule.events.as_slice()) {
        Ok(()) => Ok(Course::Through(world)),
        Err(stopped) => {
            let why = refused_of(stopped.fault)?;
            let line = u64::from(schedule.lines.at(stopped.index));
            let before = before_why(&world, &schedule.lines, why);
            let outcome = refused(alloc, line, why, before)?;
            Ok(Course::Stopped(outcome))
        }
    }
}

/// Plays the schedule that an input is.
pub(crate) fn course_of<H: RatingRule>(
    alloc: Global,
    rule: H,
    input: &[u8],
) -> Result<Course<H>, Memory>
    requires fact { H.fact rule }
    requires rates { RatesWhatIsLeft (H.may rule) }
    ensures runs { IfOk result (λ course. Runs (SaysCalm input.now) (λ tale. answered_behind tale input.now) course) }
    ensures before { IfOk result (λ course. KeepsBefore (text_before input.now) course) }
{
    match read_schedule(alloc, input) {
        Ok(schedule) => played(alloc, rule, &schedule),
        Err(fault) => {
            let outcome = misread(alloc, fault)?;
            Ok(Course::Stopped(outcome))
        }
    }
}
