//! Where a schedule leads.

ghost use Rattle.std.specs.Prelude.{◌≡◌, ◌≢◌, ◌≤◌, IfOk, length, string_bytes};
ghost use Rattle.lat_model.specs.Lists.{Each};
ghost use Rattle.lat_schedule.specs.Events.{IsEvent};
ghost use Rattle.lat_schedule.specs.Setups.{IsSetup};
ghost use Rattle.lat_schedule.specs.declared.schedule.ScheduleFault.TheVariants as reading;
ghost use Rattle.lat_wire.specs.Rates.{RatesWhatIsLeft};
ghost use Rattle.lat_wire.specs.report.RefusedText.{status};
ghost use Rattle.lat_trace.specs.Courses.{limit_of, misread, schedule_told, stop_line};
ghost use Rattle.lat_trace.specs.Runs.{run_of};
ghost use Rattle.lat_trace.specs.Shown.{IsCourse, IsStop, Leads, ShowsRun};

use crate::entries::Entries;
use crate::play::play;
use crate::run::{Run, Stop};
use lat_base::Memory;
use lat_node::RatingRule;
use lat_replay::{Stopped, refused_of};
use lat_schedule::{LineNumbers, Schedule, ScheduleFault, read_schedule};
use lat_text::wrong_line;
use lat_wire::{Refused, Wire, refused_onto};
use std::alloc::Global;

/// A status, and the one line that goes with it.
pub struct Line {
    pub status: u8,
    pub text: String,
}

/// The course of a schedule: its run; or what is answered in place of all that could be told of one.
pub enum Course<H: RatingRule> {
    Told(Run<H>),
    Alone(Line),
}

// The line by which an event is refused.
fn refused(alloc: Global, stop: Stop) -> Result<Line, Memory>
    ensures status { IfOk result (λ o. o.status ≡ status stop.why) }
    ensures text { IfOk result (λ o. string_bytes o.text ≡ stop_line stop) }
{
    let mut text = String::new(alloc);
    refused_onto(&mut text, stop.line, stop.why)?;
    Ok(Line {
        status: stop.why.status(),
        text,
    })
}

// No schedule.
fn misread(alloc: Global, fault: ScheduleFault) -> Result<Line, Memory>
    ensures value { IfOk result (λ o. (o.status, string_bytes o.text) ≡ misread fault) }
    ensures kept { IfOk result (λ o. fault ≢ reading.Memory) }
{
    match fault {
        ScheduleFault::Form { line } => Ok(Line {
            status: 2,
            text: wrong_line(alloc, line as usize)?,
        }),
        ScheduleFault::Events { line } => refused(
            alloc,
            Stop {
                line: u64::from(line),
                why: Refused::EventsLimit,
            },
        ),
        ScheduleFault::Memory => Err(Memory),
    }
}

// The event that was refused, where the events were played so.
fn stop_of(lines: &LineNumbers, played: Result<(), Stopped>) -> Result<Option<Stop>, Memory>
    ensures { IfOk result (IsStop lines.now played) }
{
    match played {
        Ok(()) => Ok(None),
        Err(Stopped { index, fault }) => Ok(Some(Stop {
            line: u64::from(lines.at(index)),
            why: refused_of(fault)?,
        })),
    }
}

// The run of a schedule.
fn run_of<H: RatingRule>(alloc: Global, rule: H, schedule: Schedule) -> Result<Run<H>, Memory>
    requires fact { H.fact rule }
    requires rates { RatesWhatIsLeft (H.may rule) }
    requires setup { IsSetup schedule.setup }
    requires events { Each (IsEvent schedule.setup.server.own) schedule.events }
    requires few { length schedule.events ≤ 100000 }
    ensures { IfOk result (λ k. ShowsRun k (run_of schedule)) }
{
    let Schedule {
        setup,
        lines,
        events,
    } = schedule;
    let mut wire = Wire::make(alloc, &setup.server, &setup.node, rule)?;
    let mut entries = Entries::new(alloc);
    let played = play(alloc, &mut wire, events.as_slice(), &mut entries);
    let stop = stop_of(&lines, played)?;
    Ok(Run {
        schedule: Schedule {
            setup,
            lines,
            events,
        },
        entries,
        stop,
        wire,
    })
}

// The event at which a limit was met, if one was.
fn limit_of(stop: Option<Stop>) -> Option<Stop>
    ensures { result ≡ limit_of stop }
{
    let stop = stop?;
    if stop.why.status() == 6 {
        Some(stop)
    } else {
        None
    }
}

// A schedule of no more events than this is run.
fn within<H: RatingRule>(
    alloc: Global,
    rule: H,
    schedule: Schedule,
    most: usize,
) -> Result<Course<H>, Memory>
    requires fact { H.fact rule }
    requires rates { RatesWhatIsLeft (H.may rule) }
    requires setup { IsSetup schedule.setup }
    requires events { Each (IsEvent schedule.setup.server.own) schedule.events }
    requires few { length schedule.events ≤ 100000 }
    ensures { IfOk result (λ course. IsCourse (λ tell. schedule_told most tell schedule) course) }
{
    if schedule.events.as_slice().len() > most {
        let line = schedule.lines.at(most);
        return Ok(Course::Alone(misread(alloc, ScheduleFault::Events { line })?));
    }
    let run = run_of(alloc, rule, schedule)?;
    match limit_of(run.stop) {
        Some(stop) => Ok(Course::Alone(refused(alloc, stop)?)),
        None => Ok(Course::Told(run)),
    }
}

/// Plays the schedule that a text is, as `lat replay` does, and lists what happened. A text that is no schedule, one of
/// more than `most` events, and one at which the number of frames is too great, have a status and one line alone. `Memory`
/// where none is found. The rule of rating, the node's, has one answer: the least of 255 and the lines that are left.
pub fn course_of<H: RatingRule>(
    alloc: Global,
    rule: H,
    text: &[u8],
    most: usize,
) -> Result<Course<H>, Memory>
    requires fact { H.fact rule }
    requires rates { RatesWhatIsLeft (H.may rule) }
    ensures { IfOk result (λ course. Leads most text.now course) }
{
    match read_schedule(alloc, text) {
        Ok(schedule) => within(alloc, rule, schedule, most),
        Err(fault) => Ok(Course::Alone(misread(alloc, fault)?)),
    }
}
