//! One round.

ghost use Rattle.std.specs.Prelude.{◌≡◌, ◌∷◌, [], ◌<◌, ◌^◌, true, OnOk};
ghost use Rattle.lat_model.specs.Lists.{upwards};
ghost use Rattle.lat_replay.specs.Kept.{moment_of, setups_of};
ghost use Rattle.lat_replay.specs.Moves.{IsPlayable, moment_behind};
ghost use Rattle.lat_replay.specs.Played.{State, StandsAt};
ghost use Rattle.lat_laws.specs.rounds.Rounds.{next_moment};
ghost use Rattle.lat_laws.specs.tales.Books.{lines_at};
ghost use Rattle.lat_settle.specs.Events.{deliver_events, round_events, take_events, time_events};
ghost use Rattle.lat_settle.specs.Told.{ToldAs};

use lat_base::Event;
use lat_replay::{EventFault, RatingRule, World, WorldEvent};
use std::alloc::Global;

// A round has fewer deliveries than this: each is of a later frame than those before it, and none comes once more than 199,744
// were sent.
const FRAMES: u32 = 199_745;

// How many items a line is to take.
const ITEMS: u16 = 4_096;

// One round, up to the first event that is refused. The world stands as the last good event left it.
pub(crate) fn round<H: RatingRule>(alloc: Global, world: &mut World<H>) -> Result<(), EventFault>
    requires { next_moment (setups_of world.old) (moment_of world.old) < 2 ^ 64 }
    ensures tells { (s : State) → StandsAt world.old s →
        ToldAs (setups_of world.old) s (round_events (setups_of world.old) s) result world.new }
    ensures moment { OnOk result (moment_of world.new
        ≡ next_moment (setups_of world.old) (moment_of world.old)) }
    ensures setups { setups_of world.new ≡ setups_of world.old }
{
    tell_times(alloc, world)?;
    deliver_all(alloc, world)?;
    let lines = lines_of(world, true);
    take_all(alloc, world, true, lines)?;
    let lines = lines_of(world, false);
    take_all(alloc, world, false, lines)
}

// How many lines an end has.
fn lines_of<H: RatingRule>(world: &World<H>, server: bool) -> u8
    ensures { result ≡ lines_at server (setups_of world.now) }
{
    if server {
        world.server().lines()
    } else {
        world.node().lines()
    }
}

// An event, which is let go of behind it.
fn tell<H: RatingRule>(
    alloc: Global,
    world: &mut World<H>,
    event: WorldEvent,
) -> Result<(), EventFault>
    requires { IsPlayable event }
    ensures tells { (s : State) → StandsAt world.old s →
        ToldAs (setups_of world.old) s (event ∷ []) result world.new }
    ensures moment { OnOk result (moment_of world.new ≡ moment_behind (moment_of world.old) event) }
    ensures setups { setups_of world.new ≡ setups_of world.old }
{
    world.step(alloc, &event)
}

// Both ends are told the next moment, the server first.
fn tell_times<H: RatingRule>(alloc: Global, world: &mut World<H>) -> Result<(), EventFault>
    requires { next_moment (setups_of world.old) (moment_of world.old) < 2 ^ 64 }
    ensures tells { (s : State) →
        StandsAt world.old s →
        ToldAs (setups_of world.old) s (time_events (next_moment (setups_of world.old) s.moment)) result world.new }
    ensures moment { OnOk result (moment_of world.new
        ≡ next_moment (setups_of world.old) (moment_of world.old)) }
    ensures setups { setups_of world.new ≡ setups_of world.old }
{
    let now = world.moment() + world.timer();
    tell(
        alloc,
        world,
        WorldEvent::Local {
            server: true,
            event: Event::Time { now },
        },
    )?;
    tell(
        alloc,
        world,
        WorldEvent::Local {
            server: false,
            event: Event::Time { now },
        },
    )
}

// Every frame that never came is delivered, the one that was sent first before the others.
fn deliver_all<H: RatingRule>(alloc: Global, world: &mut World<H>) -> Result<(), EventFault>
    ensures tells { (s : State) → StandsAt world.old s →
        ToldAs (setups_of world.old) s (deliver_events (setups_of world.old) 199745 s) result world.new }
    ensures moment { OnOk result (moment_of world.new ≡ moment_of world.old) }
    ensures setups { setups_of world.new ≡ setups_of world.old }
{
    for _ in 0..FRAMES {
        match world.undelivered() {
            Some(index) => tell(alloc, world, WorldEvent::Deliver { index })?,
            None => return Ok(()),
        }
    }
    Ok(())
}

// Each line of an end takes, by rising number, where it has a session when its turn comes.
fn take_all<H: RatingRule>(
    alloc: Global,
    world: &mut World<H>,
    server: bool,
    lines: u8,
) -> Result<(), EventFault>
    ensures tells { (s : State) →
        StandsAt world.old s →
        ToldAs (setups_of world.old) s (take_events (setups_of world.old) server (upwards 0 lines) s) result world.new }
    ensures moment { OnOk result (moment_of world.new ≡ moment_of world.old) }
    ensures setups { setups_of world.new ≡ setups_of world.old }
{
    for place in 0..lines {
        take(alloc, world, server, place + 1)?;
    }
    Ok(())
}

// A line takes, where it has a session.
fn take<H: RatingRule>(
    alloc: Global,
    world: &mut World<H>,
    server: bool,
    line: u8,
) -> Result<(), EventFault>
    ensures tells { (s : State) →
        StandsAt world.old s →
        ToldAs (setups_of world.old) s (take_events (setups_of world.old) server (line
        ∷ []) s) result world.new }
    ensures moment { OnOk result (moment_of world.new ≡ moment_of world.old) }
    ensures setups { setups_of world.new ≡ setups_of world.old }
{
    if !world.held(server, line) {
        return Ok(());
    }
    tell(
        alloc,
        world,
        WorldEvent::Local {
            server,
            event: Event::Take { line, n: ITEMS },
        },
    )
}
