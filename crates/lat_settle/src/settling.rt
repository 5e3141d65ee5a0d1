//! Rounds, one after another.

ghost use Rattle.std.specs.Prelude.{◌≡◌, ◌<◌, ◌^◌, OnOk, IfErr};
ghost use Rattle.lat_replay.specs.Kept.{moment_of, setups_of};
ghost use Rattle.lat_replay.specs.Played.{State, StandsAt};
ghost use Rattle.lat_settle.specs.Laws.{BeginsAt, IsFullOrMemory, Settles};
ghost use Rattle.lat_settle.specs.Rounds.{RunsAs, SettlesAs, rounds_moment};

use crate::phases::round;
use lat_replay::{EventFault, RatingRule, World};
use std::alloc::Global;

/// An event of a round was refused.
#[derive(Drop)]
pub struct Unsettled {
    /// The round, counted from 1.
    pub round: u32,
    pub fault: EventFault,
}

/// Runs so many rounds, up to the first event that is refused. The world stands as the last good event left it. Where rounds
/// may begin, as behind every schedule that lost nothing (law `schedules_begin`), no event is refused but for the number of
/// frames, or for want of memory; and where the rounds are `4 * I + 20 * S + 20` or more, with I items put and S sessions in
/// the report afterwards, each session between the two ends that the server still holds, and that neither end has closed, has
/// taken what the other end put, both ways. The moment behind the rounds must be below 2^64. See "Rounds" in docs/PROTOCOL.md.
pub fn run_rounds<H: RatingRule>(
    alloc: Global,
    world: &mut World<H>,
    rounds: u32,
) -> Result<(), Unsettled>
    requires { rounds_moment (setups_of world.old) (moment_of world.old) rounds < 2 ^ 64 }
    ensures runs { (s : State) → StandsAt world.old s →
        RunsAs (setups_of world.old) s rounds result world.new }
    ensures moment { OnOk result (moment_of world.new
        ≡ rounds_moment (setups_of world.old) (moment_of world.old) rounds) }
    ensures setups { setups_of world.new ≡ setups_of world.old }
    ensures settles { OnOk result ((s : State) →
        StandsAt world.old s →
        BeginsAt (setups_of world.old) s →
        Settles (setups_of world.old) s rounds world.new) }
    ensures refused { IfErr result (λ e.
        (s : State) → StandsAt world.old s → BeginsAt (setups_of world.old) s →
        IsFullOrMemory e.fault) }
{
    for place in 0..rounds {
        if let Err(fault) = round(alloc, world) {
            return Err(Unsettled {
                round: place + 1,
                fault,
            });
        }
    }
    Ok(())
}

/// Runs so many rounds, as `run_rounds` does, and says of a refused event only why.
pub fn settle<H: RatingRule>(
    alloc: Global,
    world: &mut World<H>,
    rounds: u32,
) -> Result<(), EventFault>
    requires { rounds_moment (setups_of world.old) (moment_of world.old) rounds < 2 ^ 64 }
    ensures runs { (s : State) → StandsAt world.old s →
        SettlesAs (setups_of world.old) s rounds result world.new }
    ensures moment { OnOk result (moment_of world.new
        ≡ rounds_moment (setups_of world.old) (moment_of world.old) rounds) }
    ensures setups { setups_of world.new ≡ setups_of world.old }
    ensures settles { OnOk result ((s : State) →
        StandsAt world.old s →
        BeginsAt (setups_of world.old) s →
        Settles (setups_of world.old) s rounds world.new) }
    ensures refused { IfErr result (λ fault.
        (s : State) → StandsAt world.old s → BeginsAt (setups_of world.old) s →
        IsFullOrMemory fault) }
{
    match run_rounds(alloc, world, rounds) {
        Ok(()) => Ok(()),
        Err(unsettled) => Err(unsettled.fault),
    }
}
