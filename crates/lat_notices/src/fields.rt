//! Reading the fields that notices alone have.

ghost use Rattle.std.specs.Prelude.{◌≡◌, ◌≤◌, length, drop, IfOk};
ghost use Rattle.lat_base.specs.declared.field.Field.TheVariants as fields;
ghost use Rattle.lat_fields.specs.Reading.{Gives};
ghost use Rattle.lat_notices.specs.Fields.{is_version, is_timer, byte_for, groups_at, action_at, outcome_at};
ghost use Rattle.lat_notices.specs.Outcomes.{place_fits, placed};

use crate::notice::{Action, Outcome};
use lat_base::{Field, Kept};
use lat_fields::{LayoutFault, VERSION, byte_of, counted_of, known, number_of, wanted};

/// A mask of groups has at most so many bytes.
pub const MASK_BYTES: usize = 32;

/// The version, and the place behind it.
#[tactic(auto, unfolding(crate::specs::Fields::byte_for))]
pub fn version_of(bytes: &[u8], place: usize) -> Result<(u8, usize), LayoutFault>
    requires { (place ≤ length bytes.now) × (length bytes.now ≤ 1500) }
    ensures gives { Gives (λ x. (
      x.0,
      x.1,
      drop x.1 bytes.now,
    )) result (byte_for is_version fields.Version place (drop place bytes.now)) }
    ensures within { IfOk result (λ x. x.1 ≤ length bytes.now) }
{
    let (version, behind) = byte_of(Field::Version, place, bytes, place)?;
    wanted(version == VERSION, Field::Version, place)?;
    Ok((version, behind))
}

/// A timer in seconds, and the place behind it.
#[tactic(auto, unfolding(crate::specs::Fields::byte_for))]
pub fn timer_of(bytes: &[u8], place: usize) -> Result<(u8, usize), LayoutFault>
    requires { (place ≤ length bytes.now) × (length bytes.now ≤ 1500) }
    ensures gives { Gives (λ x. (
      x.0,
      x.1,
      drop x.1 bytes.now,
    )) result (byte_for is_timer fields.Timer place (drop place bytes.now)) }
    ensures within { IfOk result (λ x. x.1 ≤ length bytes.now) }
{
    let (seconds, behind) = byte_of(Field::Timer, place, bytes, place)?;
    wanted(seconds > 0, Field::Timer, place)?;
    Ok((seconds, behind))
}

/// A mask of groups, and the place behind it.
#[tactic(auto, unfolding(crate::specs::Fields::groups_at))]
pub fn groups_of(bytes: &[u8], place: usize) -> Result<(&[u8], usize), LayoutFault>
    requires { (place ≤ length bytes.now) × (length bytes.now ≤ 1500) }
    ensures gives { Gives (λ x. (x.0.now, x.1, drop x.1 bytes.now)) result (groups_at place
        (drop place bytes.now)) }
    ensures within { IfOk result (λ x. x.1 ≤ length bytes.now) }
{
    let (mask, behind) = counted_of(Field::Groups, place, bytes, place)?;
    wanted(mask.len() <= MASK_BYTES, Field::Groups, place)?;
    Ok((mask, behind))
}

/// An action, and the place behind it.
#[tactic(auto, unfolding(crate::specs::Fields::action_at))]
pub fn action_of(bytes: &[u8], place: usize) -> Result<(Action, usize), LayoutFault>
    requires { (place ≤ length bytes.now) × (length bytes.now ≤ 1500) }
    ensures gives { Gives (λ x. (x.0, x.1, drop x.1 bytes.now)) result (action_at place
        (drop place bytes.now)) }
    ensures within { IfOk result (λ x. x.1 ≤ length bytes.now) }
{
    let (number, behind) = byte_of(Field::Action, place, bytes, place)?;
    let action = known(Action::from_number(number), Field::Action, place)?;
    Ok((action, behind))
}

// Whether a place of the queue may stand with an outcome.
fn place_fits(outcome: Outcome, place: u16) -> bool
    ensures { result ≡ place_fits outcome place }
{
    match outcome {
        Outcome::Kept(Kept::Waiting(_)) => place > 0,
        _ => place == 0,
    }
}

// The outcome with the place that stands behind its number.
fn placed(outcome: Outcome, place: u16) -> Outcome
    ensures { result ≡ placed outcome place }
{
    match outcome {
        Outcome::Kept(Kept::Waiting(_)) => Outcome::Kept(Kept::Waiting(place)),
        _ => outcome,
    }
}

/// An outcome with its place in the queue, and the place behind them.
#[tactic(auto, unfolding(crate::specs::Fields::outcome_at))]
pub fn outcome_of(bytes: &[u8], place: usize) -> Result<(Outcome, usize), LayoutFault>
    requires { (place ≤ length bytes.now) × (length bytes.now ≤ 1500) }
    ensures gives { Gives (λ x. (x.0, x.1, drop x.1 bytes.now)) result (outcome_at place
        (drop place bytes.now)) }
    ensures within { IfOk result (λ x. x.1 ≤ length bytes.now) }
{
    let (number, queue_at) = byte_of(Field::Outcome, place, bytes, place)?;
    let outcome = known(Outcome::from_number(number), Field::Outcome, place)?;
    let (queue, behind) = number_of(Field::Place, bytes, queue_at)?;
    wanted(place_fits(outcome, queue), Field::Place, queue_at)?;
    Ok((placed(outcome, queue), behind))
}
