//! Reading START and STOP messages.

ghost use Rattle.std.specs.Prelude.{◌≡◌, ◌+◌, ◌<◌, ◌≤◌, length, drop, IfOk};
ghost use Rattle.lat_fields.specs.Reading.{Gives};
ghost use Rattle.lat_frames.specs.Reading.{timer_fits, keepalive_fits, timed_at, holding_at, limits_at, named_at, info_at, start_at, stop_at};

use crate::message::{Limits, Message, StartInfo};
use crate::read_head::{Circuits, asks, is_master};
use lat_base::Field;
use lat_fields::{LayoutFault, VERSION, byte_of, copy_of, name_of, number_of, params_of, wanted};
use std::alloc::Global;

fn timer_fits(master: bool, timer: u8) -> bool
    ensures { result ≡ timer_fits master timer }
{
    !master || (timer > 0 && timer <= 100)
}

fn keepalive_fits(master: bool, keepalive: u8) -> bool
    ensures { result ≡ keepalive_fits master keepalive }
{
    !master || keepalive > 0
}

// The times of the circuit, which stand behind what else the sender can do, and all of it together.
#[tactic(auto, unfolding(crate::specs::Reading::timed_at))]
fn timed_of(
    master: bool,
    size: u16,
    eco: u8,
    sessions: u8,
    extra: u8,
    payload: &[u8],
    place: usize,
) -> Result<(Limits, usize), LayoutFault>
    requires { (place ≤ length payload.now) × (length payload.now ≤ 1500) }
    ensures gives { Gives (λ x. (x.0, x.1, drop x.1 payload.now)) result
        (timed_at master size eco sessions extra place (drop place payload.now)) }
    ensures within { IfOk result (λ x. x.1 ≤ length payload.now) }
{
    let (timer, keepalive_place) = byte_of(Field::Timer, place, payload, place)?;
    wanted(timer_fits(master, timer), Field::Timer, place)?;
    let (keepalive, behind) = byte_of(Field::KeepAlive, keepalive_place, payload, keepalive_place)?;
    let fits = keepalive_fits(master, keepalive);
    wanted(fits, Field::KeepAlive, keepalive_place)?;
    let limits = Limits {
        size,
        eco,
        sessions,
        extra,
        timer,
        keepalive,
    };
    Ok((limits, behind))
}

// How many sessions and further messages the sender can hold, behind its frame size and the version, and the times.
#[tactic(auto, unfolding(crate::specs::Reading::holding_at))]
fn holding_of(
    master: bool,
    size: u16,
    payload: &[u8],
    place: usize,
) -> Result<(Limits, usize), LayoutFault>
    requires { (place ≤ length payload.now) × (length payload.now ≤ 1500) }
    ensures gives { Gives (λ x. (x.0, x.1, drop x.1 payload.now)) result
        (holding_at master size place (drop place payload.now)) }
    ensures within { IfOk result (λ x. x.1 ≤ length payload.now) }
{
    let (eco, sessions_place) = byte_of(Field::Eco, place, payload, place)?;
    let (sessions, place) = byte_of(Field::Sessions, sessions_place, payload, sessions_place)?;
    wanted(sessions > 0, Field::Sessions, sessions_place)?;
    let (extra, place) = byte_of(Field::Extra, place, payload, place)?;
    timed_of(master, size, eco, sessions, extra, payload, place)
}

#[tactic(auto, unfolding(crate::specs::Reading::limits_at))]
fn limits_of(master: bool, payload: &[u8], place: usize) -> Result<(Limits, usize), LayoutFault>
    requires { (place ≤ length payload.now) × (length payload.now ≤ 1500) }
    ensures gives { Gives (λ x. (
      x.0,
      x.1,
      drop x.1 payload.now,
    )) result (limits_at master place (drop place payload.now)) }
    ensures within { IfOk result (λ x. x.1 ≤ length payload.now) }
{
    let (size, version_place) = number_of(Field::FrameSize, payload, place)?;
    wanted(size >= 576 && size <= 1518, Field::FrameSize, place)?;
    let (version, place) = byte_of(Field::Version, version_place, payload, version_place)?;
    wanted(version == VERSION, Field::Version, version_place)?;
    holding_of(master, size, payload, place)
}

// The names, the location and the parameters of the sender, and with what stands before them all that it tells.
#[tactic(auto, unfolding(crate::specs::Reading::named_at))]
fn named_of(
    alloc: Global,
    limits: Limits,
    facility: u16,
    product: u8,
    product_version: u8,
    payload: &[u8],
    place: usize,
) -> Result<(StartInfo, usize), LayoutFault>
    requires { (place ≤ length payload.now) × (length payload.now ≤ 1500) }
    ensures gives { Gives (λ x. (x.0, x.1, drop x.1 payload.now)) result
        (named_at (length payload.now + 1) limits facility product product_version
        place (drop place payload.now)) }
    ensures within { IfOk result (λ x. x.1 ≤ length payload.now) }
{
    let (slave, place) = name_of(Field::SlaveName, payload, place)?;
    let (name, place) = name_of(Field::MasterName, payload, place)?;
    let (location, place) = copy_of(alloc, Field::Location, payload, place)?;
    let (params, place) = params_of(alloc, payload, place)?;
    let info = StartInfo {
        size: limits.size,
        eco: limits.eco,
        sessions: limits.sessions,
        extra: limits.extra,
        timer: limits.timer,
        keepalive: limits.keepalive,
        facility,
        product,
        product_version,
        slave,
        name,
        location,
        params,
    };
    Ok((info, place))
}

#[tactic(auto, unfolding(crate::specs::Reading::info_at))]
fn info_of(
    alloc: Global,
    master: bool,
    payload: &[u8],
    place: usize,
) -> Result<(StartInfo, usize), LayoutFault>
    requires { (place ≤ length payload.now) × (length payload.now ≤ 1500) }
    ensures gives { Gives (λ x. (
      x.0,
      x.1,
      drop x.1 payload.now,
    )) result (info_at (length payload.now + 1) master place (drop place payload.now)) }
    ensures within { IfOk result (λ x. x.1 ≤ length payload.now) }
{
    let (limits, place) = limits_of(master, payload, place)?;
    let (facility, place) = number_of(Field::Facility, payload, place)?;
    let (product, place) = byte_of(Field::ProductType, place, payload, place)?;
    let (product_version, place) = byte_of(Field::ProductVersion, place, payload, place)?;
    named_of(
        alloc,
        limits,
        facility,
        product,
        product_version,
        payload,
        place,
    )
}

/// The START message that goes on at the place.
#[tactic(auto, unfolding(crate::specs::Reading::start_at))]
pub fn start_of(
    alloc: Global,
    first: u8,
    circuits: Circuits,
    payload: &[u8],
    place: usize,
) -> Result<(Message, usize), LayoutFault>
    requires { (place ≤ length payload.now) × (length payload.now ≤ 1500) }
    ensures gives { Gives (λ x. (
      x.0,
      x.1,
      drop x.1 payload.now,
    )) result (start_at (length payload.now + 1) first circuits place (drop place payload.now)) }
    ensures within { IfOk result (λ x. x.1 ≤ length payload.now) }
{
    let (_, place) = byte_of(Field::Sequence, place, payload, place)?;
    let (_, place) = byte_of(Field::Acknowledgement, place, payload, place)?;
    let (info, place) = info_of(alloc, is_master(first), payload, place)?;
    let message = Message::Start {
        master: is_master(first),
        ask: asks(first),
        to: circuits.to,
        from: circuits.from,
        info,
    };
    Ok((message, place))
}

/// The STOP message that goes on at the place.
#[tactic(auto, unfolding(crate::specs::Reading::stop_at))]
pub fn stop_of(
    alloc: Global,
    first: u8,
    circuits: Circuits,
    payload: &[u8],
    place: usize,
) -> Result<(Message, usize), LayoutFault>
    requires { (place ≤ length payload.now) × (length payload.now ≤ 1500) }
    ensures gives { Gives (λ x. (
      x.0,
      x.1,
      drop x.1 payload.now,
    )) result (stop_at first circuits place (drop place payload.now)) }
    ensures within { IfOk result (λ x. x.1 ≤ length payload.now) }
{
    let (_, place) = byte_of(Field::Sequence, place, payload, place)?;
    let (_, place) = byte_of(Field::Acknowledgement, place, payload, place)?;
    let (reason, place) = byte_of(Field::Reason, place, payload, place)?;
    let (text, place) = copy_of(alloc, Field::Text, payload, place)?;
    let message = Message::Stop {
        master: is_master(first),
        ask: asks(first),
        to: circuits.to,
        from: circuits.from,
        reason,
        text,
    };
    Ok((message, place))
}
