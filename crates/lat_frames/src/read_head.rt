//! Reading what all circuit messages begin with.

ghost use Rattle.std.specs.Prelude.{◌≡◌, ◌<◌, ◌≤◌, length, drop, IfOk};
ghost use Rattle.lat_fields.specs.Reading.{Gives};
ghost use Rattle.lat_frames.specs.Heads.{is_master, asks};
ghost use Rattle.lat_frames.specs.Reading.{destination_fits, source_fits, circuits_at};

use crate::kind::MessageKind;
use lat_base::Field;
use lat_fields::{LayoutFault, byte_of, number_of, wanted};

/// The number of slots and the two circuits that a message names.
#[derive(Clone, Copy)]
pub struct Circuits {
    pub slots: u8,
    pub to: u16,
    pub from: u16,
}

/// Bit 1 of the first byte.
pub fn is_master(first: u8) -> bool
    ensures { result ≡ is_master first }
{
    first / 2 % 2 == 1
}

/// Bit 0 of the first byte.
pub fn asks(first: u8) -> bool
    ensures { result ≡ asks first }
{
    first % 2 == 1
}

fn destination_fits(kind: MessageKind, master: bool, to: u16) -> bool
    ensures { result ≡ destination_fits kind master to }
{
    if matches!(kind, MessageKind::Start) && master {
        to == 0
    } else {
        to > 0
    }
}

fn source_fits(kind: MessageKind, from: u16) -> bool
    ensures { result ≡ source_fits kind from }
{
    matches!(kind, MessageKind::Stop) || from > 0
}

/// The number of slots and the two circuits, which stand behind the first byte.
#[tactic(auto, unfolding(crate::specs::Reading::circuits_at))]
pub fn circuits_of(
    kind: MessageKind,
    master: bool,
    payload: &[u8],
    place: usize,
) -> Result<(Circuits, usize), LayoutFault>
    requires { (place ≤ length payload.now) × (length payload.now ≤ 1500) }
    ensures gives { Gives (λ x. (
      x.0,
      x.1,
      drop x.1 payload.now,
    )) result (circuits_at kind master place (drop place payload.now)) }
    ensures within { IfOk result (λ x. x.1 ≤ length payload.now) }
{
    let (slots, to_place) = byte_of(Field::SlotCount, place, payload, place)?;
    let (to, from_place) = number_of(Field::DestinationCircuit, payload, to_place)?;
    let fits = destination_fits(kind, master, to);
    wanted(fits, Field::DestinationCircuit, to_place)?;
    let (from, behind) = number_of(Field::SourceCircuit, payload, from_place)?;
    wanted(source_fits(kind, from), Field::SourceCircuit, from_place)?;
    Ok((Circuits { slots, to, from }, behind))
}
