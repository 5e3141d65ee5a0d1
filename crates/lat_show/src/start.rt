//! The message that starts a circuit in print.

ghost use Rattle.std.specs.Prelude.{◌≡◌, ◌++◌, OnOk, string_bytes};
ghost use Rattle.lat_show.specs.MessagePrinted.{terms_printed, product_printed, names_printed, location_printed, info_printed, start_printed};

use crate::message::circuit_onto;
use crate::params::params_onto;
use lat_base::{Bytes, Name};
use lat_fields::Params;
use lat_frames::StartInfo;
use lat_text::{hex_onto, name_onto};
use std::alloc::{AllocError, Global};

#[tactic(auto, unfolding(crate::specs::MessagePrinted::terms_printed))]
fn terms_onto(text: &mut String, info: &StartInfo) -> Result<(), AllocError>
    ensures { OnOk result (string_bytes text.new ≡ string_bytes text.old ++ terms_printed info.now) }
{
    let (size, eco, sessions, extra) = (info.size, info.eco, info.sessions, info.extra);
    let (timer, keepalive) = (info.timer, info.keepalive);
    write!(
        text,
        " size {size} version 5 eco {eco} sessions {sessions} extra {extra} timer {timer} keepalive {keepalive}"
    )
}

#[tactic(auto, unfolding(crate::specs::MessagePrinted::product_printed))]
fn product_onto(text: &mut String, info: &StartInfo) -> Result<(), AllocError>
    ensures { OnOk result (string_bytes text.new
        ≡ string_bytes text.old ++ product_printed info.now) }
{
    let (facility, product, version) = (info.facility, info.product, info.product_version);
    write!(text, " facility {facility} product {product} {version}")
}

#[tactic(auto, unfolding(crate::specs::MessagePrinted::names_printed))]
fn names_onto(text: &mut String, slave: &Name, name: &Name) -> Result<(), AllocError>
    ensures { OnOk result (string_bytes text.new
        ≡ string_bytes text.old ++ names_printed slave.now name.now) }
{
    text.push_str(" slave ")?;
    name_onto(text, slave)?;
    text.push_str(" name ")?;
    name_onto(text, name)
}

#[tactic(auto, unfolding(crate::specs::MessagePrinted::location_printed))]
fn location_onto(
    alloc: Global,
    text: &mut String,
    location: &Bytes,
    params: &Params,
) -> Result<(), AllocError>
    ensures { OnOk result (string_bytes text.new
        ≡ string_bytes text.old ++ location_printed location.now params.now) }
{
    text.push_str(" location ")?;
    hex_onto(alloc, text, location.as_slice())?;
    text.push_str(" params ")?;
    params_onto(alloc, text, params)
}

#[tactic(auto, unfolding(crate::specs::MessagePrinted::info_printed))]
fn info_onto(alloc: Global, text: &mut String, info: &StartInfo) -> Result<(), AllocError>
    ensures { OnOk result (string_bytes text.new ≡ string_bytes text.old ++ info_printed info.now) }
{
    terms_onto(text, info)?;
    product_onto(text, info)?;
    names_onto(text, &info.slave, &info.name)?;
    location_onto(alloc, text, &info.location, &info.params)
}

/// Adds the line of a START message to a text.
#[tactic(auto, unfolding(crate::specs::MessagePrinted::start_printed))]
pub fn start_onto(
    alloc: Global,
    text: &mut String,
    master: bool,
    ask: bool,
    to: u16,
    from: u16,
    info: &StartInfo,
) -> Result<(), AllocError>
    ensures { OnOk result (string_bytes text.new
        ≡ string_bytes text.old ++ start_printed master ask to from info.now) }
{
    circuit_onto(text, "circuit-start", master, ask, to, from)?;
    info_onto(alloc, text, info)?;
    text.push_str("\n")
}
