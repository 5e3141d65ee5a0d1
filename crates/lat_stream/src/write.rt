//! The slots that sessions form, written as they stand in a message. It takes no memory.

ghost use Rattle.std.specs.Prelude.{◌≡◌, ◌+◌, ◌<◌, ◌≤◌, [], ◌++◌, length};
ghost use Rattle.lat_base.specs.Names.{IsName};
ghost use Rattle.lat_model.specs.sessions.Slots as sessions;
ghost use Rattle.lat_slots.specs.Layout.{slot_text};
ghost use Rattle.lat_stream.specs.Wire.{formed_as};

use crate::request::{request_len, write_request};
use lat_base::{Name, Payload};
use lat_slots::{SlotKind, StopReason, write_slot_head, write_slot_pad, write_start_fields};

/// The greatest data slot that an end takes, as its starts state.
const DATA_SIZE: u8 = 255;

/// The greatest attention that an end takes, in bytes.
const ATTENTION_SIZE: u8 = 1;

/// How many bytes a start has, with its pad.
pub fn start_len(service: &Name, request: Option<u16>) -> u16
    ensures value { result ≡ sessions.even_up (9 + length service.now + sessions.params_len request) }
    ensures name { IsName service.now }
{
    let len = 9 + service.bytes().len() as u16 + u16::from(request_len(request));
    len + len % 2
}

/// A start, which gives so many credits.
pub fn write_start(
    out: &mut Payload,
    to: u8,
    from: u8,
    credits: u8,
    service: &Name,
    request: Option<u16>,
)
    requires low { credits < 16 }
    requires room { length out.old + sessions.slot_len (sessions.Start to from credits 255 service.now request) ≤ 1500 }
    ensures { out.new ≡ out.old
        ++ slot_text (formed_as (sessions.Start to from credits 255 service.now request)) }
{
    let count = 5 + service.bytes().len() as u8 + request_len(request);
    write_slot_head(out, to, from, count, SlotKind::Start, credits);
    write_start_fields(out, ATTENTION_SIZE, DATA_SIZE, service, &[]);
    write_request(out, request);
    write_slot_pad(out, count);
}

/// A setting, which gives so many credits.
pub fn write_setting(out: &mut Payload, to: u8, from: u8, credits: u8, setting: &[u8; 5])
    requires low { credits < 16 }
    requires room { length out.old + 10 ≤ 1500 }
    ensures { out.new ≡ out.old
        ++ slot_text (formed_as (sessions.DataB to from credits setting.now)) }
{
    let count = 5;
    write_slot_head(out, to, from, count, SlotKind::DataB, credits);
    out.append(setting);
    write_slot_pad(out, count);
}

/// Credits alone.
pub fn write_credits(out: &mut Payload, to: u8, from: u8, credits: u8)
    requires low { credits < 16 }
    requires room { length out.old + 4 ≤ 1500 }
    ensures { out.new ≡ out.old ++ slot_text (formed_as (sessions.DataA to from credits [])) }
{
    write_slot_head(out, to, from, 0, SlotKind::DataA, credits);
}

/// An attention.
pub fn write_attention(out: &mut Payload, to: u8, from: u8, flag: u8)
    requires { length out.old + 6 ≤ 1500 }
    ensures { out.new ≡ out.old ++ slot_text (formed_as (sessions.Attention to from flag)) }
{
    let count = 1;
    write_slot_head(out, to, from, count, SlotKind::Attention, 0);
    out.push(flag);
    write_slot_pad(out, count);
}

/// A stop, for its one reason: the user closed the session.
pub fn write_stop(out: &mut Payload, to: u8, from: u8)
    requires { length out.old + 4 ≤ 1500 }
    ensures { out.new ≡ out.old ++ slot_text (formed_as (sessions.Stop to from 1)) }
{
    write_slot_head(out, to, from, 0, SlotKind::Stop, StopReason::Closed.bits());
}
