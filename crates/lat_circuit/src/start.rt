//! The STARTs and STOPs of a circuit. They are written without taking memory.

ghost use Rattle.std.specs.Prelude.{◌≡◌, ◌+◌, ◌<◌, ◌≤◌, ◌++◌, [], ◌∷◌, length, map, false};
ghost use Rattle.lat_base.specs.Names.{IsName};
ghost use Rattle.lat_base.specs.declared.outbox.Mark.TheVariants as marks;
ghost use Rattle.lat_base.specs.Lending.{frame_of};
ghost use Rattle.lat_fields.specs.Params.{params_text};
ghost use Rattle.lat_fields.specs.Payloads.{padded};
ghost use Rattle.lat_frames.specs.Reasons.{end_bits};
ghost use Rattle.lat_frames.specs.Written.{message_text};
ghost use Rattle.lat_circuit.specs.Messages.{message_of, param_of, IsFormed};
ghost use Rattle.lat_machines.specs.values.Timing.{wide_params};
ghost use Rattle.lat_machines.specs.values.Messages.{StopMessage};
ghost use Rattle.lat_model.specs.ends.End.{CallStart, ReplyStart, Stopped};
ghost use Rattle.lat_circuit.specs.Frames.{start_message, message_sent};

use crate::circuit::{Circuit, lend};
use lat_base::{Addr, Mark, Name, OutBox, OutFrame, Payload};
use lat_fields::{write_counted, write_padding, write_param};
use lat_frames::{CircuitEnd, Limits, MessageKind, write_numbers, write_plain_head};
use lat_seq::Span;

/// The greatest frame that an end takes.
pub(crate) const FRAME_SIZE: u16 = 1500;

/// The change order of the protocol's version.
const ECO: u8 = 1;

/// The code of the parameter that says how many bytes message numbers have.
pub(crate) const SPAN: u8 = 200;

/// Its byte where they have two.
pub(crate) const WIDE: u8 = 2;

/// A START of this program: what it states beside the size, the version and what is always 0.
#[derive(Clone, Copy)]
pub(crate) struct Start {
    pub(crate) master: bool,
    /// The circuit's id at the peer, 0 where it isn't known.
    pub(crate) to: u16,
    /// The circuit's id at this end.
    pub(crate) from: u16,
    pub(crate) sessions: u8,
    pub(crate) extra: u8,
    /// In 10 ms.
    pub(crate) timer: u8,
    /// In seconds.
    pub(crate) keepalive: u8,
    /// The node's name.
    pub(crate) slave: Name,
    /// The server's name.
    pub(crate) name: Name,
    /// Whether message numbers are to have two bytes.
    pub(crate) wide: bool,
}

impl Start {
    /// Writes it into an empty payload, with zeros up to 46 bytes.
    pub(crate) fn write(&self, out: &mut Payload)
        requires { out.old ≡ [] }
        ensures text { out.new ≡ padded (message_text (message_of (start_message self.now))) }
        ensures names { IsName self.now.slave × IsName self.now.name }
    {
        write_plain_head(
            MessageKind::Start,
            self.master,
            false,
            self.to,
            self.from,
            out,
        );
        let limits = Limits {
            size: FRAME_SIZE,
            eco: ECO,
            sessions: self.sessions,
            extra: self.extra,
            timer: self.timer,
            keepalive: self.keepalive,
        };
        write_numbers(limits, 0, 0, 0, out);
        write_counted(out, self.slave.bytes());
        write_counted(out, self.name.bytes());
        write_counted(out, &[]);
        write_span(self.wide, out);
        write_padding(out);
    }
}

// The parameters of a START: the span of a wide circuit, and no other.
fn write_span(wide: bool, out: &mut Payload)
    requires { length out.old + 4 ≤ 1500 }
    ensures { out.new ≡ out.old ++ params_text (map param_of (wide_params wide)) }
{
    if wide {
        write_param(out, SPAN, &[WIDE]);
    }
    out.push(0);
}

/// Writes a STOP without text into an empty payload, with zeros up to 46 bytes.
fn write_stop(master: bool, to: u16, from: u16, reason: u8, out: &mut Payload)
    requires { out.old ≡ [] }
    ensures { out.new ≡ padded (message_text (message_of (StopMessage master false to from reason []))) }
{
    lat_frames::write_stop(master, false, to, from, reason, &[], out);
    write_padding(out);
}

/// A STOP that no circuit sends, of a master or of a slave: it goes to this address, for the circuit's id there, which isn't
/// 0, and states this id of this end, 0 where it has none. See "How a circuit ends" in docs/PROTOCOL.md.
#[tactic(auto, using(crate::proofs::Messages::stop_formed))]
pub fn stray_stop(
    master: bool,
    to: Addr,
    destination: u16,
    source: u16,
    reason: CircuitEnd,
) -> OutFrame
    ensures value { result ≡ frame_of to 0 marks.Plain (padded (message_text (message_of
        (StopMessage master false destination source (end_bits reason) [])))) }
    ensures formed { 0 < destination →
        IsFormed (StopMessage master false destination source (end_bits reason) []) }
{
    let mut payload = Payload::empty();
    write_stop(master, destination, source, reason.bits(), &mut payload);
    OutFrame {
        to,
        payload,
        circuit: 0,
        mark: Mark::Plain,
    }
}

impl Circuit {
    /// The START of a master.
    pub(crate) fn call_start(&self) -> Start
        ensures { start_message result ≡ message_sent self.now.facts CallStart }
    {
        let ids = self.link.ids();
        let timing = self.config.timing;
        Start {
            master: true,
            to: ids.to,
            from: ids.from,
            sessions: timing.sessions,
            extra: timing.extra,
            timer: timing.timer,
            keepalive: timing.keepalive,
            slave: self.config.peer_name,
            name: self.config.name,
            wide: timing.wide,
        }
    }

    /// The reply of a slave, which states no times.
    pub(crate) fn reply_start(&self) -> Start
        ensures { start_message result ≡ message_sent self.now.facts ReplyStart }
    {
        let ids = self.link.ids();
        let timing = self.config.timing;
        Start {
            master: false,
            to: ids.to,
            from: ids.from,
            sessions: timing.sessions,
            extra: timing.extra,
            timer: 0,
            keepalive: 0,
            slave: self.config.name,
            name: self.config.peer_name,
            wide: self.is_wide(),
        }
    }

    /// Writes the STOP of this end into an empty payload.
    pub(crate) fn write_stop(&self, reason: u8, out: &mut Payload)
        requires { out.old ≡ [] }
        ensures { out.new ≡ padded (message_text (message_of (message_sent self.now.facts
            (Stopped reason)))) }
    {
        let ids = self.link.ids();
        write_stop(ids.master, ids.to, ids.from, reason, out);
    }

    /// Sends a START to the peer.
    pub(crate) fn push_start(&self, start: Start, out: &mut OutBox)
        requires { length out.old < 256 }
        ensures frame { out.new
            ≡ out.old
            ++ frame_of self.now.facts.config.peer self.now.facts.id marks.Plain (padded (message_text (message_of (start_message start))))
            ∷ [] }
        ensures names { IsName start.slave × IsName start.name }
    {
        start.write(lend(out, self, Mark::Plain));
    }

    /// Whether its message numbers have two bytes.
    pub(crate) fn is_wide(&self) -> bool
        ensures { result ≡ self.now.facts.wide }
    {
        matches!(self.link.span(), Span::Word)
    }
}
